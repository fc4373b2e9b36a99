ghost use Rattle.image_model.specs.Rules.{HasSoundGroup, IsSoundList, IsWholeList};
ghost use Rattle.std.specs.Prelude.{◌≡◌, ◌+◌, ◌-◌, ◌*◌, ◌/◌, ◌^◌, ◌<◌, ◌≤◌, ◌↔◌, ◌++◌, ◌∷◌, List, min, drop, false, length, vec_len, IsTrue, IfOk, IfErr, OnOk};
ghost use Rattle.std.specs.List.{All};
ghost use Rattle.image_reader.specs.Bitmaps.{header_of, bits_in, AreAllClaims, Repeats};
ghost use Rattle.gfs2_layout.specs.Inode.{content_of};
ghost use Rattle.gfs2_layout.specs.Structures.{rindex_of};
ghost use Rattle.gfs2_layout.specs.declared.rindex.Rindex.{Rindex as IndexEntry};
ghost use Rattle.image_model.specs.Claims.{every, IsRindex};
ghost use Rattle.image_model.specs.Listing.{RiseFrom, end_after};
ghost use Rattle.gfs2_layout.specs.Groups.{count_of};
ghost use Rattle.image_model.specs.Groups.{groups_in, GroupFits, IsListed, IsDataOf, end_of as first_behind};
ghost use Rattle.image_reader.specs.Reading.{image_at, states_of, IsTrueOf};

use crate::blocks::Blocks;
use crate::image::{ImageFault, damaged};
use crate::owners::{Owners, state_of};
use gfs2_layout::{GroupHeader, Rindex, state_at};
use std::alloc::Global;

// How many bytes an entry of the list of groups has, and where the bits begin in a group's first block and in
// each further one.
const ENTRY: usize = 96;

const IN_HEADER: usize = 128;

const IN_BITMAP: usize = 24;

// The first block behind a group's data blocks, or the greatest number where it is more.
fn end_of(group: &Rindex) -> u64
    ensures { result ≡ min (first_behind group.now) (2 ^ 64 - 1) }
{
    group.data0.saturating_add(u64::from(group.data_blocks))
}

/// Whether the block is a data block of one of the groups.
pub(crate) fn is_data(groups: &[Rindex], block: u64) -> bool
    requires { block + 1 < 2 ^ 64 }
    ensures { result ≡ false → All (λ g. ¬ (IsDataOf g block)) groups.now }
{
    for group in groups {
        if group.data0 <= block && block < end_of(group) {
            return true;
        }
    }
    false
}

// Whether a group lies on the device, above the superblock, and its bitmap has bits for its data blocks.
fn fits(image: &Blocks<'_>, group: &Rindex) -> bool
    ensures { IsTrue result ↔ GroupFits (image_at image.now) group.now }
{
    let size = image.size as u64;
    if group.address <= image.superblock_place() || group.length == 0 {
        return false;
    }
    if group.data0 != group.address.saturating_add(u64::from(group.length)) {
        return false;
    }
    if end_of(group) > image.count {
        return false;
    }
    let blocks = u64::from(group.data_blocks);
    let more = u64::from(group.length) - 1;
    let room = 4 * (size - 128 + more * (size - 24));
    u64::from(group.bitbytes) * 4 == blocks && blocks <= room
}

// The group of the first entry, which fits and begins no earlier than the one before it ends.
fn next_group(image: &Blocks<'_>, by: u64, entry: &[u8], end: u64) -> Result<Rindex, ImageFault>
    requires rindex { IsRindex (image_at image.now) by }
    requires inside { by < image.now.count }
    requires entry { length entry.now ≡ 96 }
    requires there { (groups : List IndexEntry) × ((more : List IndexEntry) × (groups_in (content_of (every (image_at image.now) by)) ≡ groups ++ (rindex_of entry.now ∷ more)) × (end_after 0 groups ≡ end)) }
    ensures group { IfOk result (λ group. group ≡ rindex_of entry.now) }
    ensures fits { IfOk result (λ group. GroupFits (image_at image.now) group) }
    ensures low { IfOk result (λ group. end ≤ group.address) }
    ensures damaged { IfErr result (IsTrueOf (image_at image.now)) }
{
    let Ok(group) = Rindex::read(entry) else {
        unreachable!()
    };
    if !fits(image, &group) {
        return Err(damaged(by, 18));
    }
    if group.address < end {
        return Err(damaged(by, 18));
    }
    Ok(group)
}

/// The groups in the content of the list of groups, which are whole entries and whose dinode is in block `by`: they
/// fit, and rise without overlapping.
pub(crate) fn list_groups(
    alloc: Global,
    image: &Blocks<'_>,
    by: u64,
    content: &[u8],
) -> Result<Vec<Rindex>, ImageFault>
    requires rindex { IsRindex (image_at image.now) by }
    requires inside { by < image.now.count }
    requires content { content.now ≡ content_of (every (image_at image.now) by) }
    ensures listed { IfOk result (λ groups. groups.items ≡ groups_in content.now) }
    ensures rise { IfOk result (λ groups. RiseFrom (image_at image.now) 0 groups.items) }
    ensures damaged { IfErr result (IsTrueOf (image_at image.now)) }
{
    let mut groups = Vec::new(alloc);
    let mut end = 0;
    let mut rest = content;
    while rest.len() >= ENTRY {
        let (entry, behind) = rest.split_at(ENTRY);
        let group = next_group(image, by, entry, end)?;
        end = end_of(&group);
        groups.push(group)?;
        rest = behind;
    }
    Ok(groups)
}

/// That each block above the superblock is near a group, so that the list is whole: at most three behind each belong to nobody.
pub(crate) fn check_cover(image: &Blocks<'_>, groups: &[Rindex]) -> Result<(), ImageFault>
    requires rise { RiseFrom (image_at image.now) 0 groups.now }
    requires list { IsSoundList (image_at image.now) groups.now }
    ensures whole { OnOk result (IsWholeList (image_at image.now) groups.now) }
    ensures damaged { IfErr result (IsTrueOf (image_at image.now)) }
{
    let mut bare = image.superblock_place() + 1;
    for group in groups {
        if bare < group.address {
            return Err(damaged(bare, 18));
        }
        bare = end_of(group).saturating_add(3);
    }
    if bare < image.count {
        return Err(damaged(bare, 18));
    }
    Ok(())
}

// Whether a header repeats the entry.
fn repeats(header: &GroupHeader, group: &Rindex) -> bool
    ensures { IsTrue result ↔ Repeats header.now group.now }
{
    header.data0 == group.data0
        && header.data_blocks == group.data_blocks
        && header.bitbytes == group.bitbytes
}

// A group's header, in its first block, which repeats the entry.
fn check_header(image: &Blocks<'_>, group: &Rindex) -> Result<GroupHeader, ImageFault>
    requires fits { GroupFits (image_at image.now) group.now }
    requires listed { HasSoundGroup (image_at image.now) group.now }
    ensures header { IfOk result (λ header. header ≡ header_of (image_at image.now) group.now) }
    ensures damaged { IfErr result (IsTrueOf (image_at image.now)) }
{
    let Some(block) = image.get(group.address) else {
        unreachable!()
    };
    if !block.has_header(2, 200) {
        return Err(damaged(group.address, 1));
    }
    let Ok(header) = GroupHeader::read(block.bytes()) else {
        return Err(damaged(group.address, 1));
    };
    if !repeats(&header, group) {
        return Err(damaged(group.address, 4));
    }
    Ok(header)
}

// Adds the bits in a group's block k, which is not its first.
fn add_bits(
    image: &Blocks<'_>,
    group: &Rindex,
    k: u64,
    bits: &mut Vec<u8>,
) -> Result<(), ImageFault>
    requires fits { GroupFits (image_at image.now) group.now }
    requires listed { HasSoundGroup (image_at image.now) group.now }
    requires some { 0 < k }
    requires within { k < group.now.length }
    ensures bits { OnOk result (bits.new.items ≡ bits.old.items ++ drop 24 ((image_at image.now).at (group.now.address + k))) }
    ensures length { OnOk result (length bits.new.items ≡ length bits.old.items + (image.now.size - 24)) }
    ensures damaged { IfErr result (IsTrueOf (image_at image.now)) }
{
    let number = group.address.saturating_add(k);
    let Some(block) = image.get(number) else {
        unreachable!()
    };
    if !block.has_header(3, 300) {
        return Err(damaged(number, 1));
    }
    bits.extend_from_slice(&block.bytes()[IN_BITMAP..])?;
    Ok(())
}

// The bits of a group, whose further blocks have their headers.
fn read_bitmap(alloc: Global, image: &Blocks<'_>, group: &Rindex) -> Result<Vec<u8>, ImageFault>
    requires fits { GroupFits (image_at image.now) group.now }
    requires listed { HasSoundGroup (image_at image.now) group.now }
    ensures bits { IfOk result (λ bits. bits.items ≡ bits_in (image_at image.now) group.now group.now.length) }
    ensures length { IfOk result (λ bits. length bits.items ≡ image.now.size - 128 + (group.now.length - 1) * (image.now.size - 24)) }
    ensures damaged { IfErr result (IsTrueOf (image_at image.now)) }
{
    let Some(first) = image.get(group.address) else {
        unreachable!()
    };
    let mut bits = Vec::from_slice(alloc, &first.bytes()[IN_HEADER..])?;
    for k in 1..u64::from(group.length) {
        add_bits(image, group, k, &mut bits)?;
    }
    Ok(bits)
}

// That the bits of the data blocks are the states by their owners.
fn check_bits(
    image: &Blocks<'_>,
    owners: &Owners<'_>,
    group: &Rindex,
    bits: &[u8],
) -> Result<(), ImageFault>
    requires fits { GroupFits (image_at image.now) group.now }
    requires listed { HasSoundGroup (image_at image.now) group.now }
    requires owners { vec_len owners.now.entries ≡ image.now.count }
    requires claims { AreAllClaims (image_at image.now) owners.now.entries.items }
    requires length { group.now.data_blocks ≤ 4 * length bits.now }
    requires bits { bits.now ≡ bits_in (image_at image.now) group.now group.now.length }
    ensures damaged { IfErr result (IsTrueOf (image_at image.now)) }
{
    for n in 0..group.data_blocks {
        let block = group.data0 + u64::from(n);
        if state_at(bits, n) != state_of(&owners.entries[block as usize]) {
            return Err(damaged(block, 5));
        }
    }
    Ok(())
}

// How many of the first `most` blocks have this state.
#[tactic(auto, using(crate::proofs::States::states_more))]
fn count_states(bits: &[u8], most: u32, state: u8) -> u32
    requires { most ≤ 4 * length bits.now }
    ensures { result ≡ count_of state (states_of bits.now most) }
{
    let mut count = 0;
    for n in 0..most {
        count += u32::from(state_at(bits, n) == state);
    }
    count
}

// That a group has its headers, and that its bits and counts are those of the owners.
fn check_group(
    alloc: Global,
    image: &Blocks<'_>,
    owners: &Owners<'_>,
    group: &Rindex,
) -> Result<(), ImageFault>
    requires fits { GroupFits (image_at image.now) group.now }
    requires listed { HasSoundGroup (image_at image.now) group.now }
    requires owners { vec_len owners.now.entries ≡ image.now.count }
    requires claims { AreAllClaims (image_at image.now) owners.now.entries.items }
    ensures damaged { IfErr result (IsTrueOf (image_at image.now)) }
{
    let header = check_header(image, group)?;
    let bits = read_bitmap(alloc, image, group)?;
    check_bits(image, owners, group, &bits)?;
    if header.free != count_states(&bits, group.data_blocks, 0) {
        return Err(damaged(group.address, 6));
    }
    if header.dinodes != count_states(&bits, group.data_blocks, 3) {
        return Err(damaged(group.address, 6));
    }
    Ok(())
}

/// That each group has its headers, and that its bits and counts are those of the owners. It goes over each
/// group's blocks once, and takes memory for the bits of one group.
pub(crate) fn check_groups(
    alloc: Global,
    image: &Blocks<'_>,
    owners: &Owners<'_>,
    groups: &[Rindex],
) -> Result<(), ImageFault>
    requires fit { All (GroupFits (image_at image.now)) groups.now }
    requires listed { All (HasSoundGroup (image_at image.now)) groups.now }
    requires owners { vec_len owners.now.entries ≡ image.now.count }
    requires claims { AreAllClaims (image_at image.now) owners.now.entries.items }
    ensures damaged { IfErr result (IsTrueOf (image_at image.now)) }
{
    for group in groups {
        check_group(alloc, image, owners, group)?;
    }
    Ok(())
}
