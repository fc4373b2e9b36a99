ghost use Rattle.std.specs.Prelude.{ℕ, ◌≡◌, ◌+◌, ◌-◌, ◌*◌, ◌/◌, ◌%◌, ◌^◌, ◌<◌, ◌≤◌, ◌↔◌, min, true, false, length, map, Contains, IsTrue, IfOk, IfErr, OnOk};
ghost use Rattle.std.specs.List.{All};
ghost use Rattle.gfs2_layout.specs.Inode.{dinode_in, content_of};
ghost use Rattle.gfs2_layout.specs.declared.rindex.Rindex.{Rindex as RindexValue};
ghost use Rattle.gfs2_layout.specs.Structures.{rindex_of};
ghost use Rattle.image_model.specs.Claims.{every, Claims};
ghost use Rattle.image_model.specs.Groups.{GroupFits, GroupsFit, IsDataOf, end_of as first_behind, groups_in};
ghost use Rattle.image_model.specs.Image.{Image};
ghost use Rattle.image_model.specs.Listing.{RiseFrom};
ghost use Rattle.image_model.specs.Owners.{Owner, is_dinode};
ghost use Rattle.image_model.specs.Profile.{group_length};
ghost use Rattle.image_model.specs.Stands.{Layout};
ghost use Rattle.dinode_tree.specs.Reading.{IsRightDinode};
ghost use Rattle.image_mount.specs.Found.{HasFormat, HasMaster, IsReached};
ghost use Rattle.image_mount.specs.Groups.{IsListLink, IsListOf, AreGroups};
ghost use Rattle.image_mount.specs.Listing.{HasKeptDinode};
ghost use Rattle.image_mount.specs.Looks.{HasHeadedContent, IsSized, IsTrueEntry};
ghost use Rattle.glock_names.specs.Views.{IsView};
ghost use Rattle.image_mount.specs.Kept.{seen_of};
ghost use Rattle.image_mount.specs.Marked.{HasKeptContent, IsKept};
ghost use Rattle.image_mount.specs.Refusals.{RefusesRightly};
ghost use Rattle.image_mount.specs.Searching.{IsRead, IsSteady, IsListingFile, StopsRightly, LacksBlock};
ghost use Rattle.profile_limits.specs.Limits.{most_blocks, most_group_blocks, most_groups};

use crate::fault::MountFault;
use crate::field::Field;
use crate::inodes::Inode;
use crate::kept_blocks::KeptBlocks;
use crate::listing::Link;
use crate::stop::{Stop, damaged, outside, reads};
use dinode_tree::read_range;
use gfs2_layout::{Rindex, superblock_block};
use glock_names::{Step, View};
use std::alloc::Global;

// How many bytes an entry of the list of groups has.
const ENTRY: usize = 96;

/// A device: how many bytes a block has, and how many blocks there are.
#[derive(Clone, Copy)]
pub(crate) struct Device {
    pub size: u32,
    pub count: u64,
    ghost least: { 512 ≤ size },
    ghost most: { size ≤ 4096 },
}

// The first block behind a group's data blocks, or the greatest number where it is more.
fn end_of(group: &Rindex) -> u64
    ensures { result ≡ min (first_behind group.now) (2 ^ 64 - 1) }
{
    group.data0.saturating_add(u64::from(group.data_blocks))
}

/// Whether the block is a data block of one of the groups.
pub(crate) fn is_data(groups: &[Rindex], block: u64) -> bool
    requires { block + 1 < 2 ^ 64 }
    ensures inside { result ≡ true → (g : RindexValue) × Contains groups.now g × IsDataOf g block }
    ensures outside { result ≡ false → All (λ g. ¬ (IsDataOf g block)) groups.now }
{
    for group in groups {
        if group.data0 <= block && block < end_of(group) {
            return true;
        }
    }
    false
}

// Whether a group lies on the device, above the superblock, and its bitmap has bits for its data blocks.
fn fits(device: &Device, group: &Rindex) -> bool
    ensures { (im : Image) → device.now.size ≡ im.size → device.now.count ≡ im.count → im.count ≤ most_blocks → IsTrue result ↔ GroupFits im group.now }
{
    let size = u64::from(device.size);
    if group.address <= superblock_block(device.size) || group.length == 0 {
        return false;
    }
    if group.data0 != group.address.saturating_add(u64::from(group.length)) {
        return false;
    }
    if end_of(group) > device.count {
        return false;
    }
    let blocks = u64::from(group.data_blocks);
    let more = u64::from(group.length) - 1;
    let room = 4 * (size - 128 + more * (size - 24));
    u64::from(group.bitbytes) * 4 == blocks && blocks <= room
}

// An entry of the list.
fn read_entry(entry: &[u8]) -> Rindex
    requires { length entry.now ≡ 96 }
    ensures { result ≡ rindex_of entry.now }
{
    let Ok(group) = Rindex::read(entry) else {
        unreachable!()
    };
    group
}

// The whole entries of the list.
fn read_entries(alloc: Global, content: &[u8]) -> Result<Vec<Rindex>, MountFault>
    ensures found { IfOk result (λ groups. groups.items ≡ groups_in content.now) }
    ensures most { IfOk result (λ groups. length groups.items * 96 ≤ length content.now) }
    ensures memory { IfErr result (λ fault. fault ≡ MountFault.NoMemory) }
{
    let mut groups = Vec::new(alloc);
    let mut rest = content;
    while rest.len() >= ENTRY {
        let (entry, behind) = rest.split_at(ENTRY);
        groups.push(read_entry(entry))?;
        rest = behind;
    }
    Ok(groups)
}

// That the groups fit, and rise without overlapping.
fn check_rise(device: &Device, groups: &[Rindex], list: u64) -> Result<(), MountFault>
    ensures rise { (im : Image) → IsListOf im device.now.size device.now.count list groups.now → OnOk result (RiseFrom im 0 groups.now) }
    ensures refused { (im : Image) → IsListOf im device.now.size device.now.count list groups.now → IfErr result (RefusesRightly im) }
    ensures steady { IfErr result IsSteady }
{
    let mut end = 0;
    for group in groups {
        if !fits(device, group) {
            return Err(damaged(list, 18));
        }
        if group.address < end {
            return Err(damaged(list, 18));
        }
        end = end_of(group);
    }
    Ok(())
}

// That each block above the superblock is near a group: at most three behind each belong to nobody.
fn check_cover(device: &Device, groups: &[Rindex]) -> Result<(), MountFault>
    ensures fit { (im : Image) (list : ℕ) → IsListOf im device.now.size device.now.count list groups.now → RiseFrom im 0 groups.now → OnOk result (GroupsFit im groups.now) }
    ensures refused { (im : Image) (list : ℕ) → IsListOf im device.now.size device.now.count list groups.now → RiseFrom im 0 groups.now → 1 ≤ length groups.now → length groups.now ≤ most_groups → IfErr result (RefusesRightly im) }
    ensures steady { IfErr result IsSteady }
{
    let mut bare = superblock_block(device.size) + 1;
    for group in groups {
        if bare < group.address {
            return Err(damaged(bare, 18));
        }
        bare = end_of(group).saturating_add(3);
    }
    if bare < device.count {
        return Err(damaged(bare, 18));
    }
    Ok(())
}

// How many blocks the headers and bitmaps of at most 64 groups have.
fn count_headers(groups: &[Rindex]) -> u64
    requires { length groups.now ≤ most_groups }
    ensures { result ≡ group_length groups.now }
{
    let mut count = 0;
    for group in groups {
        count += u64::from(group.length);
    }
    count
}

// That the groups fit the device and the profile. The dinode of their list is in block `list`.
fn check_groups(device: &Device, groups: &[Rindex], list: u64) -> Result<(), MountFault>
    requires { length groups.now ≤ most_groups }
    ensures fit { (im : Image) → IsListOf im device.now.size device.now.count list groups.now → OnOk result (GroupsFit im groups.now) }
    ensures short { OnOk result (group_length groups.now ≤ most_group_blocks) }
    ensures refused { (im : Image) → IsListOf im device.now.size device.now.count list groups.now → 1 ≤ length groups.now → IfErr result (RefusesRightly im) }
    ensures steady { IfErr result IsSteady }
{
    check_rise(device, groups, list)?;
    check_cover(device, groups)?;
    let headers = count_headers(groups);
    if headers > 128 {
        return Err(outside(Field::GroupBlocks, headers));
    }
    Ok(())
}

// How many bytes the list has, which has one to 64 whole entries.
fn list_length(inode: &Inode, size: u32) -> Result<u32, MountFault>
    requires size { 512 ≤ size }
    requires most { size ≤ 4096 }
    ensures value { IfOk result (λ bytes. bytes ≡ inode.now.dinode.size) }
    ensures whole { OnOk result (inode.now.dinode.size % 96 ≡ 0) }
    ensures least { IfOk result (λ bytes. 96 ≤ bytes) }
    ensures short { IfOk result (λ bytes. bytes ≤ 6144) }
    ensures sized { (im : Image) → inode.now.dinode ≡ dinode_in (every im inode.now.block) → size ≡ im.size → OnOk result (IsSized im inode.now.block) }
    ensures refused { (im : Image) (l : Layout) → HasMaster im l → IsReached im inode.now.block → l.rindex ≡ inode.now.block → inode.now.dinode ≡ dinode_in (every im inode.now.block) → size ≡ im.size → IsRightDinode (every im inode.now.block) → IfErr result (RefusesRightly im) }
    ensures steady { IfErr result IsSteady }
{
    let bytes = inode.dinode.size;
    if bytes % ENTRY as u64 != 0 {
        return Err(damaged(inode.block, 18));
    }
    let count = bytes / ENTRY as u64;
    if count == 0 || count > 64 {
        return Err(outside(Field::Groups, count));
    }
    if inode.dinode.is_directory() {
        inode.check_directory(size)?;
    }
    Ok(bytes as u32)
}

/// The content of the list of groups or of the master directory, which has so many bytes.
pub(crate) fn read_whole(
    alloc: Global,
    table: &KeptBlocks,
    inode: &Inode,
    bytes: u32,
) -> Result<Vec<u8>, Stop>
    ensures found { (im : Image) → IsRead im table.now → (dinode_in (every im inode.now.block)).size ≡ bytes → IfOk result (λ content. content.items ≡ content_of (every im inode.now.block)) }
    ensures length { (im : Image) → IsRead im table.now → (dinode_in (every im inode.now.block)).size ≡ bytes → IfOk result (λ content. length content.items ≡ bytes) }
    ensures whole { HasKeptDinode table.now inode.now → inode.now.dinode.size ≡ bytes → IfOk result (λ content. length content.items ≡ bytes) }
    ensures most { IfOk result (λ content. length content.items ≤ bytes) }
    ensures headed { (im : Image) → IsRead im table.now → (dinode_in (every im inode.now.block)).size ≡ bytes → OnOk result (HasHeadedContent im inode.now.block) }
    ensures kept { (im : Image) → IsRead im table.now → IsView (seen_of table.now) → (dinode_in (every im inode.now.block)).size ≡ bytes → OnOk result (HasKeptContent table.now (every im inode.now.block)) }
    ensures stops { (im : Image) (o : Owner) → IsRead im table.now → Claims im inode.now.from inode.now.block o → is_dinode o ≡ true → HasFormat im → IsReached im inode.now.from → IsListingFile im inode.now.block → IfErr result (StopsRightly im) }
    ensures lacks { IfErr result (LacksBlock table.now) }
{
    // The dinode is kept, and what is missing is a block below it.
    table.get(inode.block, inode.from)?;
    match read_range(alloc, table, inode.block, 0, bytes)? {
        Step::Is(content) => Ok(content),
        Step::NeedBlock(missing) => Err(reads(&missing)),
    }
}

/// The groups that are listed in the file `rindex`, to which a record of the master directory leads, on a device of so
/// many blocks.
pub(crate) fn list_groups(
    alloc: Global,
    table: &KeptBlocks,
    count: u64,
    rindex: &Link,
) -> Result<Vec<Rindex>, Stop>
    ensures found { (im : Image) → IsRead im table.now → count ≡ im.count → IsListLink im rindex.now → IfOk result (λ groups. AreGroups im rindex.now.entry.addr groups.items) }
    ensures length { IfOk result (λ groups. length groups.items ≤ most_groups) }
    ensures repeats { (im : Image) → IsRead im table.now → OnOk result (IsTrueEntry im rindex.now.entry) }
    ensures there { OnOk result (IsKept table.now rindex.now.entry.addr) }
    ensures kept { (im : Image) → IsRead im table.now → OnOk result (HasKeptContent table.now (every im rindex.now.entry.addr)) }
    ensures stops { (im : Image) → IsRead im table.now → count ≡ im.count → IsListLink im rindex.now → IfErr result (StopsRightly im) }
    ensures lacks { IfErr result (LacksBlock table.now) }
{
    let size = table.block_size();
    let inode = Inode::read(table, rindex.from, rindex.entry.addr)?;
    inode.check_record(&rindex.entry)?;
    let bytes = list_length(&inode, size)?;
    let content = read_whole(alloc, table, &inode, bytes)?;
    let groups = read_entries(alloc, &content)?;
    check_groups(&Device { size, count }, &groups, inode.block)?;
    Ok(groups)
}
