// Where a name of a directory of the system leads.
ghost use Rattle.std.specs.Prelude.{ℕ, ◌≡◌, ◌<◌, ◌≤◌, true, false, length};
ghost use Rattle.std.specs.Int.{from_be_bytes, w64};
ghost use Rattle.std.specs.Option.{option_map};
ghost use Rattle.gfs2_layout.specs.Holding.{Holding, bytes_at};
ghost use Rattle.gfs2_layout.specs.Inode.{IsInode, depth_in, dinode_in, entry, has_hash_flag, is_directory_in, is_hashed_in, records_of, table_count};
ghost use Rattle.gfs2_layout.specs.Records.{is_dots as has_dots, record_named};
ghost use Rattle.image_model.specs.Image.{Image};
ghost use Rattle.image_model.specs.Owners.{Owners};
ghost use Rattle.image_model.specs.Stands.{Layout, flat_of};
ghost use Rattle.linear_dirs.specs.Shown.{entry_of};
ghost use Rattle.hash_dirs.specs.Finding.{IsFoundBy};
ghost use Rattle.image_journals.specs.Blocks.{seen_of};
ghost use Rattle.image_journals.specs.Shown.{IfMemory, IsIndex, ShowsFrame};
ghost use Rattle.image_journals.specs.Sound.{IsDirectoryIn};

use crate::Unfound;
use crate::blocks::ImageBlocks;
use crate::leaves::{entry_in, find_along};
use crc_words::{checksums_have_32_bits, crc32};
use dinode_tree::{
    read_dinode, read_range, sound_inodes_are_shown, sound_inodes_are_whole,
    sound_inodes_break_nothing,
};
use gfs2_layout::{DINODE_LENGTH, Dinode, is_area};
use glock_names::{CallFault, Entry, Step, block_of};
use hash_dirs::{chains_tell_names, index_of};
use std::alloc::Global;

// The number that these eight bytes are.
fn number_of(bytes: &[u8]) -> u64
    requires { length bytes.now ≡ 8 }
    ensures { result ≡ from_be_bytes w64 bytes.now }
{
    let mut part = [0u8; 8];
    part.copy_from_slice(bytes);
    u64::from_be_bytes(part)
}

/// Pointer `index` of the table of a hashed directory.
pub(crate) fn pointer_at(
    alloc: Global,
    blocks: &ImageBlocks<'_>,
    dir: u64,
    index: u32,
) -> Result<u64, Unfound>
    ensures { (h : Holding) → IsDirectoryIn (seen_of blocks.now) h → h.own ≡ dir → is_hashed_in h ≡ true → index < table_count h → IfMemory result (λ p. p ≡ entry h index) }
{
    sound_inodes_are_shown();
    sound_inodes_are_whole();
    sound_inodes_break_nothing();
    let step = match read_range(alloc, blocks, dir, 8 * u64::from(index), 8) {
        Ok(step) => step,
        Err(CallFault::NoMemory) => return Err(Unfound::NoMemory),
        Err(CallFault::Damaged { block: _, rule: _ }) => return Err(Unfound::Broken),
    };
    let bytes = match step {
        Step::Is(bytes) => bytes,
        Step::NeedBlock(_) => return Err(Unfound::Broken),
    };
    if bytes.len() != 8 {
        return Err(Unfound::Broken);
    }
    Ok(number_of(&bytes))
}

// Where a name of a hashed directory leads, whose table is so deep.
fn find_hashed(
    alloc: Global,
    blocks: &ImageBlocks<'_>,
    dir: u64,
    depth: u16,
    name: &[u8],
) -> Result<Option<Entry>, Unfound>
    ensures { (h : Holding) → IsDirectoryIn (seen_of blocks.now) h → h.own ≡ dir → is_hashed_in h ≡ true → depth ≡ depth_in h
        → IfMemory result (λ found. found ≡ option_map entry_of (record_named (records_of h) name.now)) }
{
    checksums_have_32_bits();
    chains_tell_names();
    if depth > 15 {
        return Err(Unfound::Broken);
    }
    let first = pointer_at(alloc, blocks, dir, index_of(crc32(name), depth))?;
    find_along(blocks, first, name)
}

// Where a name of a linear directory leads, whose dinode's block has these bytes.
fn find_linear(bytes: &[u8], name: &[u8]) -> Result<Option<Entry>, Unfound>
    requires least { 512 ≤ length bytes.now }
    requires most { length bytes.now ≤ 4096 }
    ensures { (h : Holding) → IsInode h → is_directory_in h ≡ true → is_hashed_in h ≡ false → bytes.now ≡ bytes_at h h.own
        → IfMemory result (λ found. found ≡ option_map entry_of (record_named (records_of h) name.now)) }
{
    let area = &bytes[DINODE_LENGTH..];
    if !is_area(area) {
        return Err(Unfound::Broken);
    }
    Ok(entry_in(area, name))
}

/// Whether a directory's dinode says that it is a hashed one.
pub(crate) fn is_hashed(dinode: &Dinode) -> bool
    ensures { result ≡ has_hash_flag dinode.now }
{
    dinode.flags / 2 % 2 == 1
}

// Where a name of a directory leads, by its dinode, whose block has these bytes.
fn find(
    alloc: Global,
    blocks: &ImageBlocks<'_>,
    dir: u64,
    dinode: &Dinode,
    bytes: &[u8],
    name: &[u8],
) -> Result<Option<Entry>, Unfound>
    requires least { 512 ≤ length bytes.now }
    requires most { length bytes.now ≤ 4096 }
    ensures { (h : Holding) → IsDirectoryIn (seen_of blocks.now) h → h.own ≡ dir → dinode.now ≡ dinode_in h → bytes.now ≡ bytes_at h h.own
        → IfMemory result (λ found. found ≡ option_map entry_of (record_named (records_of h) name.now)) }
{
    if is_hashed(dinode) {
        return find_hashed(alloc, blocks, dir, dinode.depth, name);
    }
    find_linear(bytes, name)
}

/// The block of the dinode to which a name of the directory with its dinode in this block leads; None where it has no such name. Of a linear directory it goes over its
/// records up to that one; of a hashed one over the leaves of the name's chain. Memory for a pointer.
pub(crate) fn look(
    alloc: Global,
    blocks: &ImageBlocks<'_>,
    dir: u64,
    name: &[u8],
) -> Result<Option<u64>, Unfound>
    ensures { (r : Image) (o : Owners) (l : Layout) → ShowsFrame (seen_of blocks.now) r o l → IsIndex l dir → has_dots name.now ≡ false
        → IfMemory result (λ found. found ≡ (flat_of r o dir).child name.now) }
{
    sound_inodes_are_shown();
    sound_inodes_break_nothing();
    let step = match read_dinode(blocks, dir) {
        Ok(step) => step,
        Err(_) => return Err(Unfound::Broken),
    };
    let dinode = match step {
        Step::Is(dinode) => dinode,
        Step::NeedBlock(_) => return Err(Unfound::Broken),
    };
    let Some(bytes) = block_of(blocks, dir) else {
        return Err(Unfound::Broken);
    };
    if !dinode.is_directory() {
        return Ok(None);
    }
    let found = find(alloc, blocks, dir, &dinode, bytes, name)?;
    match found {
        Some(entry) => Ok(Some(entry.addr)),
        None => Ok(None),
    }
}
