// The bytes of blocks that an insertion writes.
ghost use Rattle.std.specs.Prelude.{◌≡◌, ◌⊎◌, ◌+◌, ◌-◌, ◌^◌, ◌≤◌, [], ◌∷◌, true, length, drop, replicate, Ok, Some, IfOk, IfSome, IfNone};
ghost use Rattle.gfs2_layout.specs.Area.{IsArea};
ghost use Rattle.gfs2_layout.specs.Inode.{leaf_length};
ghost use Rattle.gfs2_layout.specs.Putting.{IsEntryOf};
ghost use Rattle.gfs2_layout.specs.Structures.{dinode_of, leaf_of, leaf_read};
ghost use Rattle.leaf_areas.specs.Moving.{unused};
ghost use Rattle.hash_inserts.specs.Writing.{CanCount, CanTake, IsDinodeWritten, IsHalved, IsLeafBlock, IsLeafFilled, IsLeafWritten, IsLinked, counting};

use gfs2_layout::{Dinode, Dirent, Leaf, is_area, put_record};
use hash_steps::IN_LEAF;
use leaf_areas::{clear_area, split_area};
use no_memory::NoMemory;
use std::alloc::Global;

// Puts a record into a leaf that is known to have this head.
fn fill(bytes: &mut [u8], leaf: &Leaf, entry: &Dirent, name: &[u8]) -> bool
    requires long { leaf_length ≤ length bytes.old }
    requires area { IsArea (drop leaf_length bytes.old) }
    requires entry { IsEntryOf entry.now name.now }
    requires head { leaf_read bytes.old ≡ Ok leaf.now }
    ensures { CanTake bytes.old (length name.now) → (result ≡ true) × IsLeafFilled bytes.old bytes.new entry.now name.now }
{
    let Some(entries) = leaf.entries.checked_add(1) else {
        return false;
    };
    if !put_record(&mut bytes[IN_LEAF..], entry, name) {
        return false;
    }
    let counted = Leaf { entries, ..*leaf };
    counted.write(bytes);
    true
}

/// Puts a record of this name into a leaf's block, into the first one that has room for it, and counts it in the head; and tells whether
/// that was done: where the bytes are those of a leaf that can take it, it is.
pub(crate) fn fill_leaf(bytes: &mut [u8], entry: &Dirent, name: &[u8]) -> bool
    requires entry { IsEntryOf entry.now name.now }
    ensures { CanTake bytes.old (length name.now) → (result ≡ true) × IsLeafFilled bytes.old bytes.new entry.now name.now }
{
    let Ok(leaf) = Leaf::read(bytes) else {
        return false;
    };
    if !is_area(&bytes[IN_LEAF..]) {
        return false;
    }
    fill(bytes, &leaf, entry, name)
}

// The dinode that counts so many more records, links and blocks, if it can.
fn counted(dinode: &Dinode, records: u32, links: u32, blocks: u64) -> Option<Dinode>
    ensures some { IfSome result (λ more. more ≡ counting dinode.now records links blocks) }
    ensures none { IfNone result ((2 ^ 32 ≤ dinode.now.entries + records) ⊎ (2 ^ 32 ≤ dinode.now.nlink + links) ⊎ (2 ^ 64 ≤ dinode.now.blocks + blocks)) }
{
    let entries = dinode.entries.checked_add(records)?;
    let nlink = dinode.nlink.checked_add(links)?;
    let blocks = dinode.blocks.checked_add(blocks)?;
    Some(Dinode {
        entries,
        nlink,
        blocks,
        ..*dinode
    })
}

/// Counts so many more records, links and blocks in the dinode of a block; and tells whether that was done: where the block has a dinode
/// that can, it is.
pub(crate) fn count_more(bytes: &mut [u8], records: u32, links: u32, blocks: u64) -> bool
    ensures { CanCount bytes.old records links blocks → (result ≡ true) × IsDinodeWritten bytes.old bytes.new (counting (dinode_of bytes.old) records links blocks) }
{
    let Ok(dinode) = Dinode::read(bytes) else {
        return false;
    };
    let Some(more) = counted(&dinode, records, links, blocks) else {
        return false;
    };
    more.write(bytes);
    true
}

/// Makes of zeros a leaf's block without records, of this depth.
pub(crate) fn begin_leaf(bytes: &mut [u8], depth: u16)
    requires long { 512 ≤ length bytes.old }
    requires short { length bytes.old ≤ 4096 }
    ensures { IsLeafWritten bytes.old bytes.new (record { depth = depth; entries = 0; next = 0 }) (unused (length bytes.old - leaf_length) ∷ []) }
{
    clear_area(&mut bytes[IN_LEAF..]);
    let head = Leaf {
        depth,
        entries: 0,
        next: 0,
    };
    head.write(bytes);
}

/// A new leaf's block without records, of this depth.
pub(crate) fn empty_leaf(alloc: Global, size: usize, depth: u16) -> Result<Vec<u8>, NoMemory>
    requires least { 512 ≤ size }
    requires most { size ≤ 4096 }
    ensures { IfOk result (λ leaf. IsLeafWritten (replicate size 0) leaf.items (record { depth = depth; entries = 0; next = 0 }) (unused (size - leaf_length) ∷ [])) }
{
    let mut bytes = vec![in alloc; 0u8; size]?;
    begin_leaf(&mut bytes, depth);
    Ok(bytes)
}

/// Makes a leaf's block lead on to another leaf; and tells whether that was done: where the bytes are those of a leaf, it is.
pub(crate) fn link_leaf(bytes: &mut [u8], next: u64) -> bool
    ensures { IsLeafBlock bytes.old → (result ≡ true) × IsLinked bytes.old bytes.new next }
{
    let Ok(leaf) = Leaf::read(bytes) else {
        return false;
    };
    let linked = Leaf { next, ..leaf };
    linked.write(bytes);
    true
}

// Splits the records of a leaf's block of this depth: those of the lower half go into the new block, of zeros before, and both heads are
// written.
fn halve_leaf(old: &mut [u8], new: &mut [u8], depth: u16)
    requires block { IsLeafBlock old.old }
    requires least { 512 ≤ length old.old }
    requires zeros { new.old ≡ replicate (length old.old) 0 }
    requires low { depth ≤ 31 }
    ensures { IsHalved old.old old.new new.new depth }
{
    let halves = split_area(&mut old[IN_LEAF..], &mut new[IN_LEAF..], depth);
    let lower = Leaf {
        depth: depth + 1,
        entries: halves.lower,
        next: 0,
    };
    lower.write(new);
    let upper = Leaf {
        depth: depth + 1,
        entries: halves.upper,
        next: 0,
    };
    upper.write(old);
}

/// Splits the records of a leaf's block of this depth: those of the lower half go into a new block.
pub(crate) fn halved(alloc: Global, old: &mut [u8], depth: u16) -> Result<Vec<u8>, NoMemory>
    requires block { IsLeafBlock old.old }
    requires least { 512 ≤ length old.old }
    requires low { depth ≤ 31 }
    ensures { IfOk result (λ lower. IsHalved old.old old.new lower.items depth) }
{
    let mut bytes = vec![in alloc; 0u8; old.len()]?;
    halve_leaf(old, &mut bytes, depth);
    Ok(bytes)
}

/// The head of a leaf's block, whose records fill it; None where the bytes aren't those of one.
pub(crate) fn head_of(bytes: &[u8]) -> Option<Leaf>
    ensures some { IfSome result (λ leaf. leaf ≡ leaf_of bytes.now) }
    ensures block { IfSome result (λ leaf. length bytes.now ≤ 4096 → IsLeafBlock bytes.now) }
    ensures is { IsLeafBlock bytes.now → result ≡ Some (leaf_of bytes.now) }
{
    let Ok(leaf) = Leaf::read(bytes) else {
        return None;
    };
    if !is_area(&bytes[IN_LEAF..]) {
        return None;
    }
    Some(leaf)
}
