// Blocks of a directory that are changed in a draft.
ghost use Rattle.std.specs.Prelude.{ℕ, List, ◌≡◌, ◌-◌, ◌≤◌, [], ◌∷◌, false, true, Some, IfOk, OnOk, length, replicate};
ghost use Rattle.std.specs.FinMap.{insert as with_fate};
ghost use Rattle.drafts.specs.declared.fate.Fate.TheVariants.{Put};
ghost use Rattle.drafts.specs.Fates.{seen_in};
ghost use Rattle.gfs2_layout.specs.Device.{IsBlockSize};
ghost use Rattle.gfs2_layout.specs.Inode.{leaf_length};
ghost use Rattle.leaf_areas.specs.Moving.{unused};
ghost use Rattle.gfs2_layout.specs.Putting.{IsEntryOf};
ghost use Rattle.gfs2_layout.specs.Structures.{dinode_of, leaf_of};
ghost use Rattle.dinode_tree.specs.Reading.{inode_lock};
ghost use Rattle.hash_inserts.specs.Writing.{CanCount, CanTake, IsDinodeWritten, IsHalved, IsLeafBlock, IsLeafFilled, IsLeafWritten, IsLinked, counting};

use crate::writing::{count_more, empty_leaf, fill_leaf, halved, head_of, link_leaf};
use drafts::Draft;
use gfs2_layout::Dirent;
use glock_names::{View, block_of};
use linear_dirs::lock_of;
use no_memory::NoMemory;
use std::alloc::Global;

/// Puts a record of this name into a leaf in the draft, and counts it in the leaf's head; and tells whether that was done. It costs two
/// copies of the block.
pub(crate) fn fill_in<V: View>(
    draft: &mut Draft<'_, V>,
    dir: u64,
    leaf: u64,
    entry: &Dirent,
    name: &[u8],
) -> Result<bool, NoMemory>
    requires entry { IsEntryOf entry.now name.now }
    ensures put { (bytes : List ℕ) → (seen_in V.seen draft.old).block_at leaf ≡ Some bytes → CanTake bytes (length name.now) → IfOk result (λ done. (done ≡ true)
        × ((new : List ℕ) × IsLeafFilled bytes new entry.now name.now × (draft.new ≡ record draft.old { fates = with_fate draft.old.fates leaf (Put (inode_lock dir) false new) }))) }
    ensures view { draft.new.view ≡ draft.old.view }
{
    let Some(mut bytes) = draft.copy(leaf)? else {
        return Ok(false);
    };
    if !fill_leaf(&mut bytes, entry, name) {
        return Ok(false);
    }
    draft.put(lock_of(dir), leaf, false, &bytes)?;
    Ok(true)
}

/// Counts so many more records, links and blocks in a directory's dinode in the draft; and tells whether that was done. It costs two copies
/// of the block.
pub(crate) fn count_in<V: View>(
    draft: &mut Draft<'_, V>,
    dir: u64,
    records: u32,
    links: u32,
    blocks: u64,
) -> Result<bool, NoMemory>
    ensures put { (bytes : List ℕ) → (seen_in V.seen draft.old).block_at dir ≡ Some bytes → CanCount bytes records links blocks → IfOk result (λ done. (done ≡ true)
        × ((new : List ℕ) × IsDinodeWritten bytes new (counting (dinode_of bytes) records links blocks) × (draft.new ≡ record draft.old { fates = with_fate draft.old.fates dir (Put (inode_lock dir) false new) }))) }
    ensures view { draft.new.view ≡ draft.old.view }
{
    let Some(mut bytes) = draft.copy(dir)? else {
        return Ok(false);
    };
    if !count_more(&mut bytes, records, links, blocks) {
        return Ok(false);
    }
    draft.put(lock_of(dir), dir, false, &bytes)?;
    Ok(true)
}

/// Puts a new leaf without records, of this depth, in the draft. It costs two blocks of memory.
pub(crate) fn put_empty<V: View>(
    alloc: Global,
    draft: &mut Draft<'_, V>,
    dir: u64,
    leaf: u64,
    depth: u16,
) -> Result<(), NoMemory>
    requires size { IsBlockSize (V.seen draft.old.view).size }
    ensures put { OnOk result ((new : List ℕ) × IsLeafWritten (replicate (V.seen draft.old.view).size 0) new (record { depth = depth; entries = 0; next = 0 }) (unused ((V.seen draft.old.view).size - leaf_length) ∷ [])
        × (draft.new ≡ record draft.old { fates = with_fate draft.old.fates leaf (Put (inode_lock dir) false new) })) }
    ensures view { draft.new.view ≡ draft.old.view }
{
    let bytes = empty_leaf(alloc, draft.block_size() as usize, depth)?;
    draft.put(lock_of(dir), leaf, false, &bytes)
}

/// Makes a leaf lead on to another one in the draft; and tells whether that was done. It costs two copies of the block.
pub(crate) fn link_in<V: View>(
    draft: &mut Draft<'_, V>,
    dir: u64,
    leaf: u64,
    next: u64,
) -> Result<bool, NoMemory>
    ensures put { (bytes : List ℕ) → (seen_in V.seen draft.old).block_at leaf ≡ Some bytes → IsLeafBlock bytes → IfOk result (λ done. (done ≡ true)
        × ((new : List ℕ) × IsLinked bytes new next × (draft.new ≡ record draft.old { fates = with_fate draft.old.fates leaf (Put (inode_lock dir) false new) }))) }
    ensures view { draft.new.view ≡ draft.old.view }
{
    let Some(mut bytes) = draft.copy(leaf)? else {
        return Ok(false);
    };
    if !link_leaf(&mut bytes, next) {
        return Ok(false);
    }
    draft.put(lock_of(dir), leaf, false, &bytes)?;
    Ok(true)
}

/// The depth of a leaf in the draft; None where the block isn't seen, or isn't one.
pub(crate) fn depth_in<V: View>(draft: &Draft<'_, V>, leaf: u64) -> Option<u16>
    ensures { (bytes : List ℕ) → (seen_in V.seen draft.now).block_at leaf ≡ Some bytes → IsLeafBlock bytes → result ≡ Some (leaf_of bytes).depth }
{
    let head = head_of(block_of(draft, leaf)?)?;
    Some(head.depth)
}

/// Splits the records of a leaf in the draft, of this depth: those of the lower half go into a new leaf, and each half counts its own; and
/// tells whether that was done.
pub(crate) fn halve_in<V: View>(
    alloc: Global,
    draft: &mut Draft<'_, V>,
    dir: u64,
    leaf: u64,
    lower: u64,
) -> Result<bool, NoMemory>
    ensures put { (bytes : List ℕ) → (seen_in V.seen draft.old).block_at leaf ≡ Some bytes → IsLeafBlock bytes → (leaf_of bytes).depth ≤ 31 → IfOk result (λ done. (done ≡ true)
        × ((low high : List ℕ) × IsHalved bytes high low (leaf_of bytes).depth
        × (draft.new ≡ record draft.old { fates = with_fate (with_fate draft.old.fates lower (Put (inode_lock dir) false low)) leaf (Put (inode_lock dir) false high) }))) }
    ensures view { draft.new.view ≡ draft.old.view }
{
    let _size = draft.block_size();
    let Some(mut bytes) = draft.copy(leaf)? else {
        return Ok(false);
    };
    let Some(head) = head_of(&bytes) else {
        return Ok(false);
    };
    if head.depth > 31 {
        return Ok(false);
    }
    let low = halved(alloc, &mut bytes, head.depth)?;
    draft.put(lock_of(dir), lower, false, &low)?;
    draft.put(lock_of(dir), leaf, false, &bytes)?;
    Ok(true)
}
