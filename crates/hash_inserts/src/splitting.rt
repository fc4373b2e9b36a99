// A leaf of a hashed directory that is split in a draft.
ghost use Rattle.std.specs.Prelude.{◌≡◌, ◌^◌, ◌<◌, ◌≤◌, true, false, None, Contains, IfOk, IfSome, IsSomeAnd, length};
ghost use Rattle.std.specs.FinMap.{FinMap};
ghost use Rattle.std.specs.Ordering.{nat_cmp};
ghost use Rattle.drafts.specs.Fates.{seen_in, seen_with};
ghost use Rattle.drafts.specs.declared.change.Written.{Written as WrittenBlock};
ghost use Rattle.drafts.specs.declared.fate.Fate.{Fate};
ghost use Rattle.gfs2_layout.specs.Holding.{Holding};
ghost use Rattle.gfs2_layout.specs.Inode.{depth_in, entry, table_count};
ghost use Rattle.glock_names.specs.Steps.{IfIs, IfNeedBlock, IfDamaged};
ghost use Rattle.glock_names.specs.Views.{HasBlock, IsOfView};
ghost use Rattle.growth_drafts.specs.Taken.{AreFreeFor};
ghost use Rattle.hash_steps.specs.Shown.{IsShown, IsSound};
ghost use Rattle.hash_steps.specs.Leaves.{HasOneLeaf, leaf_depth};
ghost use Rattle.hash_steps.specs.Laws.{Stays};
ghost use Rattle.hash_inserts.specs.Drafting.{IsFree, SeesTree, SplitsLeaf};
ghost use Rattle.hash_inserts.specs.Committing.{HasSplit};
ghost use Rattle.hash_inserts.specs.Inserting.{IsNeededToSplit, IsWrongToInsert, Splits, StaysInside};

use crate::committing::commit;
use crate::drafting::{count_in, halve_in};
use crate::looking::see_table;
use crate::pointers::{lower_half_of, set_pointers};
use dinode_tree::{sound_inodes_are_shown, sound_pointers_are_parts};
use drafts::{Draft, Written};
use glock_names::{CallFault, Step, View};
use hash_steps::{leaf_at, splits_stay};
use nested_drafts::{are_whole, puts_are_seen_alike};
use no_memory::NoMemory;
use std::alloc::Global;
use std::collections::VecDeque;
use table_changes::PointerTableMut;

// Splits a leaf of this depth, which is the one of the chain of a pointer and less deep than the table; and tells whether that was done: of a
// sound directory of which the draft has every block of the table, it is.
pub(crate) fn split_leaf<V: View, T: PointerTableMut>(
    alloc: Global,
    draft: &mut Draft<'_, V>,
    dir: u64,
    table: &mut T,
    index: u32,
    leaf: u64,
    depth: u16,
    lower: u64,
) -> Result<bool, NoMemory>
    ensures put { (h : Holding) → IsShown (seen_in V.seen draft.old) dir h → T.shows table.old (seen_in V.seen draft.old) h → IsSound h → h.count < 2 ^ 64 → index < table_count h → leaf ≡ entry h index
        → HasOneLeaf h index → depth ≡ leaf_depth h index → leaf_depth h index < depth_in h → SeesTree (seen_in V.seen draft.old) h → HasBlock (seen_in V.seen draft.old) leaf → IsFree h lower
        → IfOk result (λ done. (done ≡ true) × ((g : Holding) × SplitsLeaf (V.seen draft.old.view) draft.old.fates draft.new.fates h g index lower × IsShown (seen_in V.seen draft.new) dir g
        × T.shows table.new (seen_in V.seen draft.new) g × Stays h g)) }
    ensures view { draft.new.view ≡ draft.old.view }
{
    splits_stay();
    sound_inodes_are_shown();
    let deep = table.depth();
    if deep <= depth || index >= 1 << deep {
        return Ok(false);
    }
    let half = lower_half_of(index, deep, depth);
    if !set_pointers(alloc, draft, table, half.from, half.count, lower)? {
        return Ok(false);
    }
    if !halve_in(alloc, draft, dir, leaf, lower)? {
        return Ok(false);
    }
    count_in(draft, dir, 0, 0, 1)
}

// The blocks that make of a directory one with that leaf split, in a draft of their own; none where that isn't done.
fn split_blocks<V: View, T: PointerTableMut>(
    alloc: Global,
    view: &V,
    dir: u64,
    table: &mut T,
    index: u32,
    leaf: u64,
    depth: u16,
    lower: u64,
) -> Result<Option<Vec<Written>>, NoMemory>
    ensures split { (h : Holding) → IsShown (V.seen view.now) dir h → T.shows table.old (V.seen view.now) h → IsSound h → h.count < 2 ^ 64 → index < table_count h → leaf ≡ entry h index
        → HasOneLeaf h index → depth ≡ leaf_depth h index → leaf_depth h index < depth_in h → SeesTree (V.seen view.now) h → HasBlock (V.seen view.now) leaf → IsFree h lower
        → IfOk result (λ blocks. IsSomeAnd blocks (λ written. (fates : FinMap nat_cmp Fate) × ((g : Holding) × T.shows table.new (seen_with (V.seen view.now) fates) g
        × HasSplit (V.seen view.now) fates written.items dir index lower h g))) }
    ensures whole { IfOk result (λ blocks. IfSome blocks (λ written. (w : WrittenBlock) → Contains written.items w → length w.bytes ≡ (V.seen view.now).size)) }
{
    puts_are_seen_alike();
    let size = view.block_size() as usize;
    let mut draft = Draft::new(alloc, view);
    let done = split_leaf(alloc, &mut draft, dir, table, index, leaf, depth, lower)?;
    if !done {
        return Ok(None);
    }
    let change = draft.finish()?;
    if !are_whole(&change.blocks, size) {
        return Ok(None);
    }
    Ok(Some(change.blocks))
}

/// Splits the one leaf of the chain of a pointer of the hashed directory with its dinode in this block, where that leaf is less deep than the
/// table: a new leaf, the block at the front of `room`, takes the lower half of its pointers and of its records. The answer is whether that
/// was done: `false` where there is no such pointer, its chain has several leaves or one as deep as the table, the room is empty, or the
/// directory isn't sound; then the draft is as it was, but the room and the table may be changed, and are to be dropped. It looks at what
/// `look` looks at, and at every block of the table, before it changes anything.
pub fn split<V: View, T: PointerTableMut>(
    alloc: Global,
    draft: &mut Draft<'_, V>,
    dir: u64,
    table: &mut T,
    index: u32,
    room: &mut VecDeque<u64>,
) -> Result<Step<bool>, CallFault>
    ensures put { (h : Holding) → IsShown (seen_in V.seen draft.old) dir h → T.shows table.old (seen_in V.seen draft.old) h → IsSound h → index < table_count h
        → HasOneLeaf h index → leaf_depth h index < depth_in h → AreFreeFor h room.old.items → 1 ≤ length room.old.items → h.count < 2 ^ 64
        → IfIs result (λ done. (done ≡ true) × ((g : Holding) × IsShown (seen_in V.seen draft.new) dir g × T.shows table.new (seen_in V.seen draft.new) g
        × Splits draft.old.fates draft.new.fates room.old.items room.new.items index h g)) }
    ensures inside { IfIs result (λ done. done ≡ true → StaysInside (seen_in V.seen draft.old) draft.old.fates draft.new.fates room.old.items room.new.items dir) }
    ensures undone { IfIs result (λ done. done ≡ false → draft.new ≡ draft.old) }
    ensures needed { (h : Holding) → IsShown (seen_in V.seen draft.old) dir h → T.shows table.old (seen_in V.seen draft.old) h
        → IfNeedBlock result (IsNeededToSplit (seen_in V.seen draft.old) h index) }
    ensures absent { IfNeedBlock result (λ missing. (seen_in V.seen draft.old).block_at missing.block ≡ None) }
    ensures waits { IfNeedBlock result (λ missing. (draft.new ≡ draft.old) × (room.new.items ≡ room.old.items) × (table.new ≡ table.old)) }
    ensures damaged { (h : Holding) → IsShown (seen_in V.seen draft.old) dir h → T.shows table.old (seen_in V.seen draft.old) h → IfDamaged result (IsWrongToInsert (seen_in V.seen draft.old) h) }
    ensures kept { IfDamaged result (IsOfView (seen_in V.seen draft.old)) }
    ensures stays { IfDamaged result (λ rule block. (draft.new ≡ draft.old) × (room.new.items ≡ room.old.items) × (table.new ≡ table.old)) }
    ensures view { draft.new.view ≡ draft.old.view }
{
    puts_are_seen_alike();
    sound_pointers_are_parts();
    let depth = table.depth();
    if index >= 1 << depth {
        return Ok(Step::Is(false));
    }
    let head = match table.get(&*draft, index)? {
        Step::Is(head) => head,
        Step::NeedBlock(missing) => return Ok(Step::NeedBlock(missing)),
    };
    let leaf = match leaf_at(&*draft, dir, depth, &head)? {
        Step::Is(leaf) => leaf.head,
        Step::NeedBlock(missing) => return Ok(Step::NeedBlock(missing)),
    };
    if let Step::NeedBlock(missing) = see_table(alloc, &*draft, dir)? {
        return Ok(Step::NeedBlock(missing));
    }
    if leaf.next != 0 || leaf.depth >= depth {
        return Ok(Step::Is(false));
    }
    let mut left = room.clone()?;
    let Some(lower) = left.pop_front() else {
        return Ok(Step::Is(false));
    };
    let made = split_blocks(
        alloc, &*draft, dir, table, index, head.leaf, leaf.depth, lower,
    )?;
    let Some(blocks) = made else {
        return Ok(Step::Is(false));
    };
    let done = commit(alloc, draft, dir, &blocks, room, left.len())?;
    Ok(Step::Is(done))
}
