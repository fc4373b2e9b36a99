// Pointers that are set in a draft that has every block of the table.
ghost use Rattle.std.specs.Prelude.{ℕ, ◌≡◌, ◌+◌, ◌-◌, ◌*◌, ◌/◌, ◌^◌, ◌<◌, ◌≤◌, true, IfOk, length};
ghost use Rattle.drafts.specs.Fates.{seen_in};
ghost use Rattle.gfs2_layout.specs.Holding.{Holding};
ghost use Rattle.gfs2_layout.specs.Inode.{is_hashed_in, table_count};
ghost use Rattle.linear_dirs.specs.Shown.{holding_over};
ghost use Rattle.hash_steps.specs.Shown.{IsShown, IsSound};
ghost use Rattle.growth_drafts.specs.Taken.{AreFreeFor};
ghost use Rattle.table_changes.specs.Tables.{doubling_need_of};
ghost use Rattle.hash_steps.specs.Laws.{Stays};
ghost use Rattle.hash_inserts.specs.Drafting.{DoublesTable, SeesTree, SetsPointers};

use dinode_tree::{sound_inodes_are_shown, sound_inodes_break_nothing};
use drafts::Draft;
use glock_names::{CallFault, Step, View};
use hash_steps::doublings_stay;
use no_memory::NoMemory;
use std::alloc::Global;
use std::collections::VecDeque;
use table_changes::PointerTableMut;

/// Makes so many neighbouring pointers lead to a leaf; and tells whether that was done: of a sound directory of which the draft has every
/// block of the table, it is.
pub(crate) fn set_pointers<V: View, T: PointerTableMut>(
    alloc: Global,
    draft: &mut Draft<'_, V>,
    table: &mut T,
    from: u32,
    count: u32,
    leaf: u64,
) -> Result<bool, NoMemory>
    requires few { from + count ≤ 2 ^ T.deep table.old }
    ensures set { (h : Holding) → T.shows table.old (seen_in V.seen draft.old) h → IsSound h → is_hashed_in h ≡ true → SeesTree (seen_in V.seen draft.old) h → IfOk result (λ done. (done ≡ true)
        × T.shows table.new (seen_in V.seen draft.new) (holding_over (seen_in V.seen draft.new) h) × SetsPointers (V.seen draft.old.view) draft.old.fates draft.new.fates h from count leaf) }
    ensures deep { T.deep table.new ≡ T.deep table.old }
    ensures view { draft.new.view ≡ draft.old.view }
{
    sound_inodes_break_nothing();
    match table.set(alloc, draft, from, count, leaf) {
        Ok(Step::Is(())) => Ok(true),
        Ok(Step::NeedBlock(_missing)) => Ok(false),
        Err(CallFault::Damaged { .. }) => Ok(false),
        Err(CallFault::NoMemory) => Err(NoMemory),
    }
}

/// Doubles a table, with blocks from the front of `room` where it needs more; and tells whether that was done: of a sound directory of which
/// the draft has every block of the table, and for which the room is enough, it is.
pub(crate) fn double_table<V: View, T: PointerTableMut>(
    alloc: Global,
    draft: &mut Draft<'_, V>,
    dir: u64,
    table: &mut T,
    room: &mut VecDeque<u64>,
) -> Result<bool, NoMemory>
    requires shallow { T.deep table.old < 15 }
    ensures doubled { (h : Holding) → IsShown (seen_in V.seen draft.old) dir h → T.shows table.old (seen_in V.seen draft.old) h → IsSound h → h.count < 2 ^ 64 → 2 * table_count h ≤ 8 * h.size → SeesTree (seen_in V.seen draft.old) h
        → AreFreeFor h room.old.items → doubling_need_of h ≤ length room.old.items
        → IfOk result (λ done. (done ≡ true) × ((g : Holding) × DoublesTable (V.seen draft.old.view) draft.old.fates draft.new.fates room.old.items room.new.items h g × IsShown (seen_in V.seen draft.new) dir g
        × T.shows table.new (seen_in V.seen draft.new) g × Stays h g)) }
    ensures view { draft.new.view ≡ draft.old.view }
{
    doublings_stay();
    sound_inodes_are_shown();
    sound_inodes_break_nothing();
    match table.double(alloc, draft, room) {
        Ok(Step::Is(done)) => Ok(done),
        Ok(Step::NeedBlock(_missing)) => Ok(false),
        Err(CallFault::Damaged { .. }) => Ok(false),
        Err(CallFault::NoMemory) => Err(NoMemory),
    }
}

/// The lower half of a run of pointers.
#[derive(Clone, Copy)]
pub(crate) struct Half {
    pub from: u32,
    pub count: u32,
}

/// The lower half of the pointers that share a leaf of this depth with this one, in a table that is deeper.
pub(crate) fn lower_half_of(index: u32, table: u16, depth: u16) -> Half
    requires table { table ≤ 15 }
    requires depth { depth < table }
    requires low { index < 2 ^ table }
    ensures from { result.from ≡ index / 2 ^ (table - depth) * 2 ^ (table - depth) }
    ensures count { result.count ≡ 2 ^ (table - (depth + 1)) }
    ensures within { result.from + result.count ≤ 2 ^ table }
{
    let shift = table - depth;
    Half {
        from: (index >> shift) << shift,
        count: 1 << (shift - 1),
    }
}
