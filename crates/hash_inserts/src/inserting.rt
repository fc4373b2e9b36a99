// A name put into a hashed directory in a draft.
ghost use Rattle.std.specs.Prelude.{ℕ, List, ◌≡◌, ◌≢◌, ◌+◌, ◌*◌, ◌^◌, ◌<◌, ◌≤◌, true, false, None, Contains, IfOk, IfSome, IsSomeAnd, length};
ghost use Rattle.std.specs.FinMap.{FinMap};
ghost use Rattle.std.specs.Ordering.{nat_cmp};
ghost use Rattle.drafts.specs.Fates.{seen_in, seen_with};
ghost use Rattle.drafts.specs.declared.change.Written.{Written as WrittenBlock};
ghost use Rattle.drafts.specs.declared.fate.Fate.{Fate};
ghost use Rattle.gfs2_layout.specs.Area.{slots_of};
ghost use Rattle.gfs2_layout.specs.Holding.{Holding};
ghost use Rattle.gfs2_layout.specs.Inode.{depth_in, leaf_area, leaf_in, records_of, table_count};
ghost use Rattle.gfs2_layout.specs.Records.{record_named};
ghost use Rattle.glock_names.specs.Steps.{IfIs, IfNeedBlock, IfDamaged};
ghost use Rattle.glock_names.specs.Views.{HasBlock, IsOfView};
ghost use Rattle.growth_drafts.specs.Taken.{AreFreeFor};
ghost use Rattle.hash_steps.specs.Shown.{IsInChain, IsShown, IsSound, index_for};
ghost use Rattle.hash_steps.specs.Leaves.{IsFullBefore, has_room_for};
ghost use Rattle.hash_inserts.specs.Advancing.{CanInsert, IsAtLeaf, IsFullLeaf, StepsOn};
ghost use Rattle.hash_inserts.specs.Committing.{HasInserted, SeesInside};
ghost use Rattle.hash_inserts.specs.Drafting.{SeesTree};
ghost use Rattle.hash_inserts.specs.Finding.{IsChainFound, IsOnlyLeaf};
ghost use Rattle.hash_inserts.specs.Walking.{first_with};
ghost use Rattle.hash_inserts.specs.Inserting.{CanCountOne, HasNoRoom, HasOneLeafFor, Inserts, IsDeepest, IsNeededToInsert, IsWrongToInsert, StaysInside, depth_for};
ghost use Rattle.hash_inserts.specs.Needing.{TakesBlocks};

use crate::committing::commit;
use crate::counting::may_double;
use crate::drafting::depth_in;
use crate::finding::{Found, find_chain, has_room_in, leaf_for};
use crate::lengthening::put_behind;
use crate::looking::see_table;
use crate::pointers::double_table;
use crate::records::put_in_leaf;
use crate::splitting::split_leaf;
use crate::walking::{Walked, first_of};
use crc_words::{checksums_have_32_bits, crc32};
use dinode_tree::{sound_inodes_are_shown, sound_pointers_are_parts};
use drafts::{Draft, Written};
use glock_names::{CallFault, Entry, Step, View};
use hash_steps::{exchanges_join, index_of, puts_get_a_record};
use nested_drafts::{are_whole, puts_are_seen_alike};
use no_memory::NoMemory;
use pointer_tables::{Pointer, PointerTable};
use std::alloc::Global;
use std::collections::VecDeque;
use table_changes::PointerTableMut;

// More steps than an insertion can take: with each one the table or the leaf is one deeper, and both are 15 deep at most.
const STEPS: u32 = 31;

// Puts the record into a leaf that is the first of the name's chain with room for it.
fn put_with_room<V: View, T: PointerTableMut>(
    draft: &mut Draft<'_, V>,
    dir: u64,
    leaf: u64,
    name: &[u8],
    entry: Entry,
    table: &T,
) -> Result<bool, NoMemory>
    requires some { 1 ≤ length name.now }
    requires short { length name.now ≤ 255 }
    requires number { entry.number ≢ 0 }
    requires address { entry.addr ≢ 0 }
    ensures put { (h : Holding) (room : List ℕ) (need place : ℕ) → CanInsert (seen_in V.seen draft.old) dir h name.now room need → T.shows table.now (seen_in V.seen draft.old) h
        → IsInChain h (index_for h name.now) place leaf → IsFullBefore h (index_for h name.now) (length name.now) place → has_room_for (length name.now) (slots_of (leaf_area h leaf)) ≡ true
        → HasBlock (seen_in V.seen draft.old) leaf → HasBlock (seen_in V.seen draft.old) dir
        → IfOk result (λ done. (done ≡ true) × ((g : Holding) × IsShown (seen_in V.seen draft.new) dir g × T.shows table.now (seen_in V.seen draft.new) g
        × Inserts draft.old.fates draft.new.fates room room need name.now entry h g)) }
    ensures view { draft.new.view ≡ draft.old.view }
{
    puts_get_a_record();
    sound_inodes_are_shown();
    put_in_leaf(draft, dir, leaf, name, entry)
}

// Adds a leaf behind the last one of the name's chain, which has no room, and puts the record there.
fn put_with_leaf<V: View, T: PointerTableMut>(
    alloc: Global,
    draft: &mut Draft<'_, V>,
    dir: u64,
    last: u64,
    name: &[u8],
    entry: Entry,
    room: &mut VecDeque<u64>,
    table: &T,
) -> Result<bool, NoMemory>
    requires some { 1 ≤ length name.now }
    requires short { length name.now ≤ 255 }
    requires number { entry.number ≢ 0 }
    requires address { entry.addr ≢ 0 }
    ensures put { (h : Holding) (need place : ℕ) → CanInsert (seen_in V.seen draft.old) dir h name.now room.old.items need → T.shows table.now (seen_in V.seen draft.old) h
        → IsInChain h (index_for h name.now) place last → (leaf_in h last).next ≡ 0 → HasNoRoom h name.now → (HasOneLeafFor h name.now → IsDeepest h name.now)
        → HasBlock (seen_in V.seen draft.old) last → HasBlock (seen_in V.seen draft.old) dir
        → IfOk result (λ done. (done ≡ true) × ((g : Holding) × IsShown (seen_in V.seen draft.new) dir g × T.shows table.now (seen_in V.seen draft.new) g
        × Inserts draft.old.fates draft.new.fates room.old.items room.new.items need name.now entry h g)) }
    ensures view { draft.new.view ≡ draft.old.view }
{
    puts_get_a_record();
    exchanges_join();
    sound_inodes_are_shown();
    let Some(leaf) = room.pop_front() else {
        return Ok(false);
    };
    put_behind(alloc, draft, dir, last, leaf, name, entry)
}

// Splits the one leaf of the name's chain, of this depth, less deep than the table; and tells to which leaf the chain leads then.
fn split_on<V: View, T: PointerTableMut>(
    alloc: Global,
    draft: &mut Draft<'_, V>,
    dir: u64,
    name: &[u8],
    leaf: u64,
    depth: u16,
    room: &mut VecDeque<u64>,
    table: &mut T,
) -> Result<Option<u64>, NoMemory>
    ensures split { (h : Holding) (need : ℕ) → CanInsert (seen_in V.seen draft.old) dir h name.now room.old.items need → T.shows table.old (seen_in V.seen draft.old) h
        → IsAtLeaf (seen_in V.seen draft.old) h name.now leaf → IsFullLeaf h name.now leaf → depth ≡ depth_for h name.now → depth_for h name.now < depth_in h
        → IfOk result (λ next. IsSomeAnd next (λ half. (m : Holding) × T.shows table.new (seen_in V.seen draft.new) m
        × StepsOn (V.seen draft.old.view) (seen_in V.seen draft.new) draft.old.fates draft.new.fates room.old.items room.new.items dir name.now need half h m)) }
    ensures view { draft.new.view ≡ draft.old.view }
{
    sound_pointers_are_parts();
    let index = index_of(crc32(name), table.depth());
    let Some(lower) = room.pop_front() else {
        return Ok(None);
    };
    let done = split_leaf(alloc, draft, dir, table, index, leaf, depth, lower)?;
    if !done {
        return Ok(None);
    }
    Ok(leaf_for(&*draft, name, &*table))
}

// Doubles the table, as deep as the one leaf of the name's chain.
fn double_on<V: View, T: PointerTableMut>(
    alloc: Global,
    draft: &mut Draft<'_, V>,
    dir: u64,
    name: &[u8],
    leaf: u64,
    room: &mut VecDeque<u64>,
    table: &mut T,
) -> Result<bool, NoMemory>
    requires shallow { T.deep table.old < 15 }
    ensures doubled { (h : Holding) (need : ℕ) → CanInsert (seen_in V.seen draft.old) dir h name.now room.old.items need → T.shows table.old (seen_in V.seen draft.old) h
        → IsAtLeaf (seen_in V.seen draft.old) h name.now leaf → IsFullLeaf h name.now leaf → depth_for h name.now ≡ depth_in h → 2 * table_count h ≤ 8 * h.size
        → IfOk result (λ done. (done ≡ true) × ((m : Holding) × T.shows table.new (seen_in V.seen draft.new) m × IsFullLeaf m name.now leaf
        × StepsOn (V.seen draft.old.view) (seen_in V.seen draft.new) draft.old.fates draft.new.fates room.old.items room.new.items dir name.now need leaf h m)) }
    ensures view { draft.new.view ≡ draft.old.view }
{
    sound_pointers_are_parts();
    double_table(alloc, draft, dir, table, room)
}

// Splits the one leaf of the name's chain, which has no room, doubles the table or adds a leaf, until one has room, and puts the record there.
fn insert_past<V: View, T: PointerTableMut>(
    alloc: Global,
    draft: &mut Draft<'_, V>,
    dir: u64,
    leaf: u64,
    name: &[u8],
    entry: Entry,
    room: &mut VecDeque<u64>,
    table: &mut T,
    steps: u32,
) -> Result<bool, NoMemory>
    requires some { 1 ≤ length name.now }
    requires short { length name.now ≤ 255 }
    requires number { entry.number ≢ 0 }
    requires address { entry.addr ≢ 0 }
    ensures put { (h : Holding) (need : ℕ) → CanInsert (seen_in V.seen draft.old) dir h name.now room.old.items need → T.shows table.old (seen_in V.seen draft.old) h
        → IsAtLeaf (seen_in V.seen draft.old) h name.now leaf → IsFullLeaf h name.now leaf → 31 ≤ steps + (depth_for h name.now + depth_in h)
        → IfOk result (λ done. (done ≡ true) × ((g : Holding) × IsShown (seen_in V.seen draft.new) dir g × T.shows table.new (seen_in V.seen draft.new) g
        × Inserts draft.old.fates draft.new.fates room.old.items room.new.items need name.now entry h g)) }
    ensures view { draft.new.view ≡ draft.old.view }
{
    exchanges_join();
    if steps == 0 {
        return Ok(false);
    }
    let size = draft.block_size() as usize;
    let Some(depth) = depth_in(&*draft, leaf) else {
        return Ok(false);
    };
    let deep = table.depth();
    if depth < deep {
        let Some(half) = split_on(alloc, draft, dir, name, leaf, depth, room, table)? else {
            return Ok(false);
        };
        match has_room_in(&*draft, half, name.len() as u16) {
            Some(true) => put_with_room(draft, dir, half, name, entry, &*table),
            Some(false) => insert_past(
                alloc,
                draft,
                dir,
                half,
                name,
                entry,
                room,
                table,
                steps - 1,
            ),
            None => Ok(false),
        }
    } else if may_double(size, deep) {
        let done = double_on(alloc, draft, dir, name, leaf, room, table)?;
        if !done {
            return Ok(false);
        }
        insert_past(alloc, draft, dir, leaf, name, entry, room, table, steps - 1)
    } else {
        put_with_leaf(alloc, draft, dir, leaf, name, entry, room, &*table)
    }
}

// Puts the record into the name's chain, as it was found.
fn insert_found<V: View, T: PointerTableMut>(
    alloc: Global,
    draft: &mut Draft<'_, V>,
    dir: u64,
    found: &Found,
    name: &[u8],
    entry: Entry,
    room: &mut VecDeque<u64>,
    table: &mut T,
) -> Result<bool, NoMemory>
    requires some { 1 ≤ length name.now }
    requires short { length name.now ≤ 255 }
    requires number { entry.number ≢ 0 }
    requires address { entry.addr ≢ 0 }
    ensures put { (h : Holding) (need : ℕ) → CanInsert (seen_in V.seen draft.old) dir h name.now room.old.items need → T.shows table.old (seen_in V.seen draft.old) h
        → IsChainFound (seen_in V.seen draft.old) h name.now found.now → HasBlock (seen_in V.seen draft.old) dir → (HasNoRoom h name.now → HasOneLeafFor h name.now → SeesTree (seen_in V.seen draft.old) h)
        → IfOk result (λ done. (done ≡ true) × ((g : Holding) × IsShown (seen_in V.seen draft.new) dir g × T.shows table.new (seen_in V.seen draft.new) g
        × Inserts draft.old.fates draft.new.fates room.old.items room.new.items need name.now entry h g)) }
    ensures view { draft.new.view ≡ draft.old.view }
{
    sound_pointers_are_parts();
    if let Some(leaf) = found.chain.with_room {
        return put_with_room(draft, dir, leaf, name, entry, &*table);
    }
    let last = found.chain.last;
    if found.chain.single {
        insert_past(alloc, draft, dir, last, name, entry, room, table, STEPS)
    } else {
        put_with_leaf(alloc, draft, dir, last, name, entry, room, &*table)
    }
}

// Finds the chain of a name, and where its one leaf has no room looks at every block of the table.
fn see_to_insert<V: View, T: PointerTable>(
    alloc: Global,
    view: &V,
    dir: u64,
    name: &[u8],
    table: &T,
) -> Result<Step<Found>, CallFault>
    requires short { length name.now ≤ 255 }
    ensures found { (h : Holding) → IsShown (V.seen view.now) dir h → T.shows table.now (V.seen view.now) h → IfIs result (IsChainFound (V.seen view.now) h name.now) }
    ensures own { IfIs result (λ found. HasBlock (V.seen view.now) dir) }
    ensures inside { (h : Holding) → IsShown (V.seen view.now) dir h → T.shows table.now (V.seen view.now) h → IfIs result (λ found. HasNoRoom h name.now → HasOneLeafFor h name.now → SeesInside (V.seen view.now) h) }
    ensures needed { (h : Holding) → IsShown (V.seen view.now) dir h → T.shows table.now (V.seen view.now) h → IfNeedBlock result (IsNeededToInsert (V.seen view.now) h name.now) }
    ensures absent { IfNeedBlock result (λ missing. (V.seen view.now).block_at missing.block ≡ None) }
    ensures damaged { (h : Holding) → IsShown (V.seen view.now) dir h → T.shows table.now (V.seen view.now) h → IfDamaged result (IsWrongToInsert (V.seen view.now) h) }
    ensures kept { IfDamaged result (IsOfView (V.seen view.now)) }
{
    let found = match find_chain(view, dir, name, table)? {
        Step::Is(found) => found,
        Step::NeedBlock(missing) => return Ok(Step::NeedBlock(missing)),
    };
    if found.chain.with_room.is_some() {
        return Ok(Step::Is(found));
    }
    if !found.chain.single {
        return Ok(Step::Is(found));
    }
    match see_table(alloc, view, dir)? {
        Step::Is(_dinode) => Ok(Step::Is(found)),
        Step::NeedBlock(missing) => Ok(Step::NeedBlock(missing)),
    }
}

// The blocks that make of a directory one that has got the name, in a draft of their own; none where that isn't done.
fn inserted_blocks<V: View, T: PointerTableMut>(
    alloc: Global,
    view: &V,
    dir: u64,
    found: &Found,
    name: &[u8],
    entry: Entry,
    room: &mut VecDeque<u64>,
    table: &mut T,
) -> Result<Option<Vec<Written>>, NoMemory>
    requires some { 1 ≤ length name.now }
    requires short { length name.now ≤ 255 }
    requires number { entry.number ≢ 0 }
    requires address { entry.addr ≢ 0 }
    ensures put { (h : Holding) (need : ℕ) → CanInsert (V.seen view.now) dir h name.now room.old.items need → T.shows table.old (V.seen view.now) h
        → IsChainFound (V.seen view.now) h name.now found.now → HasBlock (V.seen view.now) dir → (HasNoRoom h name.now → HasOneLeafFor h name.now → SeesTree (V.seen view.now) h)
        → IfOk result (λ blocks. IsSomeAnd blocks (λ written. (fates : FinMap nat_cmp Fate) × ((g : Holding) × T.shows table.new (seen_with (V.seen view.now) fates) g
        × HasInserted (V.seen view.now) fates written.items dir room.old.items room.new.items need name.now entry h g))) }
    ensures whole { IfOk result (λ blocks. IfSome blocks (λ written. (w : WrittenBlock) → Contains written.items w → length w.bytes ≡ (V.seen view.now).size)) }
{
    puts_are_seen_alike();
    let size = view.block_size() as usize;
    let mut draft = Draft::new(alloc, view);
    let done = insert_found(alloc, &mut draft, dir, found, name, entry, room, table)?;
    if !done {
        return Ok(None);
    }
    let change = draft.finish()?;
    if !are_whole(&change.blocks, size) {
        return Ok(None);
    }
    Ok(Some(change.blocks))
}

// Puts a name into a hashed directory in a draft, as its chain was found: as a whole, or not at all.
fn insert_whole<V: View, T: PointerTableMut>(
    alloc: Global,
    draft: &mut Draft<'_, V>,
    dir: u64,
    found: &Found,
    name: &[u8],
    entry: Entry,
    room: &mut VecDeque<u64>,
    table: &mut T,
) -> Result<bool, NoMemory>
    requires some { 1 ≤ length name.now }
    requires short { length name.now ≤ 255 }
    requires number { entry.number ≢ 0 }
    requires address { entry.addr ≢ 0 }
    ensures put { (h : Holding) (need : ℕ) → CanInsert (seen_in V.seen draft.old) dir h name.now room.old.items need → T.shows table.old (seen_in V.seen draft.old) h
        → IsChainFound (seen_in V.seen draft.old) h name.now found.now → HasBlock (seen_in V.seen draft.old) dir → (HasNoRoom h name.now → HasOneLeafFor h name.now → SeesInside (seen_in V.seen draft.old) h)
        → IfOk result (λ done. (done ≡ true) × ((g : Holding) × IsShown (seen_in V.seen draft.new) dir g × T.shows table.new (seen_in V.seen draft.new) g
        × Inserts draft.old.fates draft.new.fates room.old.items room.new.items need name.now entry h g)) }
    ensures inside { IfOk result (λ done. done ≡ true → StaysInside (seen_in V.seen draft.old) draft.old.fates draft.new.fates room.old.items room.new.items dir) }
    ensures undone { IfOk result (λ done. done ≡ false → draft.new ≡ draft.old) }
    ensures view { draft.new.view ≡ draft.old.view }
{
    puts_are_seen_alike();
    sound_pointers_are_parts();
    let mut left = room.clone()?;
    let made = inserted_blocks(alloc, &*draft, dir, found, name, entry, &mut left, table)?;
    let Some(blocks) = made else {
        return Ok(false);
    };
    let done = commit(alloc, draft, dir, &blocks, room, left.len())?;
    Ok(done)
}

/// Puts a name that isn't there and leads to this entry into the hashed directory with its dinode in this block, by its table, into the
/// first leaf of its chain that has room for it. Where none has, the leaf is split, the table doubled or an overflow leaf added, until one
/// has; blocks are taken for that from the front of `room`, as many as `need_insert` tells. The answer is whether that was done: `false`
/// where the room isn't enough, the directory isn't sound, or its dinode can't count one more; then the draft is as it was, but the room and
/// the table may be changed, and are to be dropped. It looks at what `need_insert` looks at before it changes anything. It makes the change in a
/// draft of its own, and puts it into the draft as a whole. It costs a copy of the room, and a few copies of each block that it puts.
pub fn insert<V: View, T: PointerTableMut>(
    alloc: Global,
    draft: &mut Draft<'_, V>,
    dir: u64,
    name: &[u8],
    entry: Entry,
    room: &mut VecDeque<u64>,
    table: &mut T,
) -> Result<Step<bool>, CallFault>
    requires some { 1 ≤ length name.now }
    requires short { length name.now ≤ 255 }
    requires number { entry.number ≢ 0 }
    requires address { entry.addr ≢ 0 }
    ensures put { (h : Holding) (need : ℕ) → IsShown (seen_in V.seen draft.old) dir h → T.shows table.old (seen_in V.seen draft.old) h → IsSound h → CanCountOne h → record_named (records_of h) name.now ≡ None
        → AreFreeFor h room.old.items → TakesBlocks h name.now need → need ≤ length room.old.items → h.count < 2 ^ 64
        → IfIs result (λ done. (done ≡ true) × ((g : Holding) × IsShown (seen_in V.seen draft.new) dir g × T.shows table.new (seen_in V.seen draft.new) g
        × Inserts draft.old.fates draft.new.fates room.old.items room.new.items need name.now entry h g)) }
    ensures inside { IfIs result (λ done. done ≡ true → StaysInside (seen_in V.seen draft.old) draft.old.fates draft.new.fates room.old.items room.new.items dir) }
    ensures undone { IfIs result (λ done. done ≡ false → draft.new ≡ draft.old) }
    ensures needed { (h : Holding) → IsShown (seen_in V.seen draft.old) dir h → T.shows table.old (seen_in V.seen draft.old) h
        → IfNeedBlock result (IsNeededToInsert (seen_in V.seen draft.old) h name.now) }
    ensures absent { IfNeedBlock result (λ missing. (seen_in V.seen draft.old).block_at missing.block ≡ None) }
    ensures waits { IfNeedBlock result (λ missing. (draft.new ≡ draft.old) × (room.new.items ≡ room.old.items) × (table.new ≡ table.old)) }
    ensures damaged { (h : Holding) → IsShown (seen_in V.seen draft.old) dir h → T.shows table.old (seen_in V.seen draft.old) h → IfDamaged result (IsWrongToInsert (seen_in V.seen draft.old) h) }
    ensures kept { IfDamaged result (IsOfView (seen_in V.seen draft.old)) }
    ensures stays { IfDamaged result (λ rule block. (draft.new ≡ draft.old) × (room.new.items ≡ room.old.items) × (table.new ≡ table.old)) }
    ensures view { draft.new.view ≡ draft.old.view }
{
    checksums_have_32_bits();
    sound_inodes_are_shown();
    let found = match see_to_insert(alloc, &*draft, dir, name, &*table)? {
        Step::Is(found) => found,
        Step::NeedBlock(missing) => return Ok(Step::NeedBlock(missing)),
    };
    let done = insert_whole(alloc, draft, dir, &found, name, entry, room, table)?;
    Ok(Step::Is(done))
}

// What is found of a name's chain that has one leaf, to which a pointer behind the dinode leads.
fn only_leaf(dir: u64, leaf: u64, has_room: bool) -> Found
    ensures head { result.head ≡ record { leaf = leaf; from = dir } }
    ensures chain { result.chain ≡ record { last = leaf; single = true; with_room = first_with None has_room leaf } }
{
    Found {
        head: Pointer { leaf, from: dir },
        chain: Walked {
            last: leaf,
            single: true,
            with_room: first_of(None, has_room, leaf),
        },
    }
}

/// Puts a name that isn't there and leads to this entry into the hashed directory with its dinode in this block, by its table, which stands behind the
/// dinode and of which the name's pointer leads to this leaf, the only one of its chain: so of a directory that has just become a hashed one.
/// It looks at nothing, and does else what `insert` does.
pub fn insert_first<V: View, T: PointerTableMut>(
    alloc: Global,
    draft: &mut Draft<'_, V>,
    dir: u64,
    leaf: u64,
    name: &[u8],
    entry: Entry,
    room: &mut VecDeque<u64>,
    table: &mut T,
) -> Result<bool, NoMemory>
    requires some { 1 ≤ length name.now }
    requires short { length name.now ≤ 255 }
    requires number { entry.number ≢ 0 }
    requires address { entry.addr ≢ 0 }
    ensures put { (h : Holding) (need : ℕ) → CanInsert (seen_in V.seen draft.old) dir h name.now room.old.items need → T.shows table.old (seen_in V.seen draft.old) h
        → IsOnlyLeaf (seen_in V.seen draft.old) h name.now leaf
        → IfOk result (λ done. (done ≡ true) × ((g : Holding) × IsShown (seen_in V.seen draft.new) dir g × T.shows table.new (seen_in V.seen draft.new) g
        × Inserts draft.old.fates draft.new.fates room.old.items room.new.items need name.now entry h g)) }
    ensures inside { IfOk result (λ done. done ≡ true → StaysInside (seen_in V.seen draft.old) draft.old.fates draft.new.fates room.old.items room.new.items dir) }
    ensures undone { IfOk result (λ done. done ≡ false → draft.new ≡ draft.old) }
    ensures view { draft.new.view ≡ draft.old.view }
{
    sound_pointers_are_parts();
    let Some(has_room) = has_room_in(&*draft, leaf, name.len() as u16) else {
        return Ok(false);
    };
    let found = only_leaf(dir, leaf, has_room);
    insert_whole(alloc, draft, dir, &found, name, entry, room, table)
}
