// A name put into a directory in a draft.
ghost use Rattle.std.specs.Prelude.{ℕ, ◌≡◌, ◌≢◌, ◌^◌, ◌<◌, ◌≤◌, false, true, None, Contains, length, slice_get};
ghost use Rattle.drafts.specs.Fates.{seen_in};
ghost use Rattle.gfs2_layout.specs.Holding.{Holding};
ghost use Rattle.gfs2_layout.specs.Inode.{is_directory_in, is_hashed_in, records_of};
ghost use Rattle.gfs2_layout.specs.Records.{record_named};
ghost use Rattle.glock_names.specs.Steps.{IfIs, IfNeedBlock, IfDamaged};
ghost use Rattle.glock_names.specs.Views.{IsOfView};
ghost use Rattle.dinode_tree.specs.Shown as inode;
ghost use Rattle.dinode_tree.specs.Walking.{missing_dinode};
ghost use Rattle.linear_dirs.specs.Broken as linear;
ghost use Rattle.linear_dirs.specs.Shown.{IsLinearIn, holding_over};
ghost use Rattle.resource_groups.specs.Putting.{HasDataBlock};
ghost use Rattle.growth_drafts.specs.Taken.{AreFreeFor};
ghost use Rattle.directories.specs.Shown.{IsDirectoryIn, IsShown};
ghost use Rattle.hash_inserts.specs.Shown.{IsSound};
ghost use Rattle.hash_inserts.specs.Inserting.{CanCountOne, Inserts, StaysInside};
ghost use Rattle.hash_inserts.specs.Needing.{TakesBlocks};
ghost use Rattle.name_inserts.specs.Need.{has_linear_room, name_need};
ghost use Rattle.name_inserts.specs.Inserting.{CanGetName, IsNeededForName, IsPutInLinear, IsWrongForName, PutsName};

use crc_words::checksums_have_32_bits;
use dinode_tree::read_dinode;
use directories::{TreeTable, is_hashed};
use drafts::Draft;
use glock_names::{CallFault, Entry, Step, View};
use hash_inserts::{first_depth, insert_first, to_hashed};
use std::alloc::Global;
use std::collections::VecDeque;

// The same of a hashed directory.
fn put_in_hashed<V: View>(
    alloc: Global,
    draft: &mut Draft<'_, V>,
    dir: u64,
    name: &[u8],
    entry: Entry,
    room: &mut VecDeque<u64>,
) -> Result<Step<bool>, CallFault>
    requires some { 1 ≤ length name.now }
    requires short { length name.now ≤ 255 }
    requires number { entry.number ≢ 0 }
    requires address { entry.addr ≢ 0 }
    ensures put { (h : Holding) → IsShown (seen_in V.seen draft.old) dir h → is_hashed_in h ≡ true → IsSound h → CanCountOne h → h.count < 2 ^ 64 → record_named (records_of h) name.now ≡ None → AreFreeFor h room.old.items → (need : ℕ) → TakesBlocks h name.now need → need ≤ length room.old.items
        → IfIs result (λ done. (done ≡ true) × ((g : Holding) × IsShown (seen_in V.seen draft.new) dir g × Inserts draft.old.fates draft.new.fates room.old.items room.new.items need name.now entry h g)) }
    ensures inside { IfIs result (λ done. done ≡ true → StaysInside (seen_in V.seen draft.old) draft.old.fates draft.new.fates room.old.items room.new.items dir) }
    ensures needed { (h : Holding) → IsShown (seen_in V.seen draft.old) dir h → is_hashed_in h ≡ true → IfNeedBlock result (IsNeededForName (seen_in V.seen draft.old) h name.now) }
    ensures absent { IfNeedBlock result (λ missing. (seen_in V.seen draft.old).block_at missing.block ≡ None) }
    ensures waits { IfNeedBlock result (λ missing. (draft.new ≡ draft.old) × (room.new.items ≡ room.old.items)) }
    ensures damaged { (h : Holding) → IsShown (seen_in V.seen draft.old) dir h → is_hashed_in h ≡ true → IfDamaged result (IsWrongForName (seen_in V.seen draft.old) h) }
    ensures kept { IfDamaged result (IsOfView (seen_in V.seen draft.old)) }
    ensures stays { IfDamaged result (λ rule block. (draft.new ≡ draft.old) × (room.new.items ≡ room.old.items)) }
    ensures view { draft.new.view ≡ draft.old.view }
{
    let mut table = match TreeTable::of(&*draft, dir)? {
        Step::Is(table) => table,
        Step::NeedBlock(missing) => return Ok(Step::NeedBlock(missing)),
    };
    hash_inserts::insert(alloc, draft, dir, name, entry, room, &mut table)
}

// The block at the front of a room.
fn first_block(room: &VecDeque<u64>) -> Option<u64>
    ensures { result ≡ slice_get room.now.items 0 }
{
    room.front().copied()
}

// Makes a linear directory a hashed one, and puts the name there; and tells whether that was done.
fn put_converted<V: View>(
    alloc: Global,
    draft: &mut Draft<'_, V>,
    dir: u64,
    name: &[u8],
    entry: Entry,
    room: &mut VecDeque<u64>,
) -> Result<Step<bool>, CallFault>
    requires linear { IsLinearIn (seen_in V.seen draft.old) dir }
    requires room { (b : ℕ) → Contains room.old.items b → HasDataBlock (seen_in V.seen draft.old) b }
    requires some { 1 ≤ length name.now }
    requires short { length name.now ≤ 255 }
    requires number { entry.number ≢ 0 }
    requires address { entry.addr ≢ 0 }
    ensures put { (h : Holding) → inode.IsShown (seen_in V.seen draft.old) dir h → is_hashed_in h ≡ false → has_linear_room h name.now ≡ false → CanGetName h name.now room.old.items
        → IfIs result (λ done. (done ≡ true) × ((g : Holding) × IsShown (seen_in V.seen draft.new) dir g × PutsName draft.old.fates draft.new.fates room.old.items room.new.items name.now entry h g)) }
    ensures inside { IfIs result (λ done. done ≡ true → StaysInside (seen_in V.seen draft.old) draft.old.fates draft.new.fates room.old.items room.new.items dir) }
    ensures needed { IfNeedBlock result (λ missing. missing ≡ missing_dinode dir) }
    ensures absent { IfNeedBlock result (λ missing. (seen_in V.seen draft.old).block_at dir ≡ None) }
    ensures waits { IfNeedBlock result (λ missing. (draft.new ≡ draft.old) × (room.new.items ≡ room.old.items)) }
    ensures damaged { (h : Holding) → inode.IsShown (seen_in V.seen draft.old) dir h → IfDamaged result (linear.IsBroken h) }
    ensures kept { IfDamaged result (IsOfView (seen_in V.seen draft.old)) }
    ensures stays { IfDamaged result (λ rule block. (draft.new ≡ draft.old) × (room.new.items ≡ room.old.items)) }
    ensures view { draft.new.view ≡ draft.old.view }
{
    checksums_have_32_bits();
    let first = first_block(&*room);
    let hashed = match to_hashed(alloc, draft, dir, room)? {
        Step::Is(hashed) => hashed,
        Step::NeedBlock(missing) => return Ok(Step::NeedBlock(missing)),
    };
    if !hashed {
        return Ok(Step::Is(false));
    }
    let Some(leaf) = first else {
        return Ok(Step::Is(false));
    };
    let mut table = TreeTable {
        directory: dir,
        depth: first_depth(draft.block_size() as usize),
    };
    let done = insert_first(alloc, draft, dir, leaf, name, entry, room, &mut table)?;
    Ok(Step::Is(done))
}

/// Puts a name that isn't there and leads to this entry into the directory with its dinode in this block, and counts it. A linear directory that
/// has no room for it becomes a hashed one. Blocks are taken for that from the front of `room`, as many as `need_name` tells; each block of it is
/// a data block of a group. The answer is whether
/// that was done: `false` where the room isn't enough or the directory isn't sound, and then the draft may be half done, and is to be dropped.
/// It looks at what `need_name` looks at before it changes anything. It costs what `need_name` costs, and a few copies of each block that it puts.
pub fn put_name<V: View>(
    alloc: Global,
    draft: &mut Draft<'_, V>,
    dir: u64,
    name: &[u8],
    entry: Entry,
    room: &mut VecDeque<u64>,
) -> Result<Step<bool>, CallFault>
    requires directory { IsDirectoryIn (seen_in V.seen draft.old) dir }
    requires room { (b : ℕ) → Contains room.old.items b → HasDataBlock (seen_in V.seen draft.old) b }
    requires some { 1 ≤ length name.now }
    requires short { length name.now ≤ 255 }
    requires number { entry.number ≢ 0 }
    requires address { entry.addr ≢ 0 }
    ensures put { (h : Holding) → IsShown (seen_in V.seen draft.old) dir h → CanGetName h name.now room.old.items
        → IfIs result (λ done. (done ≡ true) × ((g : Holding) × IsShown (seen_in V.seen draft.new) dir g × PutsName draft.old.fates draft.new.fates room.old.items room.new.items name.now entry h g)) }
    ensures linear { (h : Holding) → IsShown (seen_in V.seen draft.old) dir h → is_hashed_in h ≡ false → has_linear_room h name.now ≡ true
        → IfIs result (λ done. (done ≡ true) × (room.new.items ≡ room.old.items) × IsPutInLinear h (holding_over (seen_in V.seen draft.new) h) name.now entry) }
    ensures inside { IfIs result (λ done. done ≡ true → StaysInside (seen_in V.seen draft.old) draft.old.fates draft.new.fates room.old.items room.new.items dir) }
    ensures needed { (h : Holding) → IsShown (seen_in V.seen draft.old) dir h → IfNeedBlock result (IsNeededForName (seen_in V.seen draft.old) h name.now) }
    ensures absent { IfNeedBlock result (λ missing. (seen_in V.seen draft.old).block_at missing.block ≡ None) }
    ensures waits { IfNeedBlock result (λ missing. (draft.new ≡ draft.old) × (room.new.items ≡ room.old.items)) }
    ensures damaged { (h : Holding) → IsShown (seen_in V.seen draft.old) dir h → IfDamaged result (IsWrongForName (seen_in V.seen draft.old) h) }
    ensures kept { IfDamaged result (IsOfView (seen_in V.seen draft.old)) }
    ensures stays { IfDamaged result (λ rule block. (draft.new ≡ draft.old) × (room.new.items ≡ room.old.items)) }
    ensures view { draft.new.view ≡ draft.old.view }
{
    checksums_have_32_bits();
    let dinode = match read_dinode(&*draft, dir)? {
        Step::Is(dinode) => dinode,
        Step::NeedBlock(missing) => return Ok(Step::NeedBlock(missing)),
    };
    if is_hashed(&dinode) {
        return put_in_hashed(alloc, draft, dir, name, entry, room);
    }
    match linear_dirs::insert(draft, dir, name, entry)? {
        Step::Is(true) => Ok(Step::Is(true)),
        Step::Is(false) => put_converted(alloc, draft, dir, name, entry, room),
        Step::NeedBlock(missing) => Ok(Step::NeedBlock(missing)),
    }
}
