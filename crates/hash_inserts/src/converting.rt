// A linear directory that becomes a hashed one in a draft.
ghost use Rattle.std.specs.Prelude.{ℕ, List, ◌≡◌, ◌≢◌, ◌⊎◌, ◌+◌, ◌-◌, ◌*◌, ◌^◌, ◌<◌, ◌≤◌, [], ◌∷◌, true, false, None, Some, IfOk, IfSome, IfNone, length, drop, replicate};
ghost use Rattle.std.specs.FinMap.{get as fate_of, insert as with_fate};
ghost use Rattle.std.specs.Int.{w64};
ghost use Rattle.drafts.specs.declared.fate.Fate.TheVariants.{Put};
ghost use Rattle.drafts.specs.Fates.{seen_in};
ghost use Rattle.gfs2_layout.specs.Area.{IsArea};
ghost use Rattle.gfs2_layout.specs.Bytes.{u64_at, with_number};
ghost use Rattle.gfs2_layout.specs.Device.{IsBlockSize};
ghost use Rattle.gfs2_layout.specs.Holding.{Holding};
ghost use Rattle.gfs2_layout.specs.Inode.{is_directory_in, is_hashed_in, leaf_length};
ghost use Rattle.glock_names.specs.Steps.{IfIs, IfNeedBlock, IfDamaged};
ghost use Rattle.glock_names.specs.Views.{HasBlock, IsOfView};
ghost use Rattle.dinode_tree.specs.Reading.{inode_lock};
ghost use Rattle.dinode_tree.specs.Shown as inode;
ghost use Rattle.dinode_tree.specs.Walking.{missing_dinode};
ghost use Rattle.growth_drafts.specs.Taken.{AreFreeFor};
ghost use Rattle.linear_dirs.specs.Broken as linear;
ghost use Rattle.linear_dirs.specs.Shown.{IsLinearIn};
ghost use Rattle.hash_steps.specs.Shown.{IsShown, IsSound};
ghost use Rattle.hash_steps.specs.Steps.{first_count};
ghost use Rattle.hash_inserts.specs.Converting.{AreConverted, CanConvert, IsFirstLeaf, IsTableWritten, hashed_dinode};
ghost use Rattle.hash_inserts.specs.Inserting.{Converts, ConvertsWithin, IsPutUnder};

use dinode_tree::sound_inodes_are_shown;
use drafts::Draft;
use gfs2_layout::{DINODE_LENGTH, Dinode, Leaf, is_area};
use glock_names::{CallFault, Step, View};
use hash_steps::{IN_LEAF, conversions_stay};
use leaf_areas::move_records;
use linear_dirs::{lock_of, look};
use no_memory::NoMemory;
use std::alloc::Global;
use std::collections::VecDeque;

// A number over the eight bytes at a place.
#[tactic(auto, unfolding(gfs2_layout::specs::Bytes::with_number))]
fn put_number(bytes: &mut [u8], at: usize, number: u64)
    requires { at + 8 ≤ length bytes.old }
    ensures bytes { bytes.new ≡ with_number w64 at number bytes.old }
    ensures width { number < 2 ^ 64 }
{
    bytes[at..at + 8].copy_from_slice(&number.to_be_bytes());
}

// So many pointers to this leaf, one behind another, and zeros behind them.
fn write_pointers(area: &mut [u8], count: usize, leaf: u64)
    requires { 8 * count ≤ length area.old }
    ensures pointers { (i : ℕ) → i < count → u64_at (8 * i) area.new ≡ leaf }
    ensures clear { drop (8 * count) area.new ≡ replicate (length area.old - 8 * count) 0 }
    ensures long { length area.new ≡ length area.old }
{
    area.fill(0);
    for k in 0..count {
        put_number(area, 8 * k, leaf);
    }
}

/// Puts a dinode over that of a directory's block, and the first table behind it, whose pointers lead to this leaf.
fn write_table(bytes: &mut [u8], dinode: &Dinode, leaf: u64)
    requires { IsBlockSize (length bytes.old) }
    ensures { IsTableWritten bytes.old bytes.new dinode.now leaf }
{
    let count = bytes.len() / 16;
    write_pointers(&mut bytes[DINODE_LENGTH..], count, leaf);
    dinode.write(bytes);
}

/// Makes a leaf of depth 0 with the records of an area, in order.
pub(crate) fn write_first(area: &[u8], bytes: &mut [u8])
    requires filled { IsArea area.now }
    requires room { length area.now + leaf_length ≤ length bytes.old }
    requires large { 512 ≤ length bytes.old }
    requires short { length bytes.old ≤ 4096 }
    ensures { IsFirstLeaf area.now bytes.old bytes.new }
{
    let entries = move_records(area, &mut bytes[IN_LEAF..]);
    let head = Leaf {
        depth: 0,
        entries,
        next: 0,
    };
    head.write(bytes);
}

/// The depth of a directory's first table, in blocks of this size.
pub fn first_depth(size: usize) -> u16
    requires { IsBlockSize size }
    ensures count { 2 ^ result ≡ first_count size }
    ensures most { result ≤ 8 }
{
    match size {
        512 => 5,
        1024 => 6,
        2048 => 7,
        _ => 8,
    }
}

// The dinode of a linear directory that becomes a hashed one; none where its flags or its count of blocks would run over.
fn hashed(dinode: &Dinode, size: usize) -> Option<Dinode>
    requires { IsBlockSize size }
    ensures some { IfSome result (λ d. d ≡ hashed_dinode dinode.now size d.depth) }
    ensures deep { IfSome result (λ d. 2 ^ d.depth ≡ first_count size) }
    ensures none { IfNone result ((2 ^ 32 ≤ dinode.now.flags + 2) ⊎ (2 ^ 64 ≤ dinode.now.blocks + 1)) }
{
    let flags = dinode.flags.checked_add(2)?;
    let blocks = dinode.blocks.checked_add(1)?;
    Some(Dinode {
        flags,
        depth: first_depth(size),
        size: 8 * (size as u64 / 16),
        blocks,
        ..*dinode
    })
}

// Makes of the block of a linear directory's dinode that of a hashed one, whose records are in a new leaf's block; and tells whether that was
// done: where the block can be that of a linear directory, it is. Where it isn't, the block stays.
fn convert(bytes: &mut [u8], new: &mut [u8], leaf: u64) -> bool
    requires size { IsBlockSize (length bytes.old) }
    requires zeros { new.old ≡ replicate (length bytes.old) 0 }
    ensures { CanConvert bytes.old → (result ≡ true) × AreConverted bytes.old bytes.new new.new leaf }
{
    let Ok(dinode) = Dinode::read(bytes) else {
        return false;
    };
    let Some(hashed) = hashed(&dinode, bytes.len()) else {
        return false;
    };
    if !is_area(&bytes[DINODE_LENGTH..]) {
        return false;
    }
    write_first(&bytes[DINODE_LENGTH..], new);
    write_table(bytes, &hashed, leaf);
    true
}

// Makes the linear directory a hashed one whose records are in this leaf; and tells whether that was done: of a sound directory it is.
fn convert_in<V: View>(
    alloc: Global,
    draft: &mut Draft<'_, V>,
    dir: u64,
    leaf: u64,
) -> Result<bool, NoMemory>
    ensures put { (bytes : List ℕ) → (seen_in V.seen draft.old).block_at dir ≡ Some bytes → CanConvert bytes → IfOk result (λ done. (done ≡ true)
        × ((table new : List ℕ) × AreConverted bytes table new leaf
        × (draft.new ≡ record draft.old { fates = with_fate (with_fate draft.old.fates leaf (Put (inode_lock dir) false new)) dir (Put (inode_lock dir) false table) }))) }
    ensures undone { IfOk result (λ done. done ≡ false → draft.new ≡ draft.old) }
    ensures inside { IfOk result (λ done. (b : ℕ) → (fate_of draft.new.fates b ≡ fate_of draft.old.fates b) ⊎ (((b ≡ dir) ⊎ (b ≡ leaf)) × IsPutUnder draft.new.fates dir b)) }
    ensures view { draft.new.view ≡ draft.old.view }
{
    let _size = draft.block_size();
    let Some(mut bytes) = draft.copy(dir)? else {
        return Ok(false);
    };
    let mut new = vec![in alloc; 0u8; bytes.len()]?;
    if !convert(&mut bytes, &mut new, leaf) {
        return Ok(false);
    }
    draft.put(lock_of(dir), leaf, false, &new)?;
    draft.put(lock_of(dir), dir, false, &bytes)?;
    Ok(true)
}

/// Makes the linear directory with its dinode in this block a hashed one: all its records go into one leaf of depth 0, the block at the
/// front of `room`, in order, and the table of the first size, behind the dinode, leads to it. The answer is whether that was done: `false`
/// where the room is empty or the directory isn't sound; then the draft is as it was, but the room may be a block shorter. It looks
/// at what a linear directory's `look` looks at before it changes anything. It costs a step for each record and each pointer, and three
/// copies of a block.
pub fn to_hashed<V: View>(
    alloc: Global,
    draft: &mut Draft<'_, V>,
    dir: u64,
    room: &mut VecDeque<u64>,
) -> Result<Step<bool>, CallFault>
    requires linear { IsLinearIn (seen_in V.seen draft.old) dir }
    ensures put { (h : Holding) → inode.IsShown (seen_in V.seen draft.old) dir h → IsSound h → is_directory_in h ≡ true → is_hashed_in h ≡ false → h.count < 2 ^ 64 → AreFreeFor h room.old.items → 1 ≤ length room.old.items
        → IfIs result (λ done. (done ≡ true) × ((g : Holding) × IsShown (seen_in V.seen draft.new) dir g
        × ((is : Converts draft.old.fates draft.new.fates room.old.items room.new.items h g) × HasBlock (seen_in V.seen draft.new) h.own × HasBlock (seen_in V.seen draft.new) is.block))) }
    ensures inside { (h : Holding) → inode.IsShown (seen_in V.seen draft.old) dir h → IfIs result (λ done. done ≡ true → ConvertsWithin draft.old.fates draft.new.fates room.old.items room.new.items h) }
    ensures undone { IfIs result (λ done. done ≡ false → draft.new ≡ draft.old) }
    ensures needed { IfNeedBlock result (λ missing. missing ≡ missing_dinode dir) }
    ensures absent { IfNeedBlock result (λ missing. (seen_in V.seen draft.old).block_at dir ≡ None) }
    ensures waits { IfNeedBlock result (λ missing. (draft.new ≡ draft.old) × (room.new.items ≡ room.old.items)) }
    ensures damaged { (h : Holding) → inode.IsShown (seen_in V.seen draft.old) dir h → IfDamaged result (linear.IsBroken h) }
    ensures kept { IfDamaged result (IsOfView (seen_in V.seen draft.old)) }
    ensures stays { IfDamaged result (λ rule block. (draft.new ≡ draft.old) × (room.new.items ≡ room.old.items)) }
    ensures view { draft.new.view ≡ draft.old.view }
{
    conversions_stay();
    sound_inodes_are_shown();
    if let Step::NeedBlock(missing) = look(&*draft, dir, b".".as_slice())? {
        return Ok(Step::NeedBlock(missing));
    }
    let Some(leaf) = room.pop_front() else {
        return Ok(Step::Is(false));
    };
    let done = convert_in(alloc, draft, dir, leaf)?;
    Ok(Step::Is(done))
}
