// Bytes that are written into a file in blocks.
ghost use Rattle.std.specs.Prelude.{ℕ, List, ◌≡◌, ◌≢◌, ◌⊎◌, ◌+◌, ◌-◌, ◌*◌, ◌/◌, ◌%◌, ◌<◌, ◌≤◌, true, None, length, take, drop, ◌∷◌, IfOk, OnOk, IfSome, IfNone, IsSomeAnd, Contains};
ghost use Rattle.drafts.specs.Fates.{seen_in};
ghost use Rattle.file_tree.specs.Apply.{file_limit, overwritten};
ghost use Rattle.gfs2_layout.specs.Holding.{Holding};
ghost use Rattle.gfs2_layout.specs.Inode.{content_of, dinode_in, height_in};
ghost use Rattle.glock_names.specs.Steps.{IfDamaged, IfIs, IfNeedBlock};
ghost use Rattle.glock_names.specs.Views.{HasBlock, IsOfView};
ghost use Rattle.dinode_tree.specs.Broken.{IsBroken};
ghost use Rattle.dinode_tree.specs.Reading.{IsNeeded};
ghost use Rattle.dinode_tree.specs.Shown.{IsShown};
ghost use Rattle.growth_laws.specs.Files.{IsFile};
ghost use Rattle.growth_drafts.specs.Taken.{HasBytes};
ghost use Rattle.growth_drafts.specs.Touched.{Follows, IsReached};
ghost use Rattle.file_walks.specs.Walks.{IsOfInode, IsPlace, IsStop, LeadsOn};
ghost use Rattle.file_fills.specs.Filling.{HasFilled, IsRoomFor, IsSeenWay};
ghost use Rattle.file_fills.specs.Progress.{HasBlockAt, HasGone};

use crate::looking::{lacks, look_between};
use crate::numbers::places_over;
use dinode_tree::read_dinode;
use drafts::Draft;
use file_walks::{Stop, fill_hole, find_place, put_content};
use glock_names::{CallFault, Step, View};
use no_memory::NoMemory;
use std::alloc::Global;
use std::collections::VecDeque;

// The stop, where the view has the block to which its pointer leads, if it leads to one.
fn seen_stop<V: View>(view: &V, stop: Stop) -> Option<Stop>
    ensures is { IfSome result (λ found. found ≡ stop) }
    ensures block { IfSome result (λ found. stop.block ≢ 0 → HasBlock (V.seen view.now) stop.block) }
    ensures none { IfNone result (stop.block ≢ 0) }
    ensures absent { IfNone result ((V.seen view.now).block_at stop.block ≡ None) }
{
    if lacks(view, stop.block) {
        return None;
    }
    Some(stop)
}

/// The pointer of the block of content with an index, or the first on the way to it that leads nowhere. None where the view lacks a block on
/// the way, or the block itself; where something there breaks a rule; and where the file isn't so long. It costs a look at each block on the
/// way, and no memory.
pub fn way_to<V: View>(view: &V, inode: u64, index: u64) -> Option<Stop>
    ensures found { (h : Holding) → IsFile h → IsShown (V.seen view.now) inode h → IsPlace h 0 index → IsSeenWay (V.seen view.now) h index → IsSomeAnd result (IsStop h 0 index) }
    ensures there { IfSome result (λ stop. HasBlock (V.seen view.now) stop.pointer.from) }
    ensures fits { IfSome result (λ stop. stop.pointer.start + 8 * stop.pointer.index + 8 ≤ (V.seen view.now).size) }
    ensures block { IfSome result (λ stop. stop.block ≢ 0 → HasBlock (V.seen view.now) stop.block) }
    ensures leads { (h : Holding) → IsShown (V.seen view.now) inode h → IfSome result (LeadsOn h 0 index) }
    ensures from { (h : Holding) → IsShown (V.seen view.now) inode h → IfSome result (λ stop. IsOfInode h stop.pointer.from) }
{
    match find_place(view, inode, 0, index) {
        Ok(Step::Is(Some(stop))) => seen_stop(view, stop),
        Ok(Step::Is(None)) => None,
        Ok(Step::NeedBlock(_)) => None,
        Err(_) => None,
    }
}

// Fills the hole at which a walk stopped with a block.
fn fill_one<V: View>(
    alloc: Global,
    draft: &mut Draft<'_, V>,
    inode: u64,
    stop: Stop,
    block: u64,
) -> Result<(), NoMemory>
    requires there { HasBlock (seen_in V.seen draft.old) stop.pointer.from }
    requires fits { stop.pointer.start + 8 * stop.pointer.index + 8 ≤ (V.seen draft.old.view).size }
    ensures filled { (h : Holding) (at end i : ℕ) (left : List ℕ) → IsShown (seen_in V.seen draft.old) inode h → IsRoomFor h at end (block ∷ left) → HasBytes h.size at end i → IsStop h 0 i stop → stop.block ≡ 0
        → OnOk result (HasGone (seen_in V.seen draft.new) draft.old.fates draft.new.fates (block ∷ left) left h at end i (content_of h)) }
    ensures within { (room : List ℕ) → IsReached (seen_in V.seen draft.old) inode room stop.pointer.from → Contains room block
        → OnOk result (Follows (V.seen draft.old.view) inode room draft.old.fates draft.new.fates) }
    ensures view { draft.new.view ≡ draft.old.view }
{
    fill_hole(alloc, draft, inode, stop.pointer, stop.level, block)
}

// Fills the holes on the way to a block of content with blocks from the front of the room, and gives that block. None where the draft isn't
// that of a file whose way there is seen, or the room isn't enough.
fn make_way<V: View>(
    alloc: Global,
    draft: &mut Draft<'_, V>,
    inode: u64,
    index: u64,
    room: &mut VecDeque<u64>,
) -> Result<Option<u64>, NoMemory>
    ensures made { (h : Holding) (at end : ℕ) → IsShown (seen_in V.seen draft.old) inode h → IsRoomFor h at end room.old.items → HasBytes h.size at end index → IsSeenWay (seen_in V.seen draft.old) h index
        → IfOk result (λ made. IsSomeAnd made (λ block. HasBlockAt (seen_in V.seen draft.new) draft.old.fates draft.new.fates room.old.items room.new.items h at end index block (content_of h))) }
    ensures there { IfOk result (λ made. IfSome made (λ block. HasBlock (seen_in V.seen draft.new) block)) }
    ensures within { IfOk result (λ made. Follows (V.seen draft.old.view) inode room.old.items draft.old.fates draft.new.fates) }
    ensures reached { IfOk result (λ made. IfSome made (IsReached (seen_in V.seen draft.new) inode room.old.items)) }
    ensures room { (b : ℕ) → Contains room.new.items b → Contains room.old.items b }
    ensures view { draft.new.view ≡ draft.old.view }
{
    while let Some(stop) = way_to(&*draft, inode, index) {
        if stop.block != 0 {
            return Ok(Some(stop.block));
        }
        let Some(block) = room.pop_front() else {
            return Ok(None);
        };
        fill_one(alloc, draft, inode, stop, block)?;
    }
    Ok(None)
}

// Writes bytes into one block of content, from a place in it on. False where that block can't be had.
fn write_piece<V: View>(
    alloc: Global,
    draft: &mut Draft<'_, V>,
    inode: u64,
    at: u64,
    piece: &[u8],
    room: &mut VecDeque<u64>,
) -> Result<bool, NoMemory>
    requires some { 0 < length piece.now }
    requires fits { at % (V.seen draft.old.view).size + length piece.now ≤ (V.seen draft.old.view).size }
    ensures written { (h : Holding) (from end : ℕ) → IsShown (seen_in V.seen draft.old) inode h → IsRoomFor h from end room.old.items → from ≤ at → at + length piece.now ≤ end
        → IsSeenWay (seen_in V.seen draft.old) h (at / h.size)
        → IfOk result (λ done. (done ≡ true) × ((block : ℕ) × HasBlockAt (seen_in V.seen draft.new) draft.old.fates draft.new.fates room.old.items room.new.items h from end (at / h.size) block (overwritten at piece.now (content_of h)))) }
    ensures within { IfOk result (λ done. Follows (V.seen draft.old.view) inode room.old.items draft.old.fates draft.new.fates) }
    ensures room { (b : ℕ) → Contains room.new.items b → Contains room.old.items b }
    ensures view { draft.new.view ≡ draft.old.view }
{
    let size = u64::from(draft.block_size());
    let Some(block) = make_way(alloc, draft, inode, at / size, room)? else {
        return Ok(false);
    };
    put_content(draft, inode, block, (at % size) as usize, piece)?;
    Ok(true)
}

/// Writes bytes into a file's blocks of content, piece by piece, of which each way is seen that is there; a hole on the way is filled with a
/// block from the front of `room`. False where one of the blocks can't be had. It costs a walk for each block and for each hole on the way
/// there, and two copies of each block that is put.
pub fn write_pieces<V: View>(
    alloc: Global,
    draft: &mut Draft<'_, V>,
    inode: u64,
    at: u64,
    bytes: &[u8],
    room: &mut VecDeque<u64>,
) -> Result<bool, NoMemory>
    requires short { at + length bytes.now ≤ file_limit }
    ensures written { (h : Holding) → IsShown (seen_in V.seen draft.old) inode h → IsRoomFor h at (at + length bytes.now) room.old.items
        → ((i : ℕ) → HasBytes h.size at (at + length bytes.now) i → IsSeenWay (seen_in V.seen draft.old) h i)
        → IfOk result (λ done. (done ≡ true) × HasFilled (seen_in V.seen draft.new) draft.old.fates draft.new.fates room.old.items room.new.items h at bytes.now) }
    ensures within { IfOk result (λ done. Follows (V.seen draft.old.view) inode room.old.items draft.old.fates draft.new.fates) }
    ensures room { (b : ℕ) → Contains room.new.items b → Contains room.old.items b }
    ensures view { draft.new.view ≡ draft.old.view }
{
    let size = draft.block_size() as usize;
    let mut written = 0;
    while written < bytes.len() {
        let place = at + written as u64;
        let left = size - (place % size as u64) as usize;
        let next = bytes.len().min(written + left);
        if !write_piece(alloc, draft, inode, place, &bytes[written..next], room)? {
            return Ok(false);
        }
        written = next;
    }
    Ok(true)
}

/// Writes bytes over the content of a file in blocks, from byte `at` on; the file's size reaches their end already. A hole on the way is
/// filled with a block from the front of `room`. Before it changes anything it looks at all blocks of the file on the way, and asks for
/// those that the draft doesn't see. The answer is whether the bytes were written: `false` where the draft isn't that of such a file, or the
/// room isn't enough, and then the draft may be half done, as it may after want of memory; whoever gets one of these drops it.
/// It costs two looks at each block on the way for each block of content between, and two copies of each block that is put.
pub fn fill<V: View>(
    alloc: Global,
    draft: &mut Draft<'_, V>,
    inode: u64,
    at: u64,
    bytes: &[u8],
    room: &mut VecDeque<u64>,
) -> Result<Step<bool>, CallFault>
    requires short { at + length bytes.now ≤ file_limit }
    ensures filled { (h : Holding) → IsShown (seen_in V.seen draft.old) inode h → IsRoomFor h at (at + length bytes.now) room.old.items
        → IfIs result (λ done. (done ≡ true) × HasFilled (seen_in V.seen draft.new) draft.old.fates draft.new.fates room.old.items room.new.items h at bytes.now) }
    ensures within { IfIs result (λ done. Follows (V.seen draft.old.view) inode room.old.items draft.old.fates draft.new.fates) }
    ensures view { draft.new.view ≡ draft.old.view }
    ensures there { IfIs result (λ done. HasBlock (seen_in V.seen draft.old) inode) }
    ensures needed { (h : Holding) → IsShown (seen_in V.seen draft.old) inode h → IfNeedBlock result (IsNeeded (seen_in V.seen draft.old) h (HasBytes h.size at (at + length bytes.now)) 0) }
    ensures unchanged { IfNeedBlock result (λ missing. draft.new ≡ draft.old) }
    ensures damaged { (h : Holding) → IsShown (seen_in V.seen draft.old) inode h → IfDamaged result (IsBroken h) }
    ensures kept { IfDamaged result (IsOfView (seen_in V.seen draft.old)) }
{
    let dinode = match read_dinode(&*draft, inode)? {
        Step::Is(dinode) => dinode,
        Step::NeedBlock(missing) => return Ok(Step::NeedBlock(missing)),
    };
    let end = at + bytes.len() as u64;
    let (first, until) = places_over(draft.block_size() as usize, 0, at, end);
    match look_between(&*draft, inode, dinode.is_regular(), first, until)? {
        Step::Is(()) => {}
        Step::NeedBlock(missing) => return Ok(Step::NeedBlock(missing)),
    }
    let done = write_pieces(alloc, draft, inode, at, bytes, room)?;
    Ok(Step::Is(done))
}
