// Bytes that are written to a file.
ghost use Rattle.std.specs.Prelude.{ℕ, List, ◌≡◌, ◌≢◌, ◌+◌, ◌≤◌, true, length, IfOk, IfSome, IsSomeAnd, Contains};
ghost use Rattle.drafts.specs.Fates.{seen_in};
ghost use Rattle.file_tree.specs.Apply.{file_limit};
ghost use Rattle.gfs2_layout.specs.Holding.{Holding};
ghost use Rattle.gfs2_layout.specs.Inode.{dinode_in};
ghost use Rattle.gfs2_layout.specs.Structures.{dinode_length};
ghost use Rattle.glock_names.specs.Steps.{IfDamaged, IfIs, IfNeedBlock};
ghost use Rattle.glock_names.specs.Views.{HasBlock, IsOfView};
ghost use Rattle.dinode_tree.specs.Broken.{IsBroken};
ghost use Rattle.dinode_tree.specs.Reading.{IsNeeded};
ghost use Rattle.dinode_tree.specs.Shown.{IsShown};
ghost use Rattle.growth_laws.specs.Files.{IsFile};
ghost use Rattle.growth_laws.specs.Need.{height_for, needed};
ghost use Rattle.growth_drafts.specs.Taken.{IsLookedAt};
ghost use Rattle.growth_drafts.specs.Touched.{Follows};
ghost use Rattle.file_heights.specs.Filling.{IsSeenWay};
ghost use Rattle.file_growth.specs.Written.{CanWrite, HasWritten, size_with};

use crate::stretching::stretch;
use dinode_tree::read_dinode;
use drafts::Draft;
use file_heights::{has_room, need_write, write_pieces};
use gfs2_layout::Dinode;
use glock_names::{CallFault, Step, View};
use growth_steps::put_stuffed;
use no_memory::NoMemory;
use std::alloc::Global;
use std::collections::VecDeque;

// A regular file's dinode; None where the view hasn't it, it breaks a rule, or is another inode's.
fn file_in<V: View>(view: &V, inode: u64) -> Option<Dinode>
    ensures found { (h : Holding) → IsFile h → IsShown (V.seen view.now) inode h → HasBlock (V.seen view.now) inode → IsSomeAnd result (λ d. d ≡ dinode_in h) }
    ensures there { IfSome result (λ d. HasBlock (V.seen view.now) inode) }
    ensures low { IfSome result (λ d. d.height ≤ 10) }
    ensures stuffed { IfSome result (λ d. d.height ≡ 0 → dinode_length + d.size ≤ (V.seen view.now).size) }
{
    match read_dinode(view, inode) {
        Ok(Step::Is(dinode)) => {
            if dinode.is_regular() {
                return Some(dinode);
            }
            None
        }
        Ok(Step::NeedBlock(_)) => None,
        Err(_) => None,
    }
}

// Writes bytes to a file that is to have its content in blocks. False where the draft isn't that of such a file, or the room isn't enough.
fn write_blocks<V: View>(
    alloc: Global,
    draft: &mut Draft<'_, V>,
    inode: u64,
    dinode: &Dinode,
    at: u64,
    bytes: &[u8],
    need: u64,
    room: &mut VecDeque<u64>,
) -> Result<bool, NoMemory>
    requires short { at + length bytes.now ≤ file_limit }
    requires there { HasBlock (seen_in V.seen draft.old) inode }
    requires room { dinode_length ≤ (V.seen draft.old.view).size }
    requires low { dinode.now.height ≤ 10 }
    requires stuffed { dinode.now.height ≡ 0 → dinode_length + dinode.now.size ≤ (V.seen draft.old.view).size }
    ensures written { (h : Holding) → IsShown (seen_in V.seen draft.old) inode h → dinode.now ≡ dinode_in h → CanWrite h at (length bytes.now) room.old.items → need ≡ needed h at (length bytes.now)
        → height_for h (size_with h (at + length bytes.now)) ≢ 0 → ((i : ℕ) → IsLookedAt h at (at + length bytes.now) i → IsSeenWay (seen_in V.seen draft.old) h i)
        → IfOk result (λ done. (done ≡ true) × HasWritten (seen_in V.seen draft.new) draft.old.fates draft.new.fates room.old.items room.new.items h at bytes.now) }
    ensures view { draft.new.view ≡ draft.old.view }
    ensures within { IfOk result (λ done. Follows (V.seen draft.old.view) inode room.old.items draft.old.fates draft.new.fates) }
{
    let end = at + bytes.len() as u64;
    if !stretch(alloc, draft, inode, dinode, end, need, room)? {
        return Ok(false);
    }
    write_pieces(alloc, draft, inode, at, bytes, room)
}

// Writes bytes to a file of which every block is seen that the write looks at. False where the draft isn't that of such a file, or the room
// isn't enough.
fn write_seen<V: View>(
    alloc: Global,
    draft: &mut Draft<'_, V>,
    inode: u64,
    at: u64,
    bytes: &[u8],
    need: u64,
    room: &mut VecDeque<u64>,
) -> Result<bool, NoMemory>
    requires short { at + length bytes.now ≤ file_limit }
    ensures written { (h : Holding) → IsShown (seen_in V.seen draft.old) inode h → HasBlock (seen_in V.seen draft.old) inode → CanWrite h at (length bytes.now) room.old.items → need ≡ needed h at (length bytes.now)
        → ((i : ℕ) → IsLookedAt h at (at + length bytes.now) i → IsSeenWay (seen_in V.seen draft.old) h i)
        → IfOk result (λ done. (done ≡ true) × HasWritten (seen_in V.seen draft.new) draft.old.fates draft.new.fates room.old.items room.new.items h at bytes.now) }
    ensures view { draft.new.view ≡ draft.old.view }
    ensures within { IfOk result (λ done. Follows (V.seen draft.old.view) inode room.old.items draft.old.fates draft.new.fates) }
{
    let Some(dinode) = file_in(&*draft, inode) else {
        return Ok(false);
    };
    let size = draft.block_size() as usize;
    let end = at + bytes.len() as u64;
    if dinode.height == 0 && has_room(size, 0, dinode.size.max(end)) {
        put_stuffed(draft, inode, &dinode, at as usize, bytes)?;
        return Ok(true);
    }
    write_blocks(alloc, draft, inode, &dinode, at, bytes, need, room)
}

/// Writes bytes over a file's content from byte `at` on, with zeros between its end and that place: without bytes, the file goes on to `at`
/// with zeros. The file gets as high as it takes. The blocks of `room` may be taken, from its front, as many as `need_write` says. A block
/// that was a hole before reads as zeros where nothing is written. Before it changes anything it looks at all blocks that the write looks
/// at, and asks for those that the draft doesn't see. The answer is whether the bytes were written: `false` where the room isn't enough, or
/// the draft isn't that of a sound file; then the draft may be half done, as it may after want of memory, and whoever gets one of these
/// drops it and the room. It costs a walk for each block of content between, and one more for each block that is taken, and two copies of
/// each block that is put.
pub fn write_range<V: View>(
    alloc: Global,
    draft: &mut Draft<'_, V>,
    inode: u64,
    at: u64,
    bytes: &[u8],
    room: &mut VecDeque<u64>,
) -> Result<Step<bool>, CallFault>
    requires short { at + length bytes.now ≤ file_limit }
    ensures written { (h : Holding) → IsShown (seen_in V.seen draft.old) inode h → CanWrite h at (length bytes.now) room.old.items
        → IfIs result (λ done. (done ≡ true) × HasWritten (seen_in V.seen draft.new) draft.old.fates draft.new.fates room.old.items room.new.items h at bytes.now) }
    ensures within { IfIs result (λ done. Follows (V.seen draft.old.view) inode room.old.items draft.old.fates draft.new.fates) }
    ensures view { draft.new.view ≡ draft.old.view }
    ensures there { IfIs result (λ done. HasBlock (seen_in V.seen draft.old) inode) }
    ensures needed { (h : Holding) → IsShown (seen_in V.seen draft.old) inode h → IfNeedBlock result (IsNeeded (seen_in V.seen draft.old) h (IsLookedAt h at (at + length bytes.now)) 0) }
    ensures unchanged { IfNeedBlock result (λ missing. (draft.new ≡ draft.old) × (room.new.items ≡ room.old.items)) }
    ensures damaged { (h : Holding) → IsShown (seen_in V.seen draft.old) inode h → IfDamaged result (IsBroken h) }
    ensures kept { IfDamaged result (IsOfView (seen_in V.seen draft.old)) }
{
    let need = match need_write(&*draft, inode, at, bytes.len() as u32)? {
        Step::Is(need) => need,
        Step::NeedBlock(missing) => return Ok(Step::NeedBlock(missing)),
    };
    if need > room.len() as u64 {
        return Ok(Step::Is(false));
    }
    let done = write_seen(alloc, draft, inode, at, bytes, need, room)?;
    Ok(Step::Is(done))
}
