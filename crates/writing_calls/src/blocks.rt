// Bytes that go into blocks of a file.
ghost use Rattle.std.specs.Prelude.{◌≡◌, ◌+◌, ◌<◌, ◌≤◌, false, length, IfOk};
ghost use Rattle.file_tree.specs.Apply.{file_limit};
ghost use Rattle.gfs2_layout.specs.Structures.{is_directory};
ghost use Rattle.file_tree.specs.Tree.{Tree};
ghost use Rattle.file_tree.specs.declared.reply.Reply.TheVariants.{Ok as OkReply};
ghost use Rattle.glock_names.specs.Steps.{IfDamaged};
ghost use Rattle.glock_names.specs.Views.{IsOfView, IsView};
ghost use Rattle.call_locks.specs.WantLaws.{path_of};
ghost use Rattle.call_locks.specs.Wants.{wanted};
ghost use Rattle.image_model.specs.Image.{Image};
ghost use Rattle.image_model.specs.Owners.{Owners};
ghost use Rattle.image_model.specs.Stands.{Layout};
ghost use Rattle.image_changes.specs.Does.{AreInside, Does, IsOf};
ghost use Rattle.path_walks.specs.Walks.{IsSeenAt, IsWalked};
ghost use Rattle.path_walks.specs.declared.walk.Walk.TheVariants.{At};
ghost use Rattle.resource_groups.specs.Putting.{HasDataBlock};
ghost use Rattle.writing_calls.specs.Writing.{GoesIntoBlocks, IfWritten, IsDamage, IsFound, IsNeedOf, IsRefusal, IsToldOf, Puts};

use crate::finds::Found;
use drafts::Stamp;
use file_changes::{need_write, write_file, writes_make_files};
use file_tree::Call;
use glock_names::{CallFault, Step, View};
use growth_laws::files_are_inodes;
use path_walks::Place;
use room_search::{Locked, Taken, find_room};
use std::alloc::Global;

// A law: what a node sees is a view of an image.
pub(crate) fn is_a_view<V: View>(view: &V)
    ensures { IsView (V.seen view.now) }
{
    view.block_size();
}

// Writes bytes into blocks of the file at a place, with so many free blocks as that needs.
fn take_and_write<V: View>(
    alloc: Global,
    view: &V,
    call: &Call,
    place: &Place,
    at: u64,
    new: &[u8],
    need: u64,
    stamp: &Stamp,
) -> Result<Found, CallFault>
    requires groups { 1 ≤ length (V.seen view.now).groups }
    requires node { 1 ≤ stamp.now.node }
    requires seen { IsSeenAt (V.seen view.now) (wanted call.now) (path_of call.now false) place.now }
    requires walked { (im : Image) (o : Owners) (l : Layout) (t : Tree) → IsOf (V.seen view.now) im o l t → IsWalked (V.seen view.now) im o l t (path_of call.now false) (wanted call.now) (At place.now) }
    requires puts { Puts call.now place.now.dinode.size at new.now }
    requires blocks { GoesIntoBlocks (V.seen view.now) call.now place.now.inode }
    requires file { is_directory place.now.dinode ≡ false }
    requires short { at + length new.now ≤ file_limit }
    requires inside { HasDataBlock (V.seen view.now) place.now.inode }
    requires need { IsNeedOf (V.seen view.now) place.now.inode at new.now need }
    ensures found { (im : Image) (o : Owners) (l : Layout) (t : Tree) → IsOf (V.seen view.now) im o l t → IfOk result (IsFound (V.seen view.now) im o l t call.now stamp.now.node) }
    ensures done { IfOk result (IfWritten (Does (V.seen view.now) call.now OkReply)) }
    ensures inside { IfOk result (IfWritten (AreInside (V.seen view.now))) }
    ensures refusal { IfOk result IsRefusal }
    ensures told { IfOk result (IsToldOf (V.seen view.now) call.now stamp.now.node stamp.now.time) }
    ensures sound { (im : Image) (o : Owners) (l : Layout) (t : Tree) → IsOf (V.seen view.now) im o l t → IfDamaged result (λ rule block. ⊥) }
    ensures damaged { IfDamaged result (IsDamage (V.seen view.now) call.now) }
    ensures kept { IfDamaged result (IsOfView (V.seen view.now)) }
{
    is_a_view(view);
    files_are_inodes();
    writes_make_files();
    let room = match find_room(alloc, view, stamp.node, need)? {
        Locked::Is(Taken::Is(room)) => room,
        Locked::Is(Taken::TooFew(free)) => return Ok(Found::NoSpace { need, free }),
        Locked::NeedLock { lock, state } => return Ok(Found::NeedLock { lock, state }),
        Locked::NeedBlock(missing) => return Ok(Found::NeedBlock(missing)),
    };
    match write_file(alloc, view, place.inode, at, new, stamp.time, &room)? {
        Step::Is(Some(change)) => Ok(Found::Written(change)),
        Step::Is(None) => Ok(Found::NotBuilt),
        Step::NeedBlock(missing) => Ok(Found::NeedBlock(missing)),
    }
}

/// Writes bytes into blocks of the file at a place, whose dinode's block is a data block of a group, from byte `at` on; without bytes, the file
/// goes on to `at`. The blocks that this needs are counted, and found in groups under their locks. It costs what `need_write`, `find_room` and
/// `write_file` cost.
pub(crate) fn write_blocks<V: View>(
    alloc: Global,
    view: &V,
    call: &Call,
    place: &Place,
    at: u64,
    new: &[u8],
    stamp: &Stamp,
) -> Result<Found, CallFault>
    requires groups { 1 ≤ length (V.seen view.now).groups }
    requires node { 1 ≤ stamp.now.node }
    requires seen { IsSeenAt (V.seen view.now) (wanted call.now) (path_of call.now false) place.now }
    requires walked { (im : Image) (o : Owners) (l : Layout) (t : Tree) → IsOf (V.seen view.now) im o l t → IsWalked (V.seen view.now) im o l t (path_of call.now false) (wanted call.now) (At place.now) }
    requires puts { Puts call.now place.now.dinode.size at new.now }
    requires blocks { GoesIntoBlocks (V.seen view.now) call.now place.now.inode }
    requires file { is_directory place.now.dinode ≡ false }
    requires short { at + length new.now ≤ file_limit }
    requires inside { HasDataBlock (V.seen view.now) place.now.inode }
    ensures found { (im : Image) (o : Owners) (l : Layout) (t : Tree) → IsOf (V.seen view.now) im o l t → IfOk result (IsFound (V.seen view.now) im o l t call.now stamp.now.node) }
    ensures done { IfOk result (IfWritten (Does (V.seen view.now) call.now OkReply)) }
    ensures inside { IfOk result (IfWritten (AreInside (V.seen view.now))) }
    ensures refusal { IfOk result IsRefusal }
    ensures told { IfOk result (IsToldOf (V.seen view.now) call.now stamp.now.node stamp.now.time) }
    ensures sound { (im : Image) (o : Owners) (l : Layout) (t : Tree) → IsOf (V.seen view.now) im o l t → IfDamaged result (λ rule block. ⊥) }
    ensures damaged { IfDamaged result (IsDamage (V.seen view.now) call.now) }
    ensures kept { IfDamaged result (IsOfView (V.seen view.now)) }
{
    match need_write(view, place.inode, at, new.len() as u32)? {
        Step::Is(need) => take_and_write(alloc, view, call, place, at, new, need, stamp),
        Step::NeedBlock(missing) => Ok(Found::NeedBlock(missing)),
    }
}
