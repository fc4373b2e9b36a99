// A file that is cut.
ghost use Rattle.std.specs.Prelude.{◌≡◌, ◌≤◌, false, IfOk};
ghost use Rattle.file_tree.specs.Apply.{file_limit};
ghost use Rattle.gfs2_layout.specs.Structures.{is_directory};
ghost use Rattle.file_tree.specs.Tree.{Tree};
ghost use Rattle.file_tree.specs.declared.reply.Reply.TheVariants.{Ok as OkReply};
ghost use Rattle.glock_names.specs.Steps.{IfDamaged};
ghost use Rattle.glock_names.specs.Views.{IsOfView};
ghost use Rattle.call_locks.specs.WantLaws.{path_of};
ghost use Rattle.call_locks.specs.Wants.{wanted};
ghost use Rattle.image_model.specs.Image.{Image};
ghost use Rattle.image_model.specs.Owners.{Owners};
ghost use Rattle.image_model.specs.Stands.{Layout};
ghost use Rattle.image_changes.specs.Does.{AreInside, Does, IsOf};
ghost use Rattle.path_walks.specs.Walks.{IsSeenAt, IsWalked};
ghost use Rattle.path_walks.specs.declared.walk.Walk.TheVariants.{At};
ghost use Rattle.resource_groups.specs.Putting.{HasDataBlock};
ghost use Rattle.writing_calls.specs.Writing.{Cuts, IfWritten, IsDamage, IsFound, IsRefusal, IsToldOf};

use crate::blocks::is_a_view;
use crate::finds::Found;
use drafts::{Draft, Stamp};
use file_changes::{cut_file, cuts_free_exactly, cuts_make_files, free_and_finish, lacked_group};
use file_tree::Call;
use glock_names::{CallFault, State, Step, View};
use growth_laws::files_are_inodes;
use path_walks::Place;
use std::alloc::Global;

/// Cuts the file at a place, whose dinode's block is a data block of a group, to so many bytes. The blocks that go are found first, then the locks
/// of their groups are looked at, and then they are freed. It costs what `cut_file` and `free_and_finish` cost.
pub(crate) fn cut_at<V: View>(
    alloc: Global,
    view: &V,
    call: &Call,
    place: &Place,
    size: u64,
    stamp: &Stamp,
) -> Result<Found, CallFault>
    requires seen { IsSeenAt (V.seen view.now) (wanted call.now) (path_of call.now false) place.now }
    requires walked { (im : Image) (o : Owners) (l : Layout) (t : Tree) → IsOf (V.seen view.now) im o l t → IsWalked (V.seen view.now) im o l t (path_of call.now false) (wanted call.now) (At place.now) }
    requires cuts { Cuts call.now place.now.dinode.size size }
    requires file { is_directory place.now.dinode ≡ false }
    requires short { size ≤ file_limit }
    requires inside { HasDataBlock (V.seen view.now) place.now.inode }
    ensures found { (im : Image) (o : Owners) (l : Layout) (t : Tree) → IsOf (V.seen view.now) im o l t → IfOk result (IsFound (V.seen view.now) im o l t call.now stamp.now.node) }
    ensures done { IfOk result (IfWritten (Does (V.seen view.now) call.now OkReply)) }
    ensures inside { IfOk result (IfWritten (AreInside (V.seen view.now))) }
    ensures refusal { IfOk result IsRefusal }
    ensures told { IfOk result (IsToldOf (V.seen view.now) call.now stamp.now.node stamp.now.time) }
    ensures sound { (im : Image) (o : Owners) (l : Layout) (t : Tree) → IsOf (V.seen view.now) im o l t → IfDamaged result (λ rule block. ⊥) }
    ensures damaged { IfDamaged result (IsDamage (V.seen view.now) call.now) }
    ensures kept { IfDamaged result (IsOfView (V.seen view.now)) }
{
    is_a_view(view);
    files_are_inodes();
    cuts_free_exactly();
    cuts_make_files();
    let mut draft = Draft::new(alloc, view);
    let freed = match cut_file(alloc, view, &mut draft, place.inode, size, stamp.time)? {
        Step::Is(Some(freed)) => freed,
        Step::Is(None) => return Ok(Found::NotBuilt),
        Step::NeedBlock(missing) => return Ok(Found::NeedBlock(missing)),
    };
    if let Some(lock) = lacked_group(view, &freed) {
        return Ok(Found::NeedLock {
            lock,
            state: State::Ex,
        });
    }
    match free_and_finish(alloc, view, draft, place.inode, &freed)? {
        Step::Is(Some(change)) => Ok(Found::Written(change)),
        Step::Is(None) => Ok(Found::NotBuilt),
        Step::NeedBlock(missing) => Ok(Found::NeedBlock(missing)),
    }
}
