// A try of a call that removes a name.
ghost use Rattle.std.specs.Prelude.{◌≡◌, [], false, true, IfOk};
ghost use Rattle.cluster_history.specs.Changes.{is_ok};
ghost use Rattle.file_tree.specs.Apply.{apply};
ghost use Rattle.file_tree.specs.Tree.{Tree};
ghost use Rattle.file_tree.specs.declared.reply.Reply.TheVariants.{Ok as OkReply};
ghost use Rattle.gfs2_layout.specs.Holding.{Holding};
ghost use Rattle.dinode_tree.specs.Shown.{IsShown};
ghost use Rattle.glock_names.specs.Steps.{IfDamaged};
ghost use Rattle.glock_names.specs.Views.{IsOfView, IsView};
ghost use Rattle.call_locks.specs.WantLaws.{path_of};
ghost use Rattle.call_locks.specs.Wants.{wanted};
ghost use Rattle.image_model.specs.Image.{Image};
ghost use Rattle.image_model.specs.Owners.{Owners};
ghost use Rattle.image_model.specs.Stands.{Layout};
ghost use Rattle.image_changes.specs.Does.{IsOf, Does, AreInside};
ghost use Rattle.path_walks.specs.Answers.{IfDone, IfNeedLock, IfNeedBlock, IfNoSpace, IfNotBuilt, HasSpace};
ghost use Rattle.path_walks.specs.Holds.{AreHeld, IsAskedFor, IsFirstLack, IsUnder};
ghost use Rattle.path_walks.specs.Walks.{IsSeenAt, IsLastOf};
ghost use Rattle.removing_calls.specs.Removing.{IfRemoved, IsAimOf, IsAnswered, IsDamage, IsFound, IsLackedFor, IsNeededFor, IsPlaceIn, IsReachedIn, IsRefusal, IsRemoving, IsStamped, IsToldOf, holds_for};
ghost use Rattle.removing_calls.specs.declared.aims.Aim.TheVariants as aim;

use crate::aims::{Aim, aim_at};
use crate::blocks::blocks_of;
use crate::drafting::removal;
use crate::finds::Found;
use call_locks::wants;
use drafts::{Attempt, Stamp};
use file_tree::{Call, Path, Reply};
use glock_names::{CallFault, State, Step, View};
use group_locks::lacked_group;
use path_walks::{Place, Walk, nothing, walk_along};
use resource_groups::group_of;
use std::alloc::Global;

// The path of a call that removes a name.
fn path_of_removing(call: &Call) -> &Path
    requires { IsRemoving call.now }
    ensures { result.now ≡ path_of call.now false }
{
    match call {
        Call::Unlink(path) => path,
        Call::Rmdir(path) => path,
        _ => unreachable!(),
    }
}

// What is answered of the root, which has no name.
fn refusal_of_root(call: &Call) -> Reply
    requires removing { IsRemoving call.now }
    requires root { path_of call.now false ≡ [] }
    ensures reply { (t : Tree) → (apply call.now t).reply ≡ result }
    ensures refusal { is_ok result ≡ false }
    ensures spaceless { HasSpace result }
{
    match call {
        Call::Unlink(_) => Reply::IsDir,
        Call::Rmdir(_) => Reply::Inside,
        _ => unreachable!(),
    }
}

// A law: what a node has of the file system is a view of it.
fn is_a_view<V: View>(view: &V)
    ensures { IsView (V.seen view.now) }
{
    let _size = view.block_size();
}

// Removes the inode at a place, whose last name this is: its blocks are found, the locks of their groups looked at, and then all is
// drafted.
fn remove_at<V: View>(
    alloc: Global,
    view: &V,
    call: &Call,
    place: &Place,
    name: &[u8],
    time: u64,
) -> Result<Found, CallFault>
    requires removing { IsRemoving call.now }
    requires last { IsLastOf (path_of call.now false) name.now }
    requires seen { IsSeenAt (V.seen view.now) (wanted call.now) (path_of call.now false) place.now }
    requires places { (im : Image) (o : Owners) (l : Layout) (t : Tree) → IsOf (V.seen view.now) im o l t → IsPlaceIn im o l call.now place.now }
    requires aim { (h : Holding) → IsShown (V.seen view.now) place.now.inode h → IsAimOf call.now h aim.Taken }
    ensures found { (im : Image) (o : Owners) (l : Layout) (t : Tree) → IsOf (V.seen view.now) im o l t → IsReachedIn (V.seen view.now) im o l call.now place.now
        → IfOk result (IsFound (V.seen view.now) im o l t call.now) }
    ensures done { IfOk result (IfRemoved (Does (V.seen view.now) call.now OkReply)) }
    ensures stamped { (im : Image) (o : Owners) (l : Layout) (t : Tree) → IsOf (V.seen view.now) im o l t → IfOk result (IfRemoved (IsStamped im o l call.now time)) }
    ensures under { (im : Image) (o : Owners) (l : Layout) (t : Tree) → IsOf (V.seen view.now) im o l t → IfOk result (IfRemoved (IsUnder o (holds_for im o l t call.now))) }
    ensures refusal { IfOk result IsRefusal }
    ensures sound { (im : Image) (o : Owners) (l : Layout) (t : Tree) → IsOf (V.seen view.now) im o l t → IsReachedIn (V.seen view.now) im o l call.now place.now → IfDamaged result (λ rule block. ⊥) }
    ensures told { IfOk result (IsToldOf V.seen view.now call.now time) }
    ensures inside { IfOk result (IfRemoved (AreInside (V.seen view.now))) }
    ensures damaged { IfDamaged result (IsDamage (V.seen view.now) call.now) }
    ensures kept { IfDamaged result (IsOfView (V.seen view.now)) }
{
    is_a_view(view);
    if group_of(view, place.above).is_none() {
        return Err(CallFault::Damaged {
            block: place.above,
            rule: 2,
        });
    }
    let blocks = match blocks_of(alloc, view, place.inode, &place.dinode)? {
        Step::Is(blocks) => blocks,
        Step::NeedBlock(missing) => return Ok(Found::NeedBlock(missing)),
    };
    if blocks.contains(&place.above) {
        return Err(CallFault::Damaged {
            block: place.above,
            rule: 3,
        });
    }
    if let Some(lock) = lacked_group(view, &blocks) {
        return Ok(Found::NeedLock {
            lock,
            state: State::Ex,
        });
    }
    match removal(alloc, view, place.above, name, &blocks, time)? {
        Step::Is(change) => Ok(Found::Removed(change)),
        Step::NeedBlock(missing) => Ok(Found::NeedBlock(missing)),
    }
}

// What becomes of the inode at a place, whose last name this is.
fn find_at<V: View>(
    alloc: Global,
    view: &V,
    call: &Call,
    place: &Place,
    name: &[u8],
    time: u64,
) -> Result<Found, CallFault>
    requires removing { IsRemoving call.now }
    requires last { IsLastOf (path_of call.now false) name.now }
    requires seen { IsSeenAt (V.seen view.now) (wanted call.now) (path_of call.now false) place.now }
    requires places { (im : Image) (o : Owners) (l : Layout) (t : Tree) → IsOf (V.seen view.now) im o l t → IsPlaceIn im o l call.now place.now }
    ensures found { (im : Image) (o : Owners) (l : Layout) (t : Tree) → IsOf (V.seen view.now) im o l t → IsReachedIn (V.seen view.now) im o l call.now place.now
        → IfOk result (IsFound (V.seen view.now) im o l t call.now) }
    ensures done { IfOk result (IfRemoved (Does (V.seen view.now) call.now OkReply)) }
    ensures stamped { (im : Image) (o : Owners) (l : Layout) (t : Tree) → IsOf (V.seen view.now) im o l t → IfOk result (IfRemoved (IsStamped im o l call.now time)) }
    ensures under { (im : Image) (o : Owners) (l : Layout) (t : Tree) → IsOf (V.seen view.now) im o l t → IfOk result (IfRemoved (IsUnder o (holds_for im o l t call.now))) }
    ensures refusal { IfOk result IsRefusal }
    ensures told { IfOk result (IsToldOf V.seen view.now call.now time) }
    ensures inside { IfOk result (IfRemoved (AreInside (V.seen view.now))) }
    ensures sound { (im : Image) (o : Owners) (l : Layout) (t : Tree) → IsOf (V.seen view.now) im o l t → IsReachedIn (V.seen view.now) im o l call.now place.now → IfDamaged result (λ rule block. ⊥) }
    ensures damaged { IfDamaged result (IsDamage (V.seen view.now) call.now) }
    ensures kept { IfDamaged result (IsOfView (V.seen view.now)) }
{
    is_a_view(view);
    match aim_at(view, call, place)? {
        Aim::Refused(reply) => Ok(Found::Refused(reply)),
        Aim::Taken => remove_at(alloc, view, call, place, name, time),
    }
}

// Walks along the call's path, and removes the inode at its end.
fn find<V: View>(alloc: Global, view: &V, call: &Call, time: u64) -> Result<Found, CallFault>
    requires { IsRemoving call.now }
    ensures found { (im : Image) (o : Owners) (l : Layout) (t : Tree) → IsOf (V.seen view.now) im o l t → IfOk result (IsFound (V.seen view.now) im o l t call.now) }
    ensures done { IfOk result (IfRemoved (Does (V.seen view.now) call.now OkReply)) }
    ensures stamped { (im : Image) (o : Owners) (l : Layout) (t : Tree) → IsOf (V.seen view.now) im o l t → IfOk result (IfRemoved (IsStamped im o l call.now time)) }
    ensures under { (im : Image) (o : Owners) (l : Layout) (t : Tree) → IsOf (V.seen view.now) im o l t → IfOk result (IfRemoved (IsUnder o (holds_for im o l t call.now))) }
    ensures refusal { IfOk result IsRefusal }
    ensures told { IfOk result (IsToldOf V.seen view.now call.now time) }
    ensures inside { IfOk result (IfRemoved (AreInside (V.seen view.now))) }
    ensures sound { (im : Image) (o : Owners) (l : Layout) (t : Tree) → IsOf (V.seen view.now) im o l t → IfDamaged result (λ rule block. ⊥) }
    ensures damaged { IfDamaged result (IsDamage (V.seen view.now) call.now) }
    ensures kept { IfDamaged result (IsOfView (V.seen view.now)) }
{
    let names = path_of_removing(call).names();
    let Some(last) = names.last() else {
        return Ok(Found::Refused(refusal_of_root(call)));
    };
    let wants = wants(alloc, call)?;
    match walk_along(view, names, &wants)? {
        Walk::At(place) => find_at(alloc, view, call, &place, last.bytes(), time),
        Walk::NotFound => Ok(Found::Refused(Reply::NotFound)),
        Walk::NotDir => Ok(Found::Refused(Reply::NotDir)),
        Walk::NeedLock { lock, state } => Ok(Found::NeedLock { lock, state }),
        Walk::NeedBlock(missing) => Ok(Found::NeedBlock(missing)),
    }
}

/// Tries a call that removes a name, over a view: its answer with what it changes, or the first lock that isn't held or block that
/// isn't there. The directory, of whatever form, gets the stamp's time. Beside the path's locks it takes those of the groups of the inode's blocks, before any
/// of these is read. It costs a walk along the path, and what looking up the name and taking it cost, two passes over the records of a linear directory that
/// is to go, what the leaves of a hashed one cost, a step for each pointer of the inode, and for each of its blocks two copies of each of two blocks of its group.
pub fn attempt<V: View>(
    alloc: Global,
    view: &V,
    call: &Call,
    stamp: &Stamp,
) -> Result<Attempt, CallFault>
    requires removing { IsRemoving call.now }
    ensures done { IfDone result (Does (V.seen view.now) call.now) }
    ensures held { (im : Image) (o : Owners) (l : Layout) (t : Tree) → IsOf (V.seen view.now) im o l t → IfDone result (λ reply change. AreHeld (V.seen view.now) (holds_for im o l t call.now)) }
    ensures lock { (im : Image) (o : Owners) (l : Layout) (t : Tree) → IsOf (V.seen view.now) im o l t → IfNeedLock result (IsFirstLack (V.seen view.now) (holds_for im o l t call.now)) }
    ensures block { (im : Image) (o : Owners) (l : Layout) (t : Tree) → IsOf (V.seen view.now) im o l t → IfNeedBlock result (IsAskedFor (V.seen view.now) im o l (holds_for im o l t call.now)) }
    ensures stamped { (im : Image) (o : Owners) (l : Layout) (t : Tree) → IsOf (V.seen view.now) im o l t → IfDone result (λ reply change. is_ok reply ≡ true → IsStamped im o l call.now stamp.now.time change) }
    ensures under { (im : Image) (o : Owners) (l : Layout) (t : Tree) → IsOf (V.seen view.now) im o l t → IfDone result (λ reply change. is_ok reply ≡ true → IsUnder o (holds_for im o l t call.now) change) }
    ensures space { IfNoSpace result (λ need free. ⊥) }
    ensures spaceless { IfDone result (λ reply change. HasSpace reply) }
    ensures answered { IfDone result (IsAnswered V.seen view.now call.now stamp.now.time) }
    ensures inside { IfDone result (λ reply change. is_ok reply ≡ true → AreInside (V.seen view.now) change) }
    ensures lacked { IfNeedLock result (IsLackedFor (V.seen view.now) call.now) }
    ensures needed { IfNeedBlock result (IsNeededFor (V.seen view.now) call.now) }
    ensures built { IfNotBuilt result ⊥ }
    ensures sound { (im : Image) (o : Owners) (l : Layout) (t : Tree) → IsOf (V.seen view.now) im o l t → IfDamaged result (λ rule block. ⊥) }
    ensures damaged { IfDamaged result (IsDamage (V.seen view.now) call.now) }
    ensures kept { IfDamaged result (IsOfView (V.seen view.now)) }
{
    Ok(match find(alloc, view, call, stamp.time)? {
        Found::Refused(reply) => Attempt::Done {
            reply,
            change: nothing(alloc),
        },
        Found::Removed(change) => Attempt::Done {
            reply: Reply::Ok,
            change,
        },
        Found::NeedBlock(missing) => Attempt::NeedBlock(missing),
        Found::NeedLock { lock, state } => Attempt::NeedLock { lock, state },
    })
}
