// A try of a call that writes.
ghost use Rattle.std.specs.Prelude.{ℕ, ◌≡◌, ◌≤◌, false, length, IfOk};
ghost use Rattle.file_tree.specs.declared.call.Call.TheVariants.{Truncate, Write};
ghost use Rattle.file_tree.specs.Tree.{Tree};
ghost use Rattle.file_tree.specs.declared.reply.Reply.TheVariants.{Ok as OkReply};
ghost use Rattle.glock_names.specs.Steps.{IfDamaged};
ghost use Rattle.glock_names.specs.Views.{IsOfView};
ghost use Rattle.call_locks.specs.WantLaws.{path_of};
ghost use Rattle.call_locks.specs.Wants.{wanted};
ghost use Rattle.image_model.specs.Image.{Image};
ghost use Rattle.image_model.specs.Owners.{Owners};
ghost use Rattle.image_model.specs.Stands.{Layout};
ghost use Rattle.image_changes.specs.Does.{AreInside, Does, IsOf};
ghost use Rattle.path_walks.specs.Walks.{IsSeenAt, IsWalked};
ghost use Rattle.path_walks.specs.declared.walk.Walk.TheVariants.{At};
ghost use Rattle.path_walks.specs.Answers.{HasSpace, IfDone, IfNeedBlock, IfNeedLock, IfNoSpace, IfNotBuilt};
ghost use Rattle.path_walks.specs.Holds.{AreHeld, IsAskedFor, IsFirstLack, IsUnder};
ghost use Rattle.writing_calls.specs.Writing.{IfSync, IfWritten, IsAnswered, IsDamage, IsEdit, IsEditAnswered, IsFound, IsFullFor, IsLackedFor, IsNeededFor, IsRefusal, IsSynced, IsToldOf, IsTooFew, IsUnbuilt, IsWriting, call_holds};

use crate::aims::{Aim, aim_of, aim_of_cut};
use crate::blocks::write_blocks;
use crate::cuts::cut_at;
use crate::drafting::write_stuffed;
use crate::finds::Found;
use call_locks::wants;
use drafts::{Attempt, Stamp};
use file_tree::{Call, Path, Reply};
use glock_names::{CallFault, View};
use path_walks::{Place, Walk, nothing, walk_along};
use resource_groups::group_of;
use std::alloc::Global;

// The path of a call that changes a file's content.
fn path_of_edit(call: &Call) -> &Path
    requires { IsEdit call.now }
    ensures { result.now ≡ path_of call.now false }
{
    match call {
        Call::Write(path, _, _) => path,
        Call::Truncate(path, _) => path,
        _ => unreachable!(),
    }
}

// Writes bytes into the inode at a place.
fn write_at<V: View>(
    alloc: Global,
    view: &V,
    call: &Call,
    place: &Place,
    at: u64,
    new: &[u8],
    stamp: &Stamp,
) -> Result<Found, CallFault>
    requires groups { 1 ≤ length (V.seen view.now).groups }
    requires node { 1 ≤ stamp.now.node }
    requires writes { call.now ≡ Write (path_of call.now false) at new.now }
    requires seen { IsSeenAt (V.seen view.now) (wanted call.now) (path_of call.now false) place.now }
    requires walked { (im : Image) (o : Owners) (l : Layout) (t : Tree) → IsOf (V.seen view.now) im o l t → IsWalked (V.seen view.now) im o l t (path_of call.now false) (wanted call.now) (At place.now) }
    ensures found { (im : Image) (o : Owners) (l : Layout) (t : Tree) → IsOf (V.seen view.now) im o l t → IfOk result (IsFound (V.seen view.now) im o l t call.now stamp.now.node) }
    ensures done { IfOk result (IfWritten (Does (V.seen view.now) call.now OkReply)) }
    ensures inside { IfOk result (IfWritten (AreInside (V.seen view.now))) }
    ensures refusal { IfOk result IsRefusal }
    ensures told { IfOk result (IsToldOf (V.seen view.now) call.now stamp.now.node stamp.now.time) }
    ensures sound { (im : Image) (o : Owners) (l : Layout) (t : Tree) → IsOf (V.seen view.now) im o l t → IfDamaged result (λ rule block. ⊥) }
    ensures damaged { IfDamaged result (IsDamage (V.seen view.now) call.now) }
    ensures kept { IfDamaged result (IsOfView (V.seen view.now)) }
{
    let aim = aim_of(&place.dinode, view.block_size(), at, new.len() as u64);
    if let Aim::Refused(reply) = aim {
        return Ok(Found::Refused(reply));
    }
    if let Aim::Broken = aim {
        return Err(CallFault::Damaged {
            block: place.inode,
            rule: 8,
        });
    }
    if group_of(view, place.inode).is_none() {
        return Err(CallFault::Damaged {
            block: place.inode,
            rule: 2,
        });
    }
    if let Aim::Blocks = aim {
        return write_blocks(alloc, view, call, place, at, new, stamp);
    }
    let change = write_stuffed(alloc, view, place, at, new, stamp.time)?;
    Ok(Found::Written(change))
}

// Gives the inode at a place another size.
fn resize_at<V: View>(
    alloc: Global,
    view: &V,
    call: &Call,
    place: &Place,
    size: u64,
    stamp: &Stamp,
) -> Result<Found, CallFault>
    requires groups { 1 ≤ length (V.seen view.now).groups }
    requires node { 1 ≤ stamp.now.node }
    requires cuts { call.now ≡ Truncate (path_of call.now false) size }
    requires seen { IsSeenAt (V.seen view.now) (wanted call.now) (path_of call.now false) place.now }
    requires walked { (im : Image) (o : Owners) (l : Layout) (t : Tree) → IsOf (V.seen view.now) im o l t → IsWalked (V.seen view.now) im o l t (path_of call.now false) (wanted call.now) (At place.now) }
    ensures found { (im : Image) (o : Owners) (l : Layout) (t : Tree) → IsOf (V.seen view.now) im o l t → IfOk result (IsFound (V.seen view.now) im o l t call.now stamp.now.node) }
    ensures done { IfOk result (IfWritten (Does (V.seen view.now) call.now OkReply)) }
    ensures inside { IfOk result (IfWritten (AreInside (V.seen view.now))) }
    ensures refusal { IfOk result IsRefusal }
    ensures told { IfOk result (IsToldOf (V.seen view.now) call.now stamp.now.node stamp.now.time) }
    ensures sound { (im : Image) (o : Owners) (l : Layout) (t : Tree) → IsOf (V.seen view.now) im o l t → IfDamaged result (λ rule block. ⊥) }
    ensures damaged { IfDamaged result (IsDamage (V.seen view.now) call.now) }
    ensures kept { IfDamaged result (IsOfView (V.seen view.now)) }
{
    let aim = aim_of_cut(&place.dinode, size);
    if let Aim::Refused(reply) = aim {
        return Ok(Found::Refused(reply));
    }
    if group_of(view, place.inode).is_none() {
        return Err(CallFault::Damaged {
            block: place.inode,
            rule: 2,
        });
    }
    if let Aim::Blocks = aim {
        return write_blocks(alloc, view, call, place, size, &[], stamp);
    }
    cut_at(alloc, view, call, place, size, stamp)
}

// Changes the content of the inode at a place.
fn edit_at<V: View>(
    alloc: Global,
    view: &V,
    call: &Call,
    place: &Place,
    stamp: &Stamp,
) -> Result<Found, CallFault>
    requires groups { 1 ≤ length (V.seen view.now).groups }
    requires node { 1 ≤ stamp.now.node }
    requires edits { IsEdit call.now }
    requires seen { IsSeenAt (V.seen view.now) (wanted call.now) (path_of call.now false) place.now }
    requires walked { (im : Image) (o : Owners) (l : Layout) (t : Tree) → IsOf (V.seen view.now) im o l t → IsWalked (V.seen view.now) im o l t (path_of call.now false) (wanted call.now) (At place.now) }
    ensures found { (im : Image) (o : Owners) (l : Layout) (t : Tree) → IsOf (V.seen view.now) im o l t → IfOk result (IsFound (V.seen view.now) im o l t call.now stamp.now.node) }
    ensures done { IfOk result (IfWritten (Does (V.seen view.now) call.now OkReply)) }
    ensures inside { IfOk result (IfWritten (AreInside (V.seen view.now))) }
    ensures refusal { IfOk result IsRefusal }
    ensures told { IfOk result (IsToldOf (V.seen view.now) call.now stamp.now.node stamp.now.time) }
    ensures sound { (im : Image) (o : Owners) (l : Layout) (t : Tree) → IsOf (V.seen view.now) im o l t → IfDamaged result (λ rule block. ⊥) }
    ensures damaged { IfDamaged result (IsDamage (V.seen view.now) call.now) }
    ensures kept { IfDamaged result (IsOfView (V.seen view.now)) }
{
    match call {
        Call::Write(_, at, content) => {
            write_at(alloc, view, call, place, *at, content.bytes(), stamp)
        }
        Call::Truncate(_, size) => resize_at(alloc, view, call, place, *size, stamp),
        _ => unreachable!(),
    }
}

// Walks along the call's path, and changes the content of the inode at its end.
fn find<V: View>(alloc: Global, view: &V, call: &Call, stamp: &Stamp) -> Result<Found, CallFault>
    requires groups { 1 ≤ length (V.seen view.now).groups }
    requires node { 1 ≤ stamp.now.node }
    requires edits { IsEdit call.now }
    ensures found { (im : Image) (o : Owners) (l : Layout) (t : Tree) → IsOf (V.seen view.now) im o l t → IfOk result (IsFound (V.seen view.now) im o l t call.now stamp.now.node) }
    ensures done { IfOk result (IfWritten (Does (V.seen view.now) call.now OkReply)) }
    ensures inside { IfOk result (IfWritten (AreInside (V.seen view.now))) }
    ensures refusal { IfOk result IsRefusal }
    ensures told { IfOk result (IsToldOf (V.seen view.now) call.now stamp.now.node stamp.now.time) }
    ensures sound { (im : Image) (o : Owners) (l : Layout) (t : Tree) → IsOf (V.seen view.now) im o l t → IfDamaged result (λ rule block. ⊥) }
    ensures damaged { IfDamaged result (IsDamage (V.seen view.now) call.now) }
    ensures kept { IfDamaged result (IsOfView (V.seen view.now)) }
{
    let wants = wants(alloc, call)?;
    match walk_along(view, path_of_edit(call).names(), &wants)? {
        Walk::At(place) => edit_at(alloc, view, call, &place, stamp),
        Walk::NotFound => Ok(Found::Refused(Reply::NotFound)),
        Walk::NotDir => Ok(Found::Refused(Reply::NotDir)),
        Walk::NeedLock { lock, state } => Ok(Found::NeedLock { lock, state }),
        Walk::NeedBlock(missing) => Ok(Found::NeedBlock(missing)),
    }
}

// Tries a call that changes a file's content.
fn edit<V: View>(alloc: Global, view: &V, call: &Call, stamp: &Stamp) -> Result<Attempt, CallFault>
    requires groups { 1 ≤ length (V.seen view.now).groups }
    requires node { 1 ≤ stamp.now.node }
    requires edits { IsEdit call.now }
    ensures done { IfDone result (Does (V.seen view.now) call.now) }
    ensures held { (im : Image) (o : Owners) (l : Layout) (t : Tree) → IsOf (V.seen view.now) im o l t → IfDone result (λ reply change. AreHeld (V.seen view.now) (call_holds im o l t call.now stamp.now.node)) }
    ensures inside { IfDone result (λ reply change. AreInside (V.seen view.now) change) }
    ensures under { (im : Image) (o : Owners) (l : Layout) (t : Tree) → IsOf (V.seen view.now) im o l t → IfDone result (λ reply change. IsUnder o (call_holds im o l t call.now stamp.now.node) change) }
    ensures lock { (im : Image) (o : Owners) (l : Layout) (t : Tree) → IsOf (V.seen view.now) im o l t → IfNeedLock result (IsFirstLack (V.seen view.now) (call_holds im o l t call.now stamp.now.node)) }
    ensures block { (im : Image) (o : Owners) (l : Layout) (t : Tree) → IsOf (V.seen view.now) im o l t → IfNeedBlock result (IsAskedFor (V.seen view.now) im o l (call_holds im o l t call.now stamp.now.node)) }
    ensures space { (im : Image) (o : Owners) (l : Layout) (t : Tree) → IsOf (V.seen view.now) im o l t → IfNoSpace result (IsTooFew (V.seen view.now) im o l t call.now) }
    ensures full { IfNoSpace result (IsFullFor (V.seen view.now) call.now) }
    ensures spaceless { IfDone result (λ reply change. HasSpace reply) }
    ensures answered { IfDone result (IsEditAnswered (V.seen view.now) call.now stamp.now.node stamp.now.time) }
    ensures lacked { IfNeedLock result (IsLackedFor (V.seen view.now) call.now stamp.now.node) }
    ensures needed { IfNeedBlock result (IsNeededFor (V.seen view.now) call.now) }
    ensures unbuilt { IfNotBuilt result (IsUnbuilt (V.seen view.now) call.now) }
    ensures built { (im : Image) (o : Owners) (l : Layout) (t : Tree) → IsOf (V.seen view.now) im o l t → IfNotBuilt result ⊥ }
    ensures sound { (im : Image) (o : Owners) (l : Layout) (t : Tree) → IsOf (V.seen view.now) im o l t → IfDamaged result (λ rule block. ⊥) }
    ensures damaged { IfDamaged result (IsDamage (V.seen view.now) call.now) }
    ensures kept { IfDamaged result (IsOfView (V.seen view.now)) }
{
    Ok(match find(alloc, view, call, stamp)? {
        Found::Refused(reply) => Attempt::Done {
            reply,
            change: nothing(alloc),
        },
        Found::Written(change) => Attempt::Done {
            reply: Reply::Ok,
            change,
        },
        Found::NeedBlock(missing) => Attempt::NeedBlock(missing),
        Found::NotBuilt => Attempt::NotBuilt,
        Found::NeedLock { lock, state } => Attempt::NeedLock { lock, state },
        Found::NoSpace { need, free } => Attempt::NoSpace { need, free },
    })
}

/// Tries a call that writes, over a view: its answer with what it changes, or the first lock that isn't held, a block that isn't
/// there, or that too few blocks are free. The file gets the stamp's time. `sync` is answered `Ok` at once: that all is on the disk is for the node
/// to see to. A write or a cut costs a walk along the path, a pass over the groups, and what `write_stuffed`, `write_blocks` or `cut_at` cost: a walk
/// down the file for each of its blocks that is written or goes, and two copies of each block that is put.
pub fn attempt<V: View>(
    alloc: Global,
    view: &V,
    call: &Call,
    stamp: &Stamp,
) -> Result<Attempt, CallFault>
    requires groups { 1 ≤ length (V.seen view.now).groups }
    requires node { 1 ≤ stamp.now.node }
    requires writing { IsWriting call.now }
    ensures done { IfDone result (Does (V.seen view.now) call.now) }
    ensures held { (im : Image) (o : Owners) (l : Layout) (t : Tree) → IsOf (V.seen view.now) im o l t → IfDone result (λ reply change. AreHeld (V.seen view.now) (call_holds im o l t call.now stamp.now.node)) }
    ensures inside { IfDone result (λ reply change. AreInside (V.seen view.now) change) }
    ensures under { (im : Image) (o : Owners) (l : Layout) (t : Tree) → IsOf (V.seen view.now) im o l t → IfDone result (λ reply change. IsUnder o (call_holds im o l t call.now stamp.now.node) change) }
    ensures lock { (im : Image) (o : Owners) (l : Layout) (t : Tree) → IsOf (V.seen view.now) im o l t → IfNeedLock result (IsFirstLack (V.seen view.now) (call_holds im o l t call.now stamp.now.node)) }
    ensures block { (im : Image) (o : Owners) (l : Layout) (t : Tree) → IsOf (V.seen view.now) im o l t → IfNeedBlock result (IsAskedFor (V.seen view.now) im o l (call_holds im o l t call.now stamp.now.node)) }
    ensures space { (im : Image) (o : Owners) (l : Layout) (t : Tree) → IsOf (V.seen view.now) im o l t → IfNoSpace result (IsTooFew (V.seen view.now) im o l t call.now) }
    ensures full { IfNoSpace result (IsFullFor (V.seen view.now) call.now) }
    ensures spaceless { IfDone result (λ reply change. HasSpace reply) }
    ensures answered { IfDone result (IsAnswered (V.seen view.now) call.now stamp.now.node stamp.now.time) }
    ensures lacked { IfNeedLock result (IsLackedFor (V.seen view.now) call.now stamp.now.node) }
    ensures needed { IfNeedBlock result (IsNeededFor (V.seen view.now) call.now) }
    ensures unbuilt { IfNotBuilt result (IsUnbuilt (V.seen view.now) call.now) }
    ensures built { (im : Image) (o : Owners) (l : Layout) (t : Tree) → IsOf (V.seen view.now) im o l t → IfNotBuilt result ⊥ }
    ensures synced { IfSync call.now (IsSynced result) }
    ensures sound { (im : Image) (o : Owners) (l : Layout) (t : Tree) → IsOf (V.seen view.now) im o l t → IfDamaged result (λ rule block. ⊥) }
    ensures damaged { IfDamaged result (IsDamage (V.seen view.now) call.now) }
    ensures kept { IfDamaged result (IsOfView (V.seen view.now)) }
{
    match call {
        Call::Sync => Ok(Attempt::Done {
            reply: Reply::Ok,
            change: nothing(alloc),
        }),
        _ => edit(alloc, view, call, stamp),
    }
}
