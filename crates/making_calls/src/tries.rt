// A try of a call that makes a name.
ghost use Rattle.std.specs.Prelude.{ℕ, ◌≡◌, ◌^◌, ◌<◌, ◌≤◌, [], true, false, length, IfOk, None};
ghost use Rattle.cluster_history.specs.Changes.{is_ok};
ghost use Rattle.file_tree.specs.Names.{IsName};
ghost use Rattle.file_tree.specs.Tree.{Tree};
ghost use Rattle.file_tree.specs.declared.reply.Reply.TheVariants.{Ok as OkReply};
ghost use Rattle.glock_names.specs.Steps.{IfDamaged};
ghost use Rattle.glock_names.specs.Views.{IsOfView, IsView};
ghost use Rattle.call_locks.specs.WantLaws.{path_of};
ghost use Rattle.call_locks.specs.Wants.{wanted};
ghost use Rattle.name_drafts.specs.DirectoryShown.{IsDirectoryIn};
ghost use Rattle.resource_groups.specs.Putting.{HasDataBlock};
ghost use Rattle.image_model.specs.Image.{Image};
ghost use Rattle.image_model.specs.Owners.{Owners};
ghost use Rattle.image_model.specs.Stands.{Layout};
ghost use Rattle.image_changes.specs.Does.{IsOf, Does, AreInside};
ghost use Rattle.name_drafts.specs.Answers.{IfDone, IfNeedLock, IfNeedBlock, IfNoSpace, IfNotBuilt, HasSpace};
ghost use Rattle.name_drafts.specs.Holds.{AreHeld, IsAskedFor, IsFirstLack, IsUnder};
ghost use Rattle.name_drafts.specs.Walks.{IsLastOf, IsSeenAt, LacksName};
ghost use Rattle.making_calls.specs.Making.{IfMade, IsAnswered, IsDamage, IsFound, IsFullFor, IsLackedFor, IsMade, IsMaking, IsNeededFor, IsReachedIn, IsRefusal, IsStamped, IsToldOf, IsTooFew, IsUnbuilt, TakesForName, call_holds, directory_path, makes_directory};

use crate::blocks::{NewRoom, find_blocks, taken_on_way};
use crate::finds::Found;
use call_locks::wants;
use drafts::{Attempt, Stamp};
use file_tree::{Call, Name, Path, Reply};
use glock_names::{CallFault, Step, View};
use name_drafts::{Place, Walk, addition, look, need_name, nothing, walk_along};
use resource_groups::group_of;
use room_search::Locked;
use std::alloc::Global;

// The path of a call that makes a name.
fn path_of_making(call: &Call) -> &Path
    requires { IsMaking call.now }
    ensures { result.now ≡ path_of call.now false }
{
    match call {
        Call::Create(path) => path,
        Call::Mkdir(path) => path,
        _ => unreachable!(),
    }
}

// Whether it makes a directory.
fn is_of_directory(call: &Call) -> bool
    ensures { result ≡ makes_directory call.now }
{
    match call {
        Call::Mkdir(_) => true,
        _ => false,
    }
}

// A law: what a node has of the file system is a view of it.
fn is_a_view<V: View>(view: &V)
    ensures { IsView (V.seen view.now) }
{
    let _size = view.block_size();
}

// Makes the name in the directory at a place, which hasn't it and takes so many blocks for it: they are searched with that of the new inode, the way to
// the name is looked at again, that none of them is on it, and then all is drafted.
fn make_with<V: View>(
    alloc: Global,
    view: &V,
    call: &Call,
    place: &Place,
    name: &Name,
    more: u64,
    stamp: &Stamp,
) -> Result<Found, CallFault>
    requires making { IsMaking call.now }
    requires last { IsLastOf (path_of call.now false) name.now }
    requires seen { IsSeenAt (V.seen view.now) (wanted call.now) (directory_path call.now) place.now }
    requires reached { (im : Image) (o : Owners) (l : Layout) (t : Tree) → IsOf (V.seen view.now) im o l t → IsReachedIn (V.seen view.now) im o l call.now place.now }
    requires named { IsName name.now }
    requires directory { IsDirectoryIn (V.seen view.now) place.now.inode }
    requires lacks { LacksName (V.seen view.now) place.now.inode name.now }
    requires inside { HasDataBlock (V.seen view.now) place.now.inode }
    requires takes { TakesForName (V.seen view.now) place.now.inode name.now more }
    requires most { more < 2 ^ 42 }
    requires groups { 1 ≤ length (V.seen view.now).groups }
    requires node { 1 ≤ stamp.now.node }
    ensures found { (im : Image) (o : Owners) (l : Layout) (t : Tree) → IsOf (V.seen view.now) im o l t → IfOk result (IsFound (V.seen view.now) im o l t call.now stamp.now.node) }
    ensures done { IfOk result (IfMade (Does (V.seen view.now) call.now OkReply)) }
    ensures inside { IfOk result (IfMade (AreInside (V.seen view.now))) }
    ensures under { (im : Image) (o : Owners) (l : Layout) (t : Tree) → IsOf (V.seen view.now) im o l t → IfOk result (IfMade (IsUnder o (call_holds im o l t call.now stamp.now.node))) }
    ensures made { (im : Image) (o : Owners) (l : Layout) (t : Tree) → IsOf (V.seen view.now) im o l t → IfOk result (IfMade (IsMade im o l call.now stamp.now.node stamp.now.time)) }
    ensures stamped { (im : Image) (o : Owners) (l : Layout) (t : Tree) → IsOf (V.seen view.now) im o l t → IfOk result (IfMade (IsStamped im o l call.now stamp.now.time)) }
    ensures refusal { IfOk result IsRefusal }
    ensures told { IfOk result (IsToldOf (V.seen view.now) call.now stamp.now.node stamp.now.time) }
    ensures sound { (im : Image) (o : Owners) (l : Layout) (t : Tree) → IsOf (V.seen view.now) im o l t → IfDamaged result (λ rule block. ⊥) }
    ensures damaged { IfDamaged result (IsDamage (V.seen view.now) call.now) }
    ensures kept { IfDamaged result (IsOfView (V.seen view.now)) }
{
    is_a_view(view);
    let need = more + 1;
    let room = match find_blocks(alloc, view, stamp.node, need)? {
        Locked::Is(NewRoom::Is(room)) => room,
        Locked::Is(NewRoom::TooFew(free)) => return Ok(Found::NoSpace { need, free }),
        Locked::NeedLock { lock, state } => return Ok(Found::NeedLock { lock, state }),
        Locked::NeedBlock(missing) => return Ok(Found::NeedBlock(missing)),
    };
    let on_way = match taken_on_way(view, place.inode, name, &room)? {
        Step::Is(on_way) => on_way,
        Step::NeedBlock(missing) => return Ok(Found::NeedBlock(missing)),
    };
    if let Some(block) = on_way {
        return Err(CallFault::Damaged { block, rule: 5 });
    }
    let is_directory = is_of_directory(call);
    match addition(
        alloc,
        view,
        is_directory,
        stamp,
        place,
        name,
        &room.new,
        &room.rest,
    )? {
        Step::Is(Some(change)) => Ok(Found::Made(change)),
        Step::Is(None) => Ok(Found::NotBuilt),
        Step::NeedBlock(missing) => Ok(Found::NeedBlock(missing)),
    }
}

// Makes the name in the directory at a place, which hasn't it: the blocks that it takes for it are counted before any lock of a group is looked at.
fn make_at<V: View>(
    alloc: Global,
    view: &V,
    call: &Call,
    place: &Place,
    name: &Name,
    stamp: &Stamp,
) -> Result<Found, CallFault>
    requires making { IsMaking call.now }
    requires last { IsLastOf (path_of call.now false) name.now }
    requires seen { IsSeenAt (V.seen view.now) (wanted call.now) (directory_path call.now) place.now }
    requires reached { (im : Image) (o : Owners) (l : Layout) (t : Tree) → IsOf (V.seen view.now) im o l t → IsReachedIn (V.seen view.now) im o l call.now place.now }
    requires named { IsName name.now }
    requires directory { IsDirectoryIn (V.seen view.now) place.now.inode }
    requires lacks { LacksName (V.seen view.now) place.now.inode name.now }
    requires groups { 1 ≤ length (V.seen view.now).groups }
    requires node { 1 ≤ stamp.now.node }
    ensures found { (im : Image) (o : Owners) (l : Layout) (t : Tree) → IsOf (V.seen view.now) im o l t → IfOk result (IsFound (V.seen view.now) im o l t call.now stamp.now.node) }
    ensures done { IfOk result (IfMade (Does (V.seen view.now) call.now OkReply)) }
    ensures inside { IfOk result (IfMade (AreInside (V.seen view.now))) }
    ensures under { (im : Image) (o : Owners) (l : Layout) (t : Tree) → IsOf (V.seen view.now) im o l t → IfOk result (IfMade (IsUnder o (call_holds im o l t call.now stamp.now.node))) }
    ensures made { (im : Image) (o : Owners) (l : Layout) (t : Tree) → IsOf (V.seen view.now) im o l t → IfOk result (IfMade (IsMade im o l call.now stamp.now.node stamp.now.time)) }
    ensures stamped { (im : Image) (o : Owners) (l : Layout) (t : Tree) → IsOf (V.seen view.now) im o l t → IfOk result (IfMade (IsStamped im o l call.now stamp.now.time)) }
    ensures refusal { IfOk result IsRefusal }
    ensures told { IfOk result (IsToldOf (V.seen view.now) call.now stamp.now.node stamp.now.time) }
    ensures sound { (im : Image) (o : Owners) (l : Layout) (t : Tree) → IsOf (V.seen view.now) im o l t → IfDamaged result (λ rule block. ⊥) }
    ensures damaged { IfDamaged result (IsDamage (V.seen view.now) call.now) }
    ensures kept { IfDamaged result (IsOfView (V.seen view.now)) }
{
    is_a_view(view);
    if group_of(view, place.inode).is_none() {
        return Err(CallFault::Damaged {
            block: place.inode,
            rule: 2,
        });
    }
    match need_name(alloc, view, place.inode, name.bytes())? {
        Step::Is(more) => make_with(alloc, view, call, place, name, more, stamp),
        Step::NeedBlock(missing) => Ok(Found::NeedBlock(missing)),
    }
}

// Makes the name in the inode at a place, if that is a directory without it.
fn find_at<V: View>(
    alloc: Global,
    view: &V,
    call: &Call,
    place: &Place,
    name: &Name,
    stamp: &Stamp,
) -> Result<Found, CallFault>
    requires making { IsMaking call.now }
    requires last { IsLastOf (path_of call.now false) name.now }
    requires seen { IsSeenAt (V.seen view.now) (wanted call.now) (directory_path call.now) place.now }
    requires reached { (im : Image) (o : Owners) (l : Layout) (t : Tree) → IsOf (V.seen view.now) im o l t → IsReachedIn (V.seen view.now) im o l call.now place.now }
    requires groups { 1 ≤ length (V.seen view.now).groups }
    requires node { 1 ≤ stamp.now.node }
    ensures found { (im : Image) (o : Owners) (l : Layout) (t : Tree) → IsOf (V.seen view.now) im o l t → IfOk result (IsFound (V.seen view.now) im o l t call.now stamp.now.node) }
    ensures done { IfOk result (IfMade (Does (V.seen view.now) call.now OkReply)) }
    ensures inside { IfOk result (IfMade (AreInside (V.seen view.now))) }
    ensures under { (im : Image) (o : Owners) (l : Layout) (t : Tree) → IsOf (V.seen view.now) im o l t → IfOk result (IfMade (IsUnder o (call_holds im o l t call.now stamp.now.node))) }
    ensures made { (im : Image) (o : Owners) (l : Layout) (t : Tree) → IsOf (V.seen view.now) im o l t → IfOk result (IfMade (IsMade im o l call.now stamp.now.node stamp.now.time)) }
    ensures stamped { (im : Image) (o : Owners) (l : Layout) (t : Tree) → IsOf (V.seen view.now) im o l t → IfOk result (IfMade (IsStamped im o l call.now stamp.now.time)) }
    ensures refusal { IfOk result IsRefusal }
    ensures told { IfOk result (IsToldOf (V.seen view.now) call.now stamp.now.node stamp.now.time) }
    ensures sound { (im : Image) (o : Owners) (l : Layout) (t : Tree) → IsOf (V.seen view.now) im o l t → IfDamaged result (λ rule block. ⊥) }
    ensures damaged { IfDamaged result (IsDamage (V.seen view.now) call.now) }
    ensures kept { IfDamaged result (IsOfView (V.seen view.now)) }
{
    if !place.dinode.is_directory() {
        return Ok(Found::Refused(Reply::NotDir));
    }
    match look(view, place.inode, name.bytes())? {
        Step::Is(Some(_)) => Ok(Found::Refused(Reply::Exists)),
        Step::Is(None) => make_at(alloc, view, call, place, name, stamp),
        Step::NeedBlock(missing) => Ok(Found::NeedBlock(missing)),
    }
}

// Walks along the path of the directory, and makes the name there.
fn find<V: View>(alloc: Global, view: &V, call: &Call, stamp: &Stamp) -> Result<Found, CallFault>
    requires making { IsMaking call.now }
    requires groups { 1 ≤ length (V.seen view.now).groups }
    requires node { 1 ≤ stamp.now.node }
    ensures found { (im : Image) (o : Owners) (l : Layout) (t : Tree) → IsOf (V.seen view.now) im o l t → IfOk result (IsFound (V.seen view.now) im o l t call.now stamp.now.node) }
    ensures done { IfOk result (IfMade (Does (V.seen view.now) call.now OkReply)) }
    ensures inside { IfOk result (IfMade (AreInside (V.seen view.now))) }
    ensures under { (im : Image) (o : Owners) (l : Layout) (t : Tree) → IsOf (V.seen view.now) im o l t → IfOk result (IfMade (IsUnder o (call_holds im o l t call.now stamp.now.node))) }
    ensures made { (im : Image) (o : Owners) (l : Layout) (t : Tree) → IsOf (V.seen view.now) im o l t → IfOk result (IfMade (IsMade im o l call.now stamp.now.node stamp.now.time)) }
    ensures stamped { (im : Image) (o : Owners) (l : Layout) (t : Tree) → IsOf (V.seen view.now) im o l t → IfOk result (IfMade (IsStamped im o l call.now stamp.now.time)) }
    ensures refusal { IfOk result IsRefusal }
    ensures told { IfOk result (IsToldOf (V.seen view.now) call.now stamp.now.node stamp.now.time) }
    ensures sound { (im : Image) (o : Owners) (l : Layout) (t : Tree) → IsOf (V.seen view.now) im o l t → IfDamaged result (λ rule block. ⊥) }
    ensures damaged { IfDamaged result (IsDamage (V.seen view.now) call.now) }
    ensures kept { IfDamaged result (IsOfView (V.seen view.now)) }
{
    let Some((last, front)) = path_of_making(call).names().split_last() else {
        return Ok(Found::Refused(Reply::Exists));
    };
    let wants = wants(alloc, call)?;
    match walk_along(view, front, &wants)? {
        Walk::At(place) => find_at(alloc, view, call, &place, last, stamp),
        Walk::NotFound => Ok(Found::Refused(Reply::NotFound)),
        Walk::NotDir => Ok(Found::Refused(Reply::NotDir)),
        Walk::NeedLock { lock, state } => Ok(Found::NeedLock { lock, state }),
        Walk::NeedBlock(missing) => Ok(Found::NeedBlock(missing)),
    }
}

/// Tries a call that makes a name, over a view: its answer with what it changes, or the first lock that isn't held, the block that
/// isn't there, or that too few blocks are free. The blocks that the directory, of whatever form, takes for the name are counted before any lock of a
/// group is asked for. They and that of the new inode, which is the first, are the least free ones of the node's own group, or else of all groups in order;
/// the new inode and the directory get the stamp's time. It costs a walk along the path, and what looking up the name, counting the blocks, putting the
/// name and taking the blocks cost: two passes over the blocks of each group that is looked at, of a linear directory four over its records, of a hashed
/// one five along the chain of the name, and copies of the few blocks that change.
pub fn attempt<V: View>(
    alloc: Global,
    view: &V,
    call: &Call,
    stamp: &Stamp,
) -> Result<Attempt, CallFault>
    requires making { IsMaking call.now }
    requires groups { 1 ≤ length (V.seen view.now).groups }
    requires node { 1 ≤ stamp.now.node }
    ensures done { IfDone result (Does (V.seen view.now) call.now) }
    ensures inside { IfDone result (λ reply change. AreInside (V.seen view.now) change) }
    ensures under { (im : Image) (o : Owners) (l : Layout) (t : Tree) → IsOf (V.seen view.now) im o l t → IfDone result (λ reply change. IsUnder o (call_holds im o l t call.now stamp.now.node) change) }
    ensures made { (im : Image) (o : Owners) (l : Layout) (t : Tree) → IsOf (V.seen view.now) im o l t → IfDone result (λ reply change. is_ok reply ≡ true → IsMade im o l call.now stamp.now.node stamp.now.time change) }
    ensures stamped { (im : Image) (o : Owners) (l : Layout) (t : Tree) → IsOf (V.seen view.now) im o l t → IfDone result (λ reply change. is_ok reply ≡ true → IsStamped im o l call.now stamp.now.time change) }
    ensures held { (im : Image) (o : Owners) (l : Layout) (t : Tree) → IsOf (V.seen view.now) im o l t → IfDone result (λ reply change. AreHeld (V.seen view.now) (call_holds im o l t call.now stamp.now.node)) }
    ensures lock { (im : Image) (o : Owners) (l : Layout) (t : Tree) → IsOf (V.seen view.now) im o l t → IfNeedLock result (IsFirstLack (V.seen view.now) (call_holds im o l t call.now stamp.now.node)) }
    ensures block { (im : Image) (o : Owners) (l : Layout) (t : Tree) → IsOf (V.seen view.now) im o l t → IfNeedBlock result (IsAskedFor (V.seen view.now) im o l (call_holds im o l t call.now stamp.now.node)) }
    ensures space { (im : Image) (o : Owners) (l : Layout) (t : Tree) → IsOf (V.seen view.now) im o l t → IfNoSpace result (IsTooFew (V.seen view.now) im o l t call.now) }
    ensures full { IfNoSpace result (IsFullFor (V.seen view.now) call.now) }
    ensures fewer { IfNoSpace result (λ need free. free < need) }
    ensures spaceless { IfDone result (λ reply change. HasSpace reply) }
    ensures answered { IfDone result (IsAnswered (V.seen view.now) call.now stamp.now.node stamp.now.time) }
    ensures lacked { IfNeedLock result (IsLackedFor (V.seen view.now) call.now stamp.now.node) }
    ensures needed { IfNeedBlock result (IsNeededFor (V.seen view.now) call.now) }
    ensures absent { IfNeedBlock result (λ missing. (V.seen view.now).block_at missing.block ≡ None) }
    ensures unbuilt { IfNotBuilt result (IsUnbuilt (V.seen view.now) call.now stamp.now.node) }
    ensures built { (im : Image) (o : Owners) (l : Layout) (t : Tree) → IsOf (V.seen view.now) im o l t → IfNotBuilt result ⊥ }
    ensures sound { (im : Image) (o : Owners) (l : Layout) (t : Tree) → IsOf (V.seen view.now) im o l t → IfDamaged result (λ rule block. ⊥) }
    ensures damaged { IfDamaged result (IsDamage (V.seen view.now) call.now) }
    ensures kept { IfDamaged result (IsOfView (V.seen view.now)) }
{
    Ok(match find(alloc, view, call, stamp)? {
        Found::Refused(reply) => Attempt::Done {
            reply,
            change: nothing(alloc),
        },
        Found::Made(change) => Attempt::Done {
            reply: Reply::Ok,
            change,
        },
        Found::NeedBlock(missing) => Attempt::NeedBlock(missing),
        Found::NotBuilt => Attempt::NotBuilt,
        Found::NeedLock { lock, state } => Attempt::NeedLock { lock, state },
        Found::NoSpace { need, free } => Attempt::NoSpace { need, free },
    })
}
