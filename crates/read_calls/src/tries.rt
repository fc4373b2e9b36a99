// A try of a call.
ghost use Rattle.std.specs.Prelude.{ℕ, ◌≡◌, [], false, IfOk};
ghost use Rattle.file_tree.specs.Tree.{Tree};
ghost use Rattle.glock_names.specs.Steps.{IfDamaged};
ghost use Rattle.glock_names.specs.Views.{IsOfView};
ghost use Rattle.call_locks.specs.WantLaws.{path_of};
ghost use Rattle.call_locks.specs.Wants.{wanted};
ghost use Rattle.image_model.specs.Image.{Image};
ghost use Rattle.image_model.specs.Owners.{Owners};
ghost use Rattle.image_model.specs.Stands.{Layout};
ghost use Rattle.image_changes.specs.Does.{IsOf, Does};
ghost use Rattle.path_walks.specs.Answers.{IfDone, IfNeedLock, IfNeedBlock, IfNoSpace, IfNotBuilt, HasSpace};
ghost use Rattle.path_walks.specs.Holds.{AreHeld, IsAskedFor, IsFirstLack, holds_in};
ghost use Rattle.path_walks.specs.Walks.{IsDamage, IsLacked};
ghost use Rattle.read_calls.specs.Reading.{IsAnswered, IsFound, IsNeededFor, IsReading, IsSpaceless, IsToldOf};

use crate::answers::{Read, answer_at};
use call_locks::wants;
use drafts::{Attempt, Stamp};
use file_tree::{Call, Path, Reply};
use glock_names::{CallFault, View};
use path_walks::{Walk, nothing, walk_along};
use std::alloc::Global;

// The path of a call that reads.
fn path_of_reading(call: &Call) -> &Path
    requires { IsReading call.now }
    ensures { result.now ≡ path_of call.now false }
{
    match call {
        Call::Read(path, _, _) | Call::Dread(path, _, _) => path,
        Call::Stat(path) => path,
        Call::List(path) => path,
        _ => unreachable!(),
    }
}

// Walks along the call's path, and reads the inode at its end.
fn find<V: View>(alloc: Global, view: &V, call: &Call) -> Result<Read, CallFault>
    requires { IsReading call.now }
    ensures found { (im : Image) (o : Owners) (l : Layout) (t : Tree) → IsOf (V.seen view.now) im o l t → IfOk result (IsFound (V.seen view.now) im o l t call.now) }
    ensures told { IfOk result (IsToldOf (V.seen view.now) call.now) }
    ensures spaceless { IfOk result IsSpaceless }
    ensures sound { (im : Image) (o : Owners) (l : Layout) (t : Tree) → IsOf (V.seen view.now) im o l t → IfDamaged result (λ rule block. ⊥) }
    ensures damaged { IfDamaged result (IsDamage (V.seen view.now) (wanted call.now) (path_of call.now false)) }
    ensures kept { IfDamaged result (IsOfView (V.seen view.now)) }
{
    let path = path_of_reading(call);
    let wants = wants(alloc, call)?;
    match walk_along(view, path.names(), &wants)? {
        Walk::At(place) => answer_at(alloc, view, call, &place),
        Walk::NotFound => Ok(Read::Reply(Reply::NotFound)),
        Walk::NotDir => Ok(Read::Reply(Reply::NotDir)),
        Walk::NeedLock { lock, state } => Ok(Read::NeedLock { lock, state }),
        Walk::NeedBlock(missing) => Ok(Read::NeedBlock(missing)),
    }
}

/// Tries a call that reads, over a view: its answer, or the first lock that isn't held or block that isn't there. It changes
/// nothing. It costs a walk along the path, and what is read of the inode at its end.
pub fn attempt<V: View>(
    alloc: Global,
    view: &V,
    call: &Call,
    _stamp: &Stamp,
) -> Result<Attempt, CallFault>
    requires reading { IsReading call.now }
    ensures done { IfDone result (Does (V.seen view.now) call.now) }
    ensures held { (im : Image) (o : Owners) (l : Layout) (t : Tree) → IsOf (V.seen view.now) im o l t → IfDone result (λ reply change. AreHeld (V.seen view.now) (holds_in im o l (path_of call.now false) (wanted call.now))) }
    ensures lock { (im : Image) (o : Owners) (l : Layout) (t : Tree) → IsOf (V.seen view.now) im o l t → IfNeedLock result (IsFirstLack (V.seen view.now) (holds_in im o l (path_of call.now false) (wanted call.now))) }
    ensures block { (im : Image) (o : Owners) (l : Layout) (t : Tree) → IsOf (V.seen view.now) im o l t → IfNeedBlock result (IsAskedFor (V.seen view.now) im o l (holds_in im o l (path_of call.now false) (wanted call.now))) }
    ensures space { IfNoSpace result (λ need free. ⊥) }
    ensures spaceless { IfDone result (λ reply change. HasSpace reply) }
    ensures answered { IfDone result (λ reply change. IsAnswered (V.seen view.now) call.now reply) }
    ensures lacked { IfNeedLock result (IsLacked (V.seen view.now) (wanted call.now) (path_of call.now false)) }
    ensures needed { IfNeedBlock result (IsNeededFor (V.seen view.now) call.now) }
    ensures built { IfNotBuilt result ⊥ }
    ensures sound { (im : Image) (o : Owners) (l : Layout) (t : Tree) → IsOf (V.seen view.now) im o l t → IfDamaged result (λ rule block. ⊥) }
    ensures damaged { IfDamaged result (IsDamage (V.seen view.now) (wanted call.now) (path_of call.now false)) }
    ensures kept { IfDamaged result (IsOfView (V.seen view.now)) }
{
    Ok(match find(alloc, view, call)? {
        Read::Reply(reply) => Attempt::Done {
            reply,
            change: nothing(alloc),
        },
        Read::NeedBlock(missing) => Attempt::NeedBlock(missing),
        Read::NeedLock { lock, state } => Attempt::NeedLock { lock, state },
    })
}
