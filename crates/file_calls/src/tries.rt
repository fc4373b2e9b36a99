// A try of a file call.
ghost use Rattle.std.specs.Prelude.{ℕ, List, ◌≡◌, ◌≢◌, ◌≤◌, ◌<◌, None, false, length};
ghost use Rattle.file_tree.specs.Apply.{TakesSpace};
ghost use Rattle.file_tree.specs.Tree.{Tree};
ghost use Rattle.file_tree.specs.declared.reply.Reply.TheVariants.{NoSpace};
ghost use Rattle.glock_names.specs.Steps.{IfDamaged};
ghost use Rattle.glock_names.specs.Views.{IsOfView};
ghost use Rattle.image_model.specs.Image.{Image};
ghost use Rattle.image_model.specs.Owners.{Owners};
ghost use Rattle.image_model.specs.Stands.{Layout};
ghost use Rattle.image_changes.specs.Does.{IsOf, Does, AreInside};
ghost use Rattle.read_calls.specs.Answers.{IfDone, IfNeedLock, IfNeedBlock, IfNoSpace, IfNotBuilt};
ghost use Rattle.read_calls.specs.Holds.{Hold, IsAskedFor, IsFirstLack, holds};
ghost use Rattle.writing_calls.specs.Writing.{IfSync, IsSynced};
ghost use Rattle.file_calls.specs.Answers.{IsAnswered, IsFullFor, IsMadeIn};
ghost use Rattle.file_calls.specs.Calls.{IsCallList, IsDamage, IsLackedFor, IsNeededFor, IsSoOfList, IsTooFew, IsUnbuilt, IsUnderItsLocks};

use dinode_tree::every_view_shows_an_inode;
use drafts::{Attempt, Stamp};
use file_tree::Call;
use glock_names::{CallFault, View};
use std::alloc::Global;

/// Tries a file call over a view: its answer with what it changes, or the first lock that isn't held, a block that isn't there, that too
/// few blocks are free, or that the call can't be carried out on what stands there. It costs what the call's crate says.
pub fn attempt<V: View>(
    alloc: Global,
    view: &V,
    call: &Call,
    stamp: &Stamp,
) -> Result<Attempt, CallFault>
    requires groups { 1 ≤ length (V.seen view.now).groups }
    requires node { 1 ≤ stamp.now.node }
    ensures done { IfDone result (Does (V.seen view.now) call.now) }
    ensures inside { IfDone result (λ reply change. AreInside (V.seen view.now) change) }
    ensures under { (im : Image) (o : Owners) (l : Layout) (t : Tree) → IsOf (V.seen view.now) im o l t → IfDone result (λ reply change. IsUnderItsLocks (V.seen view.now) im o l t call.now stamp.now.node change) }
    ensures lock { (im : Image) (o : Owners) (l : Layout) (t : Tree) (list : List Hold) → IsOf (V.seen view.now) im o l t → IsCallList im o l t call.now stamp.now.node list → IfNeedLock result (IsFirstLack (V.seen view.now) list) }
    ensures block { (im : Image) (o : Owners) (l : Layout) (t : Tree) (list : List Hold) → IsOf (V.seen view.now) im o l t → IsCallList im o l t call.now stamp.now.node list → IfNeedBlock result (IsAskedFor (V.seen view.now) im o l list) }
    ensures first { (im : Image) (o : Owners) (l : Layout) (t : Tree) → IsOf (V.seen view.now) im o l t → IfNeedLock result (λ lock state. IsSoOfList im o l t call.now stamp.now.node (λ list. IsFirstLack (V.seen view.now) list lock state)) }
    ensures asked { (im : Image) (o : Owners) (l : Layout) (t : Tree) → IsOf (V.seen view.now) im o l t → IfNeedBlock result (λ m. IsSoOfList im o l t call.now stamp.now.node (λ list. IsAskedFor (V.seen view.now) im o l list m)) }
    ensures on_device { (im : Image) (o : Owners) (l : Layout) (t : Tree) → IsOf (V.seen view.now) im o l t → IfNeedBlock result (λ m. m.block < im.count) }
    ensures space { (im : Image) (o : Owners) (l : Layout) (t : Tree) → IsOf (V.seen view.now) im o l t → IfNoSpace result (IsTooFew (V.seen view.now) im o l t call.now) }
    ensures full { IfNoSpace result (IsFullFor (V.seen view.now) call.now stamp.now.node) }
    ensures fewer { IfNoSpace result (λ need free. free < need) }
    ensures spaceless { IfDone result (λ reply change. reply ≢ NoSpace) }
    ensures roomless { IfNoSpace result (λ need free. TakesSpace call.now) }
    ensures answered { IfDone result (IsAnswered V.seen view.now call.now stamp.now.node stamp.now.time) }
    ensures made { (im : Image) (o : Owners) (l : Layout) (t : Tree) → IsOf (V.seen view.now) im o l t → IfDone result (λ reply change. IsMadeIn im o l call.now stamp.now.node stamp.now.time reply change) }
    ensures synced { IfSync call.now (IsSynced result) }
    ensures lacked { IfNeedLock result (IsLackedFor (V.seen view.now) call.now stamp.now.node) }
    ensures lacks { IfNeedLock result (λ lock state. holds (V.seen view.now) (record { lock = lock; state = state }) ≡ false) }
    ensures needed { IfNeedBlock result (IsNeededFor (V.seen view.now) call.now stamp.now.node) }
    ensures absent { IfNeedBlock result (λ m. (V.seen view.now).block_at m.block ≡ None) }
    ensures unbuilt { IfNotBuilt result (IsUnbuilt (V.seen view.now) call.now stamp.now.node) }
    ensures built { (im : Image) (o : Owners) (l : Layout) (t : Tree) → IsOf (V.seen view.now) im o l t → IfNotBuilt result ⊥ }
    ensures sound { (im : Image) (o : Owners) (l : Layout) (t : Tree) → IsOf (V.seen view.now) im o l t → IfDamaged result (λ rule block. ⊥) }
    ensures damaged { IfDamaged result (IsDamage (V.seen view.now) call.now stamp.now.node) }
    ensures kept { IfDamaged result (IsOfView (V.seen view.now)) }
{
    let _size = view.block_size();
    every_view_shows_an_inode();
    match call {
        Call::Read(_, _, _) | Call::Dread(_, _, _) | Call::Stat(_) | Call::List(_) => {
            read_calls::attempt(alloc, view, call, stamp)
        }
        Call::Create(_) | Call::Mkdir(_) => making_calls::attempt(alloc, view, call, stamp),
        Call::Unlink(_) | Call::Rmdir(_) => removing_calls::attempt(alloc, view, call, stamp),
        Call::Write(_, _, _) | Call::Truncate(_, _) | Call::Sync => {
            writing_calls::attempt(alloc, view, call, stamp)
        }
        Call::Rename(_, _) => move_calls::attempt(alloc, view, call, stamp),
    }
}
