// A try of a call that moves a name, part by part.
ghost use Rattle.std.specs.Prelude.{ℕ, List, false, true, ◌≡◌, ◌≢◌, ◌≤◌, ◌<◌, ◌^◌, [], None, Some, Contains, IfOk, Option, length};
ghost use Rattle.std.specs.Option.{option_copied};
ghost use Rattle.crc_words.specs.Remainder.{crc32_of};
ghost use Rattle.cluster_history.specs.Changes.{is_ok};
ghost use Rattle.file_tree.specs.Names.{IsName, is_same_path, last_of as the_last_of};
ghost use Rattle.file_tree.specs.Tree.{Tree};
ghost use Rattle.glock_names.specs.Steps.{IfDamaged};
ghost use Rattle.glock_names.specs.Views.{IsOfView};
ghost use Rattle.image_model.specs.Image.{Image};
ghost use Rattle.image_model.specs.Owners.{Owners};
ghost use Rattle.image_model.specs.Stands.{Layout};
ghost use Rattle.image_changes.specs.Changes.{cover};
ghost use Rattle.image_changes.specs.Does.{AreInside, Does, IsOf};
ghost use Rattle.resource_groups.specs.Putting.{HasDataBlock};
ghost use Rattle.move_ends.specs.Answers.{HasSpace, IfDone, IfNeedBlock, IfNeedLock, IfNoSpace, IfNotBuilt};
ghost use Rattle.move_ends.specs.Holds.{AreHeld, IsAskedFor, IsFirstLack, IsUnder, holds};
ghost use Rattle.move_ends.specs.Ends.{AreEnds, IsRenaming, IsTarget, MovesIn, from_path, inode_holds, to_path};
ghost use Rattle.move_calls.specs.Locks.{IsNeed, IsSoOfList, IsTooFew, call_holds};
ghost use Rattle.move_calls.specs.Moved.{IsMovedIn};
ghost use Rattle.move_calls.specs.Answering.{IsAnswerOf, IsAnswered, IsDamage, IsFullFor, IsLackedFor, IsNeededFor, IsUnbuilt, blocks_of_replaced};

use crate::carrying::carry;
use crate::checks::can_move;
use crate::ways::is_a_view;
use crc_words::crc32;
use drafts::{Attempt, Stamp};
use file_tree::{Call, Name, Path, Reply};
use glock_names::{CallFault, Step, View};
use move_ends::{Ends, Place, ends_of, from_of, nothing, to_of};
use name_moves::NameMove;
use std::alloc::Global;

// The last of these names.
fn last_name(names: &[Name]) -> &Name
    requires { names.now ≢ [] }
    ensures last { result.now ≡ the_last_of names.now }
    ensures named { IsName result.now }
{
    let Some(last) = names.last() else {
        unreachable!()
    };
    let _bytes = last.bytes();
    last
}

// A law: the hash of a name has 32 bits.
fn hash_fits(name: &Name)
    ensures { crc32_of name.now < 2 ^ 32 }
{
    let _hash = crc32(name.bytes());
}

// A law: so has that of a path's last name.
fn last_hash_fits(path: &Path)
    ensures { path.now ≢ [] → crc32_of (the_last_of path.now) < 2 ^ 32 }
{
    if let Some(name) = path.names().last() {
        hash_fits(name);
    }
}

// The blocks that go, if something does.
fn blocks_in(replaced: &Option<Vec<u64>>) -> Option<&[u64]>
    ensures { option_copied result ≡ blocks_of_replaced replaced.now }
{
    match replaced {
        Some(blocks) => Some(blocks.as_slice()),
        None => None,
    }
}

// Moves the name, as the walks have seen it.
fn move_name<V: View>(
    alloc: Global,
    view: &V,
    call: &Call,
    from: Place,
    to: Place,
    replaced: &Option<Vec<u64>>,
    stamp: &Stamp,
) -> Result<Attempt, CallFault>
    requires renaming { IsRenaming call.now }
    requires groups { 1 ≤ length (V.seen view.now).groups }
    requires node { 1 ≤ stamp.now.node }
    requires hash { to_path call.now ≢ [] → crc32_of (the_last_of (to_path call.now)) < 2 ^ 32 }
    requires ends { AreEnds (V.seen view.now) call.now from to }
    requires target { IsTarget (V.seen view.now) call.now from to (blocks_of_replaced replaced.now) }
    requires inside { (blocks : List ℕ) → blocks_of_replaced replaced.now ≡ Some blocks → (b : ℕ) → Contains blocks b → HasDataBlock (V.seen view.now) b }
    requires images { (im : Image) (o : Owners) (l : Layout) (t : Tree) → IsOf (V.seen view.now) im o l t
        → MovesIn (V.seen view.now) im o l t call.now from to (blocks_of_replaced replaced.now) × AreHeld (V.seen view.now) (inode_holds im o l call.now) }
    ensures answer { IfOk result (IsAnswerOf (V.seen view.now) call.now stamp.now.node stamp.now.time) }
    ensures done { IfDone result (Does (V.seen view.now) call.now) }
    ensures moved { (im : Image) (o : Owners) (l : Layout) (t : Tree) → IsOf (V.seen view.now) im o l t → IfDone result (λ reply change. IsMovedIn im o l call.now stamp.now.node stamp.now.time change) }
    ensures built { (im : Image) (o : Owners) (l : Layout) (t : Tree) → IsOf (V.seen view.now) im o l t → IfNotBuilt result ⊥ }
    ensures sound { (im : Image) (o : Owners) (l : Layout) (t : Tree) → IsOf (V.seen view.now) im o l t → IfDamaged result (λ rule block. ⊥) }
    ensures damaged { IfDamaged result (IsDamage (V.seen view.now) call.now stamp.now.node) }
    ensures kept { IfDamaged result (IsOfView (V.seen view.now)) }
{
    is_a_view(view);
    let new_name = last_name(to_of(call).names());
    let m = NameMove {
        from: from.above,
        name: last_name(from_of(call).names()),
        to,
        new_name,
        moved: from,
        replaced: blocks_in(replaced),
    };
    match can_move(view, &m)? {
        Step::Is(true) => carry(alloc, view, &m, stamp),
        Step::Is(false) => Ok(Attempt::NotBuilt),
        Step::NeedBlock(missing) => Ok(Attempt::NeedBlock(missing)),
    }
}

// Answers a call that moves a name, by the parts of the answer.
fn answer<V: View>(
    alloc: Global,
    view: &V,
    call: &Call,
    stamp: &Stamp,
) -> Result<Attempt, CallFault>
    requires renaming { IsRenaming call.now }
    requires groups { 1 ≤ length (V.seen view.now).groups }
    requires node { 1 ≤ stamp.now.node }
    requires hash { to_path call.now ≢ [] → crc32_of (the_last_of (to_path call.now)) < 2 ^ 32 }
    ensures answer { IfOk result (IsAnswerOf (V.seen view.now) call.now stamp.now.node stamp.now.time) }
    ensures done { IfDone result (Does (V.seen view.now) call.now) }
    ensures moved { (im : Image) (o : Owners) (l : Layout) (t : Tree) → IsOf (V.seen view.now) im o l t
        → IfDone result (λ reply change. is_ok reply ≡ true → is_same_path (from_path call.now) (to_path call.now) ≡ false → IsMovedIn im o l call.now stamp.now.node stamp.now.time change) }
    ensures built { (im : Image) (o : Owners) (l : Layout) (t : Tree) → IsOf (V.seen view.now) im o l t → IfNotBuilt result ⊥ }
    ensures sound { (im : Image) (o : Owners) (l : Layout) (t : Tree) → IsOf (V.seen view.now) im o l t → IfDamaged result (λ rule block. ⊥) }
    ensures damaged { IfDamaged result (IsDamage (V.seen view.now) call.now stamp.now.node) }
    ensures kept { IfDamaged result (IsOfView (V.seen view.now)) }
{
    match ends_of(alloc, view, call)? {
        Ends::Refused(reply) => Ok(Attempt::Done {
            reply,
            change: nothing(alloc),
        }),
        Ends::Stays => Ok(Attempt::Done {
            reply: Reply::Ok,
            change: nothing(alloc),
        }),
        Ends::Moves { from, to, replaced } => {
            move_name(alloc, view, call, from, to, &replaced, stamp)
        }
        Ends::NeedLock { lock, state } => Ok(Attempt::NeedLock { lock, state }),
        Ends::NeedBlock(missing) => Ok(Attempt::NeedBlock(missing)),
    }
}

/// Tries a call that moves a name, over a view: its answer with what it changes, or the first lock that isn't held, the block that isn't there, or that too few blocks
/// are free. The lock that puts renames in order comes first, then those of the inodes on both paths, then those of the groups of what goes from the new name and, where blocks are
/// needed, those under which they are found. What stands at the new name goes first, then the old name, and then the new one comes; blocks that go aren't taken again. It costs a walk
/// along both paths, what `can_move` and `carry` cost, and what removing an inode costs where one goes.
pub fn attempt<V: View>(
    alloc: Global,
    view: &V,
    call: &Call,
    stamp: &Stamp,
) -> Result<Attempt, CallFault>
    requires renaming { IsRenaming call.now }
    requires groups { 1 ≤ length (V.seen view.now).groups }
    requires node { 1 ≤ stamp.now.node }
    ensures done { IfDone result (Does (V.seen view.now) call.now) }
    ensures inside { IfDone result (λ reply change. AreInside (V.seen view.now) change) }
    ensures under { (im : Image) (o : Owners) (l : Layout) (t : Tree) (need : ℕ) → IsOf (V.seen view.now) im o l t → IsNeed im o l t call.now need
        → IfDone result (λ reply change. IsUnder o (call_holds im o l t call.now stamp.now.node need) change) }
    ensures moved { (im : Image) (o : Owners) (l : Layout) (t : Tree) → IsOf (V.seen view.now) im o l t
        → IfDone result (λ reply change. is_ok reply ≡ true → is_same_path (from_path call.now) (to_path call.now) ≡ false → IsMovedIn im o l call.now stamp.now.node stamp.now.time change) }
    ensures held { (im : Image) (o : Owners) (l : Layout) (t : Tree) → IsOf (V.seen view.now) im o l t
        → IfDone result (λ reply change. (need : ℕ) × (IsNeed im o l t call.now need × AreHeld (V.seen view.now) (call_holds im o l t call.now stamp.now.node need))) }
    ensures lock { (im : Image) (o : Owners) (l : Layout) (t : Tree) (need : ℕ) → IsOf (V.seen view.now) im o l t → IsNeed im o l t call.now need
        → IfNeedLock result (IsFirstLack (V.seen view.now) (call_holds im o l t call.now stamp.now.node need)) }
    ensures block { (im : Image) (o : Owners) (l : Layout) (t : Tree) (need : ℕ) → IsOf (V.seen view.now) im o l t → IsNeed im o l t call.now need
        → IfNeedBlock result (IsAskedFor (V.seen view.now) im o l (call_holds im o l t call.now stamp.now.node need)) }
    ensures first { (im : Image) (o : Owners) (l : Layout) (t : Tree) → IsOf (V.seen view.now) im o l t
        → IfNeedLock result (λ lock state. IsSoOfList im o l t call.now stamp.now.node (λ list. IsFirstLack (V.seen view.now) list lock state)) }
    ensures asked { (im : Image) (o : Owners) (l : Layout) (t : Tree) → IsOf (V.seen view.now) im o l t
        → IfNeedBlock result (λ missing. IsSoOfList im o l t call.now stamp.now.node (λ list. IsAskedFor (V.seen view.now) im o l list missing)) }
    ensures covered { (im : Image) (o : Owners) (l : Layout) (t : Tree) → IsOf (V.seen view.now) im o l t → IfNeedBlock result (λ missing. cover l missing.block (o missing.block) ≡ Some missing.lock) }
    ensures space { (im : Image) (o : Owners) (l : Layout) (t : Tree) → IsOf (V.seen view.now) im o l t → IfNoSpace result (IsTooFew (V.seen view.now) im o l t call.now) }
    ensures full { IfNoSpace result (IsFullFor (V.seen view.now) call.now stamp.now.node) }
    ensures fewer { IfNoSpace result (λ need free. free < need) }
    ensures spaceless { IfDone result (λ reply change. HasSpace reply) }
    ensures answered { IfDone result (IsAnswered (V.seen view.now) call.now stamp.now.node stamp.now.time) }
    ensures lacked { IfNeedLock result (IsLackedFor (V.seen view.now) call.now stamp.now.node) }
    ensures lacks { IfNeedLock result (λ lock state. holds (V.seen view.now) (record { lock = lock; state = state }) ≡ false) }
    ensures needed { IfNeedBlock result (IsNeededFor (V.seen view.now) call.now stamp.now.node) }
    ensures absent { IfNeedBlock result (λ missing. (V.seen view.now).block_at missing.block ≡ None) }
    ensures unbuilt { IfNotBuilt result (IsUnbuilt (V.seen view.now) call.now stamp.now.node) }
    ensures built { (im : Image) (o : Owners) (l : Layout) (t : Tree) → IsOf (V.seen view.now) im o l t → IfNotBuilt result ⊥ }
    ensures sound { (im : Image) (o : Owners) (l : Layout) (t : Tree) → IsOf (V.seen view.now) im o l t → IfDamaged result (λ rule block. ⊥) }
    ensures damaged { IfDamaged result (IsDamage (V.seen view.now) call.now stamp.now.node) }
    ensures kept { IfDamaged result (IsOfView (V.seen view.now)) }
{
    is_a_view(view);
    last_hash_fits(to_of(call));
    answer(alloc, view, call, stamp)
}
