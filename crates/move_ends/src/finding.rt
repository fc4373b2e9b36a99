// The ends of the two paths of a call that moves a name.
ghost use Rattle.std.specs.Prelude.{◌≡◌, ◌≢◌, ◌≤◌, [], false, true, IfOk, drop, length, take};
ghost use Rattle.file_tree.specs.Tree.{Tree};
ghost use Rattle.glock_names.specs.Steps.{IfDamaged};
ghost use Rattle.glock_names.specs.Views.{IsOfView, IsView};
ghost use Rattle.call_locks.specs.WantLaws.{path_of};
ghost use Rattle.image_model.specs.Image.{Image};
ghost use Rattle.image_model.specs.Owners.{Owners};
ghost use Rattle.image_model.specs.Stands.{Layout};
ghost use Rattle.image_changes.specs.Does.{IsOf};
ghost use Rattle.pair_walks.specs.Walks.{IsPairDamage, IsPairTold, IsPairWalked};
ghost use Rattle.move_ends.specs.Ends.{IsAbsentBlock, IsBegun, IsDamageAtEnds, IsFoundIn, IsRefusal, IsRenaming, IsTold, first_wants, from_path, second_wants, to_path};

use crate::ends::Ends;
use crate::over::apart;
use call_locks::{Want, wants};
use file_tree::{Call, Path, Reply};
use glock_names::{CallFault, LockName, State, View, is_at_most};
use pair_walks::{PairWalk, walk_pair};
use std::alloc::Global;

// The lock that puts all renames in order.
const ORDER: LockName = LockName { kind: 1, number: 3 };

/// The path of what moves.
pub fn from_of(call: &Call) -> &Path
    requires { IsRenaming call.now }
    ensures { result.now ≡ path_of call.now false }
{
    match call {
        Call::Rename(from, _) => from,
        _ => unreachable!(),
    }
}

/// The path to which it moves.
pub fn to_of(call: &Call) -> &Path
    requires { IsRenaming call.now }
    ensures { result.now ≡ path_of call.now true }
{
    match call {
        Call::Rename(_, to) => to,
        _ => unreachable!(),
    }
}

// A law: what a node has of the file system is a view of it.
fn is_a_view<V: View>(view: &V)
    ensures { IsView (V.seen view.now) }
{
    let _size = view.block_size();
}

// What is found where the second path is the first, or goes on from it.
fn within(first: usize, second: usize) -> Ends
    ensures stays { first ≡ second → result ≡ Ends.Stays }
    ensures inside { first ≢ second → result ≡ Ends.Refused Reply.Inside }
{
    if first == second {
        Ends::Stays
    } else {
        Ends::Refused(Reply::Inside)
    }
}

// Walks along both paths, which have names, with the locks that the call wants on them.
fn walk_paths<V: View>(alloc: Global, view: &V, call: &Call) -> Result<PairWalk, CallFault>
    requires renaming { IsRenaming call.now }
    requires from { from_path call.now ≢ [] }
    requires to { to_path call.now ≢ [] }
    ensures walked { (im : Image) (o : Owners) (l : Layout) (t : Tree) → IsOf (V.seen view.now) im o l t
        → IfOk result (IsPairWalked (V.seen view.now) im o l t (from_path call.now) (to_path call.now) (first_wants call.now) (second_wants call.now)) }
    ensures told { IfOk result (IsPairTold (V.seen view.now) (from_path call.now) (to_path call.now) (first_wants call.now) (second_wants call.now)) }
    ensures sound { (im : Image) (o : Owners) (l : Layout) (t : Tree) → IsOf (V.seen view.now) im o l t → IfDamaged result (λ rule block. ⊥) }
    ensures damaged { IfDamaged result (IsPairDamage (V.seen view.now) (from_path call.now) (to_path call.now) (first_wants call.now) (second_wants call.now)) }
    ensures kept { IfDamaged result (IsOfView (V.seen view.now)) }
{
    let from = from_of(call).names();
    let to = to_of(call).names();
    let wants = wants(alloc, call)?;
    let (first, second) = split(&wants, from.len() + 1);
    Ok(walk_pair(view, from, to, first, second)?)
}

// The wants up to a place, and those from it on.
fn split(wants: &[Want], place: usize) -> (&[Want], &[Want])
    requires { place ≤ length wants.now }
    ensures first { result.0.now ≡ take place wants.now }
    ensures second { result.1.now ≡ drop place wants.now }
{
    (&wants[..place], &wants[place..])
}

// Walks along both paths, which have names, the lock that puts renames in order being held.
fn walk<V: View>(alloc: Global, view: &V, call: &Call) -> Result<Ends, CallFault>
    requires renaming { IsRenaming call.now }
    requires begun { IsBegun (V.seen view.now) call.now }
    ensures told { IfOk result (IsTold (V.seen view.now) call.now) }
    ensures found { (im : Image) (o : Owners) (l : Layout) (t : Tree) → IsOf (V.seen view.now) im o l t → IfOk result (IsFoundIn (V.seen view.now) im o l t call.now) }
    ensures refusal { IfOk result IsRefusal }
    ensures absent { IfOk result (IsAbsentBlock (V.seen view.now)) }
    ensures sound { (im : Image) (o : Owners) (l : Layout) (t : Tree) → IsOf (V.seen view.now) im o l t → IfDamaged result (λ rule block. ⊥) }
    ensures damaged { IfDamaged result (IsDamageAtEnds (V.seen view.now) call.now) }
    ensures kept { IfDamaged result (IsOfView (V.seen view.now)) }
{
    is_a_view(view);
    match walk_paths(alloc, view, call)? {
        PairWalk::NotFound => Ok(Ends::Refused(Reply::NotFound)),
        PairWalk::NotDir => Ok(Ends::Refused(Reply::NotDir)),
        PairWalk::Within(_) => Ok(within(from_of(call).names().len(), to_of(call).names().len())),
        PairWalk::Apart { from, to } => apart(alloc, view, from, to),
        PairWalk::NeedLock { lock, state } => Ok(Ends::NeedLock { lock, state }),
        PairWalk::NeedBlock(missing) => Ok(Ends::NeedBlock(missing)),
    }
}

/// What a call that moves a name finds at the ends of its paths, over a view: how it is refused, that it stays, or what is to move where; or the first lock that
/// isn't held, or a block that isn't there. The lock that puts renames in order comes first, then those of the inodes on both paths. It costs a walk along both, and
/// where an inode stands at the new name a further look at its directory's dinode, what its blocks cost, and two passes over the records of a linear directory.
pub fn ends_of<V: View>(alloc: Global, view: &V, call: &Call) -> Result<Ends, CallFault>
    requires { IsRenaming call.now }
    ensures told { IfOk result (IsTold (V.seen view.now) call.now) }
    ensures found { (im : Image) (o : Owners) (l : Layout) (t : Tree) → IsOf (V.seen view.now) im o l t → IfOk result (IsFoundIn (V.seen view.now) im o l t call.now) }
    ensures refusal { IfOk result IsRefusal }
    ensures absent { IfOk result (IsAbsentBlock (V.seen view.now)) }
    ensures sound { (im : Image) (o : Owners) (l : Layout) (t : Tree) → IsOf (V.seen view.now) im o l t → IfDamaged result (λ rule block. ⊥) }
    ensures damaged { IfDamaged result (IsDamageAtEnds (V.seen view.now) call.now) }
    ensures kept { IfDamaged result (IsOfView (V.seen view.now)) }
{
    if from_of(call).names().is_empty() {
        return Ok(Ends::Refused(Reply::Inside));
    }
    if to_of(call).names().is_empty() {
        return Ok(Ends::Refused(Reply::Exists));
    }
    if !is_at_most(State::Ex, view.state(ORDER)) {
        return Ok(Ends::NeedLock {
            lock: ORDER,
            state: State::Ex,
        });
    }
    walk(alloc, view, call)
}
