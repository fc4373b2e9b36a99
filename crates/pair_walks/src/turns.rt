// The turns of a walk along two paths.
ghost use Rattle.std.specs.Prelude.{ℕ, Bool, ◌≡◌, ◌+◌, ◌<◌, ◌≤◌, IfNone, IfOk, IfSome, Some, length, slice_get};
ghost use Rattle.file_tree.specs.Names.{leads_to};
ghost use Rattle.file_tree.specs.Tree.{Tree};
ghost use Rattle.glock_names.specs.Steps.{OnlyDamaged};
ghost use Rattle.glock_names.specs.Views.{IsOfView};
ghost use Rattle.call_locks.specs.declared.want.Want.{Want as WantValue};
ghost use Rattle.image_model.specs.Image.{Image};
ghost use Rattle.image_model.specs.Owners.{Owners};
ghost use Rattle.image_model.specs.Stands.{Layout};
ghost use Rattle.image_changes.specs.Does.{IsOf};
ghost use Rattle.pair_walks.specs.Orders.{stronger as stronger_of};
ghost use Rattle.pair_walks.specs.Turns.{IsDamagedAt, IsHindered, IsPassed, IsTurn, decides};
ghost use Rattle.pair_walks.specs.Walks.{IsPairDamage, IsPairTold, IsPairWalked};
ghost use Rattle.pair_walks.specs.Ways.{AreUnderway, IsSameWay, left_on};

use crate::next::{Next, Visit, ahead, come_to};
use crate::walk::{End, PairWalk};
use call_locks::Want;
use file_tree::Name;
use glock_names::{CallFault, State, Step, View, is_at_most};

/// One of the two ways: its names, the wants of its inodes, how many names lead to what comes next, and what that is.
#[derive(Clone, Copy)]
pub(crate) struct Way<'a> {
    pub(crate) names: &'a [Name],
    pub(crate) wants: &'a [Want],
    pub(crate) depth: usize,
    pub(crate) next: Next,
}

/// Which of the ways goes on, to which inode, and the one above it on each way; or how the walk ends.
#[derive(Clone, Copy)]
pub(crate) enum Turn {
    First { block: u64, above: u64 },
    Second { block: u64, above: u64 },
    Both { block: u64, above: u64, beside: u64 },
    Over(PairWalk),
}

// The way that goes on: of the inodes that come next that with the least number, and both ways where it is the same one. None once the first way has
// ended and so decides, or both have.
fn turn_of(first: Next, second: Next, ends: bool) -> Turn
    ensures { IsTurn first second ends result }
{
    match first {
        Next::Inode { block, above } => match second {
            Next::Inode {
                block: other,
                above: beside,
            } => lesser(block, above, other, beside),
            Next::Ended(_) => Turn::First { block, above },
        },
        Next::Ended(end) => once_ended(end, second, ends),
    }
}

// Of two inodes that come next the one with the least number, or the one that both are.
fn lesser(block: u64, above: u64, other: u64, beside: u64) -> Turn
    ensures { (ends : Bool) → IsTurn (Next.Inode block above) (Next.Inode other beside) ends result }
{
    if block == other {
        Turn::Both {
            block,
            above,
            beside,
        }
    } else if block < other {
        Turn::First { block, above }
    } else {
        Turn::Second {
            block: other,
            above: beside,
        }
    }
}

// What comes once the first way has ended so.
fn once_ended(end: End, second: Next, ends: bool) -> Turn
    ensures { IsTurn (Next.Ended end) second ends result }
{
    match end {
        End::At(from) => {
            if ends {
                return Turn::Over(PairWalk::Within(from));
            }
            match second {
                Next::Inode { block, above } => Turn::Second { block, above },
                Next::Ended(to) => Turn::Over(PairWalk::Apart { from, to }),
            }
        }
        End::NotDir => Turn::Over(PairWalk::NotDir),
        End::Lacks(_) | End::NotFound => Turn::Over(PairWalk::NotFound),
    }
}

// Whether the first way has ended so that the other doesn't matter.
fn has_decided(first: Next, ends: bool) -> bool
    ensures { result ≡ decides ends first }
{
    match first {
        Next::Inode { .. } => false,
        Next::Ended(End::At(_)) => ends,
        Next::Ended(_) => true,
    }
}

// The least state that serves who wants a lock in either.
fn stronger(a: State, b: State) -> State
    ensures { result ≡ stronger_of a b }
{
    if is_at_most(a, b) {
        b
    } else if is_at_most(b, a) {
        a
    } else {
        State::Ex
    }
}

// The state in which the next inode of a way is wanted.
fn state_of(way: &Way<'_>) -> State
    requires { way.now.depth < length way.now.wants.now }
    ensures { (w : WantValue) → slice_get way.now.wants.now way.now.depth ≡ Some w → w.state ≡ result }
{
    way.wants[way.depth].state
}

// Comes to the inode that is next on a way, its lock being held in this state, and goes past it. What stands in the way, if something does.
fn go_past<V: View>(
    view: &V,
    way: &mut Way<'_>,
    block: u64,
    above: u64,
    state: State,
) -> Result<Option<PairWalk>, CallFault>
    requires { way.old.depth ≤ length way.old.names.now }
    ensures same { IsSameWay way.old way.new }
    ensures deeper { IfOk result (λ stop. IfNone stop (way.new.depth ≡ way.old.depth + 1)) }
    ensures passed { IfOk result (λ stop. IfNone stop (IsPassed (V.seen view.now) way.old.names.now way.old.depth block above state way.new.next)) }
    ensures hindered { IfOk result (λ stop. IfSome stop (IsHindered (V.seen view.now) way.old.names.now way.old.depth block state)) }
    ensures damaged { OnlyDamaged result (IsDamagedAt (V.seen view.now) way.old.names.now way.old.depth block state) }
    ensures kept { OnlyDamaged result (IsOfView (V.seen view.now)) }
{
    let place = match come_to(view, block, above, state)? {
        Visit::At(place) => place,
        Visit::NeedLock(lock) => return Ok(Some(PairWalk::NeedLock { lock, state })),
        Visit::NeedBlock(missing) => return Ok(Some(PairWalk::NeedBlock(missing))),
    };
    match ahead(view, &place, way.names, way.depth)? {
        Step::Is(next) => {
            way.next = next;
            way.depth += 1;
            Ok(None)
        }
        Step::NeedBlock(missing) => Ok(Some(PairWalk::NeedBlock(missing))),
    }
}

// Goes past an inode that comes next on both ways, on the first and then on the second, where the first doesn't decide then.
fn go_past_on_both<V: View>(
    view: &V,
    one: &mut Way<'_>,
    two: &mut Way<'_>,
    block: u64,
    above: u64,
    beside: u64,
    ends: bool,
) -> Result<Option<PairWalk>, CallFault>
    requires underway { AreUnderway (V.seen view.now) one.old two.old }
    requires ends { ends ≡ leads_to one.old.names.now two.old.names.now }
    requires first { one.old.next ≡ Next.Inode block above }
    requires second { two.old.next ≡ Next.Inode block beside }
    ensures first_same { IsSameWay one.old one.new }
    ensures second_same { IsSameWay two.old two.new }
    ensures went { IfOk result (λ stop. IfNone stop (AreUnderway (V.seen view.now) one.new two.new)) }
    ensures smaller { IfOk result (λ stop. IfNone stop (left_on one.new + left_on two.new < left_on one.old + left_on two.old)) }
    ensures told { IfOk result (λ stop. IfSome stop (IsPairTold (V.seen view.now) one.old.names.now two.old.names.now one.old.wants.now two.old.wants.now)) }
    ensures walked { (im : Image) (o : Owners) (l : Layout) (t : Tree) → IsOf (V.seen view.now) im o l t
        → IfOk result (λ stop. IfSome stop (IsPairWalked (V.seen view.now) im o l t one.old.names.now two.old.names.now one.old.wants.now two.old.wants.now)) }
    ensures sound { (im : Image) (o : Owners) (l : Layout) (t : Tree) → IsOf (V.seen view.now) im o l t → OnlyDamaged result (λ rule block. ⊥) }
    ensures damaged { OnlyDamaged result (IsPairDamage (V.seen view.now) one.old.names.now two.old.names.now one.old.wants.now two.old.wants.now) }
    ensures kept { OnlyDamaged result (IsOfView (V.seen view.now)) }
{
    let state = stronger(state_of(&*one), state_of(&*two));
    if let Some(stop) = go_past(view, one, block, above, state)? {
        return Ok(Some(stop));
    }
    if has_decided(one.next, ends) {
        return Ok(None);
    }
    go_past(view, two, block, beside, state)
}

/// One turn: the way that goes on, or both, past the inode that comes next. How the walk ends, if it does.
pub(crate) fn go<V: View>(
    view: &V,
    one: &mut Way<'_>,
    two: &mut Way<'_>,
    ends: bool,
) -> Result<Option<PairWalk>, CallFault>
    requires underway { AreUnderway (V.seen view.now) one.old two.old }
    requires ends { ends ≡ leads_to one.old.names.now two.old.names.now }
    ensures first_same { IsSameWay one.old one.new }
    ensures second_same { IsSameWay two.old two.new }
    ensures went { IfOk result (λ stop. IfNone stop (AreUnderway (V.seen view.now) one.new two.new)) }
    ensures smaller { IfOk result (λ stop. IfNone stop (left_on one.new + left_on two.new < left_on one.old + left_on two.old)) }
    ensures told { IfOk result (λ stop. IfSome stop (IsPairTold (V.seen view.now) one.old.names.now two.old.names.now one.old.wants.now two.old.wants.now)) }
    ensures walked { (im : Image) (o : Owners) (l : Layout) (t : Tree) → IsOf (V.seen view.now) im o l t
        → IfOk result (λ stop. IfSome stop (IsPairWalked (V.seen view.now) im o l t one.old.names.now two.old.names.now one.old.wants.now two.old.wants.now)) }
    ensures sound { (im : Image) (o : Owners) (l : Layout) (t : Tree) → IsOf (V.seen view.now) im o l t → OnlyDamaged result (λ rule block. ⊥) }
    ensures damaged { OnlyDamaged result (IsPairDamage (V.seen view.now) one.old.names.now two.old.names.now one.old.wants.now two.old.wants.now) }
    ensures kept { OnlyDamaged result (IsOfView (V.seen view.now)) }
{
    match turn_of(one.next, two.next, ends) {
        Turn::First { block, above } => {
            let state = state_of(&*one);
            go_past(view, one, block, above, state)
        }
        Turn::Second { block, above } => {
            let state = state_of(&*two);
            go_past(view, two, block, above, state)
        }
        Turn::Both {
            block,
            above,
            beside,
        } => go_past_on_both(view, one, two, block, above, beside, ends),
        Turn::Over(end) => Ok(Some(end)),
    }
}
