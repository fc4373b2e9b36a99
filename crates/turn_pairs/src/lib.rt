//! Two numbers that threads raise in pairs. That their distance stays is proved from the rule of the turns alone.
#![tactic(auto)]

ghost use Rattle.std.specs.Prelude.{◌≡◌, ℕ, ◌+◌, ◌^◌, ◌<◌, ◌≤◌, [], ◌∷◌, Some, slice_get, IfOk};
ghost use Rattle.turn_table.specs.Sitting.{part_count, SameSeat, HasSeen};
ghost use Rattle.turn_pairs.specs.Pairs.{AreApart, RiseTogether, HasReached, HaveReached, greatest};

use no_memory::NoMemory;
use std::alloc::Global;
use std::marker::{Brand, PhantomData};
use std::sync::Wait;
use std::thread::{Threads, join};
use turn_table::{Held, Seat, TurnRule, Turns};

/// By how much the first number is above the second. Each call of a program picks it.
pub trait Gap {
    ghost gap: { ℕ };
}

impl Gap for Brand {
    ghost gap = { 0 };
}

/// The rule: the numbers are this far apart, and rise together.
pub struct Level<G> {
    gap: PhantomData<G>,
}

impl<G: Gap> TurnRule<u64> for Level<G> {
    ghost use Rattle.std.specs.Prelude.{◌≡◌, ◌≤◌};
    ghost use Rattle.std.proofs.Common.{le_refl, le_trans, le_of_eq, sym, refl};
    ghost use Rattle.turn_pairs.specs.Pairs.{AreApart, RiseTogether, unchanged_keeps, together_keeps, together_grows};

    ghost holds = { AreApart G.gap };

    ghost alone = { λ old new. new ≡ old };

    ghost paired = { RiseTogether };

    ghost grows = { λ old new. old ≤ new };

    ghost alone_keeps = { unchanged_keeps G.gap };

    ghost paired_keeps = { together_keeps G.gap };

    ghost unchanged_alone = { λ v. refl };

    ghost alone_grows = { λ old new may. le_of_eq (sym may) };

    ghost paired_grows = { together_grows };

    ghost grows_reflexive = { λ v. le_refl v };

    ghost grows_transitive = { λ u v w first second. le_trans first second };
}

/// Two numbers behind turns.
pub type Pair<G> = Turns<u64, Level<G>>;

/// A seat at two numbers.
pub type Chair<G> = Seat<u64, Level<G>>;

// Raises both values by 1, unless the first is the greatest number.
fn raise(first: &mut Held<u64>, second: &mut Held<u64>)
    requires { second.old.value ≤ first.old.value }
    ensures first { (first.new.part ≡ first.old.part) × (first.new.opening ≡ first.old.opening) }
    ensures second { (second.new.part ≡ second.old.part) × (second.new.opening ≡ second.old.opening) }
    ensures together { RiseTogether first.old.value second.old.value first.new.value second.new.value }
    ensures risen { first.old.value < greatest → second.new.value ≡ second.old.value + 1 }
    ensures full { greatest ≤ first.old.value → greatest ≤ first.new.value }
{
    let high = first.value_mut();
    let low = second.value_mut();
    if *high < u64::MAX {
        *high += 1;
        *low += 1;
    }
}

// Enters both parts, raises them together and leaves both.
fn raise_pair<G: Gap, W: Wait>(rt: &W, pair: &Pair<G>, chair: &mut Chair<G>)
    requires table { chair.old.table ≡ pair.now }
    requires parts { part_count pair.now ≡ 2 }
    requires idle { chair.old.turns ≡ [] }
    ensures same { SameSeat chair.old chair.new }
    ensures kept { (p x : ℕ) → HasSeen chair.old p x → HasSeen chair.new p x }
    ensures reached { (x : ℕ) → HasSeen chair.old 1 x → HasReached chair.new (x + 1) }
{
    let mut first = pair.enter(rt, chair, 0);
    let mut second = pair.enter(rt, chair, 1);
    raise(&mut first, &mut second);
    pair.leave_pair(chair, first, second);
}

/// Raises both numbers together, so many times.
pub fn raise_pairs<G: Gap, W: Wait>(
    rt: &W,
    pair: &Pair<G>,
    mut chair: Chair<G>,
    times: usize,
) -> Chair<G>
    requires table { chair.table ≡ pair.now }
    requires parts { part_count pair.now ≡ 2 }
    requires idle { chair.turns ≡ [] }
    ensures same { SameSeat chair result }
    ensures kept { (p x : ℕ) → HasSeen chair p x → HasSeen result p x }
    ensures reached { (x : ℕ) → HasSeen chair 1 x → HasReached result (x + times) }
{
    for _done in 0..times {
        raise_pair(rt, pair, &mut chair);
    }
    chair
}

/// Reads both numbers at one moment, in any thread: they are as far apart as ever.
pub fn look<G: Gap, W: Wait>(rt: &W, pair: &Pair<G>, chair: &mut Chair<G>) -> (u64, u64)
    requires table { chair.old.table ≡ pair.now }
    requires parts { part_count pair.now ≡ 2 }
    requires idle { chair.old.turns ≡ [] }
    ensures same { SameSeat chair.old chair.new }
    ensures apart { result.0 ≡ result.1 + G.gap }
{
    let first = pair.enter(rt, chair, 0);
    let second = pair.enter(rt, chair, 1);
    let found = (*first.value(), *second.value());
    pair.leave(chair, first);
    pair.leave(chair, second);
    found
}

/// Two threads raise both numbers together, so many times each. At the end the numbers are as far apart as ever, and no less than what the seat had seen.
pub fn raise_by_two<G: Gap + Send, R: Threads + Wait + Sync>(
    rt: &R,
    pair: Pair<G>,
    mut chair: Chair<G>,
    times: usize,
) -> Vec<u64>
    requires table { chair.table ≡ pair }
    requires parts { part_count pair ≡ 2 }
    requires whole { (chair.turns ≡ []) × (chair.share ≡ 2 ^ 32) }
    ensures apart { AreApart G.gap result.items }
    ensures risen { (p x y : ℕ) → HasSeen chair p x → slice_get result.items p ≡ Some y → x ≤ y }
    ensures reached { (x high low : ℕ) → HasSeen chair 1 x → slice_get result.items 0 ≡ Some high → slice_get result.items 1 ≡ Some low → HaveReached (x + times) high low }
{
    let other = pair.seat(&mut chair);
    let shared = &pair;
    let (mut chair, other) = join(
        rt,
        || -> Chair<G>
            requires { (chair.table ≡ shared.now) × (part_count shared.now ≡ 2) × (chair.turns ≡ []) }
            ensures { SameSeat chair result × ((p x : ℕ) → HasSeen chair p x → HasSeen result p x) × ((x : ℕ) → HasSeen chair 1 x → HasReached result (x + times)) }
        { raise_pairs(rt, shared, chair, times) },
        || -> Chair<G>
            requires { (other.table ≡ shared.now) × (part_count shared.now ≡ 2) × (other.turns ≡ []) }
            ensures { SameSeat other result }
        { raise_pairs(rt, shared, other, times) },
    );
    pair.join(&mut chair, other);
    pair.close(chair)
}

/// Raises two numbers from two threads, and returns them. At `Err` there was no memory.
pub fn raised<G: Gap + Send, R: Threads + Wait + Sync>(
    rt: &R,
    alloc: Global,
    high: u64,
    low: u64,
    times: usize,
) -> Result<(u64, u64), NoMemory>
    requires { high ≡ low + G.gap }
    ensures apart { IfOk result (λ r. r.0 ≡ r.1 + G.gap) }
    ensures risen { IfOk result (λ r. (high ≤ r.0) × (low ≤ r.1)) }
    ensures reached { IfOk result (λ r. HaveReached (low + times) r.0 r.1) }
{
    let Ok(mut numbers) = Vec::with_capacity(alloc, 2) else {
        return Err(NoMemory);
    };
    numbers.push_reserved(high);
    numbers.push_reserved(low);
    let Ok((pair, chair)) = Pair::<G>::new(numbers) else {
        return Err(NoMemory);
    };
    let ends = raise_by_two(rt, pair, chair, times);
    Ok((ends[0], ends[1]))
}

/// Raises two numbers from two threads, so many times each. Their distance is what it was, whatever the threads do, and the
/// low one has risen at least as often as one thread raised it, unless the high one came to the greatest number.
pub fn raised_together<R: Threads + Wait + Sync>(
    rt: &R,
    alloc: Global,
    high: u64,
    low: u64,
    times: usize,
) -> Result<(u64, u64), NoMemory>
    requires { low ≤ high }
    ensures distance { IfOk result (λ r. r.0 + low ≡ r.1 + high) }
    ensures risen { IfOk result (λ r. (high ≤ r.0) × (low ≤ r.1)) }
    ensures reached { IfOk result (λ r. HaveReached (low + times) r.0 r.1) }
{
    raised::<Brand, R>(rt, alloc, high, low, times)
}
