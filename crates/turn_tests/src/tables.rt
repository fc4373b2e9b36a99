//! Two numbers that only rise, and a value that can't be copied.
ghost use Rattle.std.specs.Prelude.{◌≡◌, ℕ, ◌^◌, ◌<◌, ◌≤◌, [], vec_len};
ghost use Rattle.turn_table.specs.Sitting.{part_count, HasSeen, SameSeat};

use std::cell::Cell;
use std::rt::Clock;
use std::sync::{Barrier, Wait};
use std::test::Fail;
use std::thread;
use std::thread::{Threads, join};
use std::time::Duration;
use turn_table::{Seat, TurnRule, Turns};

// Each number may rise, alone or paired.
struct Rises;

impl TurnRule<u64> for Rises {
    ghost use Rattle.std.specs.Prelude.{◌≤◌};
    ghost use Rattle.std.proofs.Common.{le_refl, le_trans};

    ghost holds = { λ parts. Unit {0} };

    ghost alone = { λ old new. old ≤ new };

    ghost paired = { λ a b x y. (a ≤ x) × (b ≤ y) };

    ghost grows = { λ old new. old ≤ new };

    ghost alone_keeps = { λ parts p old new legal at may. tt };

    ghost paired_keeps = { λ parts a b old_a old_b new_a new_b two legal at_a at_b may. tt };

    ghost unchanged_alone = { λ v. le_refl v };

    ghost alone_grows = { λ old new may. may };

    ghost paired_grows = { λ a b x y may. may };

    ghost grows_reflexive = { λ v. le_refl v };

    ghost grows_transitive = { λ u v w first second. le_trans first second };
}

type Numbers = Turns<u64, Rises>;

type Place = Seat<u64, Rises>;

// Adds 1 to a part, and returns what was put back.
fn add_one<W: Wait>(rt: &W, turns: &Numbers, seat: &mut Place, part: usize) -> u64
    requires table { seat.old.table ≡ turns.now }
    requires part { part < part_count turns.now }
    requires idle { seat.old.turns ≡ [] }
    ensures same { SameSeat seat.old seat.new }
    ensures put { HasSeen seat.new part result }
{
    let mut held = turns.enter(rt, seat, part);
    let value = held.value_mut();
    *value = value.saturating_add(1);
    let put = *held.value();
    turns.leave(seat, held);
    put
}

// Reads a part: it is no less than each number that the seat saw there.
fn read<W: Wait>(rt: &W, turns: &Numbers, seat: &mut Place, part: usize) -> u64
    requires table { seat.old.table ≡ turns.now }
    requires part { part < part_count turns.now }
    requires idle { seat.old.turns ≡ [] }
    ensures same { SameSeat seat.old seat.new }
    ensures grown { (x : ℕ) → HasSeen seat.old part x → x ≤ result }
{
    let held = turns.enter(rt, seat, part);
    let value = *held.value();
    turns.leave(seat, held);
    value
}

// Adds 1 and reads again: the second number is at least the first.
fn add_and_read<W: Wait>(rt: &W, turns: &Numbers, seat: &mut Place) -> (u64, u64)
    requires table { seat.old.table ≡ turns.now }
    requires part { 0 < part_count turns.now }
    requires idle { seat.old.turns ≡ [] }
    ensures same { SameSeat seat.old seat.new }
    ensures rises { result.0 ≤ result.1 }
{
    let put = add_one(rt, turns, seat, 0);
    (put, read(rt, turns, seat, 0))
}

#[test]
fn a_number_only_rises(rt: HostRuntime) -> Result<(), Fail> {
    let Ok((turns, mut seat)) = Numbers::new(vec![in rt.alloc(); 5u64, 7]?) else {
        panic!(rt; "memory is ample")
    };
    let (put, found) = add_and_read(&rt, &turns, &mut seat);
    assert!(rt; put == 6 && found == 6);
    let parts = turns.close(seat);
    assert_eq!(rt; parts.as_slice(), [6, 7].as_slice());
    Ok(())
}

// Adds 1 to both parts so many times, in pairs.
fn add_pairs<W: Wait>(rt: &W, turns: &Numbers, mut seat: Place, times: usize) -> Place
    requires table { seat.table ≡ turns.now }
    requires part { part_count turns.now ≡ 2 }
    requires idle { seat.turns ≡ [] }
    ensures same { SameSeat seat result }
{
    for _ in 0..times {
        add_pair(rt, turns, &mut seat);
    }
    seat
}

fn add_pair<W: Wait>(rt: &W, turns: &Numbers, seat: &mut Place)
    requires table { seat.old.table ≡ turns.now }
    requires part { part_count turns.now ≡ 2 }
    requires idle { seat.old.turns ≡ [] }
    ensures same { SameSeat seat.old seat.new }
{
    let mut first = turns.enter(rt, seat, 0);
    let mut second = turns.enter(rt, seat, 1);
    let value = first.value_mut();
    *value = value.saturating_add(1);
    let value = second.value_mut();
    *value = value.saturating_add(1);
    turns.leave_pair(seat, first, second);
}

// Four threads add 1 to both parts, so many times each. The whole share comes together again.
fn add_by_four<R: Threads + Wait + Sync>(
    rt: &R,
    turns: Numbers,
    mut seat: Place,
    times: usize,
) -> Vec<u64>
    requires table { seat.table ≡ turns }
    requires part { part_count turns ≡ 2 }
    requires seat { (seat.turns ≡ []) × (seat.share ≡ 2 ^ 32) }
{
    let a = turns.seat(&mut seat);
    let b = turns.seat(&mut seat);
    let c = turns.seat(&mut seat);
    let shared = &turns;
    let ((seat, a), (b, c)) = join(
        rt,
        || -> (Place, Place)
            requires { (seat.table ≡ shared.now) × (a.table ≡ shared.now) × (part_count shared.now ≡ 2) × (seat.turns ≡ []) × (a.turns ≡ []) }
            ensures { SameSeat seat result.0 × SameSeat a result.1 }
        { add_by_two(rt, shared, seat, a, times) },
        || -> (Place, Place)
            requires { (b.table ≡ shared.now) × (c.table ≡ shared.now) × (part_count shared.now ≡ 2) × (b.turns ≡ []) × (c.turns ≡ []) }
            ensures { SameSeat b result.0 × SameSeat c result.1 }
        { add_by_two(rt, shared, b, c, times) },
    );
    let mut seat = seat;
    turns.join(&mut seat, a);
    turns.join(&mut seat, b);
    turns.join(&mut seat, c);
    turns.close(seat)
}

fn add_by_two<R: Threads + Wait + Sync>(
    rt: &R,
    turns: &Numbers,
    first: Place,
    second: Place,
    times: usize,
) -> (Place, Place)
    requires table { (first.table ≡ turns.now) × (second.table ≡ turns.now) }
    requires part { part_count turns.now ≡ 2 }
    requires idle { (first.turns ≡ []) × (second.turns ≡ []) }
    ensures first { SameSeat first result.0 }
    ensures second { SameSeat second result.1 }
{
    join(
        rt,
        || -> Place
            requires { (first.table ≡ turns.now) × (part_count turns.now ≡ 2) × (first.turns ≡ []) }
            ensures { SameSeat first result }
        { add_pairs(rt, turns, first, times) },
        || -> Place
            requires { (second.table ≡ turns.now) × (part_count turns.now ≡ 2) × (second.turns ≡ []) }
            ensures { SameSeat second result }
        { add_pairs(rt, turns, second, times) },
    )
}

#[test]
fn four_threads_add_in_pairs(rt: HostRuntime) -> Result<(), Fail> {
    let Ok((turns, seat)) = Numbers::new(vec![in rt.alloc(); 0u64, 0]?) else {
        panic!(rt; "memory is ample")
    };
    let parts = add_by_four(&rt, turns, seat, 1000);
    assert!(rt;
        parts
            .iter()
            .fold(0u64, |sum, value| sum.wrapping_add(*value))
            == 8000
    );
    Ok(())
}

// A value that is neither `Copy` nor `Clone`, can't be dropped, and may not be shared by reference between threads.
struct Lines {
    numbers: Vec<u64>,
    reads: Cell<u64>,
}

// Lines are only added.
struct Longer;

impl TurnRule<Lines> for Longer {
    ghost use Rattle.std.specs.Prelude.{◌≡◌, ◌≤◌, length};
    ghost use Rattle.std.proofs.Common.{le_refl, le_trans};

    ghost holds = { λ parts. length parts ≡ 1 };

    ghost alone = { λ old new. length old.numbers.items ≤ length new.numbers.items };

    ghost paired = { λ a b x y. (length a.numbers.items ≤ length x.numbers.items) × (length b.numbers.items ≤ length y.numbers.items) };

    ghost grows = { λ old new. length old.numbers.items ≤ length new.numbers.items };

    ghost use Rattle.std.proofs.Common.{◌∙◌, length-set};

    ghost alone_keeps = { λ parts p old new legal at may. length-set parts p new ∙ legal };

    ghost paired_keeps = { λ parts a b old_a old_b new_a new_b two legal at_a at_b may. length-set _ b new_b ∙ (length-set parts a new_a ∙ legal) };

    ghost unchanged_alone = { λ v. le_refl _ };

    ghost alone_grows = { λ old new may. may };

    ghost paired_grows = { λ a b x y may. may };

    ghost grows_reflexive = { λ v. le_refl _ };

    ghost grows_transitive = { λ u v w first second. le_trans first second };
}

type Pages = Turns<Lines, Longer>;

type Writer = Seat<Lines, Longer>;

// Adds a line.
fn write_line<W: Wait>(rt: &W, pages: &Pages, mut seat: Writer, line: u64) -> Writer
    requires table { seat.table ≡ pages.now }
    requires part { 0 < part_count pages.now }
    requires idle { seat.turns ≡ [] }
    ensures same { SameSeat seat result }
{
    let mut held = pages.enter(rt, &mut seat, 0);
    let lines = held.value_mut();
    lines.reads.set(lines.reads.get().wrapping_add(1));
    let _ = lines.numbers.push(line);
    pages.leave(&mut seat, held);
    seat
}

// Two threads add a line each, and the table ends.
fn written<R: Threads + Wait + Sync>(rt: &R, pages: Pages, mut seat: Writer) -> Vec<Lines>
    requires table { seat.table ≡ pages }
    requires part { 0 < part_count pages }
    requires seat { (seat.turns ≡ []) × (seat.share ≡ 2 ^ 32) }
    ensures one { vec_len result ≡ part_count pages }
{
    let other = pages.seat(&mut seat);
    let shared = &pages;
    let (mut seat, other) = join(
        rt,
        || -> Writer
            requires { (seat.table ≡ shared.now) × (0 < part_count shared.now) × (seat.turns ≡ []) }
            ensures { SameSeat seat result }
        { write_line(rt, shared, seat, 2) },
        || -> Writer
            requires { (other.table ≡ shared.now) × (0 < part_count shared.now) × (other.turns ≡ []) }
            ensures { SameSeat other result }
        { write_line(rt, shared, other, 2) },
    );
    pages.join(&mut seat, other);
    pages.close(seat)
}

#[test]
fn a_value_that_can_not_be_copied(rt: HostRuntime) -> Result<(), Fail> {
    let lines = Lines {
        numbers: vec![in rt.alloc(); 1u64]?,
        reads: Cell::new(0),
    };
    let mut parts = Vec::with_capacity(rt.alloc(), 1).expect(&rt, "memory is ample");
    parts.push_reserved(lines);
    let (pages, seat) = match Pages::new(parts) {
        Ok(made) => made,
        Err(_) => panic!(rt; "memory is ample"),
    };
    let mut parts = written(&rt, pages, seat);
    let last = parts.pop();
    parts.destroy_empty();
    let Some(Lines { numbers, reads }) = last else {
        panic!(rt; "there is one part")
    };
    assert_eq!(rt; numbers.as_slice(), [1, 2, 2].as_slice());
    assert_eq!(rt; reads.get(), 2);
    Ok(())
}

// Adds 1 to part 0, and holds the turn for a while after the barrier.
fn add_slowly<R: Wait + Clock>(rt: &R, turns: &Numbers, mut seat: Place, taken: &Barrier)
    requires table { seat.table ≡ turns.now }
    requires part { 0 < part_count turns.now }
    requires idle { seat.turns ≡ [] }
{
    let mut held = turns.enter(rt, &mut seat, 0);
    taken.wait(rt);
    let _ = thread::sleep(rt, Duration::from_millis(20));
    let value = held.value_mut();
    *value = value.saturating_add(1);
    turns.leave(&mut seat, held);
}

// One thread holds the turn for a while, and another waits for it.
fn wait_for_a_turn<R: Threads + Wait + Clock + Sync>(
    rt: &R,
    turns: &Numbers,
    seat: Place,
    mut other: Place,
) -> u64
    requires table { (seat.table ≡ turns.now) × (other.table ≡ turns.now) }
    requires part { 0 < part_count turns.now }
    requires idle { (seat.turns ≡ []) × (other.turns ≡ []) }
{
    let taken = Barrier::new(2);
    let (_, found) = join(
        rt,
        ||
            requires { (seat.table ≡ turns.now) × (0 < part_count turns.now) × (seat.turns ≡ []) }
        { add_slowly(rt, turns, seat, &taken) },
        || -> u64
            requires { (other.table ≡ turns.now) × (0 < part_count turns.now) × (other.turns ≡ []) }
        {
            taken.wait(rt);
            read(rt, turns, &mut other, 0)
        },
    );
    found
}

#[test]
fn a_seat_waits_until_the_turn_is_given_back(rt: HostRuntime) -> Result<(), Fail> {
    let Ok((turns, mut seat)) = Numbers::new(vec![in rt.alloc(); 5u64]?) else {
        panic!(rt; "memory is ample")
    };
    let other = turns.seat(&mut seat);
    assert!(rt; wait_for_a_turn(&rt, &turns, seat, other) == 6);
    Ok(())
}

// Where an allocation fails, the values are those that were given.
#[test]
fn want_of_memory_gives_the_values_back(rt: HostRuntime) -> Result<(), Fail> {
    let values = match Numbers::new(vec![in rt.alloc(); 5u64, 6, 7]?) {
        Ok((turns, seat)) => turns.close(seat),
        Err((_, values)) => values,
    };
    assert_eq!(rt; values.as_slice(), [5, 6, 7].as_slice());
    Ok(())
}
