//! The table of turns and its calls.
ghost use Rattle.std.specs.Prelude.{◌≡◌, ℕ, ◌^◌, ◌<◌, ◌≤◌, [], ◌∷◌, ◌++◌, ◌+◌, ◌-◌, All, IfOk, IfErr, Some, slice_get, List, map, vec_len, vec_capacity};
ghost use Rattle.std.specs.List.{enumerate_from};
ghost use Rattle.turn_table.specs.Notes.{without};
ghost use Rattle.turn_table.specs.Sitting.{part_count, AreLegal, HasSeen, HoldsTurn, HoldsTurns};

use crate::hold::Held;
use crate::moves::{empty_slots, empty_table, fill_slots};
use crate::rule::TurnRule;
use crate::seats::Seat;
use crate::shelf::Shelf;
use crate::standing::{Law, Standing};
use crate::steps;
use atomic_table::{Refused, Table};
use no_memory::NoMemory;
use std::alloc::Global;
use std::marker::Model;
use std::snapshot::Snapshot;
use std::sync::Wait;
use std::sync::atomic::{AtomicU64, Ordering};
use std::thread;

// How often a thread that waits yields before it sleeps.
const YIELDS: u32 = 32;

/// Values behind turns, which threads share by reference. Contracts see which table it is.
#[derive(Drop)]
pub struct Turns<V, R: TurnRule<V>> {
    table: Table<Option<V>, Standing<V>, Snapshot<Vec<V>>, Law<R>, Global>,
    // The emptied `Vec` that the values came in, to which `close` gives them back.
    shelf: Shelf<V>,
    // How many threads sleep, or are about to. It is no part of the rule: it spares `leave` a call of the system.
    sleepers: AtomicU64,
}

impl<V, R: TurnRule<V>> Model for Turns<V, R> {
    ghost use Rattle.std.specs.Prelude.{◌≡◌, ◌<◌};
    ghost use Rattle.atomic_table.specs.Seated.{TableId, table_id_coded};

    ghost Value = { TableId };

    ghost coded = { table_id_coded };

    ghost view = { λ t. t.table.shared.table_id };

    ghost invariant = { λ t. (t.table.shared.table_id.slots ≡ t.table.shared.table_id.words) × (0 < t.table.shared.table_id.words) × (t.table.shared.table_id.words ≡ t.shelf) };
}

// The values come back out of the slots.
fn refused<V>(slots: Vec<Option<V>>, mut parts: Vec<V>) -> (NoMemory, Vec<V>)
    requires full { (values : List V) × (slots.items ≡ map Some values) }
    requires empty { parts.items ≡ [] }
    requires room { vec_len slots ≤ vec_capacity parts }
    ensures { map Some result.1.items ≡ slots.items }
{
    empty_slots(slots, &mut parts);
    (NoMemory, parts)
}

impl<V, R: TurnRule<V>> Turns<V, R> {
    /// Puts each value behind a turn: part p is the p-th. It takes memory and time linear in their number; at `Err` the values come back.
    pub fn new(mut parts: Vec<V>) -> Result<(Turns<V, R>, Seat<V, R>), (NoMemory, Vec<V>)>
        requires some { 0 < vec_len parts }
        requires legal { R.holds parts.items }
        ensures count { IfOk result (λ t. part_count t.0 ≡ vec_len parts) }
        ensures seat { IfOk result (λ t. t.1 ≡ record { table = t.0; share = 2 ^ 32; seen = enumerate_from 0 parts.items; turns = [] }) }
        ensures err { IfErr result (λ e. e.1.items ≡ parts.items) }
    {
        let alloc = *parts.allocator();
        let count = parts.len();
        let opening = Snapshot::of(&parts);
        let Ok(words) = Vec::from_elem(alloc, 0u64, count) else {
            return Err((NoMemory, parts));
        };
        let Ok(mut slots) = Vec::with_capacity(alloc, count) else {
            return Err((NoMemory, parts));
        };
        fill_slots(&mut parts, &mut slots);
        let shelf = match Shelf::new(alloc, parts, count) {
            Ok(shelf) => shelf,
            Err(parts) => return Err(refused(slots, parts)),
        };
        match Table::new(alloc, words.as_slice(), slots, &opening) {
            Ok((table, place)) => {
                let turns = Turns {
                    table,
                    shelf,
                    sleepers: AtomicU64::new(0),
                };
                Ok((turns, Seat::new(place)))
            }
            Err(Refused { slots }) => Err(refused(slots, shelf.take())),
        }
    }

    /// A seat for another thread, which has seen what `from` saw and has share 1. It takes constant time and no memory.
    pub fn seat(&self, from: &mut Seat<V, R>) -> Seat<V, R>
        requires table { from.old.table ≡ self.now }
        requires share { 2 ≤ from.old.share }
        ensures from { from.new ≡ record from.old { share = from.old.share - 1 } }
        ensures seat { result ≡ record { table = self.now; share = 1; seen = from.old.seen; turns = [] } }
    {
        Seat::new(steps::split(&self.table.shared, &mut from.place))
    }

    /// Takes in a seat that holds no turn, with its share and with what it saw. It takes constant time.
    pub fn join(&self, into: &mut Seat<V, R>, from: Seat<V, R>)
        requires table { (into.old.table ≡ self.now) × (from.table ≡ self.now) }
        requires idle { from.turns ≡ [] }
        ensures into { into.new ≡ record into.old { share = into.old.share + from.share; seen = into.old.seen ++ from.seen } }
    {
        steps::join(&self.table.shared, &mut into.place, from.into_place());
    }

    /// Takes the turn of a part, and hands out its value. It waits while another seat holds the turn: it yields some times, and
    /// then sleeps until a turn is given back. It takes no memory. Seats take turns in rising order of the parts, so that no two wait for each other.
    pub fn enter<W: Wait>(&self, rt: &W, seat: &mut Seat<V, R>, part: usize) -> Held<V>
        requires table { seat.old.table ≡ self.now }
        requires part { part < part_count self.now }
        requires order { All (λ t. t.0 < part) seat.old.turns }
        ensures held { (result.part ≡ part) × (result.opening ≡ result.value) }
        ensures grown { (x : V) → HasSeen seat.old part x → R.grows x result.value }
        ensures legal { AreLegal R.holds (part_count self.now) seat.new.turns }
        ensures seat { seat.new ≡ record seat.old { seen = (part, result.value) ∷ seat.old.seen; turns = (part, result.value) ∷ seat.old.turns } }
    {
        let board = &self.table.shared;
        let place = &mut seat.place;
        for _ in rt.forever() {
            if steps::try_take(board, place, part) {
                return Held::new(part, steps::move_out(board, place, part));
            }
            self.wait_for(rt, part);
        }
        unreachable!()
    }

    // Waits a while, or until a turn of the part is given back.
    fn wait_for<W: Wait>(&self, rt: &W, part: usize)
        requires part { part < part_count self.now }
    {
        for _ in 0..YIELDS {
            if self.table.shared.peek(part) != steps::TAKEN {
                return;
            }
            thread::yield_now();
        }
        self.sleepers.fetch_add(1, Ordering::SeqCst);
        self.table.shared.park(rt, part, steps::TAKEN as u32);
        self.sleepers.fetch_sub(1, Ordering::SeqCst);
    }

    // Wakes a thread that sleeps for the part, if one may.
    fn wake(&self, part: usize)
        requires part { part < part_count self.now }
    {
        if self.sleepers.load(Ordering::SeqCst) != 0 {
            self.table.shared.wake_one(part);
        }
    }

    /// Puts a value back, and gives its turn back. The change of the value since `enter` is allowed alone. It takes no memory, and time by the
    /// number of turns that the seat holds at most.
    pub fn leave(&self, seat: &mut Seat<V, R>, held: Held<V>)
        requires table { seat.old.table ≡ self.now }
        requires held { HoldsTurn seat.old held }
        requires change { R.alone held.opening held.value }
        ensures seat { seat.new ≡ record seat.old { seen = (held.part, held.value) ∷ seat.old.seen; turns = without held.part seat.old.turns } }
    {
        let (part, value) = held.into_parts();
        let board = &self.table.shared;
        let place = &mut seat.place;
        steps::put_back(board, place, part, value);
        steps::give_alone(board, place, part);
        self.wake(part);
    }

    /// Puts two values back, and gives both turns back, the second one first. Their changes since `enter` are allowed paired. It takes no memory.
    pub fn leave_pair(&self, seat: &mut Seat<V, R>, first: Held<V>, second: Held<V>)
        requires table { seat.old.table ≡ self.now }
        requires held { HoldsTurns seat.old first second }
        requires change { R.paired first.opening second.opening first.value second.value }
        ensures seat { seat.new ≡ record seat.old { seen = (first.part, first.value) ∷ (second.part, second.value) ∷ seat.old.seen; turns = without second.part (without first.part seat.old.turns) } }
    {
        let (a, first_value) = first.into_parts();
        let (b, second_value) = second.into_parts();
        let board = &self.table.shared;
        let place = &mut seat.place;
        steps::put_back(board, place, a, first_value);
        steps::put_back(board, place, b, second_value);
        steps::give_second(board, place, b);
        steps::give_alone(board, place, a);
        self.wake(b);
        self.wake(a);
    }

    /// Ends the table, and gives the values back in order. The seat has the whole share, so no other is left. It takes no memory, and time linear in the number of parts.
    pub fn close(self, seat: Seat<V, R>) -> Vec<V>
        requires table { seat.table ≡ self }
        requires share { seat.share ≡ 2 ^ 32 }
        requires idle { seat.turns ≡ [] }
        ensures count { vec_len result ≡ part_count self }
        ensures legal { R.holds result.items }
        ensures grown { (p : ℕ) (x v : V) → HasSeen seat p x → slice_get result.items p ≡ Some v → R.grows x v }
    {
        let Turns {
            table,
            shelf,
            sleepers: _,
        } = self;
        let mut parts = shelf.take();
        empty_table(table.close_with(seat.into_place()), &mut parts);
        parts
    }
}
