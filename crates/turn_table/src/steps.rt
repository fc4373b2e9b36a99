//! The steps on the table, a function for each kind. No other code changes the table.
ghost use Rattle.std.specs.Prelude.{◌≡◌, ℕ, ◌<◌, List, [], ◌∷◌, Option, Some, None, MatchBool};
ghost use Rattle.atomic_table.specs.Table.{rest};
ghost use Rattle.turn_table.specs.Notes.{noted, without, brought, keys};
ghost use Rattle.turn_table.specs.Playing.{standing, Took, Gave, GaveSecond, MayGive, MayGiveSecond, parting, newcomer, joined};

use crate::plays::{Bring, Give, GiveSecond, Halve, Take, Unite};
use crate::rule::TurnRule;
use crate::standing::{Law, Standing};
use atomic_table::{Seat, Shared};
use std::snapshot::Snapshot;

/// The words and slots that threads share.
pub(crate) type Board<V, R> = Shared<Option<V>, Standing<V>, Snapshot<Vec<V>>, Law<R>>;

/// A seat at the board.
pub(crate) type Place<V> = Seat<Option<V>, Standing<V>>;

// The word of a part whose turn nobody holds.
const FREE: u64 = 0;

pub(crate) const TAKEN: u64 = 1;

/// Takes the part's turn, and its slot with the value. False where another seat holds the turn, and then nothing changes.
pub(crate) fn try_take<V, R: TurnRule<V>>(
    board: &Board<V, R>,
    place: &mut Place<V>,
    part: usize,
) -> bool
    requires board { place.old.table_id ≡ board.now.table_id }
    requires part { (part < board.now.table_id.words) × (part < board.now.table_id.slots) }
    requires share { 0 < place.old.me.0.share }
    ensures board { (place.new.table_id ≡ place.old.table_id) × (place.new.id ≡ place.old.id) }
    ensures taken { MatchBool result ((v : V) × Took R.holds R.grows board.now.table_id.slots part v place.old.me place.new.me) (place.new.me ≡ place.old.me) }
{
    board.compare_exchange::<Take<R>>(place, part, FREE, TAKEN) == FREE
}

/// Moves the value out of the slot in front.
pub(crate) fn move_out<V, R: TurnRule<V>>(
    board: &Board<V, R>,
    place: &mut Place<V>,
    part: usize,
) -> V
    requires board { place.old.table_id ≡ board.now.table_id }
    requires slot { (v : V) × (place.old.me.1 ≡ (part, Some v) ∷ rest place.old.me.1) }
    ensures board { (place.new.table_id ≡ place.old.table_id) × (place.new.id ≡ place.old.id) }
    ensures value { place.old.me.1 ≡ (part, Some result) ∷ rest place.old.me.1 }
    ensures slot { place.new.me ≡ (place.old.me.0, (part, None) ∷ rest place.old.me.1) }
{
    match board.exchange(place, part, None) {
        Some(value) => value,
        None => unreachable!(),
    }
}

/// Moves a value into the slot in front.
pub(crate) fn move_back<V, R: TurnRule<V>>(
    board: &Board<V, R>,
    place: &mut Place<V>,
    part: usize,
    value: V,
)
    requires board { place.old.table_id ≡ board.now.table_id }
    requires slot { place.old.me.1 ≡ (part, None) ∷ rest place.old.me.1 }
    ensures board { (place.new.table_id ≡ place.old.table_id) × (place.new.id ≡ place.old.id) }
    ensures slot { place.new.me ≡ (place.old.me.0, (part, Some value) ∷ rest place.old.me.1) }
{
    match board.exchange(place, part, Some(value)) {
        None => {}
        Some(_) => unreachable!(),
    }
}

/// Gives the front turn back, with its slot. The change of its value is allowed alone.
pub(crate) fn give_alone<V, R: TurnRule<V>>(board: &Board<V, R>, place: &mut Place<V>, part: usize)
    requires board { place.old.table_id ≡ board.now.table_id }
    requires part { part < board.now.table_id.words }
    requires change { MayGive R.alone part place.old.me }
    ensures board { (place.new.table_id ≡ place.old.table_id) × (place.new.id ≡ place.old.id) }
    ensures given { Gave place.old.me place.new.me }
{
    board.store::<Give>(place, part, FREE);
}

/// Gives the front turn back, with its slot, while the value in the next slot is declared. The two changes are allowed paired.
pub(crate) fn give_second<V, R: TurnRule<V>>(board: &Board<V, R>, place: &mut Place<V>, part: usize)
    requires board { place.old.table_id ≡ board.now.table_id }
    requires part { part < board.now.table_id.words }
    requires change { MayGiveSecond R.paired part place.old.me }
    ensures board { (place.new.table_id ≡ place.old.table_id) × (place.new.id ≡ place.old.id) }
    ensures given { GaveSecond place.old.me place.new.me }
{
    board.store::<GiveSecond>(place, part, FREE);
}

/// Splits a seat: its share falls by one, and the new seat has share 1 and has seen the same.
pub(crate) fn split<V, R: TurnRule<V>>(board: &Board<V, R>, place: &mut Place<V>) -> Place<V>
    requires board { (place.old.table_id ≡ board.now.table_id) × (0 < board.now.table_id.words) }
    requires share { 1 < place.old.me.0.share }
    ensures board { (place.new.table_id ≡ place.old.table_id) × (place.new.id ≡ place.old.id) × (result.table_id ≡ place.old.table_id) }
    ensures left { place.new.me ≡ (parting place.old.me.0, place.old.me.1) }
    ensures right { result.me ≡ (newcomer place.old.me.0, []) }
{
    board.split_seat::<Halve>(place)
}

/// Joins a seat, which holds no turn, into another.
pub(crate) fn join<V, R: TurnRule<V>>(board: &Board<V, R>, place: &mut Place<V>, other: Place<V>)
    requires board { (place.old.table_id ≡ board.now.table_id) × (other.table_id ≡ board.now.table_id) × (0 < board.now.table_id.words) }
    requires idle { (other.me.0.turns ≡ []) × (other.me.1 ≡ []) }
    ensures board { (place.new.table_id ≡ place.old.table_id) × (place.new.id ≡ place.old.id) }
    ensures joined { place.new.me ≡ (joined place.old.me.0 other.me.0, place.old.me.1) }
{
    board.join_seat::<Unite>(place, other);
}

/// Brings the part's slot to the front of those that the seat has. It changes no word, no slot and no value: a load, at which the seat's own order changes.
pub(crate) fn bring<V, R: TurnRule<V>>(board: &Board<V, R>, place: &mut Place<V>, part: usize)
    requires board { place.old.table_id ≡ board.now.table_id }
    requires part { part < board.now.table_id.words }
    requires tied { keys place.old.me.1 ≡ keys place.old.me.0.turns }
    ensures board { (place.new.table_id ≡ place.old.table_id) × (place.new.id ≡ place.old.id) }
    ensures brought { place.new.me ≡ (standing place.old.me.0.share place.old.me.0.seen (brought part place.old.me.0.turns), brought part place.old.me.1) }
{
    board.load::<Bring>(place, part);
}

/// Moves a value back into the part's slot, which is brought to the front with its turn.
pub(crate) fn put_back<V, R: TurnRule<V>>(
    board: &Board<V, R>,
    place: &mut Place<V>,
    part: usize,
    value: V,
)
    requires board { place.old.table_id ≡ board.now.table_id }
    requires part { part < board.now.table_id.words }
    requires tied { keys place.old.me.1 ≡ keys place.old.me.0.turns }
    requires slot { noted part place.old.me.1 ≡ Some None }
    ensures board { (place.new.table_id ≡ place.old.table_id) × (place.new.id ≡ place.old.id) }
    ensures slot { (v : V) → noted part place.old.me.0.turns ≡ Some v → place.new.me ≡ (standing place.old.me.0.share place.old.me.0.seen ((part, v) ∷ without part place.old.me.0.turns), (part, Some value) ∷ without part place.old.me.1) }
{
    bring(board, place, part);
    move_back(board, place, part, value);
}
