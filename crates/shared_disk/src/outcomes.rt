ghost use Rattle.std.specs.Prelude.{◌≡◌, ◌+◌, ◌*◌, ◌/◌, ◌<◌, ◌≤◌, ℕ, length, drop, take};
ghost use Rattle.shared_disk.specs.Disk.{written, with_value, AreFlights};
ghost use Rattle.shared_disk.specs.Places.{flights_at, AreThere};
ghost use Rattle.shared_disk.specs.Settling.{ordered};
ghost use Rattle.shared_disk.specs.Outcomes.{outcome_of, fate, became, IsOfSize, AreOfSize};
ghost use Rattle.shared_disk.specs.Blocks.{block_in};

use crate::Settle;
use crate::places::{Place, bytes_at};

/// What a write in flight becomes at a fence: what was there stays (`Old`), what was written comes
/// (`New`), or these bytes, of one block's length, do (`Bytes`).
#[derive(Drop)]
pub enum Outcome {
    Old,
    New,
    Bytes(Vec<u8>),
}

// Settles a write over the old block as the order says.
fn settle_ordered(block: &mut [u8], new: &[u8], order: Settle)
    requires { length new.now ≡ length block.old }
    ensures { block.new ≡ ordered order block.old new.now }
{
    match order {
        Settle::Old => {}
        Settle::New => block.copy_from_slice(new),
        Settle::Torn(count) => {
            let count = (count as usize).min(new.len());
            block[..count].copy_from_slice(&new[..count]);
        }
    }
}

// Settles a write over the old block as the outcome says.
fn settle_outcome(block: &mut [u8], new: &[u8], outcome: &Outcome)
    requires size { length new.now ≡ length block.old }
    requires outcome { IsOfSize (length block.old) outcome.now }
    ensures { block.new ≡ outcome_of outcome.now block.old new.now }
{
    match outcome {
        Outcome::Old => {}
        Outcome::New => block.copy_from_slice(new),
        Outcome::Bytes(bytes) => block.copy_from_slice(bytes),
    }
}

// Settles a write over the old block as the first outcome says, or else as the order does.
fn settle(block: &mut [u8], new: &[u8], outcomes: &[Outcome], order: Settle)
    requires size { length new.now ≡ length block.old }
    requires outcomes { AreOfSize (length block.old) outcomes.now }
    ensures { block.new ≡ fate order outcomes.now block.old new.now }
{
    match outcomes {
        [] => settle_ordered(block, new, order),
        [outcome, ..] => settle_outcome(block, new, outcome),
    }
}

fn past_first(outcomes: &[Outcome]) -> &[Outcome]
    ensures { result.now ≡ drop 1 outcomes.now }
{
    match outcomes {
        [] => outcomes,
        [_, rest @ ..] => rest,
    }
}

// Puts a block into the row.
fn put_block(row: &mut [u8], size: usize, block: u64, new: &[u8])
    requires size { length new.now ≡ size }
    requires within { block < length row.old / size }
    ensures { (k : ℕ) → block_in size row.new k ≡ with_value (block_in size row.old) block new.now k }
{
    let from = block as usize * size;
    row[from..from + size].copy_from_slice(new);
}

// Settles a write over its old block in the row.
fn settle_block(
    row: &mut [u8],
    size: usize,
    block: u64,
    new: &[u8],
    outcomes: &[Outcome],
    order: Settle,
)
    requires size { length new.now ≡ size }
    requires within { block < length row.old / size }
    requires outcomes { AreOfSize size outcomes.now }
    ensures { (k : ℕ) → block_in size row.new k ≡ with_value (block_in size row.old) block (fate order outcomes.now (block_in size row.old block) new.now) k }
{
    let from = block as usize * size;
    settle(&mut row[from..from + size], new, outcomes, order);
}

/// Puts each write in flight to its place in the row of blocks. One copy per write.
pub fn put_blocks(row: &mut [u8], size: usize, places: &[Place], bytes: &[u8])
    requires flights { AreFlights (length row.old / size) size (flights_at size bytes.now places.now) }
    requires there { AreThere size bytes.now places.now }
    ensures { (k : ℕ) → block_in size row.new k ≡ written (block_in size row.old) (flights_at size bytes.now places.now) k }
{
    let mut rest = places;
    while let [place, after @ ..] = rest {
        let new = bytes_at(bytes, size, place.number);
        put_block(row, size, place.block, new);
        rest = after;
    }
}

/// Settles each write in flight over its old block in the row. At most one copy per write.
pub fn settle_blocks(
    row: &mut [u8],
    size: usize,
    places: &[Place],
    bytes: &[u8],
    outcomes: &[Outcome],
    order: Settle,
)
    requires flights { AreFlights (length row.old / size) size (flights_at size bytes.now places.now) }
    requires there { AreThere size bytes.now places.now }
    requires outcomes { AreOfSize size outcomes.now }
    ensures { (k : ℕ) → block_in size row.new k ≡ written (block_in size row.old) (became order outcomes.now (block_in size row.old) (flights_at size bytes.now places.now)) k }
{
    let mut rest = places;
    let mut left = outcomes;
    while let [place, after @ ..] = rest {
        let new = bytes_at(bytes, size, place.number);
        settle_block(row, size, place.block, new, left, order);
        rest = after;
        left = past_first(left);
    }
}
