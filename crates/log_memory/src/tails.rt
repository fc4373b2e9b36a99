// The tail that the header of a flush tells.
ghost use Rattle.std.specs.Prelude.{◌≡◌, ◌<◌, ℕ, None, Some, slice_get};
ghost use Rattle.std.specs.FinMap as table;
ghost use Rattle.log_tables.specs.Kept.{is_home};
ghost use Rattle.log_values.specs.Log.{Entry, Flush};
ghost use Rattle.log_values.specs.Flushing.{IsTail, NoneIsNeeded, head_place};
ghost use Rattle.log_memory.specs.Flushing.{is_needed, older};

use crate::log::Log;
use crate::places::{distance, place};
use log_tables::{Tables, Whereabouts};

/// Whether the content of the block in this row of those that are live is home.
pub(crate) fn is_home(tables: &Tables, place: usize) -> bool
    requires { place < table.len tables.now.live }
    ensures { (e : ℕ × Entry) → slice_get (table.entries tables.now.live) place ≡ Some e → result ≡ is_home e.1.way }
{
    match tables.live_whereabouts(place) {
        Whereabouts::Home => true,
        Whereabouts::Away => false,
        Whereabouts::Flying => false,
    }
}

// Whether the block in this row is needed behind the flush that was begun.
fn is_needed(log: &Log, place: usize) -> bool
    requires { place < table.len log.now.live }
    ensures { (f : Flush) (e : ℕ × Entry) → log.now.flush ≡ Some f → slice_get (table.entries log.now.live) place ≡ Some e → result ≡ is_needed f e }
{
    let block = log.tables.live_block(place);
    let is_home = is_home(&log.tables, place);
    let is_logged = log.tables.is_flushed(block);
    let is_revoked = log.revoked.get(block).is_some();
    !is_home && !is_logged && !is_revoked
}

// Of a place, if there is one, and another that which is less far behind the tail.
fn older(log: &Log, so_far: Option<u32>, first: u32) -> u32
    ensures { result ≡ older log.now so_far first }
{
    let Some(place) = so_far else {
        return first;
    };
    let length = log.journal.length;
    if distance(length, log.tail, place) <= distance(length, log.tail, first) {
        place
    } else {
        first
    }
}

// Where the oldest transaction begins that has a block that is needed.
fn oldest(log: &Log) -> Option<u32>
    ensures none { (f : Flush) → log.now.flush ≡ Some f → result ≡ None → NoneIsNeeded log.now f }
    ensures some { (f : Flush) (tail : ℕ) → log.now.flush ≡ Some f → result ≡ Some tail → IsTail log.now f tail }
{
    let mut oldest = None;
    for place in 0..log.tables.live_len() {
        if is_needed(log, place) {
            oldest = Some(older(log, oldest, log.tables.live_first(place)));
        }
    }
    oldest
}

/// The tail that the header of the flush that was begun is to tell, at its place. It goes over the live blocks.
pub(crate) fn tail_of(log: &Log, head: u32) -> u32
    requires { (f : Flush) → log.now.flush ≡ Some f → head ≡ head_place log.now f }
    ensures { (f : Flush) → log.now.flush ≡ Some f → IsTail log.now f result }
{
    if let Some(place) = oldest(log) {
        return place;
    }
    if log.tables.flushed_len() > 0 {
        place(log, 0)
    } else {
        head
    }
}
