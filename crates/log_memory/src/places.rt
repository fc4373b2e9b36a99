// The places of a flush in the journal.
ghost use Rattle.std.specs.Prelude.{◌≡◌, ◌+◌, ◌<◌, ◌≤◌, ◌↔◌, ℕ, IsTrue, Some, length};
ghost use Rattle.log_layout.specs.Journal.{way};
ghost use Rattle.node_journal.specs.Places.{place_on};
ghost use Rattle.log_values.specs.Log.{Flush};
ghost use Rattle.log_values.specs.Log.Stage.{Writing};
ghost use Rattle.log_values.specs.Flushing.{block_at, first_place, flush_chunks, free_in};

use crate::log::Log;
use node_journal::{Ring, size_with};

/// How many places it is from one of a ring of so many on to another.
pub(crate) fn distance(places: u32, from: u32, to: u32) -> u64
    requires { from < places }
    ensures { result ≡ way places from to }
{
    let (places, from, to) = (u64::from(places), u64::from(from), u64::from(to));
    if from <= to {
        to - from
    } else {
        to + places - from
    }
}

// Which places of the journal are in use.
fn ring(log: &Log) -> Ring
    ensures length { result.length ≡ log.now.journal.length }
    ensures tail { result.tail ≡ log.now.tail }
    ensures head { result.head ≡ log.now.head }
{
    Ring {
        length: log.journal.length,
        tail: log.tail,
        head: log.head,
    }
}

/// Whether so many places are free, and one more, which a flush leaves.
pub(crate) fn has_free(log: &Log, blocks: u32) -> bool
    ensures { IsTrue result ↔ (blocks + 1 ≤ free_in log.now) }
{
    ring(log).reserve(blocks)
}

/// The place so many behind the first of a flush. So many are free, and one more.
pub(crate) fn place(log: &Log, count: u32) -> u32
    requires { count + 1 ≤ free_in log.now }
    ensures value { result ≡ place_on log.now.journal.length (first_place log.now) count }
    ensures inside { result < log.now.journal.length }
{
    let mut ring = ring(log);
    ring.advance(count + 1, log.tail);
    ring.head
}

/// The block that stands at a place.
pub(crate) fn block_of(log: &Log, place: u32) -> u64
    requires { place < log.now.journal.length }
    ensures { result ≡ block_at log.now.journal place }
{
    log.journal.places[place as usize]
}

/// How many blocks the chunks of the flush have that was begun. So many places are free, and one more.
pub(crate) fn chunk_count(log: &Log) -> u32
    ensures count { (f : Flush) → log.now.flush ≡ Some f → result ≡ length (flush_chunks log.now f) }
    ensures free { (f : Flush) → log.now.flush ≡ Some f → result + 1 ≤ free_in log.now }
    ensures reached { (f : Flush) (done : ℕ) → log.now.flush ≡ Some f → f.stage ≡ Writing done → done ≤ result }
{
    let content = log.content.len() as u32;
    let metadata = log.metadata.len() as u32;
    let revokes = log.revokes.len() as u32;
    size_with(content, metadata, revokes, log.journal.block_size) - 1
}
