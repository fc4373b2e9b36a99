// Live blocks on their way home.
ghost use Rattle.std.specs.Prelude.{◌≡◌, ◌+◌, ◌<◌, ℕ, IfSome, IfNone, None, Some, List, length, slice_get, true};
ghost use Rattle.std.specs.FinMap as table;
ghost use Rattle.log_values.specs.Log.{Entry};
ghost use Rattle.log_tables.specs.Versions.Way.{Away, Flying};
ghost use Rattle.log_memory.specs.Locks.{IsLeastFound, comes_before as before, lesser_of};
ghost use Rattle.log_memory.specs.Rows.{IsFirstThatGoes, NoneGoes, goes_home, is_away};

use crate::log::Log;
use crate::revokes::is_same_lock;
use glock_names::LockName;
use log_tables::{Tables, Whereabouts};
use log_values::LogStep;

fn is_away(tables: &Tables, place: usize) -> bool
    requires { place < table.len tables.now.live }
    ensures { (e : ℕ × Entry) → slice_get (table.entries tables.now.live) place ≡ Some e → result ≡ is_away e.1.way }
{
    match tables.live_whereabouts(place) {
        Whereabouts::Away => true,
        Whereabouts::Home => false,
        Whereabouts::Flying => false,
    }
}

// Whether the block in this row is under the lock, and is to go home.
fn goes(log: &Log, lock: LockName, place: usize) -> bool
    requires { place < table.len log.now.live }
    ensures { (e : ℕ × Entry) → slice_get (table.entries log.now.live) place ≡ Some e → result ≡ goes_home lock e.1 }
{
    let is_under = is_same_lock(lock, log.tables.live_lock(place));
    let is_away = is_away(&log.tables, place);
    is_under && is_away
}

// The first row that does.
fn first_that_goes(log: &Log, lock: LockName) -> Option<usize>
    ensures some { IfSome result (IsFirstThatGoes lock (table.entries log.now.live)) }
    ensures none { result ≡ None → NoneGoes lock (table.entries log.now.live) (table.len log.now.live) }
{
    for place in 0..log.tables.live_len() {
        if goes(log, lock, place) {
            return Some(place);
        }
    }
    None
}

// Copies the content of the block in this row, which is away.
fn copy_away(tables: &Tables, place: usize, into: &mut [u8])
    requires size { length into.old ≡ tables.now.size }
    requires there { place < table.len tables.now.live }
    requires away { (e : ℕ × Entry) → slice_get (table.entries tables.now.live) place ≡ Some e → is_away e.1.way ≡ true }
    ensures { (e : ℕ × Entry) → slice_get (table.entries tables.now.live) place ≡ Some e → e.1.way ≡ Away into.new }
{
    match tables.away_bytes(place) {
        Some(bytes) => into.copy_from_slice(bytes),
        None => unreachable!(),
    }
}

// The block in this row, which is away, goes home: its content is copied, and it is on its way.
fn send(log: &mut Log, place: usize, into: &mut [u8]) -> u64
    requires size { length into.old ≡ log.old.journal.size }
    requires idle { log.old.flush ≡ None }
    requires there { place < table.len log.old.live }
    requires away { (e : ℕ × Entry) → slice_get (table.entries log.old.live) place ≡ Some e → is_away e.1.way ≡ true }
    ensures block { (e : ℕ × Entry) → slice_get (table.entries log.old.live) place ≡ Some e → result ≡ e.0 }
    ensures bytes { (e : ℕ × Entry) → slice_get (table.entries log.old.live) place ≡ Some e → e.1.way ≡ Away into.new }
    ensures sent { (e : ℕ × Entry) → slice_get (table.entries log.old.live) place ≡ Some e
        → log.new ≡ record log.old { live = table.insert log.old.live e.0 (record e.1 { way = Flying into.new }) } }
{
    let block = log.tables.live_block(place);
    copy_away(&log.tables, place, into);
    log.tables.fly(block);
    block
}

// Whether the lock stands before the other one.
fn comes_before(lock: LockName, other: LockName) -> bool
    ensures { result ≡ before lock other }
{
    lock.kind < other.kind || (lock.kind == other.kind && lock.number < other.number)
}

// The lesser of the two, if there are two.
fn lesser(least: Option<LockName>, lock: LockName) -> LockName
    ensures { result ≡ lesser_of least lock }
{
    match least {
        Some(other) if !comes_before(lock, other) => other,
        _ => lock,
    }
}

// With the lock of this row, if its block is away.
fn least_with(tables: &Tables, least: Option<LockName>, place: usize) -> Option<LockName>
    requires there { place < table.len tables.now.live }
    requires before { IsLeastFound (table.entries tables.now.live) place least }
    ensures { IsLeastFound (table.entries tables.now.live) (place + 1) result }
{
    if is_away(tables, place) {
        Some(lesser(least, tables.live_lock(place)))
    } else {
        least
    }
}

// The least lock of the live blocks that are away.
fn least_lock(tables: &Tables) -> Option<LockName>
    ensures { IsLeastFound (table.entries tables.now.live) (table.len tables.now.live) result }
{
    let mut least = None;
    for place in 0..tables.live_len() {
        least = least_with(tables, least, place);
    }
    least
}

impl Log {
    ghost use Rattle.std.specs.Prelude.{◌≡◌, IfSome, None, length};
    ghost use Rattle.log_values.specs.Homing.{HomeAnswer};
    ghost use Rattle.log_memory.specs.Locks.{IsNextLock, NoneIsAway};

    /// The next write that takes the lock's live blocks home: the least block that isn't home nor on its way, whose content is copied to `into`, a block long. None where there
    /// is none, or while a flush is under way. It goes over the live blocks.
    pub fn home_step(&mut self, lock: LockName, into: &mut [u8]) -> Option<LogStep>
        requires { length into.old ≡ self.old.journal.size }
        ensures { HomeAnswer self.old self.new lock into.new result }
    {
        if self.stage.is_some() {
            return None;
        }
        let Some(place) = first_that_goes(self, lock) else {
            return None;
        };
        let block = send(self, place, into);
        Some(LogStep::Write { block })
    }

    /// The least lock, by kind and then by number, under which a live block is away from home and not on its way there. It goes over the live blocks.
    pub fn next_lock(&self) -> Option<LockName>
        ensures some { IfSome result (IsNextLock self.now) }
        ensures none { result ≡ None → NoneIsAway self.now }
    {
        least_lock(&self.tables)
    }
}
