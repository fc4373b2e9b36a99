// Which live blocks are to be revoked, as the lock goes down under which they are.
ghost use Rattle.std.specs.Prelude.{◌≡◌, ◌<◌, ◌||◌, ℕ, Some, slice_get, if◌then◌else◌};
ghost use Rattle.std.specs.FinMap as table;
ghost use Rattle.glock_names.specs.LockMaps.{same_lock};
ghost use Rattle.log_values.specs.Blocks as set;
ghost use Rattle.log_values.specs.Log.{Entry};
ghost use Rattle.log_values.specs.Changes.{is_flushed};
ghost use Rattle.log_values.specs.Homing.{to_revoke};

use crate::changes::free;
use crate::log::Log;
use glock_names::LockName;

pub(crate) fn is_same_lock(a: LockName, b: LockName) -> bool
    ensures { result ≡ same_lock a b }
{
    a.kind == b.kind && a.number == b.number
}

// Whether the block has a change that isn't flushed.
fn is_fresh(log: &Log, block: u64) -> bool
    ensures { result ≡ table.contains_key log.now.fresh block }
{
    log.tables.change_of(block).is_some()
}

// Whether a newer version of the block is to be flushed, or is being flushed.
fn has_newer(log: &Log, block: u64) -> bool
    ensures { result ≡ (table.contains_key log.now.fresh block || is_flushed log.now.flush block) }
{
    is_fresh(log, block) || log.tables.is_flushed(block)
}

// Whether the block in this row of those that are live is to be revoked.
fn is_to_revoke(log: &Log, lock: LockName, place: usize) -> bool
    requires { place < table.len log.now.live }
    ensures { (e : ℕ × Entry) → slice_get (table.entries log.now.live) place ≡ Some e → result ≡ to_revoke log.now lock e.0 }
{
    let is_under = is_same_lock(lock, log.tables.live_lock(place));
    let has_newer = has_newer(log, log.tables.live_block(place));
    is_under && !has_newer
}

// The block in this row is to be revoked, if it is such a one.
fn revoke_row(log: &mut Log, lock: LockName, place: usize)
    requires { place < table.len log.old.live }
    ensures { (e : ℕ × Entry) → slice_get (table.entries log.old.live) place ≡ Some e
        → log.new ≡ record log.old { gone = if to_revoke log.old lock e.0 then set.insert log.old.gone e.0 else log.old.gone } }
{
    if is_to_revoke(log, lock, place) {
        let block = log.tables.live_block(place);
        free(log, block);
    }
}

impl Log {
    ghost use Rattle.log_values.specs.Homing.{RevokesUnder};

    /// The lock goes down: the next flush revokes the live blocks that are under it, but for those of which newer versions are to be flushed or are being flushed. It goes
    /// over all live blocks.
    pub fn revoke_of(&mut self, lock: LockName)
        ensures { RevokesUnder self.old self.new lock }
    {
        for place in 0..self.tables.live_len() {
            revoke_row(self, lock, place);
        }
    }
}
