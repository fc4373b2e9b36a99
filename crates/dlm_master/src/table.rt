// A master's map of locks. A call that may bring a new lock makes one look-up by name, and takes the lock back where there is no
// memory for the call.
ghost use Rattle.std.specs.Prelude.{◌≡◌, IfOk, OnOk, OnErr};
ghost use Rattle.glock_names.specs.LockMaps.{with_lock};
ghost use Rattle.dlm_master.specs.Locks.{request_cause, answer_by, requested, reported, known_or_free};

use crate::claims::{Answer, Blocked, Claim};
use crate::lock::Lock;
use dlm_modes::Mode;
use glock_names::LockName;
use indexmap::IndexMap;
use no_memory::NoMemory;

pub(crate) fn request_in(
    locks: &mut IndexMap<LockName, Lock>,
    lock: LockName,
    blocked: Blocked,
    claim: Claim,
) -> Result<Answer, NoMemory>
    ensures answer { IfOk result (λ a. a ≡ answer_by (request_cause blocked.rebuild blocked.waiting (known_or_free locks.old.entries lock) claim.node claim.mode) (known_or_free locks.old.entries lock)) }
    ensures ok { OnOk result (locks.new.entries ≡ with_lock locks.old.entries lock (requested (request_cause blocked.rebuild blocked.waiting (known_or_free locks.old.entries lock) claim.node claim.mode) (known_or_free locks.old.entries lock) claim.node claim.mode)) }
    ensures err { OnErr result (locks.new.entries ≡ locks.old.entries) }
{
    let known = locks.len();
    let alloc = *locks.allocator();
    let found = locks.entry(lock)?.or_insert(Lock::new(alloc));
    match found.request(blocked, claim) {
        Ok(answer) => Ok(answer),
        Err(fault) => {
            locks.truncate(known);
            Err(fault)
        }
    }
}

pub(crate) fn report_in(
    locks: &mut IndexMap<LockName, Lock>,
    lock: LockName,
    node: u8,
    mode: Mode,
) -> Result<(), NoMemory>
    ensures ok { OnOk result (locks.new.entries ≡ with_lock locks.old.entries lock (reported (known_or_free locks.old.entries lock) node mode)) }
    ensures err { OnErr result (locks.new.entries ≡ locks.old.entries) }
{
    let known = locks.len();
    let alloc = *locks.allocator();
    let found = locks.entry(lock)?.or_insert(Lock::new(alloc));
    match found.report(node, mode) {
        Ok(()) => Ok(()),
        Err(fault) => {
            locks.truncate(known);
            Err(fault)
        }
    }
}
