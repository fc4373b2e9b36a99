ghost use Rattle.std.specs.Prelude.{◌≡◌, [], true, false, IfOk, OnOk, OnErr};
ghost use Rattle.glock_names.specs.LockMaps.{lock_in};
ghost use Rattle.dlm_master.specs.Locks.{answer_by, is_awaited as awaited, grants_of, callbacks_of};
ghost use Rattle.dlm_master.specs.Tables.{lock_of, held_by, waits_for, HoldsNone, IsIdle, IsCovered, IsAbove, request_waits, convert_waits, after_request, after_convert, after_down, after_report, after_turns, next_of, after_next};

use crate::claims::{Answer, Blocked, Claim};
use crate::lock::Lock;
use crate::table::{report_in, request_in};
use dlm_modes::{Mode, ValueBlock};
use glock_names::LockName;
use indexmap::IndexMap;
use no_memory::NoMemory;
use std::alloc::Global;
use std::marker::Model;

/// The locks of which a node is the master, in one view. Each call makes one look-up by name, also where a lock comes new into the
/// table; it goes over the nodes that hold or await that lock, and over no other lock.
#[derive(Drop)]
pub struct Master {
    generation: u64,
    blocked: Blocked,
    locks: IndexMap<LockName, Lock>,
}

impl Model for Master {
    ghost use Rattle.dlm_master.specs.Tables.{MasterState};

    ghost Value = { MasterState };

    ghost view = { λ m. record {
      generation = m.generation;
      rebuild = m.blocked.rebuild;
      waiting = m.blocked.waiting;
      table = m.locks.entries;
    } };
}

impl Master {
    /// The master of a new view, whose tables are empty. Nothing keeps it from granting.
    pub fn new(alloc: Global, generation: u64) -> Master
        ensures { result ≡ record { generation = generation; rebuild = false; waiting = 0; table = [] } }
    {
        Master {
            generation,
            blocked: Blocked {
                rebuild: false,
                waiting: 0,
            },
            locks: IndexMap::new(alloc),
        }
    }

    /// The number of the view.
    pub fn generation(&self) -> u64
        ensures { result ≡ self.now.generation }
    {
        self.generation
    }

    /// The nodes whose slots wait.
    pub fn waiting(&self) -> u16
        ensures { result ≡ self.now.waiting }
    {
        self.blocked.waiting
    }

    /// Whether a rebuild isn't done, and the nodes whose slots wait, from now on.
    pub fn blocked(&mut self, rebuild: bool, waiting: u16)
        ensures { self.new ≡ record self.old { rebuild = rebuild; waiting = waiting } }
    {
        self.blocked = Blocked { rebuild, waiting };
    }

    /// A node, which holds none of the lock and waits for nothing on it, asks for it. After want of memory nothing has changed.
    pub fn request(&mut self, node: u8, lock: LockName, mode: Mode) -> Result<Answer, NoMemory>
        requires none { HoldsNone (lock_of self.old lock) node }
        requires idle { IsIdle (lock_of self.old lock) node }
        ensures answer { IfOk result (λ a. a ≡ answer_by (request_waits self.old node lock mode) (lock_of self.old lock)) }
        ensures ok { OnOk result (self.new ≡ after_request self.old node lock mode) }
        ensures err { OnErr result (self.new ≡ self.old) }
    {
        request_in(&mut self.locks, lock, self.blocked, Claim { node, mode })
    }

    /// A node, which holds the lock in a mode that this one covers and waits for nothing on it, asks for this mode. After want of
    /// memory nothing has changed.
    pub fn convert(&mut self, node: u8, lock: LockName, mode: Mode) -> Result<Answer, NoMemory>
        requires covers { IsCovered (lock_of self.old lock) node mode }
        requires idle { IsIdle (lock_of self.old lock) node }
        ensures answer { IfOk result (λ a. a ≡ answer_by (convert_waits self.old node lock mode) (lock_of self.old lock)) }
        ensures ok { OnOk result (self.new ≡ after_convert self.old node lock mode) }
        ensures err { OnErr result (self.new ≡ self.old) }
    {
        let Some(found) = self.locks.get_mut(&lock) else {
            return Err(NoMemory);
        };
        found.convert(self.blocked, Claim { node, mode })
    }

    /// A node, which holds the lock in a mode above this one and waits for nothing on it, keeps this mode only. A value that it
    /// gives is kept, and is valid from then on, where it held the lock in `Pw` or `Ex`. It takes no memory.
    pub fn down(&mut self, node: u8, lock: LockName, mode: Mode, value: Option<[u8; 32]>)
        requires above { IsAbove (lock_of self.old lock) node mode }
        requires idle { IsIdle (lock_of self.old lock) node }
        ensures { self.new ≡ after_down self.old node lock mode value }
    {
        let Some(found) = self.locks.get_mut(&lock) else {
            return;
        };
        found.down(node, mode, value);
    }

    /// A node, which waits for nothing on the lock, tells a master whose rebuild isn't done what it holds. Of several reports of a
    /// node for a lock the last one counts, and one in `Nl` says that it holds none. After want of memory nothing has changed.
    pub fn report(&mut self, node: u8, lock: LockName, mode: Mode) -> Result<(), NoMemory>
        requires rebuild { self.old.rebuild ≡ true }
        requires idle { IsIdle (lock_of self.old lock) node }
        ensures ok { OnOk result (self.new ≡ after_report self.old node lock mode) }
        ensures err { OnErr result (self.new ≡ self.old) }
    {
        report_in(&mut self.locks, lock, node, mode)
    }

    // The waiters of the lock take their turns.
    fn grant_waiters(&mut self, lock: LockName) -> Result<Vec<(u8, Mode, ValueBlock)>, NoMemory>
        ensures grants { IfOk result (λ v. v.items ≡ grants_of (lock_of self.old lock)) }
        ensures ok { OnOk result (self.new ≡ after_turns self.old lock) }
        ensures err { OnErr result (self.new ≡ self.old) }
    {
        let alloc = *self.locks.allocator();
        let Some(found) = self.locks.get_mut(&lock) else {
            return Ok(Vec::new(alloc));
        };
        found.next_grants(alloc)
    }

    /// Grants what those who wait for the lock may have now, conversions before requests, each in the order of its arrival, and
    /// tells who is granted which mode with which value. After want of memory nothing has changed.
    pub fn next_grants(&mut self, lock: LockName) -> Result<Vec<(u8, Mode, ValueBlock)>, NoMemory>
        ensures grants { IfOk result (λ v. v.items ≡ next_of self.old lock) }
        ensures ok { OnOk result (self.new ≡ after_next self.old lock) }
        ensures err { OnErr result (self.new ≡ self.old) }
    {
        if self.blocked.rebuild || self.blocked.waiting != 0 {
            Ok(Vec::new(*self.locks.allocator()))
        } else {
            self.grant_waiters(lock)
        }
    }

    /// The mode in which the node holds the lock. `None` exactly where it holds none.
    pub fn held(&self, node: u8, lock: LockName) -> Option<Mode>
        ensures { result ≡ held_by self.now node lock }
    {
        match self.locks.get(&lock) {
            None => None,
            Some(found) => found.mode_of(node),
        }
    }

    /// Whether the node waits for the lock.
    pub fn waits(&self, node: u8, lock: LockName) -> bool
        ensures { result ≡ waits_for self.now node lock }
    {
        match self.locks.get(&lock) {
            None => false,
            Some(found) => found.is_waiting(node),
        }
    }

    /// Whether any node waits for the lock.
    pub fn is_awaited(&self, lock: LockName) -> bool
        ensures { result ≡ awaited (lock_of self.now lock) }
    {
        match self.locks.get(&lock) {
            None => false,
            Some(found) => found.is_awaited(),
        }
    }

    /// The lock at a place of the order in which the master came to know them. `None` exactly past the last.
    pub fn lock_at(&self, place: u32) -> Option<LockName>
        ensures { result ≡ lock_in self.now.table place }
    {
        match self.locks.get_index(place as usize) {
            None => None,
            Some((lock, _)) => Some(*lock),
        }
    }

    /// The holders that are in the way of another node that waits, each with the strongest mode that it may keep.
    pub fn callbacks(&self, lock: LockName) -> Result<Vec<(u8, Mode)>, NoMemory>
        ensures { IfOk result (λ v. v.items ≡ callbacks_of (lock_of self.now lock)) }
    {
        match self.locks.get(&lock) {
            None => Ok(Vec::new(*self.locks.allocator())),
            Some(found) => found.callbacks(*self.locks.allocator()),
        }
    }
}
