//! What one node holds of the lock manager's locks: never more than was granted to it.
#![tactic(auto)]

ghost use Rattle.std.specs.Prelude.{◌≡◌, [], true, None, is_ok, OnOk, OnErr};
ghost use Rattle.dlm_modes.specs.Modes.{is_at_least};
ghost use Rattle.glock_names.specs.LockMaps.{lock_in};
ghost use Rattle.dlm_holder.specs.Holdings.{holding_of, mode_in, wanted_in, value_in, knows, asked_for, granted_to, lowered_to, ask_dropped};
ghost use Rattle.dlm_holder.specs.Laws.{NeverStronger};

use dlm_modes::{Mode, ValueBlock};
use glock_names::LockName;
use indexmap::IndexMap;
use no_memory::NoMemory;
use std::alloc::Global;
use std::marker::Model;

/// A lock at a node: the mode in which the node holds it, the mode for which an ask of the node stands without grant, and the
/// lock's value as its last grant brought it.
#[derive(Clone, Copy, Debug, PartialEq, Eq)]
pub struct Holding {
    pub mode: Mode,
    pub wanted: Option<Mode>,
    pub value: ValueBlock,
}

// What a node holds of a lock for which it has not asked.
const NOTHING: Holding = Holding {
    mode: Mode::Nl,
    wanted: None,
    value: ValueBlock {
        bytes: [0; 32],
        valid: false,
    },
};

/// The locks that a node has asked for in this life, in the order in which it first asked, and what it holds of them.
#[derive(Drop)]
pub struct Holder {
    locks: IndexMap<LockName, Holding>,
}

impl Model for Holder {
    ghost use Rattle.std.specs.Prelude.{List};
    ghost use Rattle.glock_names.specs.declared.LockName.{LockName};
    ghost use Rattle.dlm_holder.specs.declared.Holding.{Holding};

    ghost Value = { List (LockName × Holding) };

    ghost view = { λ h. h.locks.entries };
}

// An ask for the lock in this mode stands: one look-up, also where the lock is new.
fn note_ask(
    locks: &mut IndexMap<LockName, Holding>,
    lock: LockName,
    mode: Mode,
) -> Result<(), NoMemory>
    ensures ok { OnOk result (locks.new.entries ≡ asked_for locks.old.entries lock mode) }
    ensures err { OnErr result (locks.new.entries ≡ locks.old.entries) }
    ensures again { knows locks.old.entries lock ≡ true → is_ok result ≡ true }
{
    let holding = locks.entry(lock)?.or_insert(NOTHING);
    holding.wanted = Some(mode);
    Ok(())
}

impl Holder {
    /// The node has asked for nothing.
    pub fn new(alloc: Global) -> Holder
        ensures { result ≡ [] }
    {
        Holder {
            locks: IndexMap::new(alloc),
        }
    }

    fn holding(&self, lock: LockName) -> Holding
        ensures { result ≡ holding_of self.now lock }
    {
        match self.locks.get(&lock) {
            None => NOTHING,
            Some(holding) => *holding,
        }
    }

    /// Notes that the node, of which no ask for the lock stands, asks for it in this mode, and makes the room that its grants and
    /// lowers need. After want of memory, which a lock that was asked for before doesn't need, nothing has changed.
    pub fn asked(&mut self, lock: LockName, mode: Mode) -> Result<(), NoMemory>
        requires idle { wanted_in self.old lock ≡ None }
        ensures ok { OnOk result (self.new ≡ asked_for self.old lock mode) }
        ensures err { OnErr result (self.new ≡ self.old) }
        ensures again { knows self.old lock ≡ true → is_ok result ≡ true }
    {
        note_ask(&mut self.locks, lock, mode)
    }

    /// The node is granted the lock in this mode, with the lock's value. It takes no memory.
    pub fn granted(&mut self, lock: LockName, mode: Mode, value: ValueBlock)
        requires { knows self.old lock ≡ true }
        ensures { self.new ≡ granted_to self.old lock mode value }
    {
        let _ = self.locks.insert(
            lock,
            Holding {
                mode,
                wanted: None,
                value,
            },
        );
    }

    /// The node, of which no ask for the lock stands, keeps it in this mode only. While an ask stands its master may grant it a mode
    /// at any time, and a lower that comes behind the ask would take from that grant. It takes no memory.
    pub fn down(&mut self, lock: LockName, mode: Mode)
        requires known { knows self.old lock ≡ true }
        requires covered { is_at_least (mode_in self.old lock) mode ≡ true }
        requires idle { wanted_in self.old lock ≡ None }
        ensures { self.new ≡ lowered_to self.old lock mode }
    {
        let Some(holding) = self.locks.get_mut(&lock) else {
            return;
        };
        holding.mode = mode;
    }

    /// The node's ask for the lock is over without a grant, as each is when a new view begins. It takes no memory.
    pub fn drop_ask(&mut self, lock: LockName)
        requires { knows self.old lock ≡ true }
        ensures { self.new ≡ ask_dropped self.old lock }
    {
        let Some(holding) = self.locks.get_mut(&lock) else {
            return;
        };
        holding.wanted = None;
    }

    /// Whether the node has asked for the lock.
    pub fn was_asked(&self, lock: LockName) -> bool
        ensures { result ≡ knows self.now lock }
    {
        self.locks.contains_key(&lock)
    }

    /// The mode in which the node holds the lock: `Nl` where it doesn't hold it.
    pub fn mode(&self, lock: LockName) -> Mode
        ensures { result ≡ mode_in self.now lock }
    {
        self.holding(lock).mode
    }

    /// The mode for which an ask of the node stands without grant, if one does.
    pub fn wanted(&self, lock: LockName) -> Option<Mode>
        ensures { result ≡ wanted_in self.now lock }
    {
        self.holding(lock).wanted
    }

    /// The lock's value as its last grant brought it: zeros and not valid where there was none.
    pub fn value(&self, lock: LockName) -> ValueBlock
        ensures { result ≡ value_in self.now lock }
    {
        self.holding(lock).value
    }

    /// The lock at a place of the order in which the node first asked for them. `None` exactly past the last.
    pub fn lock_at(&self, place: u32) -> Option<LockName>
        ensures { result ≡ lock_in self.now place }
    {
        match self.locks.get_index(place as usize) {
            None => None,
            Some((lock, _)) => Some(*lock),
        }
    }
}

/// A law: after every list of calls a node holds a lock at most as strongly as it was granted last.
pub fn a_holder_is_never_stronger_than_granted()
    ensures { NeverStronger }
{}
