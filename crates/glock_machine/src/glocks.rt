// The table of the locks, by kind and number.
use crate::glock::{
    Glock, NEW, called_back, down_of, granted, lowered, may_ask, pinned, touched, unpinned,
    unwanted, wanted,
};
use crate::keys::down_behind;
use crate::wants::is_wanted;
use glock_names::{LockName, State};
use no_memory::NoMemory;
use std::alloc::Global;
use std::collections::BTreeMap;
use std::marker::Model;

/// A node's glocks. A call costs up to three look-ups in a tree; `next_down` and `next_down_after` look at the locks in rising
/// order.
#[derive(Drop)]
pub struct Glocks {
    locks: BTreeMap<(u8, u64), Glock>,
    unmounting: bool,
}

impl Model for Glocks {
    ghost use Rattle.glock_machine.specs.Table.{Table, table_code, AreCalledBelow};

    ghost Value = { Table };

    ghost coded = { table_code };

    ghost use Rattle.std.specs.FinMap as map;

    ghost view = { λ g. record { locks = map.from_entries g.locks.entries; unmounting = g.unmounting } };

    ghost invariant = { λ g. AreCalledBelow (map.from_entries g.locks.entries) };
}

impl Glocks {
    ghost use Rattle.std.specs.Prelude.{◌≡◌, ◌≢◌, ◌↔◌, ℕ, ◌<◌, true, false, None, Some, IsSome, IsNone, IfSome, OnOk, OnErr, IsTrue, is_some, is_ok, nat_lt};
    ghost use Rattle.glock_names.specs.declared.LockName.{LockName};
    ghost use Rattle.glock_names.specs.StateOrder.{is_below};
    ghost use Rattle.glock_names.specs.declared.State.TheVariants.{Un};
    ghost use Rattle.std.specs.declared.cmp.Ordering.TheVariants.{Less};
    ghost use Rattle.std.specs.FinMap as map;
    ghost use Rattle.glock_machine.specs.Keys.{key_of, lock_cmp};
    ghost use Rattle.glock_machine.specs.Wants.{is_wanted};
    ghost use Rattle.glock_machine.specs.Table.{WasWanted, IsCalledBelow, glock_of, with_glock, changed, wanted, unwanted, granted, pinned, unpinned, called_back, lowered, touched, goes_to, may_ask};

    /// No lock was wanted yet. Takes no memory.
    pub fn new(alloc: Global) -> Self
        ensures { result ≡ record { locks = map.empty; unmounting = false } }
    {
        Glocks {
            locks: BTreeMap::new(alloc),
            unmounting: false,
        }
    }

    fn glock(&self, lock: LockName) -> Glock
        ensures value { result ≡ glock_of self.now lock }
        ensures below { IsCalledBelow result }
    {
        self.locks
            .get(&(lock.kind, lock.number))
            .copied()
            .unwrap_or(NEW)
    }

    fn put(&mut self, lock: LockName, glock: Glock)
        requires wanted { WasWanted self.old lock }
        requires below { IsCalledBelow glock }
        ensures { self.new ≡ with_glock self.old lock glock }
    {
        let Some(place) = self.locks.get_mut(&(lock.kind, lock.number)) else {
            return;
        };
        *place = glock;
    }

    /// A call of the node wants the lock in this state, beside what other calls want. Makes the room for all other calls on it, so
    /// that it takes memory only where the lock was never wanted.
    pub fn want(&mut self, lock: LockName, state: State) -> Result<(), NoMemory>
        ensures ok { OnOk result (self.new ≡ changed (wanted state) self.old lock) }
        ensures err { OnErr result (self.new ≡ self.old) }
        ensures again { WasWanted self.old lock → is_ok result ≡ true }
    {
        let glock = wanted(self.glock(lock), state);
        if self.was_wanted(lock) {
            self.put(lock, glock);
            return Ok(());
        }
        self.locks.insert((lock.kind, lock.number), glock)?;
        Ok(())
    }

    /// No call of the node wants the lock in this state any more. How many do isn't counted here: it is for the last of them.
    pub fn unwant(&mut self, lock: LockName, state: State)
        requires { WasWanted self.old lock }
        ensures { self.new ≡ changed (unwanted state) self.old lock }
    {
        let glock = self.glock(lock);
        self.put(lock, unwanted(glock, state));
    }

    /// Whether the lock was wanted before.
    pub fn was_wanted(&self, lock: LockName) -> bool
        ensures { result ≡ map.contains_key self.now.locks (key_of lock) }
    {
        self.locks.contains_key(&(lock.kind, lock.number))
    }

    /// Whether a call wants the lock in this state, and it isn't granted yet.
    pub fn is_wanted(&self, lock: LockName, state: State) -> bool
        ensures { result ≡ is_wanted (glock_of self.now lock).wants state }
    {
        is_wanted(self.glock(lock).wants, state)
    }

    /// The state in which the node holds the lock.
    pub fn state(&self, lock: LockName) -> State
        ensures { result ≡ (glock_of self.now lock).state }
    {
        self.glock(lock).state
    }

    /// Whether the node may ask for the lock in this state, as far as the lock tells: it holds nothing of it, and it did not let
    /// it go, uncalled, out of a state that serves.
    pub fn may_ask(&self, lock: LockName, state: State) -> bool
        ensures { result ≡ may_ask state (glock_of self.now lock) }
    {
        may_ask(state, self.glock(lock))
    }

    /// A call has the lock from now on; it doesn't go down until the call lets it. At most 2^32 - 1 pins are counted.
    pub fn pin(&mut self, lock: LockName)
        requires { WasWanted self.old lock }
        ensures { self.new ≡ changed pinned self.old lock }
    {
        let glock = self.glock(lock);
        self.put(lock, pinned(glock));
    }

    /// A call that had the lock lets it. Where none has it, nothing changes.
    pub fn unpin(&mut self, lock: LockName)
        requires { WasWanted self.old lock }
        ensures { self.new ≡ changed unpinned self.old lock }
    {
        let glock = self.glock(lock);
        self.put(lock, unpinned(glock));
    }

    /// Whether a call has the lock.
    pub fn is_pinned(&self, lock: LockName) -> bool
        ensures { result ≡ nat_lt 0 (glock_of self.now lock).pins }
    {
        0 < self.glock(lock).pins
    }

    /// The lock manager granted the lock in this state. The node held nothing of it, since it asks only then; so no callback stands.
    pub fn granted(&mut self, lock: LockName, state: State)
        requires wanted { WasWanted self.old lock }
        requires free { (glock_of self.old lock).state ≡ Un }
        requires rises { is_below Un state ≡ true }
        ensures value { self.new ≡ changed (granted state) self.old lock }
        ensures uncalled { (glock_of self.new lock).called ≡ None }
    {
        let glock = self.glock(lock);
        self.put(lock, granted(glock, state));
    }

    /// Another node's request stands in the lock's way: this node may keep the lock in this state.
    pub fn callback(&mut self, lock: LockName, keep: State)
        requires { WasWanted self.old lock }
        ensures { self.new ≡ changed (called_back keep) self.old lock }
    {
        let glock = self.glock(lock);
        self.put(lock, called_back(glock, keep));
    }

    /// The state that callbacks let the node keep, where one stands; it is weaker than what the node holds.
    pub fn called(&self, lock: LockName) -> Option<State>
        ensures value { result ≡ (glock_of self.now lock).called }
        ensures below { IfSome result (λ keep. is_below keep (glock_of self.now lock).state ≡ true) }
    {
        self.glock(lock).called
    }

    /// The node holds the lock in this weaker state from now on.
    pub fn down(&mut self, lock: LockName, to: State)
        requires wanted { WasWanted self.old lock }
        requires unpinned { (glock_of self.old lock).pins ≡ 0 }
        requires weaker { is_below to (glock_of self.old lock).state ≡ true }
        ensures { self.new ≡ changed (lowered to) self.old lock }
    {
        let glock = self.glock(lock);
        self.put(lock, lowered(glock, to));
    }

    /// The node's call of this number touched the lock: it wrote or freed blocks under it.
    pub fn touch(&mut self, lock: LockName, number: u64)
        requires { WasWanted self.old lock }
        ensures { self.new ≡ changed (touched number) self.old lock }
    {
        let glock = self.glock(lock);
        self.put(lock, touched(glock, number));
    }

    /// The greatest number of a call that touched the lock since it was granted, 0 where none did.
    pub fn last_touch(&self, lock: LockName) -> u64
        ensures { result ≡ (glock_of self.now lock).touched }
    {
        self.glock(lock).touched
    }

    /// The least lock, by kind and number, of those that go down, and the weaker state to which it does.
    pub fn next_down(&self) -> Option<(LockName, State)>
        ensures none { IsNone result ↔ ((lock : LockName) → goes_to self.now lock ≡ None) }
        ensures goes { IfSome result (λ r. goes_to self.now r.0 ≡ Some r.1) }
        ensures least { IfSome result (λ r. (lock : LockName) → IsSome (goes_to self.now lock) → lock_cmp lock r.0 ≢ Less) }
        ensures weaker { IfSome result (λ r. is_below r.1 (glock_of self.now r.0).state ≡ true) }
    {
        for (key, glock) in self.locks.iter() {
            if let Some(to) = down_of(self.unmounting, glock) {
                let (kind, number) = *key;
                return Some((LockName { kind, number }, to));
            }
        }
        None
    }

    /// The least lock behind this one, by kind and number, of those that go down, and the weaker state to which it does. So a node
    /// comes past a lock whose demotion has other work to do to the next one.
    pub fn next_down_after(&self, after: LockName) -> Option<(LockName, State)>
        ensures none { IsNone result ↔ ((lock : LockName) → lock_cmp after lock ≡ Less → goes_to self.now lock ≡ None) }
        ensures goes { IfSome result (λ r. goes_to self.now r.0 ≡ Some r.1) }
        ensures behind { IfSome result (λ r. lock_cmp after r.0 ≡ Less) }
        ensures least { IfSome result (λ r. (lock : LockName) → lock_cmp after lock ≡ Less → IsSome (goes_to self.now lock) → lock_cmp lock r.0 ≢ Less) }
        ensures weaker { IfSome result (λ r. is_below r.1 (glock_of self.now r.0).state ≡ true) }
    {
        for (key, glock) in self.locks.iter() {
            if let Some(to) = down_behind(after, self.unmounting, key, glock) {
                let (kind, number) = *key;
                return Some((LockName { kind, number }, to));
            }
        }
        None
    }

    /// From now on each lock that is held goes down.
    pub fn unmount(&mut self)
        ensures { self.new ≡ record self.old { unmounting = true } }
    {
        self.unmounting = true;
    }
}
