// Laws over every list of calls.
ghost use Rattle.std.specs.Prelude.{◌≡◌, ◌⊎◌, ◌≤◌, ◌<◌, ◌&&◌, ℕ, true, false, not, List, ◌∷◌, None, Some};
ghost use Rattle.std.specs.FinMap.{empty};
ghost use Rattle.std.specs.List.{list_any};
ghost use Rattle.glock_names.specs.declared.LockName.{LockName};
ghost use Rattle.glock_names.specs.declared.State.{State};
ghost use Rattle.glock_names.specs.declared.State.TheVariants.{Un};
ghost use Rattle.glock_names.specs.StateOrder.{leq, is_below};
ghost use Rattle.glock_machine.specs.Table.{Table, glock_of, common, pinned, unpinned, called_back, lowered, may_ask};
ghost use Rattle.glock_machine.specs.declared.glock.Glock.{Glock};
ghost use Rattle.glock_machine.specs.Calls.{Deed, Act, On, Want, Granted, Callback, Down, Touch, Come, after, after_all, all_done, deeds_on, is_grant, is_callback, is_down, PinnedThroughout, CallStands, GoesFarEnough, HasTouch, KeepsWant, WantStands, last_granted};

/// A law: what is kept of a lock depends on the calls on that lock alone.
pub fn locks_stand_apart()
    ensures { (lock : LockName) (acts : List Act) (t : Table)
        → glock_of (after_all acts t) lock ≡ all_done (deeds_on lock acts) (glock_of t lock) }
{}

/// A law: while a lock is pinned it is never held in a weaker state, whatever is called.
pub fn pinned_locks_stay()
    ensures { (lock : LockName) (acts : List Act) (t : Table) → Come acts t → PinnedThroughout (deeds_on lock acts) (glock_of t lock)
        → leq (glock_of t lock).state (glock_of (after_all acts t) lock).state ≡ true }
{}

/// A law: what is held of a lock is at most what was granted last, or what was held at the start.
pub fn states_were_granted()
    ensures { (lock : LockName) (acts : List Act) (t : Table) → Come acts t
        → leq (glock_of (after_all acts t) lock).state (last_granted (deeds_on lock acts) (glock_of t lock).state) ≡ true }
{}

/// A law: a want stands, whatever is called and whatever else is wanted, until it is taken back or what serves it is granted; and
/// while what is held doesn't serve it, the lock goes down to unlocked as soon as it isn't pinned.
pub fn wants_stand()
    ensures { (lock : LockName) (state : State) (acts : List Act) (t : Table) → leq state (glock_of t lock).state ≡ false
        → KeepsWant state (deeds_on lock acts) → WantStands state lock (after_all (On lock (Want state) ∷ acts) t) }
{}

/// A law: a callback stands from its call on, whatever else is called, until the lock went down as far as it asks; and while it
/// stands, the lock goes down that far as soon as it isn't pinned.
pub fn callbacks_stand()
    ensures { (lock : LockName) (keep : State) (acts : List Act) (t : Table)
        → CallStands keep lock (after_all (On lock (Callback keep) ∷ acts) t)
        ⊎ GoesFarEnough keep (deeds_on lock acts) (called_back keep (glock_of t lock)) }
{}

/// A law: the number that is kept of a lock is at least that of each call that touched it since its grant.
pub fn touches_are_kept()
    ensures { (lock : LockName) (number : ℕ) (acts : List Act) (t : Table) → list_any is_grant (deeds_on lock acts) ≡ false
        → number ≤ (glock_of (after_all (On lock (Touch number) ∷ acts) t) lock).touched }
{}

/// A law: and it is the number of one of these calls, or 0.
pub fn last_touches_were_made()
    ensures { (lock : LockName) (first : State) (acts : List Act) (t : Table)
        → (last : ℕ) → last ≡ (glock_of (after_all (On lock (Granted first) ∷ acts) t) lock).touched
        → (last ≡ 0) ⊎ HasTouch last (deeds_on lock acts) }
{}

/// A law: a callback asks for no more than it says. The first stands as it was given; of a second one that comes, and of a lower
/// that doesn't go far enough, what stands then is no less than what both allow; for `common` is the greatest of such states.
pub fn callbacks_ask_no_more()
    ensures first { (keep : State) (g : Glock) → g.called ≡ None → is_below keep g.state ≡ true
        → called_back keep g ≡ record g { called = Some keep; was_called = true } }
    ensures second { (keep kept left allowed : State) (g : Glock) → g.called ≡ Some kept → (called_back keep g).called ≡ Some left
        → leq allowed kept ≡ true → leq allowed keep ≡ true → leq allowed left ≡ true }
    ensures lower { (to kept left allowed : State) (g : Glock) → g.called ≡ Some kept → (lowered to g).called ≡ Some left
        → leq allowed kept ≡ true → leq allowed to ≡ true → leq allowed left ≡ true }
    ensures greatest { (a b allowed : State) → leq allowed a ≡ true → leq allowed b ≡ true → leq allowed (common a b) ≡ true }
{}

/// A law: an unpin takes one pin back, as long as no more are counted than fit.
pub fn pins_are_counted()
    ensures { (g : Glock) → g.pins < 4294967295 → unpinned (pinned g) ≡ g }
{}

/// A law: a lock that never went down may be asked for in every state, while nothing of it is held.
pub fn new_locks_may_be_asked_for()
    ensures { (lock : LockName) (state : State) (acts : List Act) → list_any is_down (deeds_on lock acts) ≡ false
        → (g : Glock) → g ≡ glock_of (after_all acts (record { locks = empty; unmounting = false })) lock
        → may_ask state g ≡ (leq g.state Un && not (leq state Un)) }
{}

/// A law: where a lock went down last though no callback came since its grant, the node may ask for it only in a state that what
/// it had then doesn't serve, once it holds nothing of it; and in each such state.
pub fn uncalled_downs_bar_asks()
    ensures { (lock : LockName) (first to state : State) (between later : List Act) (t before : Table)
        → before ≡ after_all (On lock (Granted first) ∷ between) t
        → list_any is_grant (deeds_on lock between) ≡ false → list_any is_callback (deeds_on lock between) ≡ false
        → list_any is_grant (deeds_on lock later) ≡ false → list_any is_down (deeds_on lock later) ≡ false
        → (g : Glock) → g ≡ glock_of (after_all later (after (On lock (Down to)) before)) lock
        → may_ask state g ≡ (leq g.state Un && not (leq state (glock_of before lock).state)) }
{}

/// A law: where a callback asked for less than the node held, and the lock went down since, the node may ask for it in every
/// state, once it holds nothing of it.
pub fn called_downs_bar_nothing()
    ensures { (lock : LockName) (keep to state : State) (between later : List Act) (t : Table) → leq (glock_of t lock).state keep ≡ false
        → list_any is_grant (deeds_on lock between) ≡ false
        → list_any is_grant (deeds_on lock later) ≡ false → list_any is_down (deeds_on lock later) ≡ false
        → (g : Glock) → g ≡ glock_of (after_all later (after (On lock (Down to)) (after_all (On lock (Callback keep) ∷ between) t))) lock
        → may_ask state g ≡ (leq g.state Un && not (leq state Un)) }
{}
