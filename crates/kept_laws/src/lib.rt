//! What ties a node's cache to its glocks, and these to their demotions and to the holder: laws over lists of calls on them.
#![tactic(auto)]

ghost use Rattle.std.specs.Prelude.{◌≡◌, ◌≤◌, ℕ, true, false, List, [], ◌∷◌, Some};
ghost use Rattle.std.specs.FinMap.{empty, get};
ghost use Rattle.std.specs.List.{list_any};
ghost use Rattle.glock_names.specs.declared.LockName.{LockName};
ghost use Rattle.glock_names.specs.declared.State.{State};
ghost use Rattle.glock_names.specs.declared.State.TheVariants.{Un, Sh, Df, Ex};
ghost use Rattle.block_cache.specs.declared.cache.Cell.{Cell};
ghost use Rattle.block_cache.specs.Cells.{Cells, DropsLock};
ghost use Rattle.glock_machine.specs.Table.{Table, glock_of};
ghost use Rattle.glock_machine.specs.Calls.{On, Touch, Down, is_grant, deeds_on};
ghost use Rattle.dlm_holder.specs.Holdings.{Holdings};
ghost use Rattle.kept_laws.specs.Kept.{Kept, Call, OnLocks, AllFit, Fits, Minds, Leaves, Goes, on_locks};
ghost use Rattle.kept_laws.specs.Told.{Told, Agree, AgreeAfter, MayAllBeTold};

/// A law: whatever is called on glocks and cache, every cell is one that the state of its lock lets the node cache. It is so of
/// an empty cache, whatever is held.
pub fn caches_fit_their_locks()
    ensures kept { (calls : List Call) (old new : Kept) → AllFit old → Goes calls old new → AllFit new }
    ensures begun { (locks : Table) (flushed : ℕ) → AllFit (record { locks = locks; cells = empty; flushed = flushed }) }
{}

/// A law: so a cell leaves the cache before its lock goes. Of a lock that isn't held no block is cached, and of one that is held
/// deferred no content.
pub fn cells_leave_before_their_lock()
    ensures unlocked { (calls : List Call) (old new : Kept) → AllFit old → Goes calls old new
        → (b : ℕ) (cell : Cell) → get new.cells b ≡ Some cell → (glock_of new.locks cell.lock).state ≡ Un → ⊥ }
    ensures deferred { (calls : List Call) (old new : Kept) → AllFit old → Goes calls old new
        → (b : ℕ) (cell : Cell) → get new.cells b ≡ Some cell → (glock_of new.locks cell.lock).state ≡ Df → cell.plain ≡ false }
{}

/// A law: what a lock may go down to once its cells were dropped: to unlocked when all were, to deferred when the content was, and
/// to shared as it is.
pub fn drops_let_locks_go()
    ensures unlocked { (old new : Cells) (lock : LockName) → DropsLock old new lock false → Fits new lock Un }
    ensures deferred { (old new : Cells) (lock : LockName) → DropsLock old new lock true → Fits new lock Df }
    ensures shared { (cells : Cells) (lock : LockName) → Fits cells lock Sh }
{}

/// A law: so a lock that is held exclusive goes down only once every call that touched it since its grant is in the journal,
/// whatever else is called in between.
pub fn locks_go_flushed()
    ensures { (lock : LockName) (number : ℕ) (to : State) (calls : List Call) (old touched now : Kept)
        → Leaves (OnLocks (On lock (Touch number))) old touched → Goes calls touched now
        → list_any is_grant (deeds_on lock (on_locks calls)) ≡ false
        → (glock_of now.locks lock).state ≡ Ex → Minds (OnLocks (On lock (Down to))) now → number ≤ now.flushed }
{}

/// A law: where a grant and a lower are told to the glocks in a state, and to the holder in its mode, each lock is held there in
/// the mode of its state. It is so at the start, where nothing is held.
pub fn holders_and_glocks_agree()
    ensures kept { (all : List Told) (t : Table) (h : Holdings) → MayAllBeTold all → Agree t h → AgreeAfter all t h }
    ensures begun { Agree (record { locks = empty; unmounting = false }) [] }
{}
