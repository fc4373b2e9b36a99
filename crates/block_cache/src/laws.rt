// Laws over every list of calls.
ghost use Rattle.std.specs.Prelude.{◌≡◌, ℕ, Bool, true, List, ◌∷◌, ◌++◌, Some};
ghost use Rattle.std.specs.FinMap as map;
ghost use Rattle.glock_names.specs.declared.LockName.{LockName};
ghost use Rattle.block_cache.specs.declared.cache.Cell.{Cell};
ghost use Rattle.block_cache.specs.Cells.{Cells, stays};
ghost use Rattle.block_cache.specs.Calls.{Act, Reached, last_put, PutsOnly};

/// A law: whatever calls were made, a block has the cell that was put last and that no call dropped since.
pub fn last_put_is_shown()
    ensures { (acts : List Act) (now : Cells) → Reached acts now → (b : ℕ) → map.get now b ≡ last_put acts b }
{}

/// A law: once a lock's cells were dropped (or its plain ones alone), none is there until one is put under it,
/// whatever else is called.
pub fn cells_leave_with_their_lock()
    ensures { (lock : LockName) (keep_meta : Bool) (later earlier : List Act) (now : Cells)
        → Reached (later ++ Act.DropLock lock keep_meta ∷ earlier) now → PutsOnly (stays lock keep_meta) later
        → (b : ℕ) (cell : Cell) → map.get now b ≡ Some cell → stays lock keep_meta cell ≡ true }
{}
