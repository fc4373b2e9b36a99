// What is seen of blocks that were put in a draft over a draft, and then in that. The function does nothing: its contract is the law.
ghost use Rattle.std.specs.Prelude.{ℕ, Bool, List, ◌≡◌, ◌⊎◌, Some, Contains};
ghost use Rattle.std.specs.FinMap.{FinMap, entries, get};
ghost use Rattle.std.specs.Ordering.{nat_cmp};
ghost use Rattle.drafts.specs.Fates.{blocks_in, seen_with};
ghost use Rattle.drafts.specs.declared.change.Written.{Written};
ghost use Rattle.drafts.specs.declared.fate.Fate.{Fate};
ghost use Rattle.drafts.specs.declared.fate.Fate.TheVariants.{Put};
ghost use Rattle.glock_names.specs.Views.{Seen};
ghost use Rattle.glock_names.specs.declared.LockName.{LockName};
ghost use Rattle.nested_drafts.specs.Nested.{fate_over, with_blocks};

/// A law: once what was put in a draft over another is put into that, under a lock, a block is seen there as in the draft over it; what
/// becomes of a block is what was put, under that lock, or what became of it before. Each block that is told was put, and nothing becomes of
/// a block that isn't among those that are put.
pub fn puts_are_seen_alike()
    ensures seen { (v : Seen) (below above : FinMap nat_cmp Fate) (lock : LockName) (b : ℕ)
        → (seen_with v (with_blocks lock (blocks_in (entries above)) below)).block_at b ≡ (seen_with (seen_with v below) above).block_at b }
    ensures fates { (below above : FinMap nat_cmp Fate) (lock : LockName) (b : ℕ) → get (with_blocks lock (blocks_in (entries above)) below) b ≡ fate_over lock (get above b) (get below b) }
    ensures told { (above : FinMap nat_cmp Fate) (w : Written) → Contains (blocks_in (entries above)) w → (lock : LockName) × (plain : Bool) × (get above w.block ≡ Some (Put lock plain w.bytes)) }
    ensures only { (lock : LockName) (blocks : List Written) (below : FinMap nat_cmp Fate) (b : ℕ) → (get (with_blocks lock blocks below) b ≡ get below b) ⊎ ((w : Written) × Contains blocks w × (w.block ≡ b)) }
{}
