//! The revokes of a journal: for each block the greatest sequence of a transaction that revokes it.
#![tactic(auto)]

ghost use Rattle.std.specs.Prelude.{◌≡◌, ◌==◌, ◌&&◌, nat_lt, ℕ, List, OnOk, OnErr};
ghost use Rattle.std.specs.FinMap as map;
ghost use Rattle.std.specs.List.{list_any};
ghost use Rattle.revoke_table.specs.Revokes.{with_revoke, is_cancelled, all_revoked};

use indexmap::IndexMap;
use no_memory::NoMemory;
use std::alloc::Global;
use std::marker::Model;

/// The greatest sequence in which each block was revoked.
#[derive(Drop)]
pub struct Revokes {
    greatest: IndexMap<u64, u64>,
}

impl Model for Revokes {
    ghost use Rattle.std.specs.Prelude.{ℕ};
    ghost use Rattle.std.specs.Ordering.{nat_cmp};
    ghost use Rattle.std.specs.Coded.{coded_ℕ};
    ghost use Rattle.std.specs.FinMap as map;

    ghost Value = { map.FinMap nat_cmp ℕ };

    ghost coded = { map.code coded_ℕ coded_ℕ };

    ghost view = { λ r. map.from_entries r.greatest.entries };
}

impl Revokes {
    /// No block is revoked yet. Takes no memory.
    pub fn new(alloc: Global) -> Self
        ensures { result ≡ map.empty }
    {
        Revokes {
            greatest: IndexMap::new(alloc),
        }
    }

    /// The transaction of this sequence revokes the block.
    pub fn add(&mut self, block: u64, sequence: u64) -> Result<(), NoMemory>
        ensures ok { OnOk result (self.new ≡ with_revoke self.old block sequence) }
        ensures err { OnErr result (self.new ≡ self.old) }
    {
        let last = self.greatest.get(&block).copied().unwrap_or(0);
        self.greatest.insert(block, sequence.max(last))?;
        Ok(())
    }

    /// Whether an entry of the block, in the transaction of this sequence, doesn't count: a transaction of a
    /// greater sequence revokes it (journals of GFS2; the sequence in place of the position in the ring).
    pub fn cancels(&self, block: u64, sequence: u64) -> bool
        ensures { result ≡ is_cancelled self.now block sequence }
    {
        match self.greatest.get(&block) {
            Some(last) => sequence < *last,
            None => false,
        }
    }
}

/// A law: whatever revokes were added, and in whatever order, an entry is cancelled exactly where one of them
/// names its block in a transaction of a greater sequence.
pub fn later_revokes_cancel()
    ensures { (revokes : List (ℕ × ℕ)) (block sequence : ℕ)
        → is_cancelled (all_revoked revokes) block sequence ≡ list_any (λ r. (r.0 == block) && nat_lt sequence r.1) revokes }
{}
