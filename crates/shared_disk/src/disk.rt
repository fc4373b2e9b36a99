ghost use Rattle.std.specs.Prelude.{◌≡◌, ◌↔◌, ◌⊎◌, ◌<◌, ◌≤◌, ℕ, List, [], ◌∷◌, length, Option, None, IsTrue, OnOk, OnErr, IsErrOf};
ghost use Rattle.shared_disk.specs.Disk.{DiskState, Operation, Write, Barrier, Fence, IsSound, IsOutcome, Gains, read_gives, flight_to, after_write, after_barrier, after_fence, after_admit};
ghost use Rattle.shared_disk.specs.Causes.{MayFail};

/// How a fence is to settle the writes in flight of its node: what was there stays (`Old`), what was
/// written comes (`New`), or its first bytes do, of a count of at least the block size all (`Torn`).
#[derive(Clone, Copy, Debug, PartialEq, Eq)]
pub enum Settle {
    Old,
    New,
    Torn(u32),
}

/// Why a disk refused a call. `Failed`: the disk failed, and a count of faults rose. `Fenced`: the
/// calling node is fenced.
#[derive(Clone, Copy, Debug, PartialEq, Eq)]
pub enum DiskError {
    Failed,
    Fenced,
}

/// A disk of blocks of one size, which nodes share. Nodes are numbered from 1 to 8, and 0 is the run
/// itself, which is never fenced. A node's write is in flight until a barrier or a fence of that node:
/// only the node itself reads it. At most 512 are in flight per node, and one per block.
pub trait SharedDisk {
    /// The blocks, as far as the disk tells them, the writes in flight and the fenced nodes.
    ghost state: { Self → DiskState };

    /// The writes, barriers and fences so far, where the disk tells them.
    ghost list: { Self → Option (List Operation) };

    /// How often a call that is counted for this node has failed.
    ghost faults: { Self → ℕ → ℕ };

    /// How many blocks there are.
    fn blocks(&self) -> u64
        ensures value { result ≡ (state self.now).count }
        ensures sound { IsSound (state self.now) };

    /// How many bytes a block has.
    fn block_size(&self) -> u32
        ensures { result ≡ (state self.now).size };

    /// Gives this node's write in flight for the block, else the block on the disk.
    fn read(&mut self, node: u8, block: u64, into: &mut [u8]) -> Result<(), DiskError>
        requires node { node ≤ 8 }
        requires block { block < (state self.old).count }
        requires size { length into.old ≡ (state self.old).size }
        ensures bytes { OnOk result (IsTrue (state self.old).tells → into.new ≡ read_gives (state self.old) node block) }
        ensures same { state self.new ≡ state self.old }
        ensures list { list self.new ≡ list self.old }
        ensures fenced { IsErrOf result DiskError.Fenced ↔ IsTrue ((state self.old).is_fenced node) }
        ensures cause { MayFail node (faults self.old) (faults self.new) result };

    /// Puts a write in flight.
    fn write(&mut self, node: u8, block: u64, bytes: &[u8]) -> Result<(), DiskError>
        requires node { node ≤ 8 }
        requires block { block < (state self.old).count }
        requires size { length bytes.now ≡ (state self.old).size }
        requires free { flight_to ((state self.old).in_flight node) block ≡ None }
        requires room { length ((state self.old).in_flight node) < 512 }
        ensures ok { OnOk result ((state self.new ≡ after_write (state self.old) node block bytes.now)
            × Gains (list self.old) (list self.new) (Write node block bytes.now ∷ [])) }
        ensures err { OnErr result (((state self.new ≡ state self.old) × (list self.new ≡ list self.old))
            ⊎ ((state self.new ≡ after_write (state self.old) node block bytes.now)
            × Gains (list self.old) (list self.new) (Write node block bytes.now ∷ []))) }
        ensures fenced { IsErrOf result DiskError.Fenced ↔ IsTrue ((state self.old).is_fenced node) }
        ensures unchanged { IsErrOf result DiskError.Fenced → (state self.new ≡ state self.old) × (list self.new ≡ list self.old) }
        ensures cause { MayFail node (faults self.old) (faults self.new) result };

    /// The node's writes in flight are on the disk.
    fn barrier(&mut self, node: u8) -> Result<(), DiskError>
        requires node { node ≤ 8 }
        ensures ok { OnOk result ((state self.new ≡ after_barrier (state self.old) node)
            × Gains (list self.old) (list self.new) (Barrier node ∷ [])) }
        ensures err { OnErr result ((state self.new ≡ state self.old) × (list self.new ≡ list self.old)) }
        ensures fenced { IsErrOf result DiskError.Fenced ↔ IsTrue ((state self.old).is_fenced node) }
        ensures cause { MayFail node (faults self.old) (faults self.new) result };

    /// Each write in flight of the node becomes old, new or any bytes, and the node is fenced.
    fn fence(&mut self, node: u8, order: Settle) -> Result<(), DiskError>
        requires node { node ≤ 8 }
        requires not_zero { 1 ≤ node }
        ensures ok { OnOk result ((became : _) × IsOutcome (state self.old) node became
            × (state self.new ≡ after_fence (state self.old) node became)
            × Gains (list self.old) (list self.new) (Fence node became ∷ [])) }
        ensures err { OnErr result ((state self.new ≡ state self.old) × (list self.new ≡ list self.old)) }
        ensures never { IsErrOf result DiskError.Fenced → ⊥ }
        ensures cause { MayFail 0 (faults self.old) (faults self.new) result };

    /// Ends a fence.
    fn admit(&mut self, node: u8) -> Result<(), DiskError>
        requires node { node ≤ 8 }
        requires not_zero { 1 ≤ node }
        ensures ok { OnOk result (state self.new ≡ after_admit (state self.old) node) }
        ensures err { OnErr result (state self.new ≡ state self.old) }
        ensures list { list self.new ≡ list self.old }
        ensures never { IsErrOf result DiskError.Fenced → ⊥ }
        ensures cause { MayFail 0 (faults self.old) (faults self.new) result };

    /// How often a call that is counted for this node has failed.
    fn faults(&self, node: u8) -> u64
        requires { node ≤ 8 }
        ensures { result ≡ faults self.now node };
}
