ghost use Rattle.std.specs.Prelude.{◌≡◌, ◌%◌, ◌≤◌, ℕ, IfOk, length};
ghost use Rattle.shared_disk.specs.Disk.{IsIdle};
ghost use Rattle.shared_disk.specs.Memory.{memory_state};
ghost use Rattle.sure_disk.specs.Sure.{made_of};

use no_memory::NoMemory;
use shared_disk::{DiskError, MemDisk, Settle, SharedDisk};
use std::marker::Model;

/// A disk in memory that is told no failing call, so none fails, and its counts of faults stay at zero. A call costs what it costs of `MemDisk`.
#[derive(Drop)]
pub struct SureDisk {
    disk: MemDisk,
}

impl Model for SureDisk {
    ghost use Rattle.std.specs.Prelude.{◌≡◌, []};
    ghost use Rattle.shared_disk.specs.Memory.{MemoryDisk};

    ghost Value = { MemoryDisk };

    ghost view = { λ d. d.disk };

    ghost invariant = { λ d. d.disk.fails ≡ [] };
}

impl SureDisk {
    /// A disk of these bytes, block by block, with nothing in flight and nobody fenced. It tells no list of operations.
    pub fn new(block_size: u32, bytes: Vec<u8>) -> Result<SureDisk, NoMemory>
        requires size { 1 ≤ block_size }
        requires whole { length bytes.items % block_size ≡ 0 }
        ensures value { IfOk result (λ d. d ≡ made_of block_size bytes.items) }
        ensures idle { IfOk result (λ d. IsIdle (memory_state d)) }
    {
        let alloc = *bytes.allocator();
        let disk = MemDisk::new(block_size, bytes, Vec::new(alloc), Vec::new(alloc), 0)?;
        Ok(SureDisk { disk })
    }
}

impl SharedDisk for SureDisk {
    ghost use Rattle.shared_disk.specs.Memory.{memory_state};

    ghost state = { memory_state };

    ghost list = { λ d. d.list };

    ghost faults = { λ d node. 0 };

    fn blocks(&self) -> u64 {
        self.disk.blocks()
    }

    fn block_size(&self) -> u32 {
        self.disk.block_size()
    }

    fn read(&mut self, node: u8, block: u64, into: &mut [u8]) -> Result<(), DiskError> {
        self.disk.read(node, block, into)
    }

    fn write(&mut self, node: u8, block: u64, bytes: &[u8]) -> Result<(), DiskError> {
        self.disk.write(node, block, bytes)
    }

    fn barrier(&mut self, node: u8) -> Result<(), DiskError> {
        self.disk.barrier(node)
    }

    fn fence(&mut self, node: u8, order: Settle) -> Result<(), DiskError> {
        self.disk.fence(node, order)
    }

    fn admit(&mut self, node: u8) -> Result<(), DiskError> {
        self.disk.admit(node)
    }

    fn faults(&self, _node: u8) -> u64 {
        0
    }
}
