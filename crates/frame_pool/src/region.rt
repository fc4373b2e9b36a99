// One block of bytes.
ghost use Rattle.std.specs.Prelude.{◌≡◌, ℕ, ◌+◌, ◌^◌, ◌<◌, ◌≤◌, List, Option, Some, None, length, map, replicate, IfOk};
ghost use Rattle.frame_pool.specs.Parts.{part, with_part};

use crate::cells::{Base, Cells, Deed, allocate, deallocate};
use std::alloc::{AllocError, Global};
use std::marker::Model;

// Writes a zero to each of the places, which are empty.
fn write_zeros(cells: &mut Cells<u8>, base: Base<u8>, len: usize)
    requires { (base.ptr ≡ cells.old.at) × (cells.old.slots ≡ replicate len None) }
    ensures { (cells.new.at ≡ cells.old.at) × (cells.new.slots ≡ map Some (replicate len 0)) }
{
    for index in 0..len {
        cells.write(base, index, 0);
    }
}

// Takes the byte out of each of the places.
fn read_all(cells: &mut Cells<u8>, base: Base<u8>, len: usize)
    requires { (base.ptr ≡ cells.old.at) × ((bytes : List ℕ) × (cells.old.slots ≡ map Some bytes) × (length bytes ≡ len)) }
    ensures { (cells.new.at ≡ cells.old.at) × (cells.new.slots ≡ replicate len None) }
{
    for index in 0..len {
        cells.read(base, index);
    }
}

/// One block of memory, each of whose bytes was written. It is freed where it is dropped.
pub struct Region {
    base: Base<u8>,
    len: usize,
    cells: Cells<u8>,
    deed: Deed<u8, Global>,
    alloc: Global,
}

impl Model for Region {
    ghost use Rattle.std.specs.Prelude.{ℕ, List};

    ghost Value = { List ℕ };

    ghost use Rattle.frame_pool.specs.InRegion.{bytes_in, IsRegion};

    ghost view = { bytes_in };

    ghost invariant = { IsRegion };
}

impl Region {
    ghost use Rattle.std.specs.Borrow.{sem};
    ghost use Rattle.frame_pool.specs.LendsPart.{LendsPart};

    /// A block of so many bytes, all zero.
    pub(crate) fn zeros(alloc: Global, len: usize) -> Result<Region, AllocError>
        requires { len < 2 ^ 63 }
        ensures { IfOk result (λ r. r ≡ replicate len 0) }
    {
        let (base, mut cells, deed) = allocate(&alloc, len)?;
        write_zeros(&mut cells, base, len);
        Ok(Region {
            base,
            len,
            cells,
            deed,
            alloc,
        })
    }

    /// The `len` bytes from `at` on.
    pub(crate) fn part(&self, at: usize, len: usize) -> &[u8]
        requires { at + len ≤ length self.now }
        ensures { result.now ≡ part self.now at len }
    {
        self.cells.slice(self.base, at, len)
    }

    /// The same, to be written.
    pub(crate) fn part_mut(&mut self, at: usize, len: usize) -> &mut [u8]
        requires { at + len ≤ length self.old }
        ensures* writes_back { sem 𝓛 (LendsPart self.entry at len result) }
        ensures value { result.now ≡ part self.old at len }
    {
        let base = self.base;
        self.cells.slice_mut(base, at, len)
    }
}

impl Drop for Region {
    fn drop(self) {
        let Region {
            base,
            len,
            mut cells,
            deed,
            alloc,
        } = self;
        read_all(&mut cells, base, len);
        deallocate(&alloc, base, len, cells, deed);
    }
}
