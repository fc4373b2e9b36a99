ghost use Rattle.std.specs.Prelude.{◌≡◌, ◌+◌, ◌*◌, ◌/◌, ◌<◌, ◌≤◌, ℕ, List, [], ◌∷◌, ◌++◌, length, map, take, IfOk, Option, None, Some, nat_lt, if◌then◌else◌};
ghost use Rattle.std.specs.List.{AllByRecursion};
ghost use Rattle.shared_disk.specs.Disk.{Write, Barrier, Fence};
ghost use Rattle.shared_disk.specs.Flights.{flights_in, AreSized};
ghost use Rattle.shared_disk.specs.Blocks.{block_in};
ghost use Rattle.shared_disk.specs.Operations.{IsKept, SameRoom, list_told, with_operation, now_at};

use crate::flights::{Slot, fill_slot, make_slots};
use crate::places::Place;
use std::alloc::{AllocError, Global};

/// An operation that is kept: a write with one flight, a barrier, or a fence with so many flights.
#[derive(Clone, Copy)]
pub enum Kept {
    Written(u8),
    Flushed(u8),
    Settled(u8, usize),
}

/// The list of operations, told while it has fewer entries than the limit. A fence is one entry, and
/// one more for each write that it settles. All memory is taken when it is made.
#[derive(Drop)]
pub struct Operations {
    pub limit: u32,
    pub size: u32,
    pub told: bool,
    pub entries: usize,
    pub kept: Vec<Kept>,
    pub slots: Vec<Slot>,
    pub used: usize,
}

/// An empty list, told where the limit is at least 1.
pub fn no_operations(alloc: Global, limit: u32, size: u32) -> Result<Operations, AllocError>
    ensures told { IfOk result (λ o. list_told o ≡ (if nat_lt 0 limit then Some [] else None)) }
    ensures limit { IfOk result (λ o. o.limit ≡ limit) }
    ensures size { IfOk result (λ o. o.size ≡ size) }
    ensures kept { IfOk result (λ o. IsKept o) }
{
    Ok(Operations {
        limit,
        size,
        told: limit > 0,
        entries: 0,
        kept: Vec::with_capacity(alloc, limit as usize)?,
        slots: make_slots(alloc, limit as usize, size as usize)?,
        used: 0,
    })
}

// Keeps what a block holds in the row, in the slot at a place.
fn keep_block(kept: &mut [Slot], place: usize, row: &[u8], size: usize, block: u64)
    requires room { place < length kept.old }
    requires sizes { AreSized size kept.old }
    requires within { block < length row.now / size }
    ensures flights { flights_in (take (place + 1) kept.new) ≡ flights_in (take place kept.old) ++ record { block = block; bytes = block_in size row.now block } ∷ [] }
    ensures sizes { AreSized size kept.new }
{
    let from = block as usize * size;
    fill_slot(kept, place, block, &row[from..from + size]);
}

// Keeps what each of these blocks holds in the row, in slots from `used` on.
fn keep_blocks(kept: &mut [Slot], used: usize, row: &[u8], size: usize, places: &[Place])
    requires room { used + length places.now ≤ length kept.old }
    requires sizes { AreSized size kept.old }
    requires within { AllByRecursion (λ p. p.block < length row.now / size) places.now }
    ensures flights { flights_in (take (used + length places.now) kept.new) ≡ flights_in (take used kept.old) ++ map (now_at (block_in size row.now)) places.now }
    ensures sizes { AreSized size kept.new }
{
    let mut at = used;
    for place in places {
        keep_block(kept, at, row, size, place.block);
        at += 1;
    }
}

/// Adds a write to the list, with one copy.
pub fn note_write(operations: &mut Operations, node: u8, block: u64, bytes: &[u8])
    requires kept { IsKept operations.old }
    requires size { length bytes.now ≡ operations.old.size }
    ensures told { list_told operations.new ≡ with_operation operations.old.limit (list_told operations.old) (Write node block bytes.now) }
    ensures room { SameRoom operations.old operations.new }
    ensures kept { IsKept operations.new }
{
    if !operations.told || operations.entries + 1 >= operations.limit as usize {
        operations.told = false;
        return;
    }
    fill_slot(&mut operations.slots, operations.used, block, bytes);
    operations.used += 1;
    operations.kept.push_reserved(Kept::Written(node));
    operations.entries += 1;
}

/// Adds a barrier to the list.
pub fn note_barrier(operations: &mut Operations, node: u8)
    requires { IsKept operations.old }
    ensures told { list_told operations.new ≡ with_operation operations.old.limit (list_told operations.old) (Barrier node) }
    ensures room { SameRoom operations.old operations.new }
    ensures kept { IsKept operations.new }
{
    if !operations.told || operations.entries + 1 >= operations.limit as usize {
        operations.told = false;
        return;
    }
    operations.kept.push_reserved(Kept::Flushed(node));
    operations.entries += 1;
}

/// Adds a fence to the list, whose flights have become what the row holds. One copy per flight.
pub fn note_fence(operations: &mut Operations, node: u8, row: &[u8], size: usize, places: &[Place])
    requires kept { IsKept operations.old }
    requires size { size ≡ operations.old.size }
    requires within { AllByRecursion (λ p. p.block < length row.now / size) places.now }
    requires few { length places.now ≤ 512 }
    ensures told { list_told operations.new ≡ with_operation operations.old.limit (list_told operations.old) (Fence node (map (now_at (block_in size row.now)) places.now)) }
    ensures room { SameRoom operations.old operations.new }
    ensures kept { IsKept operations.new }
{
    let entries = 1 + places.len();
    if !operations.told || operations.entries + entries >= operations.limit as usize {
        operations.told = false;
        return;
    }
    keep_blocks(&mut operations.slots, operations.used, row, size, places);
    operations.used += places.len();
    operations
        .kept
        .push_reserved(Kept::Settled(node, places.len()));
    operations.entries += entries;
}
