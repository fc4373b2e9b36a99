ghost use Rattle.std.specs.Prelude.{◌≡◌, ◌+◌, ◌<◌, ◌≤◌, ◌++◌, ◌∷◌, [], length, take, slice_index_or, IfOk};
ghost use Rattle.shared_disk.specs.Flights.{flight_in, flights_in, AreSized};

use std::alloc::{AllocError, Global};

/// A write that is kept: the block that it goes to, and a buffer of one block's length.
#[derive(Drop)]
pub struct Slot {
    pub block: u64,
    pub bytes: Vec<u8>,
}

/// So many slots, each with a buffer of so many bytes.
pub fn make_slots(alloc: Global, count: usize, size: usize) -> Result<Vec<Slot>, AllocError>
    ensures count { IfOk result (λ v. length v.items ≡ count) }
    ensures sizes { IfOk result (λ v. AreSized size v.items) }
{
    let mut slots = Vec::with_capacity(alloc, count)?;
    for _ in 0..count {
        let bytes = vec![in alloc; 0; size]?;
        slots.push(Slot { block: 0, bytes })?;
    }
    Ok(slots)
}

/// Fills the slot at a place, the last of those that are filled.
pub fn fill_slot(slots: &mut [Slot], place: usize, block: u64, bytes: &[u8])
    requires room { place < length slots.old }
    requires sizes { AreSized (length bytes.now) slots.old }
    ensures flights { flights_in (take (place + 1) slots.new) ≡ flights_in (take place slots.old) ++ record { block = block; bytes = bytes.now } ∷ [] }
    ensures front { take place slots.new ≡ take place slots.old }
    ensures last { (d : _) → flight_in (slice_index_or slots.new place d) ≡ record { block = block; bytes = bytes.now } }
    ensures sizes { AreSized (length bytes.now) slots.new }
{
    let slot = &mut slots[place];
    slot.block = block;
    slot.bytes.copy_from_slice(bytes);
}
