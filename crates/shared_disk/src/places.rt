ghost use Rattle.std.specs.Prelude.{◌≡◌, ◌+◌, ◌*◌, ◌<◌, ◌≤◌, ℕ, length, None, is_some, unwrap_or, vec_capacity};
ghost use Rattle.shared_disk.specs.Blocks.{block_in};
ghost use Rattle.shared_disk.specs.Disk.{flight_to, with_flight, AreRising};
ghost use Rattle.shared_disk.specs.Places.{flights_at, AreThere, AreInOrder, AreBelow, AreNotBelow};

/// Where a write in flight stands: the block that it goes to, and the number of its bytes among those of its node's writes
/// in flight, which stand one after another as they came.
#[derive(Clone, Copy, Drop)]
pub struct Place {
    pub block: u64,
    pub number: usize,
}

/// The bytes of this number, of one block's length.
pub fn bytes_at(bytes: &[u8], size: usize, number: usize) -> &[u8]
    requires { number * size + size ≤ length bytes.now }
    ensures { result.now ≡ block_in size bytes.now number }
{
    let from = number * size;
    &bytes[from..from + size]
}

/// The first place whose block is not below this one.
pub fn place_of(places: &[Place], block: u64) -> usize
    requires { AreInOrder places.now }
    ensures bound { result ≤ length places.now }
    ensures below { AreBelow places.now result block }
    ensures above { AreNotBelow places.now result block }
{
    let mut low = 0;
    let mut high = places.len();
    while low < high {
        let middle = low + (high - low) / 2;
        if places[middle].block < block {
            low = middle + 1;
        } else {
            high = middle;
        }
    }
    low
}

/// Copies what is in flight to the block, and answers whether anything is.
pub fn copy_flight(places: &[Place], bytes: &[u8], block: u64, into: &mut [u8]) -> bool
    requires rising { AreRising (flights_at (length into.old) bytes.now places.now) }
    requires there { AreThere (length into.old) bytes.now places.now }
    ensures found { result ≡ is_some (flight_to (flights_at (length into.old) bytes.now places.now) block) }
    ensures bytes { into.new ≡ unwrap_or (flight_to (flights_at (length into.old) bytes.now places.now) block) into.old }
{
    let place = place_of(places, block);
    if place == places.len() || places[place].block != block {
        return false;
    }
    let size = into.len();
    into.copy_from_slice(bytes_at(bytes, size, places[place].number));
    true
}

/// Puts a write in flight: its bytes behind the others, and its place into the order. No memory is taken.
pub fn put_flight(places: &mut Vec<Place>, bytes: &mut Vec<u8>, block: u64, new: &[u8])
    requires room { length places.old.items < vec_capacity places.old }
    requires bytes_room { length bytes.old.items + length new.now ≤ vec_capacity bytes.old }
    requires whole { length bytes.old.items ≡ length places.old.items * length new.now }
    requires there { AreThere (length new.now) bytes.old.items places.old.items }
    requires rising { AreRising (flights_at (length new.now) bytes.old.items places.old.items) }
    requires free { flight_to (flights_at (length new.now) bytes.old.items places.old.items) block ≡ None }
    ensures flights { flights_at (length new.now) bytes.new.items places.new.items ≡ with_flight (flights_at (length new.now) bytes.old.items places.old.items) (record { block = block; bytes = new.now }) }
    ensures whole { length bytes.new.items ≡ length places.new.items * length new.now }
    ensures there { AreThere (length new.now) bytes.new.items places.new.items }
    ensures count { length places.new.items ≡ length places.old.items + 1 }
    ensures capacity { vec_capacity places.old ≤ vec_capacity places.new }
    ensures bytes_capacity { vec_capacity bytes.old ≤ vec_capacity bytes.new }
{
    let place = place_of(places, block);
    let number = places.len();
    if bytes.extend_from_slice(new).is_err() {
        unreachable!();
    }
    if places.insert(place, Place { block, number }).is_err() {
        unreachable!();
    }
}
