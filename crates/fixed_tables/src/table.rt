// Rows by rising number.
ghost use Rattle.std.specs.Prelude.{◌≡◌, ◌≤◌, ℕ, Bool, T, IfOk, IfErr, length};
ghost use Rattle.std.specs.Ordering.{nat_cmp};
ghost use Rattle.std.specs.FinMap.{is_sorted};
ghost use Rattle.fixed_tables.specs.Rows.{IsAt, IsBetween};

use no_memory::NoMemory;
use std::alloc::Global;
use std::marker::Model;

// Where the number stands, or where it would.
fn place_of<V>(rows: &[(u64, V)], key: u64) -> Result<usize, usize>
    requires { T (is_sorted nat_cmp rows.now) }
    ensures there { IfOk result (λ place. IsAt rows.now place key) }
    ensures absent { IfErr result (λ place. IsBetween rows.now place key) }
{
    rows.binary_search_by_key(&key, |row| row.0)
}

/// A map from numbers, such as those of blocks, to values: rows by rising number, in memory that was taken when the table was made. A look-up is a binary search; a
/// number that is put in or taken out moves the rows behind it by one.
#[derive(Drop)]
pub struct FixedTable<V> {
    rows: Vec<(u64, V)>,
    room: usize,
}

impl<V> Model for FixedTable<V> {
    ghost use Rattle.fixed_tables.specs.Fixed.{Fixed, fixed_code};

    ghost Value = { Fixed V };

    ghost coded = { fixed_code V.code };

    ghost use Rattle.fixed_tables.specs.Inside.{fixed_in, IsFixed};

    ghost view = { fixed_in };

    ghost invariant = { IsFixed };
}

impl<V> FixedTable<V> {
    ghost use Rattle.std.specs.Prelude.{◌≡◌, ◌⊎◌, ◌<◌, true, Some, IfOk, slice_get, option_copied};
    ghost use Rattle.std.specs.FinMap as map;
    ghost use Rattle.fixed_tables.specs.Fixed.{Fixed};

    /// An empty table for so many numbers. Takes all the memory that it will need.
    pub fn new(alloc: Global, room: usize) -> Result<Self, NoMemory>
        ensures { IfOk result (λ (t : Fixed V). t ≡ record { at = map.empty; room = room }) }
    {
        let rows = Vec::with_capacity(alloc, room)?;
        Ok(FixedTable { rows, room })
    }

    /// How many numbers have a value.
    pub fn len(&self) -> usize
        ensures { result ≡ map.len self.now.at }
    {
        self.rows.len()
    }

    /// The row at a place of the order: the number, and its value.
    pub fn row(&self, place: usize) -> &(u64, V)
        requires { place < map.len self.now.at }
        ensures { slice_get (map.entries self.now.at) place ≡ Some result.now }
    {
        &self.rows[place]
    }

    /// The number's value.
    pub fn get(&self, key: u64) -> Option<&V>
        ensures { option_copied result ≡ map.get self.now.at key }
    {
        match place_of(&self.rows, key) {
            Ok(place) => Some(&self.rows[place].1),
            Err(_) => None,
        }
    }

    /// The number has this value, and what it had comes back.
    pub fn put(&mut self, key: u64, value: V) -> Option<V>
        requires room { (map.contains_key self.old.at key ≡ true) ⊎ (map.len self.old.at < self.old.room) }
        ensures was { result ≡ map.get self.old.at key }
        ensures is { self.new ≡ record self.old { at = map.insert self.old.at key value } }
    {
        match place_of(&self.rows, key) {
            Ok(place) => {
                let row = &mut self.rows[place];
                Some(std::mem::replace(&mut row.1, value))
            }
            Err(place) => match self.rows.insert(place, (key, value)) {
                Ok(()) => None,
                Err(_) => unreachable!(),
            },
        }
    }

    /// The number has no value any more, and what it had comes back.
    pub fn take(&mut self, key: u64) -> Option<V>
        ensures was { result ≡ map.get self.old.at key }
        ensures is { self.new ≡ record self.old { at = map.remove self.old.at key } }
    {
        match place_of(&self.rows, key) {
            Ok(place) => {
                let (_, value) = self.rows.remove(place);
                Some(value)
            }
            Err(_) => None,
        }
    }
}

/// Which rows of a table stay.
pub trait RowTest<V> {
    /// The row with this number and value does.
    ghost stays: { Self → ℕ → V → Bool };

    /// Whether it does.
    fn stays(&self, key: u64, value: &V) -> bool
        ensures { result ≡ stays self.now key value.now };
}

impl<V: Drop> FixedTable<V> {
    ghost use Rattle.std.specs.Prelude.{◌≡◌, ◌≤◌, ℕ};
    ghost use Rattle.std.specs.FinMap as map;
    ghost use Rattle.fixed_tables.specs.Fixed.{left_by};

    /// Only the rows that pass the test stay. It goes over all rows once.
    pub fn keep<T: RowTest<V>>(&mut self, test: &T)
        ensures left { (q : ℕ) → map.get self.new.at q ≡ left_by (T.stays test.now q) (map.get self.old.at q) }
        ensures fewer { map.len self.new.at ≤ map.len self.old.at }
        ensures room { self.new.room ≡ self.old.room }
    {
        self.rows.retain(|row| test.stays(row.0, &row.1));
    }

    /// No number has a value any more.
    pub fn clear(&mut self)
        ensures { self.new ≡ record self.old { at = map.empty } }
    {
        self.rows.clear();
    }
}
