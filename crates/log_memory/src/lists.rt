// The lists of a flush: what it revokes, and its rows of each kind.
ghost use Rattle.std.specs.Prelude.{◌≡◌, ◌+◌, ◌<◌, ◌≤◌, ◌++◌, ◌∷◌, [], ℕ, map, filter, length, slice_get, slice_index, Some, vec_capacity, vec_len};
ghost use Rattle.std.specs.FinMap as table;
ghost use Rattle.log_values.specs.Blocks as set;
ghost use Rattle.log_values.specs.Log.{Version};
ghost use Rattle.log_values.specs.Transactions.{logged_as};
ghost use Rattle.log_memory.specs.Flushing.{is_of_kind};
ghost use Rattle.log_memory.specs.Rows.{row_of, rows};

use fixed_tables::FixedTable;
use log_tables::Tables;

// One more behind the others, for which there is room.
fn put_last<T>(list: &mut Vec<T>, value: T)
    requires { vec_len list.old < vec_capacity list.old }
    ensures items { list.new.items ≡ list.old.items ++ value ∷ [] }
    ensures len { vec_len list.new ≡ vec_len list.old + 1 }
    ensures capacity { vec_capacity list.old ≤ vec_capacity list.new }
{
    match list.push(value) {
        Ok(()) => {}
        Err(_) => unreachable!(),
    }
}

/// The blocks of the set, in their order.
pub(crate) fn list_blocks(blocks: &FixedTable<()>, into: &mut Vec<u64>)
    requires empty { into.old.items ≡ [] }
    requires room { table.len blocks.now.at ≤ vec_capacity into.old }
    ensures items { into.new.items ≡ set.items blocks.now.at }
    ensures capacity { vec_capacity into.old ≤ vec_capacity into.new }
{
    for place in 0..blocks.len() {
        put_last(into, blocks.row(place).0);
    }
}

// Whether the row of the flush is content of a regular file, or whether it isn't.
fn is_of_kind(tables: &Tables, plain: bool, place: usize) -> bool
    requires { place < table.len tables.now.flushed }
    ensures { (e : ℕ × Version) → slice_get (table.entries tables.now.flushed) place ≡ Some e → result ≡ is_of_kind plain (logged_as e.0 e.1) }
{
    let is_plain = tables.flushed_is_plain(place);
    if plain { is_plain } else { !is_plain }
}

/// The places of the flush's rows of a kind, in their order.
pub(crate) fn list_kind(tables: &Tables, plain: bool, into: &mut Vec<u32>)
    requires few { table.len tables.now.flushed ≤ 4096 }
    requires empty { into.old.items ≡ [] }
    requires room { table.len tables.now.flushed ≤ vec_capacity into.old }
    ensures inside { (i : ℕ) → i < length into.new.items → slice_index into.new.items i < table.len tables.now.flushed }
    ensures rows { map (row_of tables.now) into.new.items ≡ filter (is_of_kind plain) (rows tables.now) }
    ensures capacity { vec_capacity into.old ≤ vec_capacity into.new }
{
    for place in 0..tables.flushed_len() {
        if is_of_kind(tables, plain, place) {
            put_last(into, place as u32);
        }
    }
}
