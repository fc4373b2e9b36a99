//! An empty `Vec` that is kept for later, where threads share what keeps it. A field of type `Vec<V>` would ask `V: Sync` of
//! them, and the one slot of a table asks `V: Send` alone.
ghost use Rattle.std.specs.Prelude.{◌≡◌, ◌≤◌, [], IfOk, IfErr, vec_capacity};

use atomic_table::{Refused, Table, TableRule};
use std::alloc::Global;
use std::marker::Model;

/// The rule of the shelf: an empty `Vec` with this room lies in its slot. No value of it is made.
pub(crate) struct Roomy;

impl<V> TableRule<Vec<V>, (), usize> for Roomy {
    ghost use Rattle.turn_table.specs.Shelved.{IsShelved};

    ghost holds = { IsShelved };

    ghost first = { λ _. tt };
}

/// A shelf, which contracts see as the room of its `Vec`.
#[derive(Drop)]
pub(crate) struct Shelf<V> {
    table: Table<Vec<V>, (), usize, Roomy, Global>,
}

impl<V> Model for Shelf<V> {
    ghost use Rattle.std.specs.Prelude.{◌≡◌, ℕ};

    ghost Value = { ℕ };

    ghost view = { λ s. s.table.shared.key };

    ghost invariant = { λ s. s.table.shared.table_id.slots ≡ 1 };
}

impl<V> Shelf<V> {
    /// Keeps the `Vec`, which has at least this room. At `Err` it comes back.
    pub(crate) fn new(alloc: Global, buffer: Vec<V>, room: usize) -> Result<Shelf<V>, Vec<V>>
        requires empty { buffer.items ≡ [] }
        requires room { room ≤ vec_capacity buffer }
        ensures ok { IfOk result (λ s. s ≡ room) }
        ensures err { IfErr result (λ back. back ≡ buffer) }
    {
        let Ok(mut slots) = Vec::with_capacity(alloc, 1) else {
            return Err(buffer);
        };
        slots.push_reserved(buffer);
        match Table::new(alloc, &[], slots, &room) {
            Ok((table, _)) => Ok(Shelf { table }),
            Err(Refused { mut slots }) => {
                let Some(buffer) = slots.pop() else {
                    unreachable!()
                };
                slots.destroy_empty();
                Err(buffer)
            }
        }
    }

    /// Takes the `Vec` off the shelf.
    pub(crate) fn take(self) -> Vec<V>
        ensures empty { result.items ≡ [] }
        ensures room { self ≤ vec_capacity result }
    {
        let Shelf { table } = self;
        let mut closed = table.close();
        let buffer = closed.take(0);
        closed.free();
        buffer
    }
}
