//! How values move between a `Vec` and the table's slots. None is copied, and no memory is taken.
ghost use Rattle.std.specs.Prelude.{◌≡◌, ◌+◌, ◌≤◌, List, [], map, Option, Some, length, vec_len, vec_capacity};
ghost use Rattle.std.specs.Mem.Slots.{slots_items, IsFull};

use atomic_table::Closed;
use std::alloc::Global;

/// Moves all values into slots, in order. It takes time linear in their number.
pub(crate) fn fill_slots<V>(parts: &mut Vec<V>, slots: &mut Vec<Option<V>>)
    requires empty { slots.old.items ≡ [] }
    requires room { vec_len parts.old ≤ vec_capacity slots.old }
    ensures slots { slots.new.items ≡ map Some parts.old.items }
    ensures parts { parts.new.items ≡ [] }
    ensures capacity { vec_capacity parts.new ≡ vec_capacity parts.old }
{
    while let Some(value) = parts.pop() {
        slots.push_reserved(Some(value));
    }
    slots.reverse();
}

/// Moves the values back out of slots, in order. It takes time linear in their number.
pub(crate) fn empty_slots<V>(mut slots: Vec<Option<V>>, parts: &mut Vec<V>)
    requires full { (values : List V) × (slots.items ≡ map Some values) }
    requires empty { parts.old.items ≡ [] }
    requires room { vec_len slots ≤ vec_capacity parts.old }
    ensures parts { map Some parts.new.items ≡ slots.items }
{
    while let Some(slot) = slots.pop() {
        match slot {
            Some(value) => parts.push_reserved(value),
            None => unreachable!(),
        }
    }
    slots.destroy_empty();
    parts.reverse();
}

/// Moves the values out of a table that was closed, in order. It takes time linear in their number.
pub(crate) fn empty_table<V>(mut closed: Closed<Option<V>, Global>, parts: &mut Vec<V>)
    requires filled { IsFull closed.slots }
    requires full { (values : List V) × (slots_items closed.slots ≡ map Some values) }
    requires empty { parts.old.items ≡ [] }
    requires room { length (slots_items closed.slots) ≤ vec_capacity parts.old }
    ensures parts { map Some parts.new.items ≡ slots_items closed.slots }
{
    for i in 0..closed.slot_count() {
        match closed.take(i) {
            Some(value) => parts.push_reserved(value),
            None => unreachable!(),
        }
    }
    closed.free();
}
