//! What a seat knows, and the rule of the table.
use crate::rule::TurnRule;
use atomic_table::TableRule;
use std::collections::LinkedList;
use std::marker::PhantomData;
use std::snapshot::Snapshot;

/// What a seat knows. No value of it is made.
pub struct Standing<V> {
    pub share: u64,
    pub seen: LinkedList<(usize, V)>,
    pub turns: LinkedList<(usize, V)>,
}

/// The table's rule, for a rule of the values. No value of it is made.
pub struct Law<R> {
    rule: PhantomData<R>,
}

impl<V, R: TurnRule<V>> TableRule<Option<V>, Standing<V>, Snapshot<Vec<V>>> for Law<R> {
    ghost use Rattle.turn_table.specs.Keeping.{Kept};
    ghost use Rattle.turn_table.specs.Playing.{founder};

    ghost holds = { λ _. Kept R.holds R.grows };

    ghost first = { λ opening. founder opening.value.items };
}
