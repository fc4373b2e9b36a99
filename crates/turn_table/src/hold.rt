//! A value that was handed out.
ghost use Rattle.std.specs.Prelude.{◌≡◌};
ghost use Rattle.std.specs.Borrow.{sem};
ghost use Rattle.turn_table.specs.Lending.{LendsValue};

use std::marker::Model;
use std::snapshot::Snapshot;

/// A value whose turn a seat holds. It is given back by `leave` or `leave_pair`, and can't be dropped.
pub struct Held<V> {
    part: usize,
    value: V,
    opening: Snapshot<V>,
}

impl<V> Model for Held<V> {
    ghost use Rattle.turn_table.specs.Sitting.{Handed};

    ghost Value = { Handed V };

    ghost view = { λ h. record { part = h.part; opening = h.opening.value; value = h.value } };
}

impl<V> Held<V> {
    pub(crate) fn new(part: usize, value: V) -> Held<V>
        ensures { result ≡ record { part = part; opening = value; value = value } }
    {
        let opening = Snapshot::of(&value);
        Held {
            part,
            value,
            opening,
        }
    }

    pub(crate) fn into_parts(self) -> (usize, V)
        ensures { (result.0 ≡ self.part) × (result.1 ≡ self.value) }
    {
        let Held {
            part,
            value,
            opening: _,
        } = self;
        (part, value)
    }

    /// The value. It takes constant time.
    pub fn value(&self) -> &V
        ensures { result.now ≡ self.now.value }
    {
        &self.value
    }

    /// The value, to be changed. It takes constant time.
    pub fn value_mut(&mut self) -> &mut V
        ensures* writes_back { sem 𝓛 (LendsValue V.row self.entry result) }
        ensures value { result.now ≡ self.old.value }
    {
        &mut self.value
    }
}
