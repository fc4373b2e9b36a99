//! What a thread knows of the turns.
ghost use Rattle.std.specs.Prelude.{◌≡◌, ◌<◌, []};

use crate::rule::TurnRule;
use crate::steps::Place;
use std::marker::{Model, PhantomData};

/// What a thread steps with. It has no bytes.
#[derive(Drop)]
pub struct Seat<V, R: TurnRule<V>> {
    pub(crate) place: Place<V>,
    rule: PhantomData<R>,
}

impl<V, R: TurnRule<V>> Model for Seat<V, R> {
    ghost use Rattle.std.specs.Prelude.{◌≡◌, ◌<◌};
    ghost use Rattle.turn_table.specs.Notes.{emptied, AllBelow};
    ghost use Rattle.turn_table.specs.Sitting.{Sitting};

    ghost Value = { Sitting V };

    ghost view = { λ s. record { table = s.place.table_id; share = s.place.me.0.share; seen = s.place.me.0.seen; turns = s.place.me.0.turns } };

    ghost invariant = { λ s. (s.place.me.1 ≡ emptied s.place.me.0.turns) × (0 < s.place.me.0.share) × AllBelow s.place.table_id.words s.place.me.0.turns };
}

impl<V, R: TurnRule<V>> Seat<V, R> {
    // A seat that holds no turn.
    pub(crate) fn new(place: Place<V>) -> Seat<V, R>
        requires idle { (place.me.1 ≡ []) × (place.me.0.turns ≡ []) × (0 < place.me.0.share) }
        ensures { result ≡ record { table = place.table_id; share = place.me.0.share; seen = place.me.0.seen; turns = [] } }
    {
        Seat {
            place,
            rule: PhantomData,
        }
    }

    pub(crate) fn into_place(self) -> Place<V>
        ensures same { (result.table_id ≡ self.table) × (result.me.0.share ≡ self.share) × (result.me.0.seen ≡ self.seen) × (result.me.0.turns ≡ self.turns) }
        ensures slots { self.turns ≡ [] → result.me.1 ≡ [] }
    {
        let Seat { place, rule: _ } = self;
        place
    }
}
