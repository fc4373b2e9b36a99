//! What each step tells. These types are for the proofs alone.
ghost use Rattle.turn_table.specs.Playing.{Takes, Brings, Gives, GivesSecond, parting, newcomer, joined, spent};

use crate::rule::TurnRule;
use crate::standing::Standing;
use atomic_table::{Join, Play, Split};
use std::marker::PhantomData;

pub(crate) struct Take<R> {
    rule: PhantomData<R>,
}

impl<V, R: TurnRule<V>> Play<Option<V>, Standing<V>> for Take<R> {
    ghost then = { Takes R.holds R.grows };
}

pub(crate) struct Bring;

impl<V> Play<Option<V>, Standing<V>> for Bring {
    ghost then = { Brings };
}

pub(crate) struct Give;

impl<V> Play<Option<V>, Standing<V>> for Give {
    ghost then = { Gives };
}

pub(crate) struct GiveSecond;

impl<V> Play<Option<V>, Standing<V>> for GiveSecond {
    ghost then = { GivesSecond };
}

pub(crate) struct Halve;

impl<V> Split<Standing<V>> for Halve {
    ghost left = { parting };

    ghost right = { newcomer };
}

pub(crate) struct Unite;

impl<V> Join<Standing<V>> for Unite {
    ghost both = { joined };

    ghost spent = { spent };
}
