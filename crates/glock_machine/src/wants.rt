// The states that the calls of a node want of one lock.
ghost use Rattle.std.specs.Prelude.{◌≡◌};
ghost use Rattle.glock_machine.specs.Wants.{is_wanted, with_want, is_unserved, unserved, any_unserved};

use glock_names::{State, is_at_most};

/// The states that calls of the node want of a lock and that aren't granted yet. Each stands until it is granted or taken
/// back, whatever else is wanted.
#[derive(Clone, Copy, Debug, PartialEq, Eq)]
pub struct Wants {
    pub shared: bool,
    pub deferred: bool,
    pub exclusive: bool,
}

pub const NOTHING: Wants = Wants {
    shared: false,
    deferred: false,
    exclusive: false,
};

// Whether a call wants it in this state.
pub fn is_wanted(wants: Wants, state: State) -> bool
    ensures { result ≡ is_wanted wants state }
{
    match state {
        State::Un => false,
        State::Sh => wants.shared,
        State::Df => wants.deferred,
        State::Ex => wants.exclusive,
    }
}

// With this state among them, or without it.
pub fn with_want(wants: Wants, state: State, is: bool) -> Wants
    ensures { result ≡ with_want wants state is }
{
    match state {
        State::Un => wants,
        State::Sh => Wants {
            shared: is,
            ..wants
        },
        State::Df => Wants {
            deferred: is,
            ..wants
        },
        State::Ex => Wants {
            exclusive: is,
            ..wants
        },
    }
}

fn is_unserved(held: State, wants: Wants, state: State) -> bool
    ensures { result ≡ is_unserved held wants state }
{
    is_wanted(wants, state) && !is_at_most(state, held)
}

// Those that a lock that is held so doesn't serve.
pub fn unserved(held: State, wants: Wants) -> Wants
    ensures { result ≡ unserved held wants }
{
    Wants {
        shared: is_unserved(held, wants, State::Sh),
        deferred: is_unserved(held, wants, State::Df),
        exclusive: is_unserved(held, wants, State::Ex),
    }
}

pub fn any_unserved(held: State, wants: Wants) -> bool
    ensures { result ≡ any_unserved held wants }
{
    is_unserved(held, wants, State::Sh)
        || is_unserved(held, wants, State::Df)
        || is_unserved(held, wants, State::Ex)
}
