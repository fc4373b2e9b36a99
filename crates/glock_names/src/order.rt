// The order of the states.
ghost use Rattle.std.specs.Prelude.{◌≡◌};
ghost use Rattle.glock_names.specs.StateOrder.{leq, is_below, may_cache};

use crate::State;

/// Whether a lock that is held in the second state serves who wants it in the first. Unlocked is below shared and deferred,
/// which stand side by side, and these are below exclusive.
pub fn is_at_most(a: State, b: State) -> bool
    ensures { result ≡ leq a b }
{
    match (a, b) {
        (State::Un, _) | (_, State::Ex) | (State::Sh, State::Sh) | (State::Df, State::Df) => true,
        _ => false,
    }
}

/// Whether the first state is weaker than the second.
pub fn is_below(a: State, b: State) -> bool
    ensures { result ≡ is_below a b }
{
    is_at_most(a, b) && !is_at_most(b, a)
}

/// Whether a node may keep a block in its cache that is under a lock which it holds in this state; `plain` where the block is
/// content of a regular file.
pub fn may_cache(state: State, plain: bool) -> bool
    ensures { result ≡ may_cache state plain }
{
    match state {
        State::Un => false,
        State::Sh | State::Ex => true,
        State::Df => !plain,
    }
}
