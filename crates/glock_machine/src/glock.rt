// What a node keeps of one lock, and what each call leaves of it.
ghost use Rattle.std.specs.Prelude.{◌≡◌};
ghost use Rattle.glock_machine.specs.Table.{common, wanted, unwanted, granted, pinned, unpinned, called_back, still_called, lowered, touched, down_of, may_ask};

use crate::wants::{NOTHING, Wants, any_unserved, unserved, with_want};
use glock_names::{State, is_at_most};

/// What a node keeps of a lock that it wanted.
#[derive(Clone, Copy, Debug, PartialEq, Eq)]
pub struct Glock {
    /// The state in which the node holds it.
    pub state: State,
    /// What its calls want and isn't granted yet.
    pub wants: Wants,
    /// How many calls have it pinned.
    pub pins: u32,
    /// The state that it may keep, where another node's request stands in its way.
    pub called: Option<State>,
    /// Whether a callback came since it was granted.
    pub was_called: bool,
    /// The state from which it went down last, where no callback had come since its grant.
    pub uncalled: Option<State>,
    /// The greatest number of a call of the node that touched it since it was granted.
    pub touched: u64,
}

pub const NEW: Glock = Glock {
    state: State::Un,
    wants: NOTHING,
    pins: 0,
    called: None,
    was_called: false,
    uncalled: None,
    touched: 0,
};

// The state to which it goes down, where it does.
pub fn down_of(unmounting: bool, glock: &Glock) -> Option<State>
    ensures { result ≡ down_of unmounting glock.now }
{
    if glock.pins > 0 || is_at_most(glock.state, State::Un) {
        return None;
    }
    if unmounting || any_unserved(glock.state, glock.wants) {
        return Some(State::Un);
    }
    glock.called
}

pub fn may_ask(state: State, glock: Glock) -> bool
    ensures { result ≡ may_ask state glock }
{
    let before = glock.uncalled.unwrap_or(State::Un);
    is_at_most(glock.state, State::Un) && !is_at_most(state, before)
}

pub fn wanted(glock: Glock, state: State) -> Glock
    ensures { result ≡ wanted state glock }
{
    if is_at_most(state, glock.state) {
        return glock;
    }
    let wants = with_want(glock.wants, state, true);
    Glock { wants, ..glock }
}

pub fn unwanted(glock: Glock, state: State) -> Glock
    ensures { result ≡ unwanted state glock }
{
    let wants = with_want(glock.wants, state, false);
    Glock { wants, ..glock }
}

pub fn granted(glock: Glock, state: State) -> Glock
    ensures { result ≡ granted state glock }
{
    let wants = unserved(state, glock.wants);
    Glock {
        state,
        wants,
        was_called: false,
        uncalled: None,
        touched: 0,
        ..glock
    }
}

pub fn pinned(glock: Glock) -> Glock
    ensures { result ≡ pinned glock }
{
    let pins = glock.pins.saturating_add(1);
    Glock { pins, ..glock }
}

pub fn unpinned(glock: Glock) -> Glock
    ensures { result ≡ unpinned glock }
{
    let pins = glock.pins.saturating_sub(1);
    Glock { pins, ..glock }
}

// The strongest state that is no stronger than either.
fn common(a: State, b: State) -> State
    ensures { result ≡ common a b }
{
    if is_at_most(b, a) {
        b
    } else if is_at_most(a, b) {
        a
    } else {
        State::Un
    }
}

pub fn called_back(glock: Glock, keep: State) -> Glock
    ensures { result ≡ called_back keep glock }
{
    let allowed = common(glock.called.unwrap_or(glock.state), keep);
    if is_at_most(glock.state, allowed) {
        return glock;
    }
    let called = Some(allowed);
    Glock {
        called,
        was_called: true,
        ..glock
    }
}

fn still_called(called: Option<State>, to: State) -> Option<State>
    ensures { result ≡ still_called to called }
{
    match called {
        Some(keep) if !is_at_most(to, keep) => Some(common(keep, to)),
        _ => None,
    }
}

pub fn lowered(glock: Glock, to: State) -> Glock
    ensures { result ≡ lowered to glock }
{
    let called = still_called(glock.called, to);
    let uncalled = if glock.was_called {
        None
    } else {
        Some(glock.state)
    };
    Glock {
        state: to,
        called,
        uncalled,
        ..glock
    }
}

pub fn touched(glock: Glock, number: u64) -> Glock
    ensures { result ≡ touched number glock }
{
    let touched = number.max(glock.touched);
    Glock { touched, ..glock }
}
