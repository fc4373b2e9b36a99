//! Glocks: their names, their states, and who waits for them. What a node sees under them while it works on a call.
#![tactic(auto)]

ghost use Rattle.std.specs.Prelude.{◌≡◌};
ghost use Rattle.glock_names.specs.Names.{name_bytes};
ghost use Rattle.glock_names.specs.States.{mode_for, state_in, IsStrongestState};

mod order;
mod steps;
mod views;

use dlm_modes::Mode;
pub use order::{is_at_most, is_below, may_cache};
pub use steps::{CallFault, Entry, Missing, Step};
pub use views::{Group, View, block_of};

/// The state in which a node holds a glock: unlocked, shared, deferred or exclusive.
#[derive(Clone, Copy, Debug, PartialEq, Eq)]
pub enum State {
    Un,
    Sh,
    Df,
    Ex,
}

/// A glock's name: its kind, which is 1 for the whole file system, 2 for an inode and 3 for a resource
/// group, and a number, which is the address of the inode's or the group's block.
#[derive(Clone, Copy, Debug, PartialEq, Eq, Hash)]
pub struct LockName {
    pub kind: u8,
    pub number: u64,
}

/// A client, by its place in the script from 0, whose line waits for a glock in a state. Bit i of `holders` is set where node
/// i stands in its way.
#[derive(Clone, Copy, Debug, PartialEq, Eq)]
pub struct Waits {
    pub client: u32,
    pub lock: LockName,
    pub state: State,
    pub holders: u16,
}

impl LockName {
    /// The name as nine bytes: the kind, and then the number, the highest byte first.
    pub fn bytes(&self) -> [u8; 9]
        ensures { result ≡ name_bytes self.now }
    {
        let [a, b, c, d, e, f, g, h] = self.number.to_be_bytes();
        [self.kind, a, b, c, d, e, f, g, h]
    }
}

/// The mode in which the lock manager keeps a glock that a node holds in this state.
pub fn mode_of(state: State) -> Mode
    ensures { result ≡ mode_for state }
{
    match state {
        State::Un => Mode::Nl,
        State::Sh => Mode::Pr,
        State::Df => Mode::Cw,
        State::Ex => Mode::Ex,
    }
}

/// The strongest state that a node may keep of a glock where it may keep this mode, as a callback tells it. It is shared where
/// the mode is `Pw`, which covers shared and deferred.
pub fn state_under(mode: Mode) -> State
    ensures { result ≡ state_in mode }
{
    match mode {
        Mode::Nl | Mode::Cr => State::Un,
        Mode::Cw => State::Df,
        Mode::Pr | Mode::Pw => State::Sh,
        Mode::Ex => State::Ex,
    }
}

/// A law: the state under a mode is covered by it, no state above it is, it goes with each whom the mode goes with, and the
/// mode of a state has that state under it.
pub fn the_state_under_a_mode_is_the_strongest()
    ensures { IsStrongestState }
{}
