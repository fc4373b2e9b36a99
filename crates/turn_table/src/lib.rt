//! Values that threads hand one another by turns, under a rule of the caller's.
#![tactic(auto)]

mod hold;
mod moves;
mod plays;
mod rule;
mod seats;
mod shelf;
mod standing;
mod steps;
mod table;

pub use hold::Held;
pub use rule::TurnRule;
pub use seats::Seat;
pub use table::Turns;
