//! Whole blocks that a node brings to a disk at rest, in turns of writes with a barrier behind each.
#![tactic(auto)]

mod crashes;
mod faults;
mod turns;

pub use faults::TurnFault;
pub use turns::{first_turn, write_in_turns};
