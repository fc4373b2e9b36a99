//! The call that moves a name, over a view: `rename`.
#![tactic(auto)]

mod answering;
mod carrying;
mod checks;
mod firsts;
mod looking;
mod ways;

pub use answering::attempt;
pub use carrying::carry;
pub use checks::{can_move, freed_blocks};
