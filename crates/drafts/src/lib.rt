//! What a call makes of a view: the blocks that it writes and frees, and the view with these on top.
#![tactic(auto)]

mod attempt;
mod change;
mod draft;
mod fate;

pub use attempt::Attempt;
pub use change::{Change, Stamp, Transaction, Written};
pub use draft::Draft;
pub use fate::Fate;
