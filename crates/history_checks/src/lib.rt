//! The plain check of a history: which calls are alive, and whether each front of it is legal.
#![tactic(auto)]

mod answering;
mod checking;
mod living;
mod replies;

pub use checking::{Verdict, is_legal};
pub use living::alive;
