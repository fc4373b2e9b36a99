//! Blocks that a node keeps in memory, each under the glock that covers it.
#![tactic(auto)]

mod bytes;
mod cache;
mod laws;
mod shelves;

pub use cache::{Cache, Cell};
pub use laws::{cells_leave_with_their_lock, last_put_is_shown};
