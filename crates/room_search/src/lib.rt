//! Free blocks for a call, found in groups under their locks.
#![tactic(auto)]

mod collecting;
mod counting;
mod search;

pub use search::{Locked, Taken, find_first, find_room};
