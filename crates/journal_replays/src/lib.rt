//! The replay of one journal: what its plan puts home, and its clean header, are written and told.
#![tactic(auto)]

mod bringing;
mod faults;
mod header;
mod items;
mod replaying;

pub use faults::ReplayFault;
pub use peer_replay::Plan;
pub use replaying::replay_journal;
