//! What a replay does with a journal on a disk.
#![tactic(auto)]

mod faults;
mod laws;
mod numbers;
mod planning;

pub use faults::PlanFault;
pub use laws::live_blocks_are_whole;
pub use numbers::read_number;
pub use peer_replay::Plan;
pub use planning::read_plan;
