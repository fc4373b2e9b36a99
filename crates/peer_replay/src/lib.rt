//! What a replay does with a journal: which blocks go home, and which header it leaves.
#![tactic(auto)]

mod homes;
mod planned;
mod planning;

pub use planned::Plan;
pub use planning::plan;
