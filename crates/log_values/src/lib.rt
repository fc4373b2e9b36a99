//! A node's log in memory as a value: changes that aren't in its journal yet, the flush that is being written, and blocks that are live in the journal; what its calls
//! do to it, and what always holds of it. Definitions and laws alone.
#![tactic(auto)]

mod laws;
mod steps;

pub use laws::{
    a_change_keeps, a_flush_keeps, an_empty_log_is_sound, homing_keeps, live_blocks_fit,
    revoking_keeps, settling_keeps, small_changes_fit,
};
pub use steps::LogStep;
