//! A node's log in memory: changes that aren't in its journal yet, the flush that is being written, and blocks that are live in the journal.
#![tactic(auto)]

mod adding;
mod beginning;
mod changes;
mod ending;
mod flushing;
mod homing;
mod journal;
mod kinds;
mod landing;
mod lists;
mod log;
mod places;
mod revokes;
mod settling;
mod tails;
mod telling;

pub use ending::{LastWrite, put_last_header};
pub use journal::Journal;
#[doc(hidden)]
pub use kinds::Stage;
pub use log::Log;
pub use log_values::LogStep;
