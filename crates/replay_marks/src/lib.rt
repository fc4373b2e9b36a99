//! What a replay may write: a mark for each block of the device.
#![tactic(auto)]

mod marks;

pub use marks::{Hindrance, Mark, Marks};
