//! Bytes that are written to a file, however high it has to get for them.
#![tactic(auto)]

mod stretching;
mod writing;

pub use file_heights::{height_for, span};
pub use writing::write_range;
