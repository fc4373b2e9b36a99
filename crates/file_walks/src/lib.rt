//! The walk from a file's dinode down to a place of its tree, over a view.
#![tactic(auto)]

mod clear;
mod numbers;
mod walks;

pub use clear::leads_nowhere;
pub use growth_steps::{fill_hole, put_content};
pub use numbers::{begins_before, number_at, place_over, span};
pub use walks::{Stop, count_blocks, find_place};
