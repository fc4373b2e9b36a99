//! Linear directories, whose records follow the dinode in its block, over views and drafts.
#![tactic(auto)]

mod area;
mod beginning;
mod laws;
mod listing;
mod looking;
mod putting;
mod removing;

pub use beginning::begin;
pub use laws::{drafts_lie_over_one_another, linear_directories_break_nothing};
pub use listing::names;
pub use looking::look;
pub use putting::{head_for, insert, lock_of};
pub use removing::remove;
