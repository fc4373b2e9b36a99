//! Files that are cut: the blocks past the new end are freed.
#![tactic(auto)]

mod cutting;
mod freeing;
mod looking;
mod places;

pub use cutting::cut;
pub use file_fills::need_write;
pub use file_growth::write_range;
