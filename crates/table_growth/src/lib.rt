//! What becomes of a hashed directory's table as it is set and doubled, and how many blocks a doubling takes.
#![tactic(auto)]

mod need;

pub use file_growth::{height_for, write_range};
pub use need::{doubling_need, table_blocks, tree_blocks};
