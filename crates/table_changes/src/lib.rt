//! Tables of hashed directories that change: what such a table is, and as it is kept in the directory's own blocks.
#![tactic(auto)]

mod changing;
mod doubling;
mod finding;
mod growing;
mod numbers;
mod putting;
mod reading;
mod setting;
mod table_mut;

pub use changing::PointerTableMut;
pub use table_files::{doubling_need, height_for, table_blocks};
