//! The table of a hashed directory as it is kept in the directory's own blocks.
#![tactic(auto)]

mod numbers;
mod tree_table;

pub use hash_dirs as hashed;
pub use numbers::number_at;
pub use tree_table::{IN_TABLE, TreeTable, damaged, pointers_of};
