//! The table of a hashed directory as a file that grows: laws, and nothing else.
#![tactic(auto)]

mod laws;

pub use laws::tables_are_files;
pub use table_growth::{doubling_need, height_for, table_blocks, tree_blocks, write_range};
pub use tree_tables::{IN_TABLE, TreeTable, damaged, pointers_of};
