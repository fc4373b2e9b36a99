//! Tables of pointers to the leaves of hashed directories: what a table is, whatever keeps it.
#![tactic(auto)]

mod pointer;
mod table;

pub use pointer::Pointer;
pub use table::PointerTable;
