//! Hashed directories over views and drafts: a table of pointers leads to leaves of records, each name to one of them by its hash.
#![tactic(auto)]

mod chains;
mod finding;
mod gathering;
mod laws;
mod listing;
mod looking;
mod removing;

pub use chains::{IN_LEAF, LeafAt, damaged, leaf_at};
pub use finding::index_of;
pub use gathering::{all_leaves, count_records, have_records};
pub use laws::{chains_tell_names, leaves_have_records};
pub use linear_dirs::lock_of;
pub use listing::names;
pub use looking::look;
pub use pointer_tables::{Pointer, PointerTable};
pub use removing::remove;
