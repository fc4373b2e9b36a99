//! Walks along a path of a call, over a view, with the glock of each inode.
#![tactic(auto)]

mod answers;
mod walk;

pub use answers::nothing;
pub use directories::{counted_leaves, names};
pub use walk::{Place, Walk, walk_along};
