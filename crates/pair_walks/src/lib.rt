//! Walks along two paths of a call at once, over a view, with the glock of each inode in the order of both.
#![tactic(auto)]

mod next;
mod turns;
mod walk;

pub use directories::{is_hashed, look};
pub use path_walks::{Place, nothing};
pub use walk::{End, PairWalk, walk_pair};
