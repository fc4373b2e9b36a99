//! The tree of an image in memory with what its journals say in place, whatever its profile.
#![tactic(auto)]

mod marking;
mod plans;
mod tree;
mod unread;

pub use tree::read_replayed_image;
pub use unread::Unread;
