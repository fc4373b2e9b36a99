//! The locks of the resource groups that have given blocks, over a view.
#![tactic(auto)]

mod groups;
mod laws;

pub use groups::{lacked_group, lacked_of};
pub use laws::{groups_have_places, groups_take_their_locks, standing_groups_are_sound};
