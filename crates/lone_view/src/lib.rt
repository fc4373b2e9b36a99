//! What one node alone sees that holds every lock exclusive: the blocks that it has read.
#![tactic(auto)]

mod groups;
mod view;

pub use groups::are_groups;
pub use view::LoneView;
