//! Which locks a call takes on its paths, and in which states, before it goes to the groups of free blocks.
#![tactic(auto)]

mod laws;
mod lists;
mod want;

pub use laws::{
    changed_inodes_are_wanted_exclusive, nothing_else_is_wanted_exclusive, parents_come_first,
    wants_lie_on_paths, ways_are_whole, what_stands_elsewhere_stays,
    what_wants_nothing_looks_at_nothing,
};
pub use lists::wants;
pub use want::Want;
