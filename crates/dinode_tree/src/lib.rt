//! The content of inodes, as a function of a view.
#![tactic(auto)]

mod below;
mod blocks;
mod content;
mod inode;
mod laws;
mod links;
mod locating;
mod looks;
mod numbers;
mod reading;
mod ways;

pub use below::{PointedBlock, blocks_below};
pub use laws::{
    all_blocks_are_shown, every_view_shows_an_inode, sound_inodes_are_shown,
    sound_inodes_are_whole, sound_inodes_break_nothing, sound_pointers_are_parts,
};
pub use locating::{Located, locate, read_dinode};
pub use reading::{place, read_range};
