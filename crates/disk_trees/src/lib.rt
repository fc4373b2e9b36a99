//! Reading the tree of files and directories that a disk's image stands for, its journals replayed.
#![tactic(auto)]

mod blocks;
mod faults;
mod mounted;
mod replayed;

pub use faults::TreeFault;
pub use image_replays::clean_mounts_stay;
pub use mounted::read_mounted_tree;
pub use replayed::read_replayed_tree;
