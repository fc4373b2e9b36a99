//! Makes the images of the cluster: one layout, block by block.
#![tactic(auto)]

mod blocks;
mod bytes;
mod device;
mod directory;
mod files;
mod groups;
mod hashing;
mod inodes;
mod laws;
mod making;
mod options;
mod order;
mod plan;
mod pointers;

pub use laws::{journals_are_inserted, new_images_stand};
pub use making::make;
pub use options::{MakeFault, MakeOptions, Opt};
pub use plan::Plan;
