//! Mounting: what an image has to be, and where its groups and journals lie.
#![tactic(auto)]

mod fault;
mod fetching;
mod field;
mod formats;
mod groups;
mod inodes;
mod jindex;
mod journals;
mod kept_blocks;
mod laws;
mod leaf;
mod leaves;
mod listing;
mod master;
mod mounted;
mod mounting;
mod sifting;
mod stop;
mod system;
mod walking;

pub use fault::MountFault;
pub use field::Field;
pub use laws::{mounted_groups_are_as_seen, mounted_images_stand_as_mounted};
pub use mounted::{JournalMap, Mounted};
pub use mounting::mount_image;
