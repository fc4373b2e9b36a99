//! Reading a whole image in memory: `read_tree` gives the tree that it stands for, or a rule that a block breaks.
//! Readers of parts of an image use its tables too: of what claims each block, and of a hashed directory's pointers.
#![tactic(auto)]

mod assembly;
mod blocks;
mod content;
mod directory;
mod groups;
mod hash_table;
mod hashed;
mod image;
mod inode;
mod journals;
mod owners;
mod tree;
mod visiting;
mod walk;

pub use hash_table::{HashTable, pointers_of};
pub use image::{Image, ImageFault};
pub use owners::{Claim, Owners};
pub use tree::read_tree;
