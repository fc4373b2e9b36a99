//! A disk that several nodes share: blocks, writes in flight, barriers and fences.
#![tactic(auto)]

mod disk;
mod file;
mod flights;
mod memory;
mod nodes;
mod operations;
mod outcomes;
mod places;
mod reads;

pub use disk::{DiskError, Settle, SharedDisk};
pub use file::{FileDisk, OpenError};
pub use memory::MemDisk;
pub use outcomes::Outcome;
pub use reads::read_block;
