//! Journals on a disk, read into memory.
#![tactic(auto)]

mod blocks;
mod faults;
mod laws;

pub use blocks::read_journal;
pub use faults::ReadFault;
pub use laws::rings_read_are_whole;
