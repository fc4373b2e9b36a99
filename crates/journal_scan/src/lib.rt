//! Journals as they are read: the head, and the transactions from the tail to it.
#![tactic(auto)]

mod chunks;
mod entries;
mod fault;
mod heads;
mod image;
mod numbers;
mod parts;
mod scanning;

pub use entries::{find_number, live_blocks_have_numbers};
pub use fault::ScanFault;
pub use heads::{HeadSearch, find_head};
pub use image::JournalImage;
pub use scanning::{Sequenced, transactions};
