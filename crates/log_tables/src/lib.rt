//! What a node's log keeps of blocks: versions that aren't in its journal yet, and entries that are live in it, with the bytes in frames that were taken once.
#![tactic(auto)]

mod cells;
mod frames;
mod reads;
mod tables;

#[doc(hidden)]
pub use cells::{Cell, Hold, LiveCell};
pub use reads::Whereabouts;
pub use tables::{LiveTest, Tables};
