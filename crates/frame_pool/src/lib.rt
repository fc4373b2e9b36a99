//! Frames: one region of memory, taken once, of which equal parts are handed out and given back.
#![tactic(auto)]

mod cells;
mod pool;
mod region;

// A crate can name a pool in a contract only if the types of its fields are exported.
#[doc(hidden)]
pub use cells::{Base, Cells, Deed};
pub use pool::{Frame, Pool};
#[doc(hidden)]
pub use region::Region;
