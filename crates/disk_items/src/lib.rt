//! What the items of a trace tell of the operations on a disk.
#![tactic(auto)]

mod laws;
mod room;

pub use laws::items_go_on;
pub use room::put_in_room;
