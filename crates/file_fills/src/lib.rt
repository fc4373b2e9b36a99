//! Bytes that are written into a file in blocks that is high enough: how many blocks that takes, and the writing of them.
#![tactic(auto)]

mod filling;
mod looking;
mod needing;
mod numbers;

pub use file_walks::span;
pub use filling::{fill, way_to, write_pieces};
pub use looking::look_at;
pub use needing::{goes_along, need_write};
pub use numbers::{has_room, height_for};
