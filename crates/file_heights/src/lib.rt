//! A file that gets higher, and the size and the end of one in blocks.
#![tactic(auto)]

mod ends;
mod heights;
mod sizes;

pub use ends::clear_last;
pub use file_fills::{has_room, height_for, need_write, span, write_pieces};
pub use heights::grow;
pub use sizes::set_size_and_count;
