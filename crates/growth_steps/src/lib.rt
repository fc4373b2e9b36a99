//! One step of a file that grows or is cut, in a draft: a hole is filled, a block is freed, bytes of content are put, the size is
//! set, the height rises, stuffed content moves to a block, or is put where it stands, the end is cleared, the blocks are counted.
#![tactic(auto)]

mod contents;
mod ends;
mod heights;
mod pointers;
mod sizes;
mod stuffed;

pub use contents::put_content;
pub use ends::{clear_end, count_blocks};
pub use heights::{move_content, raise_height, set_height};
pub use pointers::{Pointer, fill_hole, free_block};
pub use sizes::set_size;
pub use stuffed::{put_stuffed, resize_stuffed};
