//! The change of a file's content over a view: bytes that are written to it, and a file that is cut, with the blocks that this takes or frees.
#![tactic(auto)]

mod cuts;
mod groups;
mod inside;
mod laws;
mod times;
mod writes;

pub use cuts::{cut_file, free_and_finish};
pub use file_cuts::need_write;
pub use group_locks::lacked_group;
pub use laws::{cuts_free_exactly, cuts_make_files, nothing_is_wrong, writes_make_files};
pub use writes::write_file;
