//! How files of any height grow, fill their holes and are cut: laws of one block each, on holdings alone. The functions do
//! nothing: their contracts are the laws.
#![tactic(auto)]

mod growing;
mod laws;

pub use growing::{counts_are_told, ends_are_clear, heights_reach, needs_stay};
pub use laws::{
    files_are_inodes, fills_keep_files, frees_keep_files, heights_change, nothing_is_lacking,
    numbers_stand_behind, places_are_parts, puts_overwrite, sizes_resize, writes_join,
};
