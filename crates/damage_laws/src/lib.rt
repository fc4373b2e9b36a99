//! What a call tells of a view as damage is a broken block of every image that the view may have been read from: laws only. The
//! functions do nothing: their contracts are the laws.
#![tactic(auto)]

mod telling;

pub use telling::{
    calls_tell_broken_blocks, makings_tell_broken_blocks, moves_tell_broken_blocks,
    needs_out_of_the_device_tell_broken_blocks, paths_tell_broken_blocks,
    removals_tell_broken_blocks, views_may_be_read_from_mounted_images,
    views_may_be_read_from_standing_images, writes_tell_broken_blocks,
};
