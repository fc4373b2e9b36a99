//! What a call's draft shows so that it makes one of the four changes of an image: laws only. The functions do nothing: their
//! contracts are the laws.
#![tactic(auto)]

mod adding;
mod groups;
mod removing;
mod resizing;
mod rewriting;
mod shown;

pub use adding::drafts_add_names;
pub use groups::groups_are_put;
pub use removing::drafts_remove_names;
pub use resizing::{drafts_resize_files, free_blocks_are_new, groups_say_what_is_taken};
pub use rewriting::drafts_change_files;
pub use shown::{drafts_show_images, inodes_have_these_blocks, views_have_listed_groups};
