//! What a disk image stands for: the owner of every block, what each inode says, the file tree that reads from the
//! root, which block breaks which rule, and when an image is in the profile. Definitions, and their laws.
#![tactic(auto)]

mod laws;

pub use laws::{
    blocks_have_one_owner, broken_blocks_are_reached, clean_images_stay, holdings_are_owned,
    images_have_one_replay, images_stand_for_one_tree, journals_read_alike,
    owners_claim_their_blocks, records_have_no_order, replayed_images_stand_for_one_tree,
    replays_keep_system_files, what_stands_breaks_nothing,
};
