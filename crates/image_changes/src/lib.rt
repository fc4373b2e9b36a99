//! What a change of few blocks does to a whole image that stands for a tree. The functions do nothing: their contracts are the laws.
#![tactic(auto)]

mod contents;
mod does;
mod instances;
mod paths;
mod pieces;

pub use contents::{
    an_image_has_one_layout, content_of_files_does_not_matter, free_blocks_do_not_matter,
    places_of_journals_do_not_matter,
};
pub use does::{
    a_change_of_nothing_does, a_draft_is_finished, answers_touch_their_locks,
    drafts_show_what_they_put, drafts_stay_inside, one_of_four_changes_does,
};
pub use instances::{
    a_file_changes, a_name_is_added, a_name_is_moved, a_name_is_removed, a_small_change_stays_laid,
    inodes_have_their_own_locks, other_blocks_stay, untouched_inodes_stay,
};
pub use paths::{
    a_file_is_rewritten, a_name_is_gone, a_name_leads_to_a_tree, paths_end_with_a_name,
    unreached_inodes_do_not_matter, walks_end_at_absent_names, walks_find_inodes,
};
pub use pieces::{
    a_directory_gets_another_parent, a_directory_looks_at_what_it_names, a_generation_is_no_state,
    a_state_is_put, blocks_are_freed, blocks_are_set, records_go_and_come,
    states_are_those_of_owners, untouched_groups_stay,
};
