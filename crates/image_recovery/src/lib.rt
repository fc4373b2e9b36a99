//! The journals of a mounted image, replayed one after another.
#![tactic(auto)]

mod laws;
mod read_back;
mod recovering;

pub use journal_replays::{Plan, ReplayFault};
pub use laws::{
    a_replay_leaves_its_image, crashed_replays_are_as_failed, heads_are_left_by_their_plans,
    planned_replays_can_be_made, replayed_blocks_are_left, replayed_journals_have_ended,
    replays_tell_how_much_goes_home, what_a_replay_leaves_is_of_the_profile,
    what_a_replay_leaves_mounts, what_a_replay_leaves_stands,
    what_was_mounted_is_mounted_of_what_is_left, writable_plans_can_be_replayed,
};
pub use recovering::replay_journals;
