//! Whole runs of one node, from a mounted image to what they leave: laws. The functions do nothing: their contracts are the laws.
#![tactic(auto)]

ghost use Rattle.whole_runs.specs.Starts.{FailedFrontsStand, FailedReplaysAreTold, NothingStands, ReplayFrontsStand};
ghost use Rattle.whole_runs.specs.Resting.{ReplayedIsAtRest};
ghost use Rattle.whole_runs.specs.Wholes.{RunsAreTold, WholeRunsStand};
ghost use Rattle.whole_runs.specs.Fronts.{FailedStartsStand, RunsStandAtEachFront, StartsStand};

use cut_replays::{
    a_replay_leaves_its_image, failed_replays_stand, stopped_replays_stand,
    what_a_replay_leaves_stands,
};
use image_mount::mounted_groups_are_as_seen;
use journal_outcomes::fences_leave_outcomes;
use log_layout::headers_read_back;
use logged_runs::{
    ends_are_told, its_heads_are_there, steps_are_told, stops_are_told, what_remains_is_told,
};
pub use logged_runs::{a_run_begins, heads_are_told, its_calls_are_counted, runs_end, steps_keep};

/// A law: behind each front of a run's start, before it and within its replays, whatever becomes of what is in flight stands as the items tell, also behind a stop, a fence and the loss with it.
pub fn fronts_of_starts_stand()
    ensures nothing { NothingStands }
    ensures replays { ReplayFrontsStand }
    ensures failed { FailedFrontsStand }
    ensures left { FailedReplaysAreTold }
{
    failed_replays_stand();
    stopped_replays_stand();
    fences_leave_outcomes();
}

/// A law: once all journals of a mounted image were replayed its disk is at rest, for a node that has what was mounted, the first journal, and of no block yet.
pub fn replays_leave_a_disk_at_rest()
    ensures { ReplayedIsAtRest }
{
    a_replay_leaves_its_image();
    what_a_replay_leaves_stands();
    mounted_groups_are_as_seen();
}

/// A law: so it is throughout a run, behind each front of its items, on the disk that it left, behind a stop, a fence and a right loss, by the heads of the disks that its operations made; and its items
/// tell what was done, but for one write at most.
pub fn whole_runs_stand()
    ensures { WholeRunsStand }
{
    headers_read_back();
    failed_replays_stand();
    stopped_replays_stand();
    fences_leave_outcomes();
    steps_are_told();
    a_run_begins();
    what_remains_is_told();
    ends_are_told();
    stops_are_told();
    its_heads_are_there();
}

/// A law: a run stands so behind each front of all its items, with a stop behind its own, the fence and a right loss; its history is legal, keeps what was synced, and each loss in it is right.
pub fn runs_stand_at_each_front()
    ensures { RunsStandAtEachFront }
{
    its_calls_are_counted();
    steps_are_told();
    a_run_begins();
}

/// A law: so does a start that was cut short in the replay of a journal, by the disk or by a crash, and one that came behind the replay of some journals, or of all.
pub fn starts_stand_at_each_front()
    ensures some { StartsStand }
    ensures failed { FailedStartsStand }
{
    failed_replays_stand();
    stopped_replays_stand();
    fences_leave_outcomes();
}

/// A law: the list of operations of a run gained what its items tell, or one write besides; also as far as it is told.
pub fn runs_are_told()
    ensures { RunsAreTold }
{
    steps_are_told();
}
