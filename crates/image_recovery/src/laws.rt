// What a plan has to be.
ghost use Rattle.image_recovery.specs.Counts.{PlansPutWhatIsLive, ReplaysTellTheirCount};
ghost use Rattle.image_recovery.specs.Ended.{ReplayedHaveEnded, ReplayedIsLeft};
ghost use Rattle.image_recovery.specs.Laws.{CrashedAreAsFailed, PlannedCanBeReplayed, WritableCanBeReplayed};
ghost use Rattle.image_recovery.specs.Left.{HeadsAreLeft, LeftIsMounted, LeftIsOfProfile, LeftMounts, LeftStands, LeftStandsBy, ReplayLeaves};

use image_changes::{an_image_has_one_layout, places_of_journals_do_not_matter};
use log_layout::headers_read_back;

/// A law: a plan of which all that goes home can be written, and whose header has a place in a block of the disk, can be carried out.
pub fn writable_plans_can_be_replayed()
    ensures { WritableCanBeReplayed }
{}

/// A law: so can the plans of all journals of an image, of which all that goes home can be written, and whose headers have places.
pub fn planned_replays_can_be_made()
    ensures { PlannedCanBeReplayed }
{}

/// A law: once all journals of a disk are replayed by their plans, each of them is clean, and nothing is live in it.
pub fn replayed_journals_have_ended()
    ensures { ReplayedHaveEnded }
{}

/// A law: each block but those of the headers has then what the plans put home, or what it had.
pub fn replayed_blocks_are_left()
    ensures { ReplayedIsLeft }
{}

/// A law: then the disk has the image that a replay leaves: the replayed one but for places of the journals, each of which is clean.
pub fn a_replay_leaves_its_image()
    ensures { ReplayLeaves }
{
    headers_read_back();
}

/// A law: what was mounted, with the heads that a replay by the plans leaves, has the heads that the journals have then.
pub fn heads_are_left_by_their_plans()
    ensures { HeadsAreLeft }
{
    headers_read_back();
}

/// A law: the image that a replay leaves stands for the tree for which the image stood with its journals replayed.
pub fn what_a_replay_leaves_stands()
    ensures stands { LeftStands }
    ensures by { LeftStandsBy }
{
    places_of_journals_do_not_matter();
}

/// A law: it is of the profile where the replayed image stands and is, and no head has the last sequence that is.
pub fn what_a_replay_leaves_is_of_the_profile()
    ensures { LeftIsOfProfile }
{
    places_of_journals_do_not_matter();
    an_image_has_one_layout();
}

/// A law: what was mounted, with the heads that are left, is mounted of it where the image stands, and no head had the last sequence that is.
pub fn what_was_mounted_is_mounted_of_what_is_left()
    ensures { LeftIsMounted }
{}

/// A law: what is mounted of it then is what was mounted before, with each journal clean.
pub fn what_a_replay_leaves_mounts()
    ensures { LeftMounts }
{
    places_of_journals_do_not_matter();
}

/// A law: the blocks that the plan of a journal puts home are those that are live in it, and a replay's items tell one write more.
pub fn replays_tell_how_much_goes_home()
    ensures live { PlansPutWhatIsLive }
    ensures told { ReplaysTellTheirCount }
{}

/// A law: a replay in which the node crashed is as one in which the disk failed next.
pub fn crashed_replays_are_as_failed()
    ensures { CrashedAreAsFailed }
{}
