//! What a run leaves. The functions do nothing: their contracts are the laws.
ghost use Rattle.lone_runs.specs.Telling.{MountedJournalsServe, RunsSeeTheirDamage, RunsTellTheirReplays};
ghost use Rattle.lone_runs.specs.Laws.{NothingIsWritten, RunsAreLegal, RunsAreTold, RunsEnd, RunsMeetNoDamage, RunsRest, RunsStand};

use image_recovery::crashed_replays_are_as_failed;
use log_layout::places_say_all;
use logged_scripts::{
    a_run_begins, calls_are_loggable, calls_have_room, heads_are_told, its_calls_are_counted,
    nodes_work_on_an_image, replays_leave_a_disk_at_rest, runs_are_told as whole_runs_are_told,
    runs_end as logged_runs_end, runs_stand_at_each_front, starts_stand_at_each_front, steps_keep,
    whole_runs_stand,
};
use mounted_views::mounted_journals_are_placed;

/// A law: behind each front of a run's items, those of its start, its crash, the fence and the loss among them, each outcome of the disk there stands, its journals replayed, for the tree of what remains; the
/// history is legal, keeps what was synced, and each loss in it is right.
pub fn runs_stand()
    ensures { RunsStand }
{
    replays_leave_a_disk_at_rest();
    whole_runs_stand();
    whole_runs_are_told();
    runs_stand_at_each_front();
    starts_stand_at_each_front();
    crashed_replays_are_as_failed();
    places_say_all();
}

/// A law: on every disk, the list of operations gained what the items tell, or, where no node stopped, one write besides that failed.
pub fn runs_are_told()
    ensures { RunsAreTold }
{}

/// A law: where no node stopped what was answered is legal.
pub fn runs_are_legal()
    ensures { RunsAreLegal }
{
    replays_leave_a_disk_at_rest();
    its_calls_are_counted();
    a_run_begins();
    crashed_replays_are_as_failed();
}

/// A law: a run that came to its end without a stop leaves the image of all that was answered, each journal clean, on a disk at rest.
pub fn runs_end()
    ensures { RunsEnd }
{
    replays_leave_a_disk_at_rest();
    a_run_begins();
    steps_keep();
    logged_runs_end();
}

/// A law: on every disk, a run that came to its end without a stop leaves it at rest.
pub fn runs_rest()
    ensures { RunsRest }
{}

/// A law: on an image that stands for a tree a run ends before its script only for want of memory, or where the disk fails.
pub fn runs_meet_no_damage()
    ensures { RunsMeetNoDamage }
{
    replays_leave_a_disk_at_rest();
    a_run_begins();
    steps_keep();
    heads_are_told();
    nodes_work_on_an_image();
    calls_are_loggable();
    calls_have_room();
    mounted_journals_are_placed();
    places_say_all();
}

/// A law: where no answered call changed anything, and no node stopped, nothing is written behind the replays.
pub fn nothing_is_written()
    ensures { NothingIsWritten }
{}

/// A law: on every disk, a run that came to its end without a stop told the replays of its journals first, and no commit but before its clean header.
pub fn runs_tell_their_replays()
    ensures { RunsTellTheirReplays }
{}

/// A law: on every disk, what a run tells as damage is so as what the node has shows it.
pub fn runs_see_their_damage()
    ensures { RunsSeeTheirDamage }
{}

/// A law: node 1 may have the first journal of an image that was mounted, right or wrong.
pub fn mounted_journals_serve()
    ensures { MountedJournalsServe }
{
    mounted_journals_are_placed();
    places_say_all();
}
