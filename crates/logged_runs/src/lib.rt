//! The runs of one node with its log, told by their items: what remains of one at each front, and what a stop, a fence and a loss leave of it. The functions do
//! nothing: their contracts are the laws.
#![tactic(auto)]

ghost use Rattle.logged_runs.specs.Laws.{CallsAreCounted, CleanRunsEnd, EndsAreTold, FencesAreTold, FrontsStand, HeadsAreThere, LossesGoByHeads, PrefixesStand, RunsBeginSo, RunsEnd, StopsAreTold, WhatRemainsIsTold};
ghost use Rattle.logged_runs.specs.Mounted.{MountedIsAtRest};

use image_mount::{mounted_groups_are_as_seen, mounted_images_stand_as_mounted};
use journal_outcomes::fences_leave_outcomes;
pub use logged_steps::{heads_are_told, steps_are_told, steps_keep};
use logged_steps::{
    failed_writes_keep, fences_leave_what_remains, it_has_ended, runs_begin,
    what_remains_at_its_end, what_remains_of_it,
};

/// A law: a mounted image that stands for a tree, each journal clean, is at rest on its disk, for a node that has what mounting told and the first journal.
pub fn mounted_images_are_at_rest()
    ensures { MountedIsAtRest }
{
    mounted_groups_are_as_seen();
    mounted_images_stand_as_mounted();
}

/// A law: such a run begins on a disk at rest, whatever was replayed there.
pub fn a_run_begins()
    ensures { RunsBeginSo }
{
    runs_begin();
}

/// A law: the history of a run's items is numbered, has as many calls as the node answered, and is legal.
pub fn its_calls_are_counted()
    ensures { CallsAreCounted }
{
    steps_keep();
    what_remains_of_it();
}

/// A law: behind each front of a run's items, and where a write failed that has no item, each outcome of the disk without a false header stands, its journals replayed,
/// for the tree of what remains of the items by the journal's head; this is legal, and has what was synced.
pub fn what_remains_is_told()
    ensures told { WhatRemainsIsTold }
    ensures fronts { FrontsStand }
    ensures prefixes { PrefixesStand }
{
    steps_keep();
    failed_writes_keep();
    heads_are_told();
    steps_are_told();
    what_remains_of_it();
}

/// A law: so it is while the clean header is in flight with which a run ends, and behind the barrier that brings it to its place.
pub fn ends_are_told()
    ensures { EndsAreTold }
{
    steps_keep();
    failed_writes_keep();
    heads_are_told();
    steps_are_told();
    what_remains_of_it();
    what_remains_at_its_end();
    fences_leave_what_remains();
}

/// A law: wherever the run is, each outcome has an accepted head of the node's journal.
pub fn its_heads_are_there()
    ensures { HeadsAreThere }
{
    steps_keep();
    failed_writes_keep();
    heads_are_told();
    steps_are_told();
    what_remains_of_it();
    what_remains_at_its_end();
    fences_leave_what_remains();
}

/// A law: once that header is in its place the image stands, as it lies, for the tree of all that the items answer, each journal clean; so does that of a node that never
/// wrote to its journal.
pub fn runs_end()
    ensures landed { RunsEnd }
    ensures clean { CleanRunsEnd }
{
    steps_keep();
    it_has_ended();
}

/// A law: so it is behind a crash or a withdraw, and behind the fence, of the disk that it leaves, also with a right loss; and a loss goes by the head that the disks have behind the fence, and by that of the start.
pub fn stops_are_told()
    ensures stops { StopsAreTold }
    ensures fences { FencesAreTold }
    ensures heads { LossesGoByHeads }
{
    steps_keep();
    failed_writes_keep();
    heads_are_told();
    steps_are_told();
    what_remains_of_it();
    what_remains_at_its_end();
    fences_leave_what_remains();
    fences_leave_outcomes();
}
