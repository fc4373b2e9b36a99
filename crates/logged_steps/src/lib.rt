//! One node with its log on a disk, step by step: what each step does, and laws of runs of such steps. The functions do nothing: their contracts are the laws.
#![tactic(auto)]

ghost use Rattle.logged_steps.specs.Laws.{FailedWritesKeep, FrontsArePassed, HeadsAreTold, RunsBegin, StepsAreTold, StepsGoOn, StepsKeep};

pub use call_blocks::what_remains_of_it;
use call_blocks::{its_disk_may_change_alike, what_one_node_writes_a_replay_may_change};
use disk_items::items_go_on;
use lone_ends::{
    a_logged_node_begins, its_barriers_settle, its_blocks_are_written, its_calls_are_logged,
    its_flushes_begin, its_flushes_land, its_headers_are_written, its_live_blocks_go_home,
    its_reads_are_logged,
};
pub use lone_ends::{
    clean_blocks_are_last, fences_leave_what_remains, it_has_ended, what_remains_at_its_end,
};

/// A law: on a disk at rest, behind items without a call, the node is one alone on an image with its log, which is empty.
pub fn runs_begin()
    ensures { RunsBegin }
{
    a_logged_node_begins();
    its_disk_may_change_alike();
}

/// A law: whatever steps the node makes, it stays one alone on an image with its log, whose history is that of the items.
pub fn steps_keep()
    ensures { StepsKeep }
{
    its_calls_are_logged();
    its_reads_are_logged();
    its_flushes_begin();
    its_blocks_are_written();
    its_headers_are_written();
    its_barriers_settle();
    its_flushes_land();
    its_live_blocks_go_home();
    what_one_node_writes_a_replay_may_change();
    its_disk_may_change_alike();
}

/// A law: so it does where a write failed that may be in flight without an item, with the items that there were.
pub fn failed_writes_keep()
    ensures { FailedWritesKeep }
{
    steps_keep();
}

/// A law: the headers of the journal are those that the items tell, the last of them the log's head, with the last call in the journal.
pub fn heads_are_told()
    ensures { HeadsAreTold }
{}

/// A law: the operations on the disk are those that the items tell, in order; and the run came by each front of the items, on the disk that the operations up to there made.
pub fn steps_are_told()
    ensures told { StepsAreTold }
    ensures fronts { FrontsArePassed }
    ensures on { StepsGoOn }
{
    items_go_on();
}
