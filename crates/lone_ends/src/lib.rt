//! How a node that runs alone ends, and what a fence leaves of it. The functions do nothing: their contracts are the laws.
#![tactic(auto)]

ghost use Rattle.lone_ends.specs.Ends.{CleanBlocksAreLast, CleanNodesHaveEnded, ItsEndsLand, ItsEndsStand};
ghost use Rattle.lone_ends.specs.Fences.{FencesLeaveEnds, FencesLeaveWhatRemains, ImagesAtRestStay};

use journal_outcomes::fences_leave_outcomes;
use lone_logs::{outcomes_are_the_machines, what_is_left_of_one_node_stands, what_remains_of_it};
pub use lone_logs::{
    a_logged_node_begins, its_barriers_settle, its_blocks_are_written, its_calls_are_logged,
    its_flushes_begin, its_flushes_land, its_headers_are_written, its_live_blocks_go_home,
    its_reads_are_logged,
};

/// A law: the block of the clean header that ends a replay is one that ends a node.
pub fn clean_blocks_are_last()
    ensures { CleanBlocksAreLast }
{}

/// A law: while the last header of a node is in flight, each outcome without a false header stands, its journals replayed, for the tree of what remains: by the
/// old head, or by the clean one, which has all calls.
pub fn what_remains_at_its_end()
    ensures { ItsEndsStand }
{
    outcomes_are_the_machines();
    what_is_left_of_one_node_stands();
}

/// A law: once it has landed the image stands, as it lies, for the tree of all that the node answered, each journal clean; so does that of a node that never wrote
/// to its journal.
pub fn it_has_ended()
    ensures landed { ItsEndsLand }
    ensures clean { CleanNodesHaveEnded }
{
    outcomes_are_the_machines();
}

/// A law: the disk behind the node's fence has such an outcome, which then stays.
pub fn fences_leave_what_remains()
    ensures running { FencesLeaveWhatRemains }
    ensures ending { FencesLeaveEnds }
    ensures rest { ImagesAtRestStay }
{
    fences_leave_outcomes();
    what_remains_of_it();
    what_remains_at_its_end();
}
