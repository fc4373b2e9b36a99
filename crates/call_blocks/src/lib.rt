//! What the calls write, a replay may change. The functions do nothing: their contracts are the laws.
#![tactic(auto)]

ghost use Rattle.call_blocks.specs.Lone.{ItsBlocksMayChange, MayChangeAtTheStart, MayChangeBehindBarriers, MayChangeBehindCalls, MayChangeWithoutCalls};
ghost use Rattle.call_blocks.specs.Replaying.{CallsKeepTheSystem, ListsAreOfTheTree, ReplaysMayChangeIt, SameMayChange};

use lone_logs::outcomes_are_the_machines;
pub use lone_logs::what_remains_of_it;

/// A law: the inodes whose locks a call takes are found from the root, or weren't there.
pub fn calls_lock_inodes_of_the_tree()
    ensures { ListsAreOfTheTree }
{}

/// A law: each block that an answered call writes or frees is one that a replay may change.
pub fn what_calls_write_a_replay_may_change()
    ensures { ReplaysMayChangeIt }
{}

/// A law: of an image that stands, and of any other that has the blocks of its system files, a replay may change the same blocks.
pub fn images_with_one_system_may_change_alike()
    ensures { SameMayChange }
{}

/// A law: an answered call leaves the blocks of the system files, and a replay may change what it might before.
pub fn calls_keep_the_system()
    ensures { CallsKeepTheSystem }
{}

/// A law: each block that a call of one node alone writes is one that a replay of the image on its disk may change.
pub fn what_one_node_writes_a_replay_may_change()
    ensures { ItsBlocksMayChange }
{}

/// A law: what a replay may change of the image that one node alone works on, it may change of the image on its disk: so it is at the start, and stays with calls, with barriers, and with all else
/// that the node does.
pub fn its_disk_may_change_alike()
    ensures start { MayChangeAtTheStart }
    ensures calls { MayChangeBehindCalls }
    ensures barriers { MayChangeBehindBarriers }
    ensures others { MayChangeWithoutCalls }
{
    outcomes_are_the_machines();
}
