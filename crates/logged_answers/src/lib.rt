//! What the answers of one node with its log are on a disk: the image on which it works, and that the log takes what they change. The functions do nothing: their
//! contracts are the laws.
#![tactic(auto)]

ghost use Rattle.logged_answers.specs.Logging.{AnswersCanBeAdded, AnswersHaveRoom};
ghost use Rattle.logged_answers.specs.Working.{NodesWorkOnAnImage};

use growth_laws::files_are_inodes;
use log_values::{live_blocks_fit, small_changes_fit};

/// A law: at each point the node works on an image that stands for the tree of the calls answered so far.
pub fn nodes_work_on_an_image()
    ensures { NodesWorkOnAnImage }
{}

/// A law: the change of an answered call can be added to the log.
pub fn answers_can_be_added()
    ensures { AnswersCanBeAdded }
{}

/// A law: a log at rest has room for the change of each call.
pub fn answers_have_room()
    ensures { AnswersHaveRoom }
{
    files_are_inodes();
    small_changes_fit();
    live_blocks_fit();
}
