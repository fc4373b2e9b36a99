//! What a log asks of a change, the changes of answered calls have. The functions but `has_change_widths` do nothing: their contracts are the laws.
#![tactic(auto)]

mod widths;

ghost use Rattle.loggable_changes.specs.Loggable.{AnswersCanBeLogged, CoveredBlocksAreStructures};

pub use widths::has_change_widths;

/// A law: each used block of an image that stands, but content of files, begins with the magic and is no header of a journal.
pub fn covered_blocks_are_structures()
    ensures { CoveredBlocksAreStructures }
{}

/// A law: the change of an answered call can be added to a log, lies on the device, and writes a block if it changes anything.
pub fn answers_can_be_logged()
    ensures { AnswersCanBeLogged }
{}
