//! What an image says, once its journals are replayed, whatever became of the writes in flight to it: laws.
#![tactic(auto)]

ghost use Rattle.image_outcomes.specs.CutShort.{CutReplaysStand};
ghost use Rattle.image_outcomes.specs.Outcomes.{OutcomesAreChosen};

/// A law: of an image that stands for a tree once its journals are replayed, whatever became of the writes in flight to it, it says
/// what it says with some of the log headers in flight in their places: the same is live, and it stands, replayed, for the same
/// tree.
pub fn outcomes_are_chosen()
    ensures { OutcomesAreChosen }
{}

/// A law: what a replay leaves that was cut short stands, replayed, for the tree for which the image stood.
pub fn cut_replays_stand()
    ensures { CutReplaysStand }
{}
