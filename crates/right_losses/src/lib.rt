//! The loss that is right by the number of the last call that a journal's head has: laws. The functions do nothing: their contracts are the laws.
#![tactic(auto)]

ghost use Rattle.right_losses.specs.Laws.{RightLossesAreFound, RightLossesAreOne, RightLossesKeepSyncs};

/// A law: whatever a head had of a node's calls, one loss is right by it, and only one: it keeps the calls before the next one that changes something, or all.
pub fn right_losses_are_found()
    ensures found { RightLossesAreFound }
    ensures one { RightLossesAreOne }
{}

/// A law: where no call changes anything between what the head had and a sync that was answered Ok, a right loss keeps each sync.
pub fn right_losses_keep_syncs()
    ensures { RightLossesKeepSyncs }
{}
