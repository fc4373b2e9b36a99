// Laws of what a replay puts home.
ghost use Rattle.journal_plans.specs.Laws.{LiveIsWhole};

/// A law: what is live in a journal of whole blocks is whole blocks.
pub fn live_blocks_are_whole()
    ensures { LiveIsWhole }
{}
