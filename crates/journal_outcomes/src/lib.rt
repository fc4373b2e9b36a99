//! What becomes of writes in flight to journals, torn ones among them: laws.
#![tactic(auto)]

ghost use Rattle.journal_outcomes.specs.Disks.{BarriersLeaveAll, FencesLeaveOutcomes};
ghost use Rattle.journal_outcomes.specs.Laws.{LandedChunksSayNothing, LandedHeadersHead, OldAndNewAreOutcomes, OutcomesSayOne};

/// A law: whatever became of the writes in flight to a journal, it says what it said, or, where a log header was in flight, what
/// it says with that header in its place.
pub fn outcomes_say_one()
    ensures { OutcomesSayOne }
{}

/// A law: with blocks of a transaction in their places a journal says what it said, and a log header in its place is its head.
pub fn what_has_landed_says()
    ensures chunks { LandedChunksSayNothing }
    ensures header { LandedHeadersHead }
{}

/// A law: that no write has come to its place is an outcome, and so is that each has.
pub fn old_and_new_are_outcomes()
    ensures { OldAndNewAreOutcomes }
{}

/// A law: the fence of a node leaves, on a disk that tells its blocks, an outcome of the image with that node's writes in flight, and
/// settles no other node's.
pub fn fences_leave_outcomes()
    ensures { FencesLeaveOutcomes }
{}

/// A law: a barrier leaves the outcome in which each write of its node is in its place, and settles no other node's.
pub fn barriers_leave_all()
    ensures { BarriersLeaveAll }
{}
