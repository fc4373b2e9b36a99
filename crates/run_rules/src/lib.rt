//! What the items of a run owe to its script and to the file tree: one history, in which every reply is the
//! tree's, and which follows the script.
#![tactic(auto)]

ghost use Rattle.run_rules.specs.Laws.{CrashLinesAreCarriedOut, JoinsAreOrdered, CarriedOutFollows, LastLinesAreCarriedOut, NoneCrashesAtTheStart, NothingFollows, NothingIsLegal};
ghost use Rattle.run_rules.specs.Heads.{RowsOfHeads, RowsOfRecoveries, EachLossHasALife};

/// A law: a run that has no items yet follows its script, whatever that is, is numbered, and is legal.
pub fn nothing_is_a_history()
    ensures history { NothingFollows }
    ensures legal { NothingIsLegal }
{}

/// A law: a run that passes over a crash line, as one of `crash 1` and `c: list /` that only lists, doesn't follow its script.
pub fn crash_lines_are_carried_out()
    ensures { CrashLinesAreCarriedOut }
{}

/// A law: where items follow a script, they begin with the joins of its nodes, in rising order (`start`): each join is
/// one of these, or that of a join line; and no node crashes before all have joined (`crashes`).
pub fn joins_are_ordered()
    ensures start { JoinsAreOrdered }
    ensures crashes { NoneCrashesAtTheStart }
{}

/// A law: a run that passes over a crash line, as one of `c: list /` and `crash 1` that only lists, hasn't the place of each of its
/// lines, also where no line stands below that crash.
pub fn last_lines_are_carried_out()
    ensures { LastLinesAreCarriedOut }
{}

/// A law: a run of two nodes, of which the first crashes and joins again, as two lines of its script say, follows that script,
/// and each of its lines has its place.
pub fn orders_can_be_carried_out()
    ensures { CarriedOutFollows }
{}

/// A law: the number that a loss counts from, in worked rows, one for each of its cases; and a loss without a life is refused.
pub fn heads_tell_what_they_have()
    ensures rows { RowsOfHeads }
    ensures lives { EachLossHasALife }
{}

/// A law: which items tell of recoveries and losses as they have to, in worked rows.
pub fn recoveries_are_told()
    ensures { RowsOfRecoveries }
{}
