//! The calls of the lock manager's parts as steps of one lock: `lock_laws` says what holds of it.
#![tactic(auto)]

ghost use Rattle.lock_steps.specs.Modes.{GoAsModes, CoverAsModes, HaveModesOfTheirOwn};
ghost use Rattle.lock_steps.specs.Runs.{EveryRunIsCompatible, EveryTableCovers};
ghost use Rattle.lock_steps.specs.Example.{ListCanBeMade};
ghost use Rattle.lock_steps.specs.Exact.{TablesAreExact, RequestsFindNothing, LowersOnlyLower, ReportsFindARebuild, EndsFindARebuild, HoldersAskForNothing};
ghost use Rattle.lock_steps.specs.Laws.{MailIsNoStep, HolderCallsAreSteps, TableCallsAreSteps, MemberCallsAreSteps, MemberCallsMoveAllLocks, EveryListIsSteps, EveryListIsRight, GrantsWait};

/// A law: states go together and are at most one another as their modes.
pub fn states_are_modes()
    ensures together { GoAsModes }
    ensures covers { CoverAsModes }
    ensures own { HaveModesOfTheirOwn }
{}

/// A law: over every list of steps from the start held states go together, those of stopped nodes until they are recovered
/// among them.
pub fn every_run_is_compatible()
    ensures { EveryRunIsCompatible }
{}

/// A law: over every list of steps from the start, once a node's reports have ended the master's table is at least what the
/// node holds, and what is granted to it and on its way.
pub fn every_table_covers()
    ensures { EveryTableCovers }
{}

/// A law: a call of the mail is no step of a lock.
pub fn mail_is_no_step()
    ensures { MailIsNoStep }
{}

/// A law: a call of a node's holder is a step of the lock, or none.
pub fn a_holder_call_is_a_step()
    ensures { HolderCallsAreSteps }
{}

/// A law: a call of a master or of a rebuild is a list of steps of the lock.
pub fn a_table_call_is_steps()
    ensures { TableCallsAreSteps }
{}

/// A law: a stop, a fence, a recovery, a join and a new view are a step of each lock, or none.
pub fn a_member_call_is_steps()
    ensures { MemberCallsAreSteps }
{}

/// A law: a stop, a recovery, a join and a new view are of all locks at once: whatever the lock, it makes the step of that name.
pub fn a_member_call_moves_all_locks()
    ensures { MemberCallsMoveAllLocks }
{}

/// A law: every list of calls from the start is a list of steps of the lock. Conversions aren't among the calls.
pub fn every_list_is_steps()
    ensures { EveryListIsSteps }
{}

/// A law: after every list of calls what one node holds, a stopped one until its slot is recovered, and is granted goes with what
/// another holds and is granted; and a table has at least what is held and granted.
pub fn every_list_is_right()
    ensures { EveryListIsRight }
{}

/// A law: a call sets a grant on its way, behind others or none, only where the table is no rebuild's, every member of the view has
/// told all, and no slot waits.
pub fn grants_wait()
    ensures { GrantsWait }
{}

/// A law: of a node that has taken the present view, and no ask of which stands, a table has exactly what the node holds once all
/// that it told has come. So a rebuilt table has each node's last report.
pub fn tables_are_exact()
    ensures { TablesAreExact }
{}

/// A law: who asks holds nothing by the table and waits for nothing, as the master's call requires.
pub fn requests_find_nothing()
    ensures { RequestsFindNothing }
{}

/// A law: who lowers a lock has at least that mode by the table, and waits for nothing.
pub fn lowers_only_lower()
    ensures { LowersOnlyLower }
{}

/// A law: who reports is heard while the rebuild isn't done, and waits for nothing, as the rebuild's call requires.
pub fn reports_find_a_rebuild()
    ensures { ReportsFindARebuild }
{}

/// A law: who tells that this is all is heard while the rebuild isn't done, as `Rebuild::end` requires.
pub fn ends_find_a_rebuild()
    ensures { EndsFindARebuild }
{}

/// A law: of a member that holds the lock no ask stands, as the holder's call to lower it requires.
pub fn holders_ask_for_nothing()
    ensures { HoldersAskForNothing }
{}

/// A law: a list of calls can be made, from a start that there is: a node is granted a lock, the other one stops, the first one
/// tells what it holds in the next view, the stopped slot is recovered, and the node lets the lock go and is granted it again.
pub fn a_list_can_be_made()
    ensures { ListCanBeMade }
{}
