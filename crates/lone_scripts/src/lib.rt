//! What the items of a run of one node owe to its script, crashes included. The functions do nothing: their contracts are the laws.
#![tactic(auto)]

ghost use Rattle.lone_scripts.specs.Laws.{CallsGoOn, LoneRunsAreNumbered, LoneRunsBegin, LoneRunsFollow, OtherItemsGoOn, RunningNodesKeepAll, WaitsGoOn, WholeLoneRunsAnswer};

/// A law: the items of a run of one node follow its script, and its calls are numbered from 1; while the node runs, they keep all that was synced.
pub fn runs_of_one_node_follow()
    ensures follows { LoneRunsFollow }
    ensures numbered { LoneRunsAreNumbered }
    ensures synced { RunningNodesKeepAll }
{}

/// A law: once all lines were taken, or the node has crashed, each line is answered, or its node has stopped, and each crash line has its place.
pub fn whole_runs_answer_all()
    ensures { WholeLoneRunsAnswer }
{}

/// A law: a run goes on by items that aren't calls, by a wait, and by the answer to the next line.
pub fn runs_go_on()
    ensures begin { LoneRunsBegin }
    ensures others { OtherItemsGoOn }
    ensures waits { WaitsGoOn }
    ensures calls { CallsGoOn }
{}
