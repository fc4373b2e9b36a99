ghost use Rattle.run_reports.specs.Laws.{LoneRunsAreOfOneNode, NothingIsOfOneNode};

/// A law: a run of one node, whether the node runs or has crashed, is one that a report can tell; so is a command that runs no script.
pub fn runs_are_of_one_node()
    ensures lone { LoneRunsAreOfOneNode }
    ensures nothing { NothingIsOfOneNode }
{}
