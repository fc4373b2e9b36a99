//! The machine of the cluster over the file tree: its history is a history of the cluster, and so is its headline.
#![tactic(auto)]

ghost use Rattle.tree_histories.specs.Trees.{Images, HistoriesAgree, EveryTreeRun, EveryTreeCluster};

/// Images, what they stand for, and where each block belongs.
pub trait TreeImages {
    ghost images: { Images };

    fn blocks(&self) -> u64;
}

/// A law: what the machine calls alive, legal, numbered, synced and kept right is what the cluster's history calls so.
pub fn histories_agree<T: TreeImages>()
    ensures { HistoriesAgree T.images }
{}

/// The headline of the machine in the words of the cluster's history, with the rings of the journals as they are.
pub fn every_tree_run_is_right<T: TreeImages>()
    ensures nodes { EveryTreeRun T.images }
    ensures cluster { EveryTreeCluster T.images }
{}
