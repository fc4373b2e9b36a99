//! The events of a cluster, as lists of the steps of nodes, journals, disk and locks; and what they keep.
#![tactic(auto)]

ghost use Rattle.cluster_events.specs.Cluster.{StartIsTogether, EventKeeps, EventIsSteps, EveryCluster};

use cluster_laws::System;

/// A law: a start holds what every event keeps.
pub fn a_start_is_together<S: System>()
    ensures { StartIsTogether S.files }
{}

/// A law: every event keeps what holds of the machine and of every lock, and that their states are one.
pub fn an_event_keeps<S: System>()
    ensures { EventKeeps S.files }
{}

/// A law: every event is a list of the steps of nodes, journals and disk.
pub fn an_event_is_steps<S: System>()
    ensures { EventIsSteps S.files }
{}

/// The headline of the cluster: every list of events has a legal history that keeps what was synced, and stands for what remains;
/// and held states go together.
pub fn every_cluster_is_right<S: System>()
    ensures { EveryCluster S.files }
{}
