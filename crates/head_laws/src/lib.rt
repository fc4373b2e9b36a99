//! Which head a loss counts from, by the items of the trace.
#![tactic(auto)]

ghost use Rattle.head_laws.specs.Changing.{ChangingCallIsTold};
ghost use Rattle.head_laws.specs.DirtyStart.{DirtyStartIsTold};
ghost use Rattle.head_laws.specs.Example.{JournalCanLive};
ghost use Rattle.head_laws.specs.Joined.{JournalIsJoinedEarly};
ghost use Rattle.head_laws.specs.Laws.{HeadsAreTold};
ghost use Rattle.head_laws.specs.Tellings.{FrontsArePassed, RecoveriesAreTold, StartSlotsStayOpen, TellingIsStep};
ghost use Rattle.tree_histories.specs.Trees.{Images};
ghost use Rattle.head_laws.specs.Unsettled.{HeadIsUnsettled};
ghost use Rattle.head_laws.specs.Traces.{LossesAreRight, RemainsStand, SyncsStand};
ghost use Rattle.head_laws.specs.TwoNodes.{TwoNodesAreTold};
ghost use Rattle.head_laws.specs.Turns.{ToldTurnsKeep, told_clusters};
ghost use Rattle.cluster_turns.specs.Turns.{Ties};
ghost use Rattle.script_lang.specs.declared.script.Client.{Client};
ghost use Rattle.std.specs.Prelude.{List};

use tree_histories::TreeImages;

/// A law: of a node's earliest life without a loss the number that the items tell is that of its journal's head, whichever header turns
/// out to be accepted; of each later one it is the number of the node's last call.
pub fn heads_are_told()
    ensures { HeadsAreTold }
{}

/// A law: each event of a cluster, with what a trace tells of it, is a step of each journal, and so is an item without an event; and
/// every run with such a trace is a list of steps.
pub fn telling_is_a_step<T: TreeImages>()
    ensures { TellingIsStep T.images }
{}

/// A law: over every list of events of a cluster, with their items, each loss is that of a life and right, where the number that it
/// counts from is what the items tell of the head which the life left.
pub fn losses_are_right<T: TreeImages>()
    ensures { LossesAreRight T.images }
{}

/// A law: each outcome of the disk, whichever heads the journals then have, replayed, stands for the tree of what remains of the items,
/// which is legal.
pub fn remains_stand<T: TreeImages>()
    ensures { RemainsStand T.images }
{}

/// A law: no call of a node changes anything that is behind the number that the items tell of a life without a loss, and up to a sync
/// that was answered Ok.
pub fn syncs_stand<T: TreeImages>()
    ensures { SyncsStand T.images }
{}

/// A law: by the items of every run each recovery is told by one of them, by the least member, and each loss stands behind it or at the run's
/// end; and a slot that doesn't wait had its recovery told.
pub fn recoveries_are_told<T: TreeImages>()
    ensures { RecoveriesAreTold T.images }
{}

/// A law: a slot that waited at the start waits until its recovery is told, and until then no head of its journal matters to any life, at
/// whatever instant.
pub fn start_slots_stay_open<T: TreeImages>()
    ensures { StartSlotsStayOpen T.images }
{}

/// A law: each front of a run's items, behind the first joins, is that of a run from which this one goes on; so what holds of every run
/// holds at each front.
pub fn fronts_are_passed<T: TreeImages>()
    ensures { FrontsArePassed T.images }
{}

/// A law: the events can be: a node stops behind a header that has no item, its journal is replayed, and it joins again.
pub fn a_journal_can_live()
    ensures { JournalCanLive }
{}

/// A law: a run from a dirty start can be told: the one live block of node 1's journal goes home, the clean header comes to the disk, and
/// the slot is recovered, with the items of this.
pub fn a_dirty_start_can_be_told<T: TreeImages>()
    ensures { DirtyStartIsTold T.images }
{}

/// A law: a run of two nodes can be told: a sync, a header, a crash, a fence, a recovery and a loss, over any image that stands for a tree.
pub fn two_nodes_can_be_told<T: TreeImages>()
    ensures { TwoNodesAreTold T.images }
{}

/// A law: a call that changes the tree can be told, with the ask and the grant of its lock, over images of one block.
pub fn a_changing_call_can_be_told()
    ensures { ChangingCallIsTold }
{}

/// A law: the events can be where a node joins while a replay's header of its journal is in flight, which has no item: the node's second
/// life keeps what stood before its join.
pub fn a_journal_can_be_joined_early()
    ensures { JournalIsJoinedEarly }
{}

/// A law: the events can be where a node crashes while the clean header of the ring that it had at the start is in flight: until the fence
/// both heads may be, with one number, and from there on either is told.
pub fn a_head_can_be_unsettled()
    ensures { HeadIsUnsettled }
{}

/// The values behind the turns of a cluster with its trace, and what they say of it.
pub trait ToldParts {
    ghost images: { Images };

    ghost clients: { List Client };

    ghost ties: { Ties (told_clusters images clients) };

    fn parts(&self) -> u64;
}

/// A law: behind turns too. What a seat may change alone or with the wire, each event with its items, meets each member of a rule of turns; and what
/// holds of all parts has the run that came there, so each of these laws is of it.
pub fn told_turns_keep<P: ToldParts>()
    ensures { ToldTurnsKeep P.images P.clients P.ties }
{}
