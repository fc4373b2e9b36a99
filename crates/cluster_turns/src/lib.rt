//! The cluster behind turns: which changes a seat may make alone and which with the wire, and that they keep what holds of all parts.
#![tactic(auto)]

ghost use Rattle.cluster_laws.specs.Files.{Files};
ghost use Rattle.std.specs.Prelude.{ℕ};
ghost use Rattle.cluster_turns.specs.Turns.{Ties, clusters, TriesAreAlone, TurnsKeep, StartHolds, HeldIsRight, EventsGrow};
ghost use Rattle.cluster_turns.specs.Counting.{CountsAreTies};

/// The values behind the turns, one for each node and one for the wire, and what they say of the cluster.
pub trait TurnedParts {
    ghost files: { Files };

    ghost ties: { Ties (clusters files) };

    fn parts(&self) -> u64;
}

/// A law: a try touches nothing but its own node.
pub fn a_try_is_alone<P: TurnedParts>()
    ensures { TriesAreAlone P.files }
{}

/// A law: what a seat may change alone, and what with the wire, meets each member of a rule of turns, whatever the other parts are.
pub fn turns_keep<P: TurnedParts>()
    ensures { TurnsKeep (clusters P.files) P.ties }
{}

/// A law: a start that the values are tied to holds; and where values hold, a run came from a start to the cluster that they are tied to, so all
/// that is so of every run is so of it.
pub fn what_holds_was_reached<P: TurnedParts>()
    ensures starts { StartHolds P.files P.ties }
    ensures right { HeldIsRight P.files P.ties }
{}

/// A law: there are such values, at each start. With them a sync may be answered alone, and a line `crash all` may be carried out.
pub fn all_may_crash<P: TurnedParts>()
    ensures { (nodes : ℕ) → CountsAreTies P.files nodes }
{}

/// A law: items and answered calls only grow.
pub fn events_grow<P: TurnedParts>()
    ensures { EventsGrow P.files }
{}
