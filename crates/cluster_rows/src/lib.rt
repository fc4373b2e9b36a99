//! The table of items, of the events that make them; which head a loss counts from; and each front of a run's items.
#![tactic(auto)]

ghost use Rattle.cluster_rows.specs.Rows.{RowsHold, CleanRow, ViewsAreSeen, CalmStays, HeldStays};
ghost use Rattle.cluster_rows.specs.Asks.{GrantsAreAsked};
ghost use Rattle.cluster_rows.specs.Marks.{HeadsAreMarked, EndedHeadsAreMarked, LossesAreMarked, EveryFrontIsPassed};

use cluster_laws::System;

/// A law: each event meets the row of its item.
pub fn items_are_disciplined<S: System>()
    ensures rows { RowsHold S.files }
    ensures clean { CleanRow S.files }
{}

/// A law: a grant that is under way is of the state that the node last asked for.
pub fn grants_are_asked<S: System>()
    ensures { GrantsAreAsked S.files }
{}

/// A law: what a node saw that answered nospace is what every image has that a stop might leave, and what it held exclusive stays so until its item.
pub fn full_is_seen<S: System>()
    ensures seen { ViewsAreSeen S.files }
    ensures calm { CalmStays S.files }
    ensures held { HeldStays S.files }
{}

/// A law: each head has the number of a header of its life, or of the last call before it; and each loss is that of a life, and counts from such a head of it.
pub fn losses_count_from_heads<S: System>()
    ensures heads { HeadsAreMarked S.files }
    ensures ended { EndedHeadsAreMarked S.files }
    ensures losses { LossesAreMarked S.files }
{}

/// A law: a run passes each front of its items.
pub fn every_front_is_passed<S: System>()
    ensures { EveryFrontIsPassed S.files }
{}
