//! The invariant of the cluster part by part: for every set of nodes that might stop and every choice of the headers in flight.
#![tactic(auto)]

ghost use Rattle.cluster_parts.specs.Parts.{EverySetMayStop, AllIsPublished, AllMayStop, PartsHold, LockPartsHold, StartAllows, StateMindedKeeps, WritersHold};

use cluster_laws::System;

/// A law, the first part: whichever nodes stop and whichever headers are then accepted, the image stands for the tree of the history with these losses.
pub fn every_set_may_stop<S: System>()
    ensures right { EverySetMayStop S.files }
    ensures published { AllIsPublished S.files }
{}

/// A law, the second: where all stop, the image is the disk replayed, and no unpublished call is part of it.
pub fn all_may_stop<S: System>()
    ensures { AllMayStop S.files }
{}

/// A law, the third, fourth and sixth, and the seventh of writes home: live, unflushed and cached blocks, and those in flight.
pub fn journals_and_caches_agree<S: System>()
    ensures { PartsHold S.files }
{}

/// A law, the fifth and the eighth: held states go together, and a master's table has at least what nodes hold.
pub fn locks_agree<S: System>()
    ensures { LockPartsHold S.files }
{}

/// A law, the rest of the sixth: what a node keeps for all its calls is cached, and under a state that may cache it.
pub fn states_allow_caches<S: System>()
    ensures start { StartAllows S.files }
    ensures kept { StateMindedKeeps S.files }
{}

/// A law, the rest of the seventh: whose writes home and headers are in flight; while a header is, nothing is to a block of its journal; who is fenced has none.
pub fn headers_fly_alone<S: System>()
    ensures { WritersHold S.files }
{}
