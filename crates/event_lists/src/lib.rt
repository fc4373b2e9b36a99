//! What can happen to a cluster as lists of its events: crashes, fences, recoveries, demotions in their stages, unmounts; and steps of the lock manager as events.
#![tactic(auto)]

ghost use Rattle.event_lists.specs.Stops.{CrashIsEvents, CrashAfterWrite, FenceIsEvents, KeptIsFound, LossIsEvents, RecoveryIsEvents, PastIsSilent, StartRecoveryIsEvents, PastIsEvents};
ghost use Rattle.event_lists.specs.Demotions.{CommitIsEvents, FlushFlushes, FlushedIsUntouched, HeaderKeepsStages, RevokesAreHeader, HomeIsRevoked, RevokesRevoke, StagesRelease, ReleaseIsEvents, CleanIsHeader, CleanReleases};
ghost use Rattle.event_lists.specs.Homes.{HomeIsEvents, HomeIsAtHome, FlushedIsReleased, DemotionIsEvents, UnmountIsEvents};
ghost use Rattle.event_lists.specs.Stages.{StagesStay};
ghost use Rattle.event_lists.specs.Begins.{StartsFromDisk};
ghost use Rattle.event_lists.specs.Apart.{RingsBegin, RingsStay};
ghost use Rattle.event_lists.specs.Calls.{LockStepsFit, LocksMakeSteps};

use cluster_laws::System;

/// A law: a crash of a set of nodes, also one that stands behind its node's write, and a withdraw.
pub fn a_crash_is_events<S: System>()
    ensures set { CrashIsEvents S.files }
    ensures after_write { CrashAfterWrite S.files }
{}

/// A law: a fence, whatever becomes of the writes in flight.
pub fn a_fence_is_events<S: System>()
    ensures { FenceIsEvents S.files }
{}

/// A law: the loss of a life that ended, with the number that it keeps; a slot is recovered, and where the cluster comes to by it; one that waited since the start, whose
/// journal's calls the past has all; and the past ends with the last.
pub fn a_recovery_is_events<S: System>()
    ensures kept { KeptIsFound S.files }
    ensures loss { LossIsEvents S.files }
    ensures slot { RecoveryIsEvents S.files }
    ensures silent { PastIsSilent S.files }
    ensures start { StartRecoveryIsEvents S.files }
    ensures past { PastIsEvents S.files }
{}

/// A law: a header with its barrier, of a flush, of revokes, alone, or clean.
pub fn a_commit_is_events<S: System>()
    ensures { CommitIsEvents S.files }
{}

/// A law: the stages of a demotion, one after the other, let the lock go, whatever calls and headers of other locks come between.
pub fn a_demotion_is_stages<S: System>()
    ensures flush { FlushFlushes S.files }
    ensures untouched { FlushedIsUntouched S.files }
    ensures headers { HeaderKeepsStages S.files }
    ensures revokes { RevokesAreHeader S.files }
    ensures home { HomeIsRevoked S.files }
    ensures revoked { RevokesRevoke S.files }
    ensures stages { StagesRelease S.files }
    ensures release { ReleaseIsEvents S.files }
{}

/// A law: writes home with their barrier; behind it every live block under a lock that was put home is at home.
pub fn home_writes_are_events<S: System>()
    ensures home { HomeIsEvents S.files }
    ensures at_home { HomeIsAtHome S.files }
{}

/// A law: a stage that a demotion has reached stays through every event, but for those that set it back.
pub fn stages_stay<S: System>()
    ensures { StagesStay S.files }
{}

/// A law: a demotion, from its flush to its release, and where the cluster comes to by it. Where nothing is live under the locks that go, nothing but the flush comes
/// before the release, and where nothing is unflushed not even that: so also in an unmount.
pub fn a_demotion_is_events<S: System>()
    ensures whole { DemotionIsEvents S.files }
    ensures flushed { FlushedIsReleased S.files }
{}

/// A law: an unmount, from its flush until every lock is down, and where the cluster comes to by it.
pub fn an_unmount_is_events<S: System>()
    ensures { UnmountIsEvents S.files }
{}

/// A law: an unmount's clean header may go, and behind it every lock.
pub fn an_unmount_is_stages<S: System>()
    ensures header { CleanIsHeader S.files }
    ensures release { CleanReleases S.files }
{}

/// A law: a disk whose journals may be dirty is a start. What they have live is the past's, which holds every lock while a slot waits.
pub fn a_dirty_start_starts<S: System>()
    ensures { StartsFromDisk S.files }
{}

/// A law: where at the start no block is live in two journals, each that waits speaks for the past, and every other for its own node; and every event but a header's
/// leaves them so.
pub fn journals_stay_apart<S: System>()
    ensures begin { RingsBegin S.files }
    ensures stay { RingsStay S.files }
{}

/// A law: steps of the lock manager, one at each lock or none, are events: messages as they are, grants that are taken and downs as what these events ask of each lock.
pub fn lock_steps_are_events<S: System>()
    ensures { LockStepsFit S.files }
{}

/// A law: a stop, a view, a join and a recovery are of all locks at once: each lock makes the step of that name.
pub fn each_lock_makes_its_step<S: System>()
    ensures { LocksMakeSteps S.files }
{}
