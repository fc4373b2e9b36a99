// One call, answered from what the node keeps and reads.
ghost use Rattle.std.specs.Prelude.{ℕ, ◌≡◌, ◌≤◌, false, IfOk, IfErr, IfSome, IfNone, OnErr, length};
ghost use Rattle.fault_counts.specs.Causes.{WentUp};
ghost use Rattle.file_calls.specs.Calls.{IsUnbuilt};
ghost use Rattle.shared_disk.specs.Disk.{ReadsOnly};
ghost use Rattle.lone_view.specs.Seeing.{seen_alone};
ghost use Rattle.lone_answers.specs.Answers.{IsDoneBy, IsSpaceless};
ghost use Rattle.lone_answers.specs.Faults.{IfDamaged, IfDone, IfFailed, IfFull, IfNotBuilt, IsDamagedFor, IsLackedBlock, fault_at};
ghost use Rattle.lone_answers.specs.Reading.{HasRead, ReadsOne, WorksOnNone};

use crate::fetching::fetch;
use crate::{Answered, Unanswered};
use drafts::{Attempt, Stamp};
use file_calls::attempt;
use file_tree::Call;
use glock_names::CallFault;
use lone_view::LoneView;
use shared_disk::SharedDisk;
use std::alloc::Global;

// Why a call isn't answered that has this fault.
fn why_of(fault: CallFault) -> Unanswered
    ensures { result ≡ fault_at fault }
{
    match fault {
        CallFault::Damaged { block, rule } => Unanswered::Damaged { block, rule },
        CallFault::NoMemory => Unanswered::NoMemory,
    }
}

// Tries the call once: it is answered, or a block that it needs is read.
fn try_once<D: SharedDisk>(
    alloc: Global,
    disk: &mut D,
    view: &mut LoneView,
    call: &Call,
    stamp: &Stamp,
) -> Result<Option<Answered>, Unanswered>
    requires size { view.old.size ≡ (D.state disk.old).size }
    requires groups { 1 ≤ length view.old.groups }
    requires unfenced { (D.state disk.old).is_fenced 1 ≡ false }
    requires node { stamp.now.node ≡ 1 }
    ensures read { IfOk result (λ r. IfNone r (ReadsOne (D.state disk.old) view.old view.new)) }
    ensures same { IfOk result (λ r. IfSome r (λ a. view.new ≡ view.old)) }
    ensures same_in_error { OnErr result (view.new ≡ view.old) }
    ensures done { IfOk result (λ r. IfSome r (λ a. IfDone a (IsDoneBy view.new stamp.now.time call.now))) }
    ensures full { IfOk result (λ r. IfSome r (λ a. IfFull a (IsSpaceless view.new call.now))) }
    ensures failed { IfErr result (λ why. IfFailed why (λ block rise. IsLackedBlock view.new (D.state disk.old).count call.now block)) }
    ensures cause { IfErr result (λ why. IfFailed why (λ block rise. WentUp (D.faults disk.old 1) (D.faults disk.new 1) rise.before rise.after)) }
    ensures damaged { IfErr result (λ why. IfDamaged why (IsDamagedFor (seen_alone view.new) (D.state disk.old).count call.now)) }
    ensures sound { IfErr result (λ why. IfDamaged why (λ b rule. WorksOnNone (D.state disk.old) view.old)) }
    ensures unbuilt { IfErr result (λ why. IfNotBuilt why (IsUnbuilt (seen_alone view.new) call.now 1)) }
    ensures built { IfErr result (λ why. IfNotBuilt why (WorksOnNone (D.state disk.old) view.old)) }
    ensures reads { ReadsOnly (D.state disk.old) (D.state disk.new) (D.list disk.old) (D.list disk.new) (D.faults disk.old) (D.faults disk.new) }
{
    match attempt(alloc, &*view, call, stamp) {
        Ok(Attempt::Done { reply, change }) => Ok(Some(Answered::Done { reply, change })),
        Ok(Attempt::NoSpace { need, free }) => Ok(Some(Answered::Full { need, free })),
        Ok(Attempt::NeedBlock(missing)) => match fetch(alloc, disk, view, &missing) {
            Ok(()) => Ok(None),
            Err(why) => Err(why),
        },
        Ok(Attempt::NotBuilt) => Err(Unanswered::NotBuilt),
        Ok(Attempt::NeedLock { .. }) => unreachable!(),
        Err(fault) => Err(why_of(fault)),
    }
}

/// Answers a call as node 1, which holds every lock, from what the view has; a block that the call asks for is read into the view, once,
/// and the call tried again. The disk is only read, and of the view nothing changes but what is read. It costs a read for each block that
/// the view hasn't, and a try of the call for each of these and one more.
pub fn answer_call<D: SharedDisk>(
    alloc: Global,
    disk: &mut D,
    view: &mut LoneView,
    call: &Call,
    stamp: &Stamp,
) -> Result<Answered, Unanswered>
    requires size { view.old.size ≡ (D.state disk.old).size }
    requires groups { 1 ≤ length view.old.groups }
    requires unfenced { (D.state disk.old).is_fenced 1 ≡ false }
    requires node { stamp.now.node ≡ 1 }
    ensures read { HasRead (D.state disk.old) view.old view.new }
    ensures done { IfOk result (λ a. IfDone a (IsDoneBy view.new stamp.now.time call.now)) }
    ensures full { IfOk result (λ a. IfFull a (IsSpaceless view.new call.now)) }
    ensures failed { IfErr result (λ why. IfFailed why (λ block rise. IsLackedBlock view.new (D.state disk.old).count call.now block)) }
    ensures cause { IfErr result (λ why. IfFailed why (λ block rise. WentUp (D.faults disk.old 1) (D.faults disk.new 1) rise.before rise.after)) }
    ensures damaged { IfErr result (λ why. IfDamaged why (IsDamagedFor (seen_alone view.new) (D.state disk.old).count call.now)) }
    ensures sound { IfErr result (λ why. IfDamaged why (λ b rule. WorksOnNone (D.state disk.old) view.old)) }
    ensures unbuilt { IfErr result (λ why. IfNotBuilt why (IsUnbuilt (seen_alone view.new) call.now 1)) }
    ensures built { IfErr result (λ why. IfNotBuilt why (WorksOnNone (D.state disk.old) view.old)) }
    ensures reads { ReadsOnly (D.state disk.old) (D.state disk.new) (D.list disk.old) (D.list disk.new) (D.faults disk.old) (D.faults disk.new) }
{
    loop {
        match try_once(alloc, disk, view, call, stamp) {
            Ok(Some(found)) => return Ok(found),
            Ok(None) => {}
            Err(why) => return Err(why),
        }
    }
}
