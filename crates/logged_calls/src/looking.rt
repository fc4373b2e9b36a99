// The node reads what a call asks for.
ghost use Rattle.std.specs.Prelude.{ℕ, ◌≡◌, ◌≤◌, IfOk, IfErr};
ghost use Rattle.fault_counts.specs.Causes.{WentUp};
ghost use Rattle.lone_answers.specs.Calls.{IsUnbuilt};
ghost use Rattle.lone_answers.specs.Answers.{IsDoneBy, IsSpaceless};
ghost use Rattle.lone_answers.specs.Faults.{IfDamaged, IfDone, IfFailed, IfFull, IfNotBuilt, IsDamagedFor, IsLackedBlock};
ghost use Rattle.lone_answers.specs.Reading.{WorksOnNone};
ghost use Rattle.lone_view.specs.Seeing.{seen_alone};
ghost use Rattle.logged_calls.specs.Calls.{HasLooked, IsReady};
ghost use Rattle.logged_calls.specs.Ends.{end_at};

use crate::ends::CallEnd;
use drafts::Stamp;
use file_tree::Call;
use logged_node::{Node, Stop};
use lone_answers::{Answered, Unanswered, answer_call};
use shared_disk::SharedDisk;
use std::alloc::Global;

/// The end of a node at a call that isn't answered for this.
pub(crate) fn end_of(why: Unanswered) -> CallEnd
    ensures { result ≡ end_at why }
{
    match why {
        Unanswered::DiskFailed { block, rise } => CallEnd::ReadFailed { block, rise },
        Unanswered::Damaged { block, rule } => CallEnd::Damaged { block, rule },
        Unanswered::NotBuilt => CallEnd::NotBuilt,
        Unanswered::NoMemory => CallEnd::Stopped(Stop::NoMemory),
    }
}

/// Answers a call from what the node keeps and reads, as `answer_call` does. Of the node nothing changes but what it keeps.
pub(crate) fn look<D: SharedDisk>(
    alloc: Global,
    disk: &mut D,
    node: &mut Node,
    call: &Call,
    stamp: &Stamp,
) -> Result<Answered, Unanswered>
    requires ready { IsReady (D.state disk.old) node.old }
    requires node { stamp.now.node ≡ 1 }
    ensures looked { HasLooked (D.state disk.old) (D.list disk.old) node.old (D.state disk.new) (D.list disk.new) node.new }
    ensures done { IfOk result (λ a. IfDone a (IsDoneBy node.new.view stamp.now.time call.now)) }
    ensures full { IfOk result (λ a. IfFull a (IsSpaceless node.new.view call.now)) }
    ensures failed { IfErr result (λ why. IfFailed why (λ block rise. IsLackedBlock node.new.view (D.state disk.old).count call.now block)) }
    ensures cause { IfErr result (λ why. IfFailed why (λ block rise. WentUp (D.faults disk.old 1) (D.faults disk.new 1) rise.before rise.after)) }
    ensures damaged { IfErr result (λ why. IfDamaged why (IsDamagedFor (seen_alone node.new.view) (D.state disk.old).count call.now)) }
    ensures sound { IfErr result (λ why. IfDamaged why (λ b rule. WorksOnNone (D.state disk.old) node.old.view)) }
    ensures unbuilt { IfErr result (λ why. IfNotBuilt why (IsUnbuilt (seen_alone node.new.view) call.now 1)) }
    ensures built { IfErr result (λ why. IfNotBuilt why (WorksOnNone (D.state disk.old) node.old.view)) }
    ensures later { (i : ℕ) → D.faults disk.old i ≤ D.faults disk.new i }
{
    answer_call(alloc, disk, &mut node.view, call, stamp)
}
