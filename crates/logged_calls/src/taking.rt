// A call is taken.
ghost use Rattle.std.specs.Prelude.{ℕ, ◌≡◌, ◌+◌, ◌<◌, ◌≤◌, ◌^◌, ◌↔◌, true, OnOk, IfErr};
ghost use Rattle.lone_answers.specs.Calls.{IsUnbuilt};
ghost use Rattle.image_changes.specs.Does.{is_nothing};
ghost use Rattle.lone_answers.specs.Faults.{IfDone, IfFull, IsDamagedFor, IsLackedBlock};
ghost use Rattle.lone_answers.specs.Answers.{IsDoneBy, IsSpaceless};
ghost use Rattle.lone_answers.specs.Reading.{WorksOnNone};
ghost use Rattle.lone_view.specs.Seeing.{seen_alone};
ghost use Rattle.logged_node.specs.Nodes.{point_of};
ghost use Rattle.logged_calls.specs.Calls.{HasTaken, IsReady, most_headers};
ghost use Rattle.logged_calls.specs.Ends.{EndsBehind, HasCause, HasItsAnswer, IfDamaged, IfNotBuilt, IfNotLoggable, IfReadFailed, IfTooSmall, IsTooSmallFor, IsUnloggableFor};

use crate::changing::answer_with;
use crate::ends::CallEnd;
use crate::full::answer_no_space;
use crate::looking::{end_of, look};
use crate::quiet::answer_quietly;
use drafts::{Change, Stamp};
use file_tree::{Call, Name};
use logged_node::Node;
use lone_answers::Answered;
use shared_disk::SharedDisk;
use std::alloc::Global;

// Whether a change is none.
fn is_no_change(change: &Change) -> bool
    ensures { result ≡ true ↔ is_nothing change.now ≡ true }
{
    change.blocks.is_empty() && change.freed.is_empty()
}

// Tells the answer of a call, and does first what has to be done for it.
fn tell<D: SharedDisk>(
    disk: &mut D,
    node: &mut Node,
    client: &Name,
    call: &Call,
    answered: &Answered,
    stamp: &Stamp,
) -> Result<(), CallEnd>
    requires ready { IsReady (D.state disk.old) node.old }
    requires number { node.old.numbers.answered + 1 < 2 ^ 64 }
    requires sequence { node.old.log.sequence + most_headers < 2 ^ 64 }
    requires done { IfDone answered.now (IsDoneBy node.old.view stamp.now.time call.now) }
    requires full { IfFull answered.now (IsSpaceless node.old.view call.now) }
    ensures taken { OnOk result (HasTaken stamp.now.time client.now call.now (D.state disk.old) (D.list disk.old) node.old (D.state disk.new) (D.list disk.new) node.new) }
    ensures stopped { IfErr result (EndsBehind (D.state disk.old) (D.list disk.old) node.old (D.state disk.new) (D.list disk.new) node.new) }
    ensures answered { IfErr result HasItsAnswer }
    ensures too_small { IfErr result (λ end. IfTooSmall end (IsTooSmallFor (point_of (D.state disk.new) (D.list disk.new) node.new) stamp.now.time call.now)) }
    ensures unloggable { IfErr result (λ end. IfNotLoggable end (IsUnloggableFor (point_of (D.state disk.new) (D.list disk.new) node.new) stamp.now.time call.now)) }
    ensures later { (i : ℕ) → D.faults disk.old i ≤ D.faults disk.new i }
    ensures cause { IfErr result (HasCause (D.state disk.old).count (D.faults disk.old) (D.faults disk.new)) }
{
    match answered {
        Answered::Done { reply, change } => {
            if is_no_change(change) {
                match answer_quietly(disk, node, client, call, reply, change, stamp) {
                    Ok(()) => Ok(()),
                    Err(why) => Err(CallEnd::Stopped(why)),
                }
            } else {
                answer_with(disk, node, client, call, reply, change, stamp)
            }
        }
        Answered::Full { need, free } => {
            match answer_no_space(disk, node, client, call, *need, *free, stamp) {
                Ok(()) => Ok(()),
                Err(why) => Err(CallEnd::Stopped(why)),
            }
        }
    }
}

/// Takes a client's call: node 1 answers it from what it keeps and reads, brings what it changes into its log, and tells it with the next number; then it rests. Where the log
/// has no room, and at a sync, or where too few blocks are free, what is due is flushed first, and blocks go home. It costs a try of the call for each block that is read and
/// one more, a copy of the call, of its reply and of each block that is written, and where a flush is made what `bring_in` and `make_room` of `logged_node` cost.
pub fn take_call<D: SharedDisk>(
    alloc: Global,
    disk: &mut D,
    node: &mut Node,
    client: &Name,
    call: &Call,
    stamp: &Stamp,
) -> Result<(), CallEnd>
    requires ready { IsReady (D.state disk.old) node.old }
    requires node { stamp.now.node ≡ 1 }
    requires number { node.old.numbers.answered + 1 < 2 ^ 64 }
    requires sequence { node.old.log.sequence + most_headers < 2 ^ 64 }
    ensures taken { OnOk result (HasTaken stamp.now.time client.now call.now (D.state disk.old) (D.list disk.old) node.old (D.state disk.new) (D.list disk.new) node.new) }
    ensures stopped { IfErr result (EndsBehind (D.state disk.old) (D.list disk.old) node.old (D.state disk.new) (D.list disk.new) node.new) }
    ensures failed { IfErr result (λ end. IfReadFailed end (λ block rise. IsLackedBlock node.new.view (D.state disk.old).count call.now block)) }
    ensures damaged { IfErr result (λ end. IfDamaged end (IsDamagedFor (seen_alone node.new.view) (D.state disk.old).count call.now)) }
    ensures sound { IfErr result (λ end. IfDamaged end (λ b rule. WorksOnNone (D.state disk.old) node.old.view)) }
    ensures unbuilt { IfErr result (λ end. IfNotBuilt end (IsUnbuilt (seen_alone node.new.view) call.now 1)) }
    ensures built { IfErr result (λ end. IfNotBuilt end (WorksOnNone (D.state disk.old) node.old.view)) }
    ensures too_small { IfErr result (λ end. IfTooSmall end (IsTooSmallFor (point_of (D.state disk.new) (D.list disk.new) node.new) stamp.now.time call.now)) }
    ensures unloggable { IfErr result (λ end. IfNotLoggable end (IsUnloggableFor (point_of (D.state disk.new) (D.list disk.new) node.new) stamp.now.time call.now)) }
    ensures later { (i : ℕ) → D.faults disk.old i ≤ D.faults disk.new i }
    ensures cause { IfErr result (HasCause (D.state disk.old).count (D.faults disk.old) (D.faults disk.new)) }
{
    match look(alloc, disk, node, call, stamp) {
        Ok(answered) => tell(disk, node, client, call, &answered, stamp),
        Err(why) => Err(end_of(why)),
    }
}
