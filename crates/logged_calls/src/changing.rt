// A call is answered that changes something.
ghost use Rattle.std.specs.Prelude.{ℕ, ◌≡◌, ◌+◌, ◌<◌, ◌≤◌, ◌^◌, false, IfOk, OnOk, IfErr};
ghost use Rattle.std.specs.FinMap as table;
ghost use Rattle.std.specs.Vec.{vec_capacity, vec_len};
ghost use Rattle.image_changes.specs.Does.{is_nothing};
ghost use Rattle.lone_answers.specs.Answers.{IsDoneBy};
ghost use Rattle.lone_images.specs.Lone.{version_with};
ghost use Rattle.lone_view.specs.Seeing.{seen_alone};
ghost use Rattle.image_changes.specs.Does.{AreInside, IsFormed};
ghost use Rattle.logged_node.specs.Nodes.{point_of};
ghost use Rattle.logged_calls.specs.Calls.{HasTaken, IsReady, most_headers};
ghost use Rattle.logged_calls.specs.Ends.{EndsBehind, HasCause, HasItsAnswer, IfNotLoggable, IfTooSmall, IsTooSmallFor, IsUnloggableFor};

use crate::adding::add_change;
use crate::ends::CallEnd;
use crate::keeping::keep_change;
use crate::loggable::may_be_logged;
use crate::telling::{make_item, put_call};
use drafts::{Change, Stamp};
use file_tree::{Call, Name, Reply};
use loggable_changes::has_change_widths;
use logged_node::Node;
use no_memory::NoMemory;
use shared_disk::SharedDisk;
use trace_text::TraceItem;

// What a change writes is kept, and what it frees is not; and this is the call's item, for which there is room.
fn keep_answer(
    node: &mut Node,
    client: &Name,
    call: &Call,
    reply: &Reply,
    change: &Change,
) -> Result<TraceItem, NoMemory>
    requires number { node.old.numbers.answered + 1 < 2 ^ 64 }
    requires form { IsFormed change.now }
    requires inside { AreInside (seen_alone node.old.view) change.now }
    ensures kept { OnOk result ((b : ℕ) → table.get node.new.view.blocks b ≡ version_with change.now (table.get node.old.view.blocks) b) }
    ensures view { OnOk result (node.new.view ≡ record node.old.view { blocks = node.new.view.blocks }) }
    ensures node { node.new ≡ record node.old { view = node.new.view; items = node.new.items } }
    ensures items { node.new.items.items ≡ node.old.items.items }
    ensures room { OnOk result (vec_len node.new.items + 2 ≤ vec_capacity node.new.items) }
    ensures item { IfOk result (λ item. item ≡ TraceItem.Call 1 client.now (node.old.numbers.answered + 1) call.now reply.now) }
{
    keep_change(&mut node.view, change)?;
    make_item(node, client, call, reply)
}

/// Answers a call with this reply, which changes this: the change comes into the log, is kept, and the call's item is told.
pub(crate) fn answer_with<D: SharedDisk>(
    disk: &mut D,
    node: &mut Node,
    client: &Name,
    call: &Call,
    reply: &Reply,
    change: &Change,
    stamp: &Stamp,
) -> Result<(), CallEnd>
    requires ready { IsReady (D.state disk.old) node.old }
    requires number { node.old.numbers.answered + 1 < 2 ^ 64 }
    requires sequence { node.old.log.sequence + most_headers < 2 ^ 64 }
    requires done { IsDoneBy node.old.view stamp.now.time call.now reply.now change.now }
    requires changes { is_nothing change.now ≡ false }
    ensures taken { OnOk result (HasTaken stamp.now.time client.now call.now (D.state disk.old) (D.list disk.old) node.old (D.state disk.new) (D.list disk.new) node.new) }
    ensures stopped { IfErr result (EndsBehind (D.state disk.old) (D.list disk.old) node.old (D.state disk.new) (D.list disk.new) node.new) }
    ensures answered { IfErr result HasItsAnswer }
    ensures too_small { IfErr result (λ end. IfTooSmall end (IsTooSmallFor (point_of (D.state disk.new) (D.list disk.new) node.new) stamp.now.time call.now)) }
    ensures unloggable { IfErr result (λ end. IfNotLoggable end (IsUnloggableFor (point_of (D.state disk.new) (D.list disk.new) node.new) stamp.now.time call.now)) }
    ensures later { (i : ℕ) → D.faults disk.old i ≤ D.faults disk.new i }
    ensures cause { IfErr result (HasCause (D.state disk.old).count (D.faults disk.old) (D.faults disk.new)) }
{
    if !may_be_logged(change) {
        return Err(CallEnd::NotLoggable);
    }
    has_change_widths(change);
    match add_change(disk, node, change) {
        Ok(true) => {}
        Ok(false) => return Err(CallEnd::LogTooSmall),
        Err(why) => return Err(CallEnd::Stopped(why)),
    }
    let item = keep_answer(node, client, call, reply, change)?;
    put_call(node, item, true);
    Ok(())
}
