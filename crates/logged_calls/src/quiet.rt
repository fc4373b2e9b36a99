// A call is answered that changes nothing.
ghost use Rattle.std.specs.Prelude.{ℕ, ◌≡◌, ◌+◌, ◌<◌, ◌≤◌, ◌^◌, ◌↔◌, true, OnOk, IfErr};
ghost use Rattle.image_changes.specs.Does.{is_nothing};
ghost use Rattle.lone_answers.specs.Answers.{IsDoneBy};
ghost use Rattle.logged_node.specs.Ends.{HasCause};
ghost use Rattle.logged_calls.specs.Calls.{HasMoved, HasTaken, IsReady, most_headers};
ghost use Rattle.logged_calls.specs.Ends.{StopsUntold};

use crate::telling::{make_item, put_call};
use drafts::{Change, Stamp};
use file_tree::{Call, Name, Reply};
use logged_node::{Node, Stop, bring_in};
use shared_disk::SharedDisk;

// Whether this is a sync that is done.
fn is_done_sync(call: &Call, reply: &Reply) -> bool
    ensures { result ≡ true ↔ ((call.now ≡ Call.Sync) × (reply.now ≡ Reply.Ok)) }
{
    match call {
        Call::Sync => match reply {
            Reply::Ok => true,
            _ => false,
        },
        _ => false,
    }
}

// A sync waits until all that was changed is in the journal; another call doesn't.
fn wait_for_sync<D: SharedDisk>(disk: &mut D, node: &mut Node, sync: bool) -> Result<(), Stop>
    requires ready { IsReady (D.state disk.old) node.old }
    requires sequence { node.old.log.sequence + most_headers < 2 ^ 64 }
    ensures moved { OnOk result (HasMoved most_headers (D.state disk.old) (D.list disk.old) node.old (D.state disk.new) (D.list disk.new) node.new) }
    ensures synced { sync ≡ true → OnOk result (node.new.numbers.changed ≤ node.new.numbers.low) }
    ensures stopped { IfErr result (StopsUntold (D.state disk.old) (D.list disk.old) node.old (D.state disk.new) (D.list disk.new) node.new.items.items) }
    ensures later { (i : ℕ) → D.faults disk.old i ≤ D.faults disk.new i }
    ensures cause { IfErr result (HasCause (D.state disk.old).count (D.faults disk.old) (D.faults disk.new)) }
{
    if sync { bring_in(disk, node) } else { Ok(()) }
}

/// Answers a call with this reply, which changes nothing: its item is told. A sync waits until all that was changed is in the journal.
pub(crate) fn answer_quietly<D: SharedDisk>(
    disk: &mut D,
    node: &mut Node,
    client: &Name,
    call: &Call,
    reply: &Reply,
    _change: &Change,
    stamp: &Stamp,
) -> Result<(), Stop>
    requires ready { IsReady (D.state disk.old) node.old }
    requires number { node.old.numbers.answered + 1 < 2 ^ 64 }
    requires sequence { node.old.log.sequence + most_headers < 2 ^ 64 }
    requires done { IsDoneBy node.old.view stamp.now.time call.now reply.now _change.now }
    requires nothing { is_nothing _change.now ≡ true }
    ensures taken { OnOk result (HasTaken stamp.now.time client.now call.now (D.state disk.old) (D.list disk.old) node.old (D.state disk.new) (D.list disk.new) node.new) }
    ensures stopped { IfErr result (StopsUntold (D.state disk.old) (D.list disk.old) node.old (D.state disk.new) (D.list disk.new) node.new.items.items) }
    ensures later { (i : ℕ) → D.faults disk.old i ≤ D.faults disk.new i }
    ensures cause { IfErr result (HasCause (D.state disk.old).count (D.faults disk.old) (D.faults disk.new)) }
{
    match wait_for_sync(disk, node, is_done_sync(call, reply)) {
        Ok(()) => {}
        Err(why) => return Err(why),
    }
    match make_item(node, client, call, reply) {
        Ok(item) => {
            put_call(node, item, false);
            Ok(())
        }
        Err(_) => Err(Stop::NoMemory),
    }
}
