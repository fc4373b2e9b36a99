// A call for which too few blocks are free.
ghost use Rattle.std.specs.Prelude.{ℕ, ◌+◌, ◌<◌, ◌≤◌, ◌^◌, OnOk, IfErr};
ghost use Rattle.lone_answers.specs.Answers.{IsSpaceless};
ghost use Rattle.logged_node.specs.Ends.{HasCause};
ghost use Rattle.logged_calls.specs.Calls.{HasTaken, IsReady, most_headers};
ghost use Rattle.logged_calls.specs.Ends.{StopsUntold};

use crate::telling::{make_item, put_call, put_full};
use drafts::Stamp;
use file_tree::{Call, Name, Reply};
use logged_node::{Node, Stop, bring_in};
use shared_disk::SharedDisk;

/// Answers that there is no space for a call, which needs so many blocks: once all that was changed is in the journal, an item tells how many are free, and then
/// the call's item comes.
pub(crate) fn answer_no_space<D: SharedDisk>(
    disk: &mut D,
    node: &mut Node,
    client: &Name,
    call: &Call,
    need: u64,
    free: u64,
    _stamp: &Stamp,
) -> Result<(), Stop>
    requires ready { IsReady (D.state disk.old) node.old }
    requires number { node.old.numbers.answered + 1 < 2 ^ 64 }
    requires sequence { node.old.log.sequence + most_headers < 2 ^ 64 }
    requires full { IsSpaceless node.old.view call.now need free }
    ensures taken { OnOk result (HasTaken _stamp.now.time client.now call.now (D.state disk.old) (D.list disk.old) node.old (D.state disk.new) (D.list disk.new) node.new) }
    ensures stopped { IfErr result (StopsUntold (D.state disk.old) (D.list disk.old) node.old (D.state disk.new) (D.list disk.new) node.new.items.items) }
    ensures later { (i : ℕ) → D.faults disk.old i ≤ D.faults disk.new i }
    ensures cause { IfErr result (HasCause (D.state disk.old).count (D.faults disk.old) (D.faults disk.new)) }
{
    match bring_in(disk, node) {
        Ok(()) => {}
        Err(why) => return Err(why),
    }
    match make_item(node, client, call, &Reply::NoSpace) {
        Ok(item) => {
            put_full(node, need, free);
            put_call(node, item, false);
            Ok(())
        }
        Err(_) => Err(Stop::NoMemory),
    }
}
