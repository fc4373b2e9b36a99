// Room in the journal, and what is due brought into it.
ghost use Rattle.std.specs.Prelude.{ℕ, ◌<◌, ◌≤◌, ◌+◌, ◌^◌, OnOk, IfErr};
ghost use Rattle.log_values.specs.Flushing.{IsDue, NothingIsLive};
ghost use Rattle.logged_node.specs.Ends.{HasCause};
ghost use Rattle.logged_node.specs.Flushing.{HasCome, HasRoomForDue};
ghost use Rattle.logged_node.specs.Homing.{SentSoFar};
ghost use Rattle.logged_node.specs.Nodes.{IsResting, StopsBehind};
ghost use Rattle.logged_node.specs.Rooms.{HasBroughtIn, IsCounted, SentForRoom};

use crate::ends::Stop;
use crate::flushing::{Flushed, flush};
use crate::homing::go_home;
use crate::node::Node;
use shared_disk::SharedDisk;

/// Makes room in the journal of a node at rest, where some block is live and there is no room for what is due, or nothing is: all live blocks go home, and then a
/// header alone is written, behind which the journal is empty. Costs what `go_home` costs, a write more and two barriers.
pub fn make_room<D: SharedDisk>(disk: &mut D, node: &mut Node) -> Result<(), Stop>
    requires resting { IsResting (D.state disk.old) node.old }
    requires stuck { HasRoomForDue node.old.log → ⊥ }
    requires some { NothingIsLive node.old.log → ⊥ }
    requires sequence { node.old.log.sequence + 1 < 2 ^ 64 }
    ensures came { OnOk result (HasCome (D.state disk.old) (D.list disk.old) node.old (D.state disk.new) (D.list disk.new) node.new) }
    ensures empty { OnOk result (NothingIsLive node.new.log) }
    ensures grows { OnOk result (node.new.log.sequence ≤ node.old.log.sequence + 1) }
    ensures order { SentSoFar node.old.log node.old.items.items node.new.items.items }
    ensures stopped { IfErr result (StopsBehind 1 (D.state disk.old) (D.list disk.old) node.old (D.state disk.new) (D.list disk.new) node.new.items.items) }
    ensures later { (i : ℕ) → D.faults disk.old i ≤ D.faults disk.new i }
    ensures cause { IfErr result (HasCause (D.state disk.old).count (D.faults disk.old) (D.faults disk.new)) }
{
    match go_home(disk, node) {
        Ok(()) => {}
        Err(why) => return Err(why),
    }
    match flush(disk, node) {
        Ok(_) => Ok(()),
        Err(why) => Err(why),
    }
}

// Flushes what is due, if the journal has room for it, and makes room else.
fn flush_or_make_room<D: SharedDisk>(disk: &mut D, node: &mut Node) -> Result<(), Stop>
    requires resting { IsResting (D.state disk.old) node.old }
    requires due { IsDue node.old.log }
    requires sequence { node.old.log.sequence + 1 < 2 ^ 64 }
    ensures came { OnOk result (HasCome (D.state disk.old) (D.list disk.old) node.old (D.state disk.new) (D.list disk.new) node.new) }
    ensures sent { SentForRoom node.old node.new.items.items }
    ensures stopped { IfErr result (StopsBehind 1 (D.state disk.old) (D.list disk.old) node.old (D.state disk.new) (D.list disk.new) node.new.items.items) }
    ensures later { (i : ℕ) → D.faults disk.old i ≤ D.faults disk.new i }
    ensures cause { IfErr result (HasCause (D.state disk.old).count (D.faults disk.old) (D.faults disk.new)) }
{
    match flush(disk, node) {
        Ok(Flushed::Done) => Ok(()),
        Ok(Flushed::Nothing) => unreachable!(),
        Ok(Flushed::NoRoom) => make_room(disk, node),
        Err(why) => Err(why),
    }
}

/// Brings all that is due into the journal of a node at rest, where room is made for it if there is none. Then the last call that changed anything is there, so a
/// sync may be answered. Nothing is done where nothing is due. Costs a flush; and where there is no room, what `make_room` costs and a flush more.
pub fn bring_in<D: SharedDisk>(disk: &mut D, node: &mut Node) -> Result<(), Stop>
    requires resting { IsResting (D.state disk.old) node.old }
    requires sequence { node.old.log.sequence + 2 < 2 ^ 64 }
    ensures brought { OnOk result (HasBroughtIn (D.state disk.old) (D.list disk.old) node.old (D.state disk.new) (D.list disk.new) node.new) }
    ensures synced { IsCounted node.old → OnOk result (node.new.numbers.changed ≤ node.new.numbers.low) }
    ensures grows { OnOk result (node.new.log.sequence ≤ node.old.log.sequence + 2) }
    ensures sent { SentForRoom node.old node.new.items.items }
    ensures stopped { IfErr result (StopsBehind 2 (D.state disk.old) (D.list disk.old) node.old (D.state disk.new) (D.list disk.new) node.new.items.items) }
    ensures later { (i : ℕ) → D.faults disk.old i ≤ D.faults disk.new i }
    ensures cause { IfErr result (HasCause (D.state disk.old).count (D.faults disk.old) (D.faults disk.new)) }
{
    if !node.log.has_due() {
        return Ok(());
    }
    match flush_or_make_room(disk, node) {
        Ok(()) => {}
        Err(why) => return Err(why),
    }
    if node.log.has_due() {
        flush_or_make_room(disk, node)
    } else {
        Ok(())
    }
}
