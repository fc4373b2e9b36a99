// An unmount.
ghost use Rattle.std.specs.Prelude.{ℕ, ◌≡◌, ◌<◌, ◌≤◌, ◌+◌, ◌++◌, ◌∷◌, [], ◌^◌, true, false, length, OnOk, OnErr, IfErr};
ghost use Rattle.log_layout.specs.Headers.{log_put};
ghost use Rattle.log_layout.specs.Transactions.{after};
ghost use Rattle.log_memory.specs.Ending.{last_header};
ghost use Rattle.log_values.specs.Flushing.{block_at, first_place};
ghost use Rattle.logged_steps.specs.Points.{state_of};
ghost use Rattle.logged_steps.specs.NodeEnds.{IsDone, IsLastHeader};
ghost use Rattle.node_journal.specs.Encoding.{zeros};
ghost use Rattle.logged_node.specs.Ends.{HasCause};
ghost use Rattle.logged_node.specs.Leaving.{HasLastHeader, HasUnmounted, IsReady, LeavesBySteps, StopsAtHeader, StopsLeaving};
ghost use Rattle.logged_node.specs.Nodes.{Awaits, IsResting, StopsByCrash, crash_at, point_of};

use crate::deeds::{have_room, put_barrier, put_write};
use crate::ends::Stop;
use crate::homing::go_home;
use crate::node::Node;
use crate::rooms::bring_in;
use disk_items::put_in_room;
use log_memory::{LastWrite, put_last_header};
use logged_steps::clean_blocks_are_last;
use shared_disk::SharedDisk;
use trace_text::TraceItem;

// From now on it answers no call.
fn leave(node: &mut Node) -> Result<(), Stop>
    ensures left { OnOk result (node.new ≡ record node.old { items = node.new.items; unmounts = true }) }
    ensures item { OnOk result (node.new.items.items ≡ node.old.items.items ++ TraceItem.Unmount 1 ∷ []) }
    ensures why { IfErr result (λ why. why ≡ Stop.NoMemory) }
    ensures same { OnErr result (node.new.items.items ≡ node.old.items.items) }
{
    match have_room(node, 1) {
        Ok(()) => {}
        Err(why) => return Err(why),
    }
    put_in_room(&mut node.items, TraceItem::Unmount { node: 1 });
    node.unmounts = true;
    Ok(())
}

// It flushes what is due, and takes all that is live home.
fn make_ready<D: SharedDisk>(disk: &mut D, node: &mut Node) -> Result<(), Stop>
    requires resting { IsResting (D.state disk.old) node.old }
    requires mounted { node.old.unmounts ≡ false }
    requires sequence { node.old.log.sequence + 2 < 2 ^ 64 }
    ensures ready { OnOk result (IsReady (D.state disk.old) (D.list disk.old) node.old (D.state disk.new) (D.list disk.new) node.new) }
    ensures stopped { IfErr result (StopsLeaving (D.state disk.old) (D.list disk.old) node.old (D.state disk.new) (D.list disk.new) node.new.items.items) }
    ensures ends { LeavesBySteps (D.state disk.old) (D.list disk.old) node.old (D.state disk.new) (D.list disk.new) node.new.items.items }
    ensures crashes { IfErr result (StopsByCrash (crash_at node.old) node.new.items.items) }
    ensures later { (i : ℕ) → D.faults disk.old i ≤ D.faults disk.new i }
    ensures cause { IfErr result (HasCause (D.state disk.old).count (D.faults disk.old) (D.faults disk.new)) }
{
    match leave(node) {
        Ok(()) => {}
        Err(why) => return Err(why),
    }
    match bring_in(disk, node) {
        Ok(()) => {}
        Err(why) => return Err(why),
    }
    go_home(disk, node)
}

// Fills the node's block with the last header of its journal, and tells where it goes.
fn fill_last(node: &mut Node) -> LastWrite
    requires size { length node.old.block.items ≡ node.old.log.journal.size }
    requires sequence { node.old.log.sequence + 1 < 2 ^ 64 }
    ensures node { node.new ≡ record node.old { block = node.new.block } }
    ensures long { length node.new.block.items ≡ length node.old.block.items }
    ensures at { result ≡ record { block = block_at node.old.log.journal (first_place node.old.log); sequence = after node.old.log.sequence } }
    ensures last { IsLastHeader node.old.log node.new.block.items }
    ensures put { node.new.block.items ≡ log_put (last_header node.old.log) (zeros node.old.log.journal.size) }
{
    clean_blocks_are_last();
    put_last_header(&node.log, &mut node.block)
}

// Writes it, and makes a barrier.
fn write_last<D: SharedDisk>(disk: &mut D, node: &mut Node) -> Result<(), Stop>
    requires resting { IsResting (D.state disk.old) node.old }
    requires done { IsDone (state_of (point_of (D.state disk.old) (D.list disk.old) node.old)) }
    requires sequence { node.old.log.sequence + 1 < 2 ^ 64 }
    ensures written { OnOk result (HasLastHeader (point_of (D.state disk.old) (D.list disk.old) node.old) (D.state disk.new) (D.list disk.new) node.new.items.items) }
    ensures armed { OnOk result (crash_at node.new ≡ crash_at node.old) }
    ensures awaits { OnOk result (Awaits node.new.armed) }
    ensures stopped { IfErr result (StopsAtHeader (point_of (D.state disk.old) (D.list disk.old) node.old) (crash_at node.old) (D.state disk.new) (D.list disk.new) node.new.items.items) }
    ensures later { (i : ℕ) → D.faults disk.old i ≤ D.faults disk.new i }
    ensures cause { IfErr result (HasCause (D.state disk.old).count (D.faults disk.old) (D.faults disk.new)) }
{
    match have_room(node, 2) {
        Ok(()) => {}
        Err(why) => return Err(why),
    }
    let LastWrite { block, sequence } = fill_last(node);
    let upto = node.numbers.answered;
    let item = TraceItem::WriteClean {
        node: 1,
        block,
        sequence,
        upto,
    };
    match put_write(disk, node, block, item) {
        Ok(()) => {}
        Err(why) => return Err(why),
    }
    put_barrier(disk, node)
}

/// Unmounts a node at rest: it brings all that is due into its journal, takes all that is live home, and ends its journal by a clean header, which has the number of
/// the last call, and a barrier. A journal that was never written to keeps the header that it has. Costs what `bring_in` and `go_home` cost, a write and a barrier.
pub fn unmount<D: SharedDisk>(disk: &mut D, node: &mut Node) -> Result<(), Stop>
    requires resting { IsResting (D.state disk.old) node.old }
    requires mounted { node.old.unmounts ≡ false }
    requires sequence { node.old.log.sequence + 3 < 2 ^ 64 }
    ensures unmounted { OnOk result (HasUnmounted (D.state disk.old) (D.list disk.old) node.old (D.state disk.new) (D.list disk.new) node.new.items.items) }
    ensures armed { OnOk result (crash_at node.new ≡ crash_at node.old) }
    ensures awaits { OnOk result (Awaits node.new.armed) }
    ensures stopped { IfErr result (StopsLeaving (D.state disk.old) (D.list disk.old) node.old (D.state disk.new) (D.list disk.new) node.new.items.items) }
    ensures ends { LeavesBySteps (D.state disk.old) (D.list disk.old) node.old (D.state disk.new) (D.list disk.new) node.new.items.items }
    ensures crashes { IfErr result (StopsByCrash (crash_at node.old) node.new.items.items) }
    ensures later { (i : ℕ) → D.faults disk.old i ≤ D.faults disk.new i }
    ensures cause { IfErr result (HasCause (D.state disk.old).count (D.faults disk.old) (D.faults disk.new)) }
{
    match make_ready(disk, node) {
        Ok(()) => {}
        Err(why) => return Err(why),
    }
    if node.log.is_clean() {
        Ok(())
    } else {
        write_last(disk, node)
    }
}
