// A node's operations on the disk, with their items.
ghost use Rattle.std.specs.Prelude.{ℕ, ◌≡◌, ◌+◌, ◌<◌, ◌≤◌, None, Some, [], true, false, length, OnOk, IfErr};
ghost use Rattle.std.specs.Vec.{vec_capacity, vec_len};
ghost use Rattle.run_rules.specs.Follows.{is_write_of};
ghost use Rattle.shared_disk.specs.Disk.{flight_to};
ghost use Rattle.logged_steps.specs.Steps.{GainsBarrier, GainsWrite, with_barrier, with_write};
ghost use Rattle.logged_node.specs.Deeds.{IsLastWrite, IsNotLastWrite, MayBeWritten, one_less};
ghost use Rattle.logged_node.specs.Ends.{FailedAt, HasCause, IfCrashed, IfFailed, IfMade, IsOfDisk};
ghost use Rattle.logged_node.specs.Nodes.{Awaits, crash_at, point_of, writes_in};

use crate::ends::Stop;
use crate::node::Node;
use disk_items::put_in_room;
use fault_counts::Rise;
use shared_disk::SharedDisk;
use trace_text::TraceItem;

/// How many writes of a node may be in flight at once.
pub(crate) const MOST_IN_FLIGHT: usize = 512;

/// Makes room for so many items more.
pub(crate) fn have_room(node: &mut Node, count: usize) -> Result<(), Stop>
    ensures node { node.new ≡ record node.old { items = node.new.items } }
    ensures items { node.new.items.items ≡ node.old.items.items }
    ensures room { OnOk result (vec_len node.new.items + count ≤ vec_capacity node.new.items) }
    ensures why { IfErr result (λ why. why ≡ Stop.NoMemory) }
{
    match node.items.reserve(count) {
        Ok(()) => Ok(()),
        Err(_) => Err(Stop::NoMemory),
    }
}

// Counts a write: whether the node is to crash behind it.
fn counts_as_last(node: &mut Node) -> bool
    ensures last { result ≡ true → IsLastWrite node.old.armed }
    ensures before { result ≡ false → IsNotLastWrite node.old.armed }
    ensures same { node.new ≡ record node.old { armed = node.new.armed } }
    ensures less { result ≡ false → node.new.armed ≡ one_less node.old.armed }
{
    match node.armed {
        None => false,
        Some(left) if left > 1 => {
            node.armed = Some(left - 1);
            false
        }
        Some(_) => true,
    }
}

/// Puts a write of the node's block in flight, with its item. It takes no memory.
pub(crate) fn put_write<D: SharedDisk>(
    disk: &mut D,
    node: &mut Node,
    block: u64,
    item: TraceItem,
) -> Result<(), Stop>
    requires inside { block < (D.state disk.old).count }
    requires size { length node.old.block.items ≡ (D.state disk.old).size }
    requires free { flight_to ((D.state disk.old).in_flight 1) block ≡ None }
    requires few { length ((D.state disk.old).in_flight 1) < 512 }
    requires count { node.old.flying < 512 }
    requires open { (D.state disk.old).is_fenced 1 ≡ false }
    requires room { vec_len node.old.items < vec_capacity node.old.items }
    requires awaits { Awaits node.old.armed }
    requires item { is_write_of 1 item ≡ true }
    ensures made { IfMade result (point_of (D.state disk.new) (D.list disk.new) node.new ≡ with_write (point_of (D.state disk.old) (D.list disk.old) node.old) block node.old.block.items (D.list disk.new) node.old.log item) }
    ensures gains { IfMade result (GainsWrite (point_of (D.state disk.old) (D.list disk.old) node.old) block node.old.block.items (D.list disk.new)) }
    ensures node { IfMade result (node.new ≡ record node.old { items = node.new.items; flying = node.old.flying + 1; armed = node.new.armed }) }
    ensures room { OnOk result (vec_len node.new.items ≡ vec_len node.old.items + 1) }
    ensures capacity { OnOk result (vec_capacity node.old.items ≤ vec_capacity node.new.items) }
    ensures armed { OnOk result (crash_at node.new ≡ crash_at node.old) }
    ensures awaits { OnOk result (Awaits node.new.armed) }
    ensures crashed { IfErr result (λ why. IfCrashed why (crash_at node.old ≡ Some (writes_in node.new.items.items))) }
    ensures failed { IfErr result (λ why. IfFailed why (MayBeWritten (D.state disk.old) (D.list disk.old) block node.old.block.items (D.state disk.new) (D.list disk.new))) }
    ensures kept { IfErr result (λ why. IfFailed why (node.new.items.items ≡ node.old.items.items)) }
    ensures later { (i : ℕ) → D.faults disk.old i ≤ D.faults disk.new i }
    ensures at { IfErr result (λ why. FailedAt why (Some block)) }
    ensures cause { IfErr result (HasCause (D.state disk.old).count (D.faults disk.old) (D.faults disk.new)) }
{
    let before = disk.faults(1);
    match disk.write(1, block, &node.block) {
        Ok(()) => {}
        Err(_) => {
            return Err(Stop::DiskFailed {
                block: Some(block),
                rise: Rise {
                    before,
                    after: disk.faults(1),
                },
            });
        }
    }
    put_in_room(&mut node.items, item);
    node.flying += 1;
    if counts_as_last(node) {
        return Err(Stop::Crashed);
    }
    Ok(())
}

/// Makes a barrier, with its item. It takes no memory.
pub(crate) fn put_barrier<D: SharedDisk>(disk: &mut D, node: &mut Node) -> Result<(), Stop>
    requires open { (D.state disk.old).is_fenced 1 ≡ false }
    requires room { vec_len node.old.items < vec_capacity node.old.items }
    ensures made { OnOk result (point_of (D.state disk.new) (D.list disk.new) node.new ≡ with_barrier (point_of (D.state disk.old) (D.list disk.old) node.old) (D.list disk.new) node.old.log) }
    ensures gains { OnOk result (GainsBarrier (point_of (D.state disk.old) (D.list disk.old) node.old) (D.list disk.new)) }
    ensures node { OnOk result (node.new ≡ record node.old { items = node.new.items; flying = 0 }) }
    ensures none { OnOk result ((D.state disk.new).in_flight 1 ≡ []) }
    ensures room { OnOk result (vec_len node.new.items ≡ vec_len node.old.items + 1) }
    ensures capacity { OnOk result (vec_capacity node.old.items ≤ vec_capacity node.new.items) }
    ensures why { IfErr result (λ why. IsOfDisk why) }
    ensures failed { IfErr result (λ why. (D.state disk.new ≡ D.state disk.old) × (D.list disk.new ≡ D.list disk.old) × (node.new ≡ node.old)) }
    ensures later { (i : ℕ) → D.faults disk.old i ≤ D.faults disk.new i }
    ensures at { IfErr result (λ why. FailedAt why None) }
    ensures cause { IfErr result (HasCause (D.state disk.old).count (D.faults disk.old) (D.faults disk.new)) }
{
    let before = disk.faults(1);
    match disk.barrier(1) {
        Ok(()) => {}
        Err(_) => {
            return Err(Stop::DiskFailed {
                block: None,
                rise: Rise {
                    before,
                    after: disk.faults(1),
                },
            });
        }
    }
    put_in_room(&mut node.items, TraceItem::Barrier { node: 1 });
    node.flying = 0;
    Ok(())
}
