// A crashed node is fenced.
ghost use Rattle.std.specs.Prelude.{ℕ, ◌≡◌, ◌<◌, ◌≤◌, ◌^◌, OnOk, OnErr, IfErr, false, length};
ghost use Rattle.std.specs.List.{All};
ghost use Rattle.fault_counts.specs.Causes.{WentUp};
ghost use Rattle.gfs2_layout.specs.Device.{IsBlockSize};
ghost use Rattle.lone_fences.specs.Ends.{HasCause};
ghost use Rattle.lone_fences.specs.Fencing.{EndsAt, HasFenced, IsFenced};

use crate::ends::{FenceEnd, ended};
use crate::heads::left_head;
use disk_items::put_in_room;
use fault_counts::Rise;
use lost_calls::{kept_number, upto_of};
use shared_disk::{Settle, SharedDisk};
use std::alloc::Global;
use trace_text::TraceItem;

// Fences node 1.
fn fence_node<D: SharedDisk>(disk: &mut D, order: Settle) -> Result<(), Rise>
    ensures fenced { OnOk result (IsFenced (D.state disk.old) (D.list disk.old) (D.state disk.new) (D.list disk.new)) }
    ensures same { OnErr result ((D.state disk.new ≡ D.state disk.old) × (D.list disk.new ≡ D.list disk.old)) }
    ensures later { (i : ℕ) → D.faults disk.old i ≤ D.faults disk.new i }
    ensures cause { IfErr result (λ rise. WentUp (D.faults disk.old 0) (D.faults disk.new 0) rise.before rise.after) }
{
    let before = disk.faults(0);
    match disk.fence(1, order) {
        Ok(()) => Ok(()),
        Err(_) => Err(Rise {
            before,
            after: disk.faults(0),
        }),
    }
}

/// Node 1 has crashed, whose journal has these blocks at its places: the item of that comes behind `items`; the node is fenced, where its writes in flight are settled by `order`, and that is
/// told; and then what it lost, by the head that its journal has behind the fence, where the head had the sequence `first` as the node's own headers began. Where it ends before that, the items
/// are those of what was done. It costs a read for each place of the journal, and memory for it and for three items; and it goes over the items five times.
pub fn fence_crashed<D: SharedDisk>(
    alloc: Global,
    disk: &mut D,
    order: Settle,
    journal: &[u64],
    first: u64,
    items: &mut Vec<TraceItem>,
) -> Result<(), FenceEnd>
    requires size { IsBlockSize (D.state disk.old).size }
    requires free { (D.state disk.old).is_fenced 0 ≡ false }
    requires inside { All (λ b. b < (D.state disk.old).count) journal.now }
    requires few { length journal.now < 2 ^ 32 }
    ensures fenced { OnOk result (HasFenced (D.state disk.old) (D.list disk.old) items.old.items journal.now first (D.state disk.new) (D.list disk.new) items.new.items) }
    ensures ends { IfErr result (EndsAt (D.state disk.old) (D.list disk.old) items.old.items (D.state disk.new) (D.list disk.new) items.new.items) }
    ensures later { (i : ℕ) → D.faults disk.old i ≤ D.faults disk.new i }
    ensures cause { IfErr result (HasCause journal.now (D.faults disk.old) (D.faults disk.new)) }
{
    match items.reserve(3) {
        Ok(()) => {}
        Err(_) => return Err(FenceEnd::NoMemory),
    }
    put_in_room(items, TraceItem::Crash { node: 1 });
    match fence_node(disk, order) {
        Ok(()) => {}
        Err(rise) => return Err(FenceEnd::NotFenced { rise }),
    }
    put_in_room(items, TraceItem::Fence { node: 1 });
    let head = match left_head(alloc, disk, journal) {
        Ok(head) => head,
        Err(fault) => return Err(ended(&fault)),
    };
    let upto = upto_of(items, &head, first);
    let kept = kept_number(items, upto);
    put_in_room(items, TraceItem::Lost { node: 1, kept });
    Ok(())
}
