// A node that crashed is fenced.
ghost use Rattle.std.specs.Prelude.{ℕ, ◌≡◌, ◌<◌, ◌≤◌, ◌^◌, length, false, OnOk, IfErr};
ghost use Rattle.std.specs.List.{All};
ghost use Rattle.gfs2_layout.specs.Device.{IsBlockSize};
ghost use Rattle.lone_fences.specs.Fencing.{HasFenced};
ghost use Rattle.logged_scripts.specs.Ends.{EndsFenced, HasCause, end_of};

use crate::ends::RunEnd;
use logged_calls::Node;
use lone_fences::{FenceEnd, fence_crashed};
use shared_disk::{Settle, SharedDisk};
use std::alloc::Global;

/// How a run ends that comes to this end behind a crash.
pub fn end_of_fence(end: FenceEnd) -> RunEnd
    ensures { result ≡ end_of end }
{
    match end {
        FenceEnd::NotFenced { rise } => RunEnd::NotFenced { rise },
        FenceEnd::ReadFailed { block, rise } => RunEnd::HeadUnread { block, rise },
        FenceEnd::NoMemory => RunEnd::NoMemory,
    }
}

/// Fences the node, which crashed, and tells what it lost, as `fence_crashed` does.
pub(crate) fn fence<D: SharedDisk>(
    alloc: Global,
    disk: &mut D,
    node: &mut Node,
    order: Settle,
    journal: &[u64],
    first: u64,
) -> Result<(), RunEnd>
    requires size { IsBlockSize (D.state disk.old).size }
    requires free { (D.state disk.old).is_fenced 0 ≡ false }
    requires inside { All (λ b. b < (D.state disk.old).count) journal.now }
    requires few { length journal.now < 2 ^ 32 }
    ensures fenced { OnOk result (HasFenced (D.state disk.old) (D.list disk.old) node.old.items.items journal.now first (D.state disk.new) (D.list disk.new) node.new.items.items) }
    ensures ends { IfErr result (EndsFenced (D.state disk.old) (D.list disk.old) node.old.items.items (D.state disk.new) (D.list disk.new) node.new.items.items) }
    ensures later { (i : ℕ) → D.faults disk.old i ≤ D.faults disk.new i }
    ensures cause { IfErr result (HasCause (D.state disk.old).count journal.now (D.faults disk.old) (D.faults disk.new)) }
{
    match fence_crashed(alloc, disk, order, journal, first, &mut node.items) {
        Ok(()) => Ok(()),
        Err(end) => Err(end_of_fence(end)),
    }
}
