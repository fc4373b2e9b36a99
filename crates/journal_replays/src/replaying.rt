// The replay of one journal.
ghost use Rattle.std.specs.Prelude.{ℕ, ◌≡◌, ◌≤◌, IfOk, OnOk, IfErr};
ghost use Rattle.gfs2_layout.specs.Device.{IsBlockSize};
ghost use Rattle.shared_disk.specs.Disk.{IsIdle};
ghost use Rattle.disk_turns.specs.Crashes.{Awaits};
ghost use Rattle.disk_turns.specs.Turns.{moment};
ghost use Rattle.journal_replays.specs.Crashes.{HasCrashed, StopsByCrash, crash_of};
ghost use Rattle.journal_replays.specs.Faults.{HasCause, IfCrashed, IfDiskFailed, IfNoMemory, fault_of};
ghost use Rattle.journal_replays.specs.Headers.{IsHeaderRead};
ghost use Rattle.journal_replays.specs.Replays.{CanReplay, HasFailed, HasReplayed, IsSameDisk};

use crate::ReplayFault;
use crate::bringing::bring;
use crate::header::clean_block;
use crate::items::make_room;
use disk_items::put_in_room;
use disk_turns::TurnFault;
use peer_replay::Plan;
use shared_disk::SharedDisk;
use std::alloc::Global;
use trace_text::TraceItem;

// The fault of a node that stopped in a turn.
fn stopped(fault: &TurnFault) -> ReplayFault
    ensures { result ≡ fault_of fault.now }
{
    match fault.rise {
        Some(rise) => ReplayFault::DiskFailed {
            block: fault.block,
            rise,
        },
        None => ReplayFault::Crashed,
    }
}

/// Replays the journal of a slot, as a node on a disk at rest: given the block of its dinode and the block at each of its places, what its plan puts
/// home is brought to the disk, and then its clean header, which is written at this time, in seconds. A journal whose plan has no header
/// is passed over. The items of each write and barrier, and that the journal is recovered, go behind `items`. For want of memory nothing is
/// done; where the disk fails, the items are those of what didn't fail. Where the node is to crash behind a write, of which so many are left with that one, it stops
/// directly behind it, and its item is the last; else the answer is how many are left then. It costs a write for each block that goes home and one for
/// the header, a barrier for each turn of these, a block of memory, and memory for the items.
pub fn replay_journal<D: SharedDisk>(
    alloc: Global,
    disk: &mut D,
    node: u8,
    slot: u8,
    dinode: u64,
    blocks: &[u64],
    plan: &Plan,
    time: u64,
    armed: Option<u64>,
    items: &mut Vec<TraceItem>,
) -> Result<Option<u64>, ReplayFault>
    requires node { node ≤ 8 }
    requires idle { IsIdle (D.state disk.old) }
    requires size { IsBlockSize (D.state disk.old).size }
    requires can { CanReplay (D.state disk.old) blocks.now plan.now }
    requires awaits { Awaits armed }
    ensures replayed { OnOk result (HasReplayed node slot dinode blocks.now time (moment (D.state disk.old) (D.list disk.old)) (moment (D.state disk.new) (D.list disk.new)) plan.now items.old.items items.new.items) }
    ensures header { OnOk result (IsHeaderRead (D.state disk.old).size slot dinode blocks.now time plan.now.clean) }
    ensures idle { OnOk result (IsIdle (D.state disk.new)) }
    ensures disk { OnOk result (IsSameDisk (D.state disk.old) (D.state disk.new)) }
    ensures failed { IfErr result (λ fault. IfDiskFailed fault (HasFailed node slot dinode blocks.now time (moment (D.state disk.old) (D.list disk.old)) (moment (D.state disk.new) (D.list disk.new)) plan.now items.old.items items.new.items)) }
    ensures crashed { IfErr result (λ fault. IfCrashed fault (HasCrashed node slot dinode blocks.now time (moment (D.state disk.old) (D.list disk.old)) (moment (D.state disk.new) (D.list disk.new)) plan.now items.old.items items.new.items)) }
    ensures left { IfOk result (λ left. crash_of node left items.new.items ≡ crash_of node armed items.old.items) }
    ensures awaits { IfOk result Awaits }
    ensures by_crash { IfErr result (StopsByCrash node (crash_of node armed items.old.items) items.new.items) }
    ensures untouched { IfErr result (λ fault. IfNoMemory fault ((D.state disk.new ≡ D.state disk.old) × (D.list disk.new ≡ D.list disk.old) × (items.new.items ≡ items.old.items))) }
    ensures later { (i : ℕ) → D.faults disk.old i ≤ D.faults disk.new i }
    ensures cause { IfErr result (HasCause node (D.state disk.old).count (D.faults disk.old) (D.faults disk.new)) }
{
    let Some(header) = &plan.clean else {
        return Ok(armed);
    };
    let block = blocks[header.blkno as usize];
    let last = [clean_block(alloc, disk.block_size(), header, block, slot, dinode, time)?];
    make_room(items, plan.home.len())?;
    let behind = match bring(disk, node, &plan.home, armed, items) {
        Ok(left) => left,
        Err(fault) => return Err(stopped(&fault)),
    };
    let left = match bring(disk, node, &last, behind, items) {
        Ok(left) => left,
        Err(fault) => return Err(stopped(&fault)),
    };
    put_in_room(
        items,
        TraceItem::Recovered {
            node: slot,
            by: node,
        },
    );
    Ok(left)
}
