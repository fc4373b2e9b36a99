// The replay of all journals.
ghost use Rattle.std.specs.Prelude.{ℕ, ◌≡◌, ◌≤◌, ◌<◌, IfOk, OnOk, IfErr, length};
ghost use Rattle.gfs2_layout.specs.Device.{IsBlockSize};
ghost use Rattle.shared_disk.specs.Disk.{IsIdle};
ghost use Rattle.disk_turns.specs.Crashes.{Awaits};
ghost use Rattle.disk_turns.specs.Turns.{moment};
ghost use Rattle.journal_replays.specs.Crashes.{StopsByCrash, crash_of};
ghost use Rattle.journal_replays.specs.Faults.{HasCause, IfCrashed, IfDiskFailed, IfNoMemory};
ghost use Rattle.journal_replays.specs.Replays.{IsSameDisk};
ghost use Rattle.image_recovery.specs.Recoveries.{AreHeadersRead, CanReplayAll, HaveCrashed, HaveFailed, HaveReplayed, HaveReplayedSome};

use crate::read_back::headers_are_read;
use image_mount::JournalMap;
use journal_replays::{Plan, ReplayFault, replay_journal};
use shared_disk::SharedDisk;
use std::alloc::Global;
use trace_text::TraceItem;

/// Replays these journals of a mounted image by their plans, as a node on a disk at rest, by rising slot, which is the number of the journal and one:
/// each as `replay_journal` does it, at this time, in seconds. The items go behind `items`. For want of memory some journals are replayed, and of the
/// others nothing is done; where the disk fails, it is in the replay of one, and those before are replayed. Where the node is to crash behind a write, of which so
/// many are left with that one, it stops directly behind it, and its item is the last; else the answer is how many are left then. It costs what each of these costs.
pub fn replay_journals<D: SharedDisk>(
    alloc: Global,
    disk: &mut D,
    node: u8,
    journals: &[JournalMap],
    plans: &[Plan],
    time: u64,
    armed: Option<u64>,
    items: &mut Vec<TraceItem>,
) -> Result<Option<u64>, ReplayFault>
    requires node { node ≤ 8 }
    requires idle { IsIdle (D.state disk.old) }
    requires size { IsBlockSize (D.state disk.old).size }
    requires few { length plans.now < 256 }
    requires can { CanReplayAll (D.state disk.old) journals.now plans.now }
    requires awaits { Awaits armed }
    ensures replayed { OnOk result (HaveReplayed node time (moment (D.state disk.old) (D.list disk.old)) (moment (D.state disk.new) (D.list disk.new)) journals.now plans.now items.old.items items.new.items) }
    ensures headers { AreHeadersRead (D.state disk.old).size 1 time journals.now plans.now }
    ensures idle { OnOk result (IsIdle (D.state disk.new)) }
    ensures disk { OnOk result (IsSameDisk (D.state disk.old) (D.state disk.new)) }
    ensures failed { IfErr result (λ fault. IfDiskFailed fault (HaveFailed node time (moment (D.state disk.old) (D.list disk.old)) (moment (D.state disk.new) (D.list disk.new)) journals.now plans.now items.old.items items.new.items)) }
    ensures crashed { IfErr result (λ fault. IfCrashed fault (HaveCrashed node time (moment (D.state disk.old) (D.list disk.old)) (moment (D.state disk.new) (D.list disk.new)) journals.now plans.now items.old.items items.new.items)) }
    ensures left { IfOk result (λ left. crash_of node left items.new.items ≡ crash_of node armed items.old.items) }
    ensures awaits { IfOk result Awaits }
    ensures by_crash { IfErr result (StopsByCrash node (crash_of node armed items.old.items) items.new.items) }
    ensures some { IfErr result (λ fault. IfNoMemory fault (HaveReplayedSome node time (moment (D.state disk.old) (D.list disk.old)) (moment (D.state disk.new) (D.list disk.new)) journals.now plans.now items.old.items items.new.items)) }
    ensures later { (i : ℕ) → D.faults disk.old i ≤ D.faults disk.new i }
    ensures cause { IfErr result (HasCause node (D.state disk.old).count (D.faults disk.old) (D.faults disk.new)) }
{
    headers_are_read(disk.block_size(), journals, plans, time);
    let mut left = armed;
    for (place, plan) in plans.iter().enumerate() {
        let journal = &journals[place];
        left = match replay_journal(
            alloc,
            disk,
            node,
            place as u8 + 1,
            journal.dinode,
            &journal.blocks,
            plan,
            time,
            left,
            items,
        ) {
            Ok(left) => left,
            Err(fault) => return Err(fault),
        };
    }
    Ok(left)
}
