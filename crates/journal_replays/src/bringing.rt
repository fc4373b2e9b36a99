// Blocks that are brought to the disk, with their items.
ghost use Rattle.std.specs.Prelude.{ℕ, ◌≡◌, ◌*◌, ◌+◌, ◌≤◌, IfOk, OnOk, IfErr, IfNone, length};
ghost use Rattle.std.specs.Vec.{vec_capacity, vec_len};
ghost use Rattle.shared_disk.specs.Disk.{IsIdle};
ghost use Rattle.disk_turns.specs.Crashes.{Awaits};
ghost use Rattle.disk_turns.specs.Faults.{HasCause};
ghost use Rattle.disk_turns.specs.Turns.{moment};
ghost use Rattle.disk_turns.specs.Writing.{AreOfDisk};
ghost use Rattle.journal_replays.specs.Bringing.{HasBrought, HasCrashedBringing, HasStoppedBringing, StopsBringingByCrash};
ghost use Rattle.journal_replays.specs.Crashes.{crash_of};

use crate::items::{put_stopped, put_turns};
use disk_turns::{TurnFault, write_in_turns};
use drafts::Written;
use shared_disk::SharedDisk;
use trace_text::TraceItem;

/// Brings these blocks to the disk in turns, and puts the items of all that didn't fail where there is room for them. Where the node is to crash, and this brings it not so
/// far, the answer is how many writes are left until then.
pub(crate) fn bring<D: SharedDisk>(
    disk: &mut D,
    node: u8,
    blocks: &[Written],
    armed: Option<u64>,
    items: &mut Vec<TraceItem>,
) -> Result<Option<u64>, TurnFault>
    requires node { node ≤ 8 }
    requires idle { IsIdle (D.state disk.old) }
    requires of_disk { AreOfDisk (D.state disk.old) blocks.now }
    requires room { vec_len items.old + 2 * length blocks.now ≤ vec_capacity items.old }
    requires awaits { Awaits armed }
    ensures brought { OnOk result (HasBrought node (moment (D.state disk.old) (D.list disk.old)) (moment (D.state disk.new) (D.list disk.new)) blocks.now items.old.items items.new.items) }
    ensures stopped { IfErr result (λ fault. HasStoppedBringing node (moment (D.state disk.old) (D.list disk.old)) (moment (D.state disk.new) (D.list disk.new)) blocks.now items.old.items items.new.items fault.block) }
    ensures crashed { IfErr result (λ fault. IfNone fault.rise (HasCrashedBringing node (moment (D.state disk.old) (D.list disk.old)) (moment (D.state disk.new) (D.list disk.new)) blocks.now items.old.items items.new.items)) }
    ensures left { IfOk result (λ left. crash_of node left items.new.items ≡ crash_of node armed items.old.items) }
    ensures awaits { IfOk result Awaits }
    ensures by_crash { IfErr result (StopsBringingByCrash node (crash_of node armed items.old.items) items.new.items) }
    ensures len { OnOk result (vec_len items.new ≤ vec_len items.old + 2 * length blocks.now) }
    ensures capacity { OnOk result (vec_capacity items.old ≤ vec_capacity items.new) }
    ensures later { (i : ℕ) → D.faults disk.old i ≤ D.faults disk.new i }
    ensures cause { IfErr result (HasCause node (D.state disk.old).count (D.faults disk.old) (D.faults disk.new)) }
{
    match write_in_turns(disk, node, blocks, armed) {
        Ok(left) => {
            put_turns(items, node, blocks);
            Ok(left)
        }
        Err(fault) => {
            put_stopped(items, node, blocks, fault.on_disk, fault.in_flight);
            Err(fault)
        }
    }
}
