// The journals that a run leaves not clean.
ghost use Rattle.std.specs.Prelude.{ℕ, ◌≡◌, ◌≤◌, IfOk, IfErr, IsTrue, false};
ghost use Rattle.std.specs.List.{list_any};
ghost use Rattle.gfs2_layout.specs.Device.{IsBlockSize};
ghost use Rattle.shared_disk.specs.Disk.{ReadsOnly};
ghost use Rattle.run_reports.specs.Out.{is_stop as counts_as_stop};
ghost use Rattle.cluster_program.specs.EndStatuses.{status_of_read};
ghost use Rattle.cluster_program.specs.Dirty.{IsUnreadHead, dirty_on};
ghost use Rattle.cluster_program.specs.Mounting.{ArePlaced};

use crate::end_status::device_fault;
use image_mount::JournalMap;
use journal_reads::ReadFault;
use lone_fences::left_head;
use run_reports::Status;
use shared_disk::SharedDisk;
use std::alloc::Global;
use trace_text::TraceItem;

// It is a crash or a withdrawal.
fn is_stop(item: &TraceItem) -> bool
    ensures { result ≡ counts_as_stop item.now }
{
    matches!(item, TraceItem::Crash { .. } | TraceItem::Withdraw { .. })
}

/// Whether a node has stopped.
pub(crate) fn has_stopped(items: &[TraceItem]) -> bool
    ensures { result ≡ list_any counts_as_stop items.now }
{
    items.iter().any(|item| is_stop(item))
}

// How the count ends that couldn't read a head.
fn unread(fault: ReadFault) -> Status
    ensures { result ≡ status_of_read fault }
{
    match fault {
        ReadFault::DiskFailed { block, rise } => device_fault(0, Some(block), rise),
        ReadFault::NoMemory => Status::NoMemory,
    }
}

/// How many of these journals have a head that isn't clean, as the run reads them. It costs a read for each place of each, and memory for one at a time.
pub(crate) fn count_dirty<D: SharedDisk>(
    alloc: Global,
    disk: &mut D,
    journals: &[JournalMap],
) -> Result<u64, Status>
    requires size { IsBlockSize (D.state disk.old).size }
    requires free { (D.state disk.old).is_fenced 0 ≡ false }
    requires placed { ArePlaced (D.state disk.old).count journals.now }
    ensures count { IfOk result (λ count. IsTrue (D.state disk.old).tells → count ≡ dirty_on (D.state disk.old) journals.now) }
    ensures ends { IfErr result (IsUnreadHead journals.now (D.faults disk.old 0) (D.faults disk.new 0)) }
    ensures reads { ReadsOnly (D.state disk.old) (D.state disk.new) (D.list disk.old) (D.list disk.new) (D.faults disk.old) (D.faults disk.new) }
{
    let mut dirty = 0;
    for journal in journals {
        match left_head(alloc, disk, &journal.blocks) {
            Ok(head) => dirty += u64::from(!head.is_clean),
            Err(fault) => return Err(unread(fault)),
        }
    }
    Ok(dirty)
}
