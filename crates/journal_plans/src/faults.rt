ghost use Rattle.std.specs.Prelude.{◌≡◌};
ghost use Rattle.journal_plans.specs.Plans.{of_read as of_read_fault, of_scan as of_scan_fault};

use fault_counts::Rise;
use journal_reads::ReadFault;
use journal_scan::ScanFault;

/// Why a journal on a disk has no plan.
#[derive(Clone, Copy, Debug, PartialEq, Eq)]
pub enum PlanFault {
    /// The disk failed to read this block, and the node's count of faults rose so.
    DiskFailed { block: u64, rise: Rise },
    /// No place has a header that is accepted.
    NoHeader,
    /// What stands at this place, between the tail and the head, may not stand there.
    BadChunk(u32),
    /// There was no memory.
    NoMemory,
}

// The fault of a journal that was not read.
pub(crate) fn of_read(fault: ReadFault) -> PlanFault
    ensures { result ≡ of_read_fault fault }
{
    match fault {
        ReadFault::DiskFailed { block, rise } => PlanFault::DiskFailed { block, rise },
        ReadFault::NoMemory => PlanFault::NoMemory,
    }
}

// The fault of one that was read.
pub(crate) fn of_scan(fault: ScanFault) -> PlanFault
    ensures { result ≡ of_scan_fault fault }
{
    match fault {
        ScanFault::NoHeader => PlanFault::NoHeader,
        ScanFault::BadChunk(place) => PlanFault::BadChunk(place),
        ScanFault::NoMemory => PlanFault::NoMemory,
    }
}
