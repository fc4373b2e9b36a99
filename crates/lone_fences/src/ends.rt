ghost use Rattle.std.specs.Prelude.{◌≡◌};
ghost use Rattle.lone_fences.specs.Ends.{end_of};

use fault_counts::Rise;
use journal_reads::ReadFault;

/// Why a crashed node wasn't fenced, or isn't told of what it lost.
#[derive(Clone, Copy, Debug, PartialEq, Eq)]
pub enum FenceEnd {
    /// The disk failed in the fence, and the run's count of faults rose so.
    NotFenced { rise: Rise },
    /// Behind the fence the disk failed as the run read this block of the journal, and its count rose so.
    ReadFailed { block: u64, rise: Rise },
    /// There was no memory.
    NoMemory,
}

/// The end where the journal was not read.
pub(crate) fn ended(fault: &ReadFault) -> FenceEnd
    ensures { result ≡ end_of fault.now }
{
    match fault {
        ReadFault::DiskFailed { block, rise } => FenceEnd::ReadFailed {
            block: *block,
            rise: *rise,
        },
        ReadFault::NoMemory => FenceEnd::NoMemory,
    }
}
