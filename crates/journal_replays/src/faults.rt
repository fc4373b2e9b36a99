ghost use Rattle.std.specs.Prelude.{◌≡◌};

use fault_counts::Rise;
use no_memory::NoMemory as OutOfMemory;
use std::alloc::AllocError;

/// Why a journal was not replayed.
#[derive(Clone, Copy, Debug, PartialEq, Eq)]
pub enum ReplayFault {
    /// The disk failed in the write of this block, or, without one, in a barrier, and the node's count of faults rose so.
    DiskFailed { block: Option<u64>, rise: Rise },
    /// The node crashed behind the write at which it was to.
    Crashed,
    /// There was no memory.
    NoMemory,
}

impl From<OutOfMemory> for ReplayFault {
    ghost use Rattle.std.specs.Prelude.{◌≡◌};
    ghost use Rattle.journal_replays.specs.declared.faults.ReplayFault.TheVariants.{NoMemory};

    ghost from_gives = { λ _ fault. fault ≡ NoMemory };

    fn from(_: OutOfMemory) -> Self {
        ReplayFault::NoMemory
    }
}

impl From<AllocError> for ReplayFault {
    ghost use Rattle.std.specs.Prelude.{◌≡◌};
    ghost use Rattle.journal_replays.specs.declared.faults.ReplayFault.TheVariants.{NoMemory};

    ghost from_gives = { λ _ fault. fault ≡ NoMemory };

    fn from(_: AllocError) -> Self {
        ReplayFault::NoMemory
    }
}
