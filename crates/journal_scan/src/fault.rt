ghost use Rattle.std.specs.Prelude.{◌≡◌};

use no_memory::NoMemory;
use std::alloc::{AllocError, AllocFailed};

/// Why a journal isn't read.
#[derive(Clone, Copy, Debug, PartialEq, Eq)]
pub enum ScanFault {
    /// No place has a header that is accepted.
    NoHeader,
    /// What stands at this place, between the tail and the head, may not stand there.
    BadChunk(u32),
    NoMemory,
}

impl From<NoMemory> for ScanFault {
    ghost use Rattle.journal_scan.specs.declared.fault.ScanFault.TheVariants.{NoMemory as Lacking};

    ghost from_gives = { λ _ fault. fault ≡ Lacking };

    fn from(_: NoMemory) -> Self {
        ScanFault::NoMemory
    }
}

impl From<AllocError> for ScanFault {
    ghost use Rattle.journal_scan.specs.declared.fault.ScanFault.TheVariants.{NoMemory as Lacking};

    ghost from_gives = { λ _ fault. fault ≡ Lacking };

    fn from(_: AllocError) -> Self {
        ScanFault::NoMemory
    }
}

impl<T: Drop> From<AllocFailed<T>> for ScanFault {
    ghost use Rattle.journal_scan.specs.declared.fault.ScanFault.TheVariants.{NoMemory as Lacking};

    ghost from_gives = { λ _ fault. fault ≡ Lacking };

    fn from(_: AllocFailed<T>) -> Self {
        ScanFault::NoMemory
    }
}
