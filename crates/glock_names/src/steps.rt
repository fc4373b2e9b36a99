ghost use Rattle.std.specs.Prelude.{◌≡◌};

use crate::LockName;
use no_memory::NoMemory;
use std::alloc::{AllocError, AllocFailed};

/// A block that a call needs and that the view hasn't.
#[derive(Clone, Copy, Debug, PartialEq, Eq)]
pub struct Missing {
    /// The lock that covers the block.
    pub lock: LockName,
    pub block: u64,
    /// Whether the block is content of a regular file.
    pub plain: bool,
    /// The block in which the number of this one stands, or this one itself where it is the dinode that the call names, or
    /// of a group's header and bitmap. Where the number leads out of the device or of every group's data blocks, that is the
    /// damaged block.
    pub from: u64,
}

/// The answer of a call over a view, or a block that the view has to have before the call can answer.
#[derive(Clone, Copy, Debug, PartialEq, Eq)]
pub enum Step<T> {
    Is(T),
    NeedBlock(Missing),
}

/// Why a call over a view gave no answer.
#[derive(Clone, Copy, Debug, PartialEq, Eq)]
pub enum CallFault {
    /// This block breaks the rule of this number.
    Damaged { block: u64, rule: u16 },
    /// There was no memory.
    NoMemory,
}

impl From<NoMemory> for CallFault {
    ghost use Rattle.std.specs.Prelude.{◌≡◌};
    ghost use Rattle.glock_names.specs.declared.steps.CallFault.TheVariants.{NoMemory};

    ghost from_gives = { λ _ fault. fault ≡ NoMemory };

    fn from(_: NoMemory) -> Self {
        CallFault::NoMemory
    }
}

impl From<AllocError> for CallFault {
    ghost use Rattle.std.specs.Prelude.{◌≡◌};
    ghost use Rattle.glock_names.specs.declared.steps.CallFault.TheVariants.{NoMemory};

    ghost from_gives = { λ _ fault. fault ≡ NoMemory };

    fn from(_: AllocError) -> Self {
        CallFault::NoMemory
    }
}

impl<T: Drop> From<AllocFailed<T>> for CallFault {
    ghost use Rattle.std.specs.Prelude.{◌≡◌};
    ghost use Rattle.glock_names.specs.declared.steps.CallFault.TheVariants.{NoMemory};

    ghost from_gives = { λ _ fault. fault ≡ NoMemory };

    fn from(_: AllocFailed<T>) -> Self {
        CallFault::NoMemory
    }
}

/// What a directory has under a name: the inode's formal number, the block of its dinode, and its kind, 4 for a directory
/// and 8 for a regular file.
#[derive(Clone, Copy, Debug, PartialEq, Eq)]
pub struct Entry {
    pub number: u64,
    pub addr: u64,
    pub kind: u16,
}
