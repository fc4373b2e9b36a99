ghost use Rattle.std.specs.Prelude.{◌≡◌};

use fault_counts::Rise;
use file_tree::NoMemory;
use image_reader::ImageFault;
use std::alloc::{AllocError, AllocFailed};

/// Why the tree of a disk was not read.
#[derive(Clone, Copy, Debug, PartialEq, Eq)]
pub enum TreeFault {
    /// This block breaks the rule of this number.
    Damaged { block: u64, rule: u16 },
    /// The disk failed to read this block, and its count of faults rose so.
    DiskFailed { block: u64, rise: Rise },
    /// There was no memory.
    NoMemory,
}

impl From<ImageFault> for TreeFault {
    ghost use Rattle.std.specs.Prelude.{◌≡◌};
    ghost use Rattle.disk_trees.specs.Answers.{fault_of};

    ghost from_gives = { λ fault told. told ≡ fault_of fault };

    fn from(fault: ImageFault) -> Self {
        match fault {
            ImageFault::Damaged { block, rule } => TreeFault::Damaged { block, rule },
            ImageFault::NoMemory => TreeFault::NoMemory,
        }
    }
}

impl From<NoMemory> for TreeFault {
    ghost use Rattle.std.specs.Prelude.{◌≡◌};
    ghost use Rattle.disk_trees.specs.declared.faults.TreeFault.TheVariants.{NoMemory};

    ghost from_gives = { λ _ fault. fault ≡ NoMemory };

    fn from(_: NoMemory) -> Self {
        TreeFault::NoMemory
    }
}

impl From<AllocError> for TreeFault {
    ghost use Rattle.std.specs.Prelude.{◌≡◌};
    ghost use Rattle.disk_trees.specs.declared.faults.TreeFault.TheVariants.{NoMemory};

    ghost from_gives = { λ _ fault. fault ≡ NoMemory };

    fn from(_: AllocError) -> Self {
        TreeFault::NoMemory
    }
}

impl<T: Drop> From<AllocFailed<T>> for TreeFault {
    ghost use Rattle.std.specs.Prelude.{◌≡◌};
    ghost use Rattle.disk_trees.specs.declared.faults.TreeFault.TheVariants.{NoMemory};

    ghost from_gives = { λ _ fault. fault ≡ NoMemory };

    fn from(_: AllocFailed<T>) -> Self {
        TreeFault::NoMemory
    }
}
