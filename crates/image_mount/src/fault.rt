use crate::Field;
use image_reader::ImageFault;
use no_memory::NoMemory;
use std::alloc::{AllocError, AllocFailed};

/// Why an image was not mounted.
#[derive(Clone, Copy, Debug, PartialEq, Eq)]
pub enum MountFault {
    /// This field has this value, and is outside the profile.
    NotProfile { field: Field, value: u64 },
    /// This block breaks the rule of this number.
    Damaged { block: u64, rule: u16 },
    /// The disk failed at this block, and its count for the run's own calls rose so.
    DeviceFault { block: u64, before: u64, after: u64 },
    NoMemory,
}

impl From<NoMemory> for MountFault {
    ghost use Rattle.std.specs.Prelude.{◌≡◌};
    ghost use Rattle.image_mount.specs.declared.fault.MountFault.TheVariants.{NoMemory};

    ghost from_gives = { λ _ fault. fault ≡ NoMemory };

    fn from(_: NoMemory) -> Self {
        MountFault::NoMemory
    }
}

impl From<ImageFault> for MountFault {
    ghost use Rattle.std.specs.Prelude.{◌≡◌};
    ghost use Rattle.image_mount.specs.Refusals.{of_image};

    ghost from_gives = { λ found fault. fault ≡ of_image found };

    fn from(found: ImageFault) -> Self {
        match found {
            ImageFault::Damaged { block, rule } => MountFault::Damaged { block, rule },
            ImageFault::NoMemory => MountFault::NoMemory,
        }
    }
}

impl From<AllocError> for MountFault {
    ghost use Rattle.std.specs.Prelude.{◌≡◌};
    ghost use Rattle.image_mount.specs.declared.fault.MountFault.TheVariants.{NoMemory};

    ghost from_gives = { λ _ fault. fault ≡ NoMemory };

    fn from(_: AllocError) -> Self {
        MountFault::NoMemory
    }
}

impl<T: Drop> From<AllocFailed<T>> for MountFault {
    ghost use Rattle.std.specs.Prelude.{◌≡◌};
    ghost use Rattle.image_mount.specs.declared.fault.MountFault.TheVariants.{NoMemory};

    ghost from_gives = { λ _ fault. fault ≡ NoMemory };

    fn from(_: AllocFailed<T>) -> Self {
        MountFault::NoMemory
    }
}
