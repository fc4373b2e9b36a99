ghost use Rattle.std.specs.Prelude.{◌≡◌};

use no_memory::NoMemory;
use std::alloc::{AllocError, AllocFailed};

/// Why the journals of an image were not found.
#[derive(Clone, Copy, Debug, PartialEq, Eq)]
pub enum Unfound {
    /// Its system files are those of no image that stands for a tree.
    Broken,
    /// There was no memory.
    NoMemory,
}

impl From<NoMemory> for Unfound {
    ghost use Rattle.std.specs.Prelude.{◌≡◌};
    ghost use Rattle.image_journals.specs.declared.unfound.Unfound.TheVariants.{NoMemory};

    ghost from_gives = { λ _ fault. fault ≡ NoMemory };

    fn from(_: NoMemory) -> Self {
        Unfound::NoMemory
    }
}

impl From<AllocError> for Unfound {
    ghost use Rattle.std.specs.Prelude.{◌≡◌};
    ghost use Rattle.image_journals.specs.declared.unfound.Unfound.TheVariants.{NoMemory};

    ghost from_gives = { λ _ fault. fault ≡ NoMemory };

    fn from(_: AllocError) -> Self {
        Unfound::NoMemory
    }
}

impl<T: Drop> From<AllocFailed<T>> for Unfound {
    ghost use Rattle.std.specs.Prelude.{◌≡◌};
    ghost use Rattle.image_journals.specs.declared.unfound.Unfound.TheVariants.{NoMemory};

    ghost from_gives = { λ _ fault. fault ≡ NoMemory };

    fn from(_: AllocFailed<T>) -> Self {
        Unfound::NoMemory
    }
}
