ghost use Rattle.std.specs.Prelude.{◌≡◌};

use file_tree::{Content, NoMemory};
use std::alloc::{AllocError, AllocFailed};

/// A disk image: blocks of one size, one after another.
#[derive(Drop)]
pub struct Image {
    /// How many bytes a block has: 512, 1,024, 2,048 or 4,096.
    pub block_size: u32,
    /// The blocks, each of them whole.
    pub bytes: Content,
}

/// Why an image was not read as a tree.
#[derive(Clone, Copy, Debug, PartialEq, Eq)]
pub enum ImageFault {
    /// This block breaks the rule of this number.
    Damaged { block: u64, rule: u16 },
    /// There was no memory.
    NoMemory,
}

impl From<NoMemory> for ImageFault {
    ghost use Rattle.std.specs.Prelude.{◌≡◌};
    ghost use Rattle.image_reader.specs.declared.image.ImageFault.TheVariants.{NoMemory};

    ghost from_gives = { λ _ fault. fault ≡ NoMemory };

    fn from(_: NoMemory) -> Self {
        ImageFault::NoMemory
    }
}

impl From<AllocError> for ImageFault {
    ghost use Rattle.std.specs.Prelude.{◌≡◌};
    ghost use Rattle.image_reader.specs.declared.image.ImageFault.TheVariants.{NoMemory};

    ghost from_gives = { λ _ fault. fault ≡ NoMemory };

    fn from(_: AllocError) -> Self {
        ImageFault::NoMemory
    }
}

impl<T: Drop> From<AllocFailed<T>> for ImageFault {
    ghost use Rattle.std.specs.Prelude.{◌≡◌};
    ghost use Rattle.image_reader.specs.declared.image.ImageFault.TheVariants.{NoMemory};

    ghost from_gives = { λ _ fault. fault ≡ NoMemory };

    fn from(_: AllocFailed<T>) -> Self {
        ImageFault::NoMemory
    }
}

/// The answer that a block breaks a rule.
pub(crate) fn damaged(block: u64, rule: u16) -> ImageFault
    ensures { result ≡ ImageFault.Damaged block rule }
{
    ImageFault::Damaged { block, rule }
}
