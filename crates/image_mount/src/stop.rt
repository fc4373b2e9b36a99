ghost use Rattle.std.specs.Prelude.{◌≡◌};
ghost use Rattle.image_mount.specs.declared.fault.MountFault.TheVariants as fault;

use crate::fault::MountFault;
use crate::field::Field;
use glock_names::{CallFault, Missing};
use no_memory::NoMemory;
use std::alloc::{AllocError, AllocFailed};

/// Why a search in the blocks that are kept stopped: the image is refused, or a block is to be read before it goes on,
/// whose number stands in block `from`.
#[derive(Clone, Copy, Debug, PartialEq, Eq)]
pub(crate) enum Stop {
    Refused(MountFault),
    Reads { block: u64, from: u64 },
}

/// The fault of a block that breaks a rule.
pub(crate) fn damaged(block: u64, rule: u16) -> MountFault
    ensures { result ≡ fault.Damaged block rule }
{
    MountFault::Damaged { block, rule }
}

/// The fault of a field that is outside the profile.
pub(crate) fn outside(field: Field, value: u64) -> MountFault
    ensures { result ≡ fault.NotProfile field value }
{
    MountFault::NotProfile { field, value }
}

/// A call over a view needs this block.
pub(crate) fn reads(missing: &Missing) -> Stop
    ensures { result ≡ Stop.Reads missing.now.block missing.now.from }
{
    Stop::Reads {
        block: missing.block,
        from: missing.from,
    }
}

impl From<MountFault> for Stop {
    ghost use Rattle.std.specs.Prelude.{◌≡◌};
    ghost use Rattle.image_mount.specs.declared.stop.Stop.TheVariants.{Refused};

    ghost from_gives = { λ fault stop. stop ≡ Refused fault };

    fn from(fault: MountFault) -> Self {
        Stop::Refused(fault)
    }
}

impl From<CallFault> for Stop {
    ghost use Rattle.std.specs.Prelude.{◌≡◌};
    ghost use Rattle.image_mount.specs.Searching.{of_call};
    ghost use Rattle.image_mount.specs.declared.stop.Stop.TheVariants.{Refused};

    ghost from_gives = { λ call stop. stop ≡ Refused (of_call call) };

    fn from(call: CallFault) -> Self {
        match call {
            CallFault::Damaged { block, rule } => Stop::Refused(damaged(block, rule)),
            CallFault::NoMemory => Stop::Refused(MountFault::NoMemory),
        }
    }
}

impl From<NoMemory> for Stop {
    ghost use Rattle.std.specs.Prelude.{◌≡◌};
    ghost use Rattle.image_mount.specs.declared.fault.MountFault.TheVariants.{NoMemory};
    ghost use Rattle.image_mount.specs.declared.stop.Stop.TheVariants.{Refused};

    ghost from_gives = { λ _ stop. stop ≡ Refused NoMemory };

    fn from(_: NoMemory) -> Self {
        Stop::Refused(MountFault::NoMemory)
    }
}

impl From<AllocError> for Stop {
    ghost use Rattle.std.specs.Prelude.{◌≡◌};
    ghost use Rattle.image_mount.specs.declared.fault.MountFault.TheVariants.{NoMemory};
    ghost use Rattle.image_mount.specs.declared.stop.Stop.TheVariants.{Refused};

    ghost from_gives = { λ _ stop. stop ≡ Refused NoMemory };

    fn from(_: AllocError) -> Self {
        Stop::Refused(MountFault::NoMemory)
    }
}

impl<T: Drop> From<AllocFailed<T>> for Stop {
    ghost use Rattle.std.specs.Prelude.{◌≡◌};
    ghost use Rattle.image_mount.specs.declared.fault.MountFault.TheVariants.{NoMemory};
    ghost use Rattle.image_mount.specs.declared.stop.Stop.TheVariants.{Refused};

    ghost from_gives = { λ _ stop. stop ≡ Refused NoMemory };

    fn from(_: AllocFailed<T>) -> Self {
        Stop::Refused(MountFault::NoMemory)
    }
}
