// How far the lines of a script are taken.
ghost use Rattle.std.specs.Prelude.{◌≡◌};
ghost use Rattle.logged_scripts.specs.Ends.{halt_at, halt_of};

use crate::ends::RunEnd;
use logged_calls::{CallEnd, Stop};

/// Why no more lines of a script are taken.
#[derive(Clone, Copy, Debug, PartialEq, Eq)]
pub(crate) enum Halt {
    /// All were, and the node unmounted.
    Unmounted,
    /// The node crashed at a line.
    AtLine,
    /// It crashed behind the write at which it was to.
    AtWrite,
    /// It ended before.
    Ended(RunEnd),
}

/// Why no more lines are taken by a node that stopped for this.
pub(crate) fn halt_of_stop(why: Stop) -> Halt
    ensures { result ≡ halt_of why }
{
    match why {
        Stop::Crashed => Halt::AtWrite,
        Stop::DiskFailed { block, rise } => Halt::Ended(RunEnd::WriteFailed { block, rise }),
        Stop::NoMemory => Halt::Ended(RunEnd::NoMemory),
    }
}

/// The same of a node that doesn't answer the call of this line for this.
pub(crate) fn halt_of_call(line: usize, end: CallEnd) -> Halt
    ensures { result ≡ halt_at line end }
{
    match end {
        CallEnd::Stopped(why) => halt_of_stop(why),
        CallEnd::ReadFailed { block, rise } => Halt::Ended(RunEnd::ReadFailed { block, rise }),
        CallEnd::Damaged { block, rule } => Halt::Ended(RunEnd::Damaged { block, rule }),
        CallEnd::NotBuilt => Halt::Ended(RunEnd::NotBuilt { line }),
        CallEnd::LogTooSmall => Halt::Ended(RunEnd::LogTooSmall { line }),
        CallEnd::NotLoggable => Halt::Ended(RunEnd::NotLoggable { line }),
    }
}
