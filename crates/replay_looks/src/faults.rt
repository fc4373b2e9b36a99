ghost use Rattle.std.specs.Prelude.{◌≡◌, ◌<◌, length};
ghost use Rattle.journal_plans.specs.Plans.{IfBadChunk};
ghost use Rattle.replay_looks.specs.Looks.{told_of};

use fault_counts::Rise;
use journal_plans::PlanFault;

/// Why a journal isn't replayed.
#[derive(Clone, Copy, Debug, PartialEq, Eq)]
pub enum LookFault {
    /// The disk failed to read this block, and the node's count of faults rose so.
    DiskFailed { block: u64, rise: Rise },
    /// This block breaks the rule of this number.
    Damaged { block: u64, rule: u16 },
    /// There was no memory.
    NoMemory,
}

// The fault of a journal without a plan, by the block of its dinode and those of its places.
pub(crate) fn told(fault: PlanFault, dinode: u64, blocks: &[u64]) -> LookFault
    requires { IfBadChunk (λ place. place < length blocks.now) fault }
    ensures { result ≡ told_of dinode blocks.now fault }
{
    match fault {
        PlanFault::DiskFailed { block, rise } => LookFault::DiskFailed { block, rise },
        PlanFault::NoHeader => LookFault::Damaged {
            block: dinode,
            rule: 16,
        },
        PlanFault::BadChunk(place) => LookFault::Damaged {
            block: blocks[place as usize],
            rule: 17,
        },
        PlanFault::NoMemory => LookFault::NoMemory,
    }
}
