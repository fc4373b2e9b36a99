// How a call ends that a node tries.
use drafts::Change;
use fault_counts::Rise;
use file_tree::Reply;
use no_memory::NoMemory;
use std::alloc::AllocError;

/// A call is answered so, and this is what it changes; or too few blocks are free for it: `free`, where it takes `need`.
#[derive(Drop)]
pub enum Answered {
    Done { reply: Reply, change: Change },
    Full { need: u64, free: u64 },
}

/// Why a call isn't answered.
#[derive(Clone, Copy, Debug, PartialEq, Eq)]
pub enum Unanswered {
    /// The disk failed in a read of this block, and the node's count rose so.
    DiskFailed { block: u64, rise: Rise },
    /// This block breaks this rule.
    Damaged { block: u64, rule: u16 },
    /// The call isn't built for what stands there.
    NotBuilt,
    NoMemory,
}

impl From<NoMemory> for Unanswered {
    ghost use Rattle.std.specs.Prelude.{◌≡◌};
    ghost use Rattle.lone_answers.specs.declared.answers.Unanswered.TheVariants.{NoMemory};

    ghost from_gives = { λ _ why. why ≡ NoMemory };

    fn from(_: NoMemory) -> Self {
        Unanswered::NoMemory
    }
}

impl From<AllocError> for Unanswered {
    ghost use Rattle.std.specs.Prelude.{◌≡◌};
    ghost use Rattle.lone_answers.specs.declared.answers.Unanswered.TheVariants.{NoMemory};

    ghost from_gives = { λ _ why. why ≡ NoMemory };

    fn from(_: AllocError) -> Self {
        Unanswered::NoMemory
    }
}
