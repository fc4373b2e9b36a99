// Why a call isn't answered.
use fault_counts::Rise;
use logged_node::Stop;
use no_memory::NoMemory;

/// Why a call isn't answered.
#[derive(Clone, Copy, Debug, PartialEq, Eq)]
pub enum CallEnd {
    /// The node stopped as it flushed or took blocks home, or for want of memory.
    Stopped(Stop),
    /// The disk failed in a read of this block, and the node's count rose so.
    ReadFailed { block: u64, rise: Rise },
    /// This block breaks this rule.
    Damaged { block: u64, rule: u16 },
    /// The call isn't built for what stands there.
    NotBuilt,
    /// The log has no room for what the call changes, though all is flushed and home, and nothing live.
    LogTooSmall,
    /// What the call changes isn't a change that a log takes.
    NotLoggable,
}

impl From<NoMemory> for CallEnd {
    ghost use Rattle.std.specs.Prelude.{◌≡◌};
    ghost use Rattle.logged_node.specs.declared.ends.Stop.TheVariants.{NoMemory};
    ghost use Rattle.logged_calls.specs.declared.ends.CallEnd.TheVariants.{Stopped};

    ghost from_gives = { λ _ end. end ≡ Stopped NoMemory };

    fn from(_: NoMemory) -> Self {
        CallEnd::Stopped(Stop::NoMemory)
    }
}
