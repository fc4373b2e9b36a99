use fault_counts::Rise;
use logged_scripts::RunEnd as ScriptEnd;
use no_memory::NoMemory;

/// Why a run ended before its script did, or isn't told to its end.
#[derive(Clone, Copy, Debug, PartialEq, Eq)]
pub enum RunEnd {
    /// The journal with its dinode in this block is none that node 1 can have on this disk: a place of it, or its dinode, is none of the disk's blocks, or two places are in one block; or it has fewer places than a
    /// journal has, or more, or its head is at none of them or has a sequence above 2^63. No image that was mounted has such a journal.
    Misplaced { dinode: u64 },
    /// The disk failed in the replay of a journal, in a write of node 1 to this block or in a barrier, and the node's count rose so.
    ReplayFailed { block: Option<u64>, rise: Rise },
    /// It ended so as its script was carried out, or behind a crash; or there was no memory.
    Script(ScriptEnd),
}

impl From<NoMemory> for RunEnd {
    ghost use Rattle.std.specs.Prelude.{◌≡◌};
    ghost use Rattle.logged_scripts.specs.declared.ends.RunEnd.TheVariants.{NoMemory};
    ghost use Rattle.lone_runs.specs.declared.ends.RunEnd.TheVariants.{Script};

    ghost from_gives = { λ _ end. end ≡ Script NoMemory };

    fn from(_: NoMemory) -> Self {
        RunEnd::Script(ScriptEnd::NoMemory)
    }
}
