use fault_counts::Rise;

/// Why a run ended before its script did, or isn't told to its end.
#[derive(Clone, Copy, Debug, PartialEq, Eq)]
pub enum RunEnd {
    /// The disk failed as node 1 read this block for the call of the next line, and the node's count rose so.
    ReadFailed { block: u64, rise: Rise },
    /// The disk failed in a write of node 1 to this block, or in a barrier, and the node's count rose so.
    WriteFailed { block: Option<u64>, rise: Rise },
    /// The node crashed, the disk failed in its fence, and the run's own count rose so.
    NotFenced { rise: Rise },
    /// The node crashed and was fenced, the disk failed as the run read this block of its journal, and the run's own count rose so.
    HeadUnread { block: u64, rise: Rise },
    /// This block breaks this rule.
    Damaged { block: u64, rule: u16 },
    /// The call of this line, by its place from 0, isn't built for what stands there.
    NotBuilt { line: usize },
    /// The log has no room for what the call of this line changes.
    LogTooSmall { line: usize },
    /// What the call of this line changes isn't a change that a log takes.
    NotLoggable { line: usize },
    NoMemory,
}
