use fault_counts::Rise;

/// Why a node stops before it is through.
#[derive(Clone, Copy, Debug, PartialEq, Eq)]
pub enum Stop {
    /// It has made the write at which it is to crash.
    Crashed,
    /// The disk failed, at this block or at a barrier, and the node's count rose so.
    DiskFailed { block: Option<u64>, rise: Rise },
    NoMemory,
}
