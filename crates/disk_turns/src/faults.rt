use fault_counts::Rise;

/// Where a node stopped as it brought blocks to a disk: the disk failed, or the node crashed.
#[derive(Clone, Copy, Debug, PartialEq, Eq)]
pub struct TurnFault {
    /// The block whose write failed, or would have come next when the node crashed; none where a barrier did.
    pub block: Option<u64>,
    /// How the node's count of faults rose, or none where the node crashed.
    pub rise: Option<Rise>,
    /// How many of the blocks were on the disk: those of the turns before.
    pub on_disk: usize,
    /// How many writes of the turn had not failed.
    pub in_flight: usize,
}
