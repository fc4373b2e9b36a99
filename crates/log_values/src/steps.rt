/// What a node is to do next for its log.
#[derive(Clone, Copy, Debug, PartialEq, Eq)]
pub enum LogStep {
    /// To write the block: in a flush one of the journal, on the way home one of the image.
    Write { block: u64 },
    /// To write a log header, of this sequence, to the block of its place in the journal.
    Head { block: u64, sequence: u64 },
    /// To make a barrier.
    Barrier,
    /// To bring live blocks home first: the journal has no room for what is to be flushed.
    NoRoom,
}
