/// Where a transaction goes, and what its header tells.
#[derive(Clone, Copy, Debug, PartialEq, Eq)]
pub struct Place {
    /// The number of the journal.
    pub jid: u32,
    /// How many places the journal has.
    pub length: u32,
    /// The place of the first block.
    pub first: u32,
    /// The tail that the header tells.
    pub tail: u32,
    /// The sequence of the header.
    pub sequence: u64,
    /// The block of the header's place.
    pub head_addr: u64,
    /// The block of the journal's dinode.
    pub jinode: u64,
    /// When it is written, in seconds.
    pub time: u64,
}
