// What never changes of a node's journal.

/// A node's journal, as its log knows it.
#[derive(Drop, Debug)]
pub struct Journal {
    /// Its number.
    pub jid: u32,
    /// How many places it has.
    pub length: u32,
    /// The block that stands at each place.
    pub places: Vec<u64>,
    /// How many bytes a block has.
    pub block_size: u32,
    /// How many frames for blocks there are in memory.
    pub frames: u32,
    /// Its dinode.
    pub jinode: u64,
    /// The time that headers tell, in seconds.
    pub time: u64,
}
