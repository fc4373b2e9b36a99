/// A pointer on the way to the block of content with an index: the block in which it stands, how many levels above
/// content that stands to which it leads, and the index among the blocks of content below that one.
#[derive(Clone, Copy)]
pub(crate) struct Way {
    pub from: u64,
    pub level: u16,
    pub index: u64,
    pub left: u64,
}

/// A pointer that leads to a block.
#[derive(Clone, Copy)]
pub(crate) struct Link {
    pub way: Way,
    pub block: u64,
}
