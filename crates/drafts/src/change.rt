use file_tree::Content;
use glock_names::LockName;

/// A block that is written, whole.
#[derive(Drop)]
pub struct Written {
    pub block: u64,
    /// Whether the block is content of a regular file.
    pub plain: bool,
    pub bytes: Content,
}

/// What a call changes on the disk.
#[derive(Drop)]
pub struct Change {
    /// The blocks that it writes, by rising number, none twice.
    pub blocks: Vec<Written>,
    /// At each place the lock that covers the block of that place afterwards.
    pub locks: Vec<LockName>,
    /// The blocks that it frees, by rising number; none of them is written.
    pub freed: Vec<u64>,
}

/// What a flush writes to a journal: blocks by rising number, none twice, and the blocks that it revokes, by rising number, none of
/// which is among them.
#[derive(Drop)]
pub struct Transaction {
    pub blocks: Vec<Written>,
    pub revokes: Vec<u64>,
}

/// Who makes a change, and when: the node, from 1, and the time that new times of inodes have, in seconds.
#[derive(Clone, Copy, Debug, PartialEq, Eq)]
pub struct Stamp {
    pub node: u8,
    pub time: u64,
}
