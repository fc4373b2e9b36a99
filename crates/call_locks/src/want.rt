use glock_names::State;

/// The lock of an inode on a path of a call, and the state in which the call needs it.
#[derive(Clone, Copy, Debug, PartialEq, Eq)]
pub struct Want {
    /// Whether the inode is on the second path of a `rename`.
    pub second: bool,
    /// How many names lead from the root to the inode: 0 is the root, and as many as the path has names is the path's own inode.
    pub depth: u16,
    pub state: State,
}
