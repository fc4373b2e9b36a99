// What a try of a call that changes a file's content finds.
use drafts::Change;
use file_tree::Reply;
use glock_names::{LockName, Missing, State};

/// What a try finds.
#[derive(Drop)]
pub(crate) enum Found {
    /// The call is refused, with this reply.
    Refused(Reply),
    /// The file has its new content, with this change.
    Written(Change),
    /// This block isn't in the view.
    NeedBlock(Missing),
    /// The file isn't sound.
    NotBuilt,
    /// This lock isn't held so strongly.
    NeedLock { lock: LockName, state: State },
    /// So many blocks are needed, and so few are free.
    NoSpace { need: u64, free: u64 },
}
