// What a try of a call that makes a name finds.
use drafts::Change;
use file_tree::Reply;
use glock_names::{LockName, Missing, State};

/// What a try finds.
#[derive(Drop)]
pub(crate) enum Found {
    /// The call is refused, with this reply.
    Refused(Reply),
    /// The name is made, with this change.
    Made(Change),
    /// This block isn't in the view.
    NeedBlock(Missing),
    /// The directory can't get the name, and no look of the call told a rule.
    NotBuilt,
    /// This lock isn't held so strongly.
    NeedLock { lock: LockName, state: State },
    /// Every group is held exclusive, and so many blocks are needed, and so many are free.
    NoSpace { need: u64, free: u64 },
}
