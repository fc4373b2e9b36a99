// What a try of a call that removes a name finds.
use drafts::Change;
use file_tree::Reply;
use glock_names::{LockName, Missing, State};

/// What a try finds.
#[derive(Drop)]
pub(crate) enum Found {
    /// The call is refused, with this reply.
    Refused(Reply),
    /// The name is gone, with this change.
    Removed(Change),
    /// This block isn't in the view.
    NeedBlock(Missing),
    /// This lock isn't held so strongly.
    NeedLock { lock: LockName, state: State },
}
