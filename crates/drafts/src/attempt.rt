use crate::Change;
use file_tree::Reply;
use glock_names::{LockName, Missing, State};

/// What a try of a call over a view gives.
#[derive(Drop)]
pub enum Attempt {
    /// The call is answered, and this is what it changes.
    Done { reply: Reply, change: Change },
    /// This lock isn't held so strongly.
    NeedLock { lock: LockName, state: State },
    /// This block isn't in the view.
    NeedBlock(Missing),
    /// Every group is held exclusive, and has fewer free blocks, `free` in all, than the call takes.
    NoSpace { need: u64, free: u64 },
    /// The call would be answered `Ok`, but can't be carried out on what stands there, and no look of it told a rule: so only on an image that stands
    /// for no tree.
    NotBuilt,
}
