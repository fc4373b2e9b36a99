// What a try of a call that moves a name finds at the ends of its paths.
use file_tree::Reply;
use glock_names::{LockName, Missing, State};
use pair_walks::Place;

/// What a try of a call that moves a name finds at the ends of its paths.
#[derive(Drop)]
pub enum Ends {
    /// The call is refused, with this reply.
    Refused(Reply),
    /// Both paths are that of an inode which is there, so nothing changes.
    Stays,
    /// The name of an inode is to move to a directory, of which what is above isn't told: where nothing stands at the new name, or an inode that goes, with
    /// these blocks.
    Moves {
        from: Place,
        to: Place,
        replaced: Option<Vec<u64>>,
    },
    /// This lock isn't held so strongly.
    NeedLock {
        lock: LockName,
        state: State,
    },
    /// This block isn't in the view.
    NeedBlock(Missing),
}
