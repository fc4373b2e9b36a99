use file_tree::Content;
use glock_names::LockName;

/// What becomes of a block in a change.
#[derive(Drop)]
pub enum Fate {
    /// It has these bytes, and this lock covers it from then on; plain where it is content of a regular file.
    Put {
        lock: LockName,
        plain: bool,
        bytes: Content,
    },
    /// It is free.
    Freed,
}
