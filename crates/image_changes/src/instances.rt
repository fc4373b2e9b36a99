//! The general law of a change of few blocks, and its four cases.
ghost use Rattle.image_changes.specs.Instances.{FileChanges, NameIsAdded, NameIsMoved, NameIsRemoved};
ghost use Rattle.image_changes.specs.Laws.{OthersStay, OwnLocks, StaysLaid, UntouchedStay};

/// A law: an image that is laid out right stays so under a change of few blocks, of which each touched inode, directory and
/// group is right and which keeps its names.
pub fn a_small_change_stays_laid()
    ensures { StaysLaid }
{}

/// A law: an inode that a change doesn't touch has what it had.
pub fn untouched_inodes_stay()
    ensures { UntouchedStay }
{}

/// A law: a block that a change neither writes nor frees has the bytes that it had, is under the lock that it was under, and is
/// free where it was.
pub fn other_blocks_stay()
    ensures { OthersStay }
{}

/// A law: with other content in a file, and perhaps other blocks for it, the image stands for the tree with that content.
pub fn a_file_changes()
    ensures { FileChanges }
{}

/// A law: with a name of a new inode in a directory, the image stands for the tree with it.
pub fn a_name_is_added()
    ensures { NameIsAdded }
{}

/// A law: without a name and its inode, the image stands for the tree without it.
pub fn a_name_is_removed()
    ensures { NameIsRemoved }
{}

/// A law: with a name moved, and what stood at its target removed, the image stands for the tree in which what was below the
/// old name is below the new one.
pub fn a_name_is_moved()
    ensures { NameIsMoved }
{}

/// A law: an inode at a path from the root, and a block that was free, is no journal's: its lock is that of its own number.
pub fn inodes_have_their_own_locks()
    ensures { OwnLocks }
{}
