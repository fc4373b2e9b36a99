//! Laws of paths: of inodes by their numbers, without blocks, what becomes of paths and of the tree that is read along them; and what
//! a walk along a path finds, and which names a directory has there.
ghost use Rattle.image_changes.specs.Flats.{FileRewritten, NameGone, NameLeads, Unreached};
ghost use Rattle.image_changes.specs.Walks.{DirectoriesListNames, PathsEnd, WalksEnd, WalksFind};

/// A law: where each inode is as before or no path leads to it, each path leads where it led, and the tree is the same.
pub fn unreached_inodes_do_not_matter()
    ensures { Unreached }
{}

/// A law: where a file gets other bytes, each path leads where it led, and the tree has the bytes at the file's.
pub fn a_file_is_rewritten()
    ensures { FileRewritten }
{}

/// A law: where a name is gone, each other path leads where it led, and the tree lacks what was there.
pub fn a_name_is_gone()
    ensures { NameGone }
{}

/// A law: where a name leads to another inode, each other path leads where it led, and the tree has there what that inode
/// reads as.
pub fn a_name_leads_to_a_tree()
    ensures { NameLeads }
{}

/// A law: in an image that stands for a tree, a walk to an inode's path finds the tree that the inode reads as.
pub fn walks_find_inodes()
    ensures { WalksFind }
{}

/// A law: where the next name leads nowhere, a walk that goes on is refused: as not found in a directory, as no directory in a
/// file.
pub fn walks_end_at_absent_names()
    ensures { WalksEnd }
{}

/// A law: a path of names ends with its last one, in the directory at its parent.
pub fn paths_end_with_a_name()
    ensures { PathsEnd }
{}

/// A law: in an image that stands for a tree, the names that a directory's records have are those of the tree's directory at its
/// path, in whatever order the records stand, and its dinode counts two more.
pub fn directories_list_their_names()
    ensures { DirectoriesListNames }
{}
