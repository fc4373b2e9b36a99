//! What is told of a view, or of a draft over it, as what it is in an image that the view may be of.
ghost use Rattle.draft_changes.specs.Shown.{GroupsAreListed, HaveTheseBlocks, InodesStay, LaterShows, NoneHasTheFirst, ShowsBlocks, ShowsGroups, ShowsInodes};

/// A law: what a draft over a view shows of an inode, of blocks or of a group is that of the image with the draft, whichever
/// image that the view may be of it is; a later draft goes on from there, and leaves an inode of whose blocks it makes the same.
pub fn drafts_show_images()
    ensures inodes { ShowsInodes }
    ensures blocks { ShowsBlocks }
    ensures later { LaterShows }
    ensures stay { InodesStay }
    ensures groups { ShowsGroups }
{}

/// A law: the groups of a view are those that the image's list of groups has.
pub fn views_have_listed_groups()
    ensures { GroupsAreListed }
{}

/// A law: an inode that is no hashed directory has its dinode and those blocks to which its pointers lead, as their parts tell.
pub fn inodes_have_these_blocks()
    ensures these { HaveTheseBlocks }
    ensures none { NoneHasTheFirst }
{}
