//! A draft that changes a file's content and its blocks.
ghost use Rattle.draft_changes.specs.Resizing.{FreeBlocksAreNew, FreedGroupsSay, ResizingMakes, TakenGroupsSay};

/// A law: a draft that makes of a file another sound one, which has taken blocks that were free and given back some of its own, and
/// that puts the groups that say so, makes what a call should that changes the file's content, where the file's lock is held
/// exclusive.
pub fn drafts_resize_files()
    ensures { ResizingMakes }
{}

/// A law: a block that its group's bits say is free is no inode's, isn't block 0, and is one of the image's.
pub fn free_blocks_are_new()
    ensures { FreeBlocksAreNew }
{}

/// A law: where blocks are taken or freed over a draft that puts no header and no bitmap of a group, each group that has some of them
/// says so in the image with the draft, by blocks that are put under its lock.
pub fn groups_say_what_is_taken()
    ensures taken { TakenGroupsSay }
    ensures freed { FreedGroupsSay }
{}
