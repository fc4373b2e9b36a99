//! A draft that removes a name from a directory of any form.
ghost use Rattle.directory_changes.specs.Shrinking.{ShrinkingMakes};

/// A law: a draft that makes of a directory one with a record less, in the same blocks, frees all blocks of the inode, and makes the groups say so,
/// makes what a call should that removes the name.
pub fn drafts_shrink_directories()
    ensures { ShrinkingMakes }
{}
