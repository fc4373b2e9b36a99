//! A draft that adds a name to a directory which may get blocks for it.
ghost use Rattle.directory_changes.specs.Growing.{GrowingMakes};

/// A law: a draft that makes of a directory one with a record more, in whatever blocks of it, puts the dinode of a new inode in a block that was
/// free, and the groups that say so, makes what a call should that adds the name.
pub fn drafts_grow_directories()
    ensures { GrowingMakes }
{}
