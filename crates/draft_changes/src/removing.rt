//! A draft that removes a name.
ghost use Rattle.draft_changes.specs.Removing.{RemovingMakes};

/// A law: a draft that puts a directory with one record less, frees all blocks of the inode that the record named, and puts the
/// groups that say so, makes what a call should that removes the name, where the inode's lock is held exclusive.
pub fn drafts_remove_names()
    ensures { RemovingMakes }
{}
