//! A draft that adds a name.
ghost use Rattle.draft_changes.specs.Adding.{AddingMakes};

/// A law: a draft that puts a directory with one record more, the dinode of a new inode in a block that was free, and the group that
/// says so, makes what a call should that adds the name.
pub fn drafts_add_names()
    ensures { AddingMakes }
{}
