//! A draft that moves a name, between directories of any form or within one.
ghost use Rattle.directory_changes.specs.Moving.{MovingMakes};

/// A law: a draft that takes a name's record from one directory and makes it in another, which may get blocks for it, or in the same one, frees all
/// blocks of what stood at the target, puts the `..` of a directory that gets another parent, and makes the groups say so, makes what a call should
/// that moves the name.
pub fn drafts_move_names()
    ensures { MovingMakes }
{}
