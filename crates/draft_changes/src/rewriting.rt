//! A draft that changes the content of a file.
ghost use Rattle.draft_changes.specs.Rewriting.{RewritingMakes};

/// A law: a draft that puts other bytes into blocks of a file, and leaves it the blocks that it has, makes what a call should
/// that changes the file's content.
pub fn drafts_change_files()
    ensures { RewritingMakes }
{}
