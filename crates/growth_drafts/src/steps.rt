//! One step in a draft.
ghost use Rattle.growth_drafts.specs.Steps.{FilesAreShown, FillsAreShown, FreesAreShown, PutsAreSeen, RewritesAreShown};

/// A law: a file is shown by each view whose blocks hold what the file's hold; and a draft that puts a block goes on to hold what a
/// file holds that has those bytes there, and else what it had.
pub fn drafts_show_files()
    ensures shown { FilesAreShown }
    ensures put { PutsAreSeen }
{}

/// A law: a draft that shows a file, and puts the block with the pointer and the new block, shows the file with that hole filled; one
/// that puts the pointer's block and frees the block to which it led, the file without it; and one that puts other bytes into a block,
/// the file with these.
pub fn drafts_show_steps()
    ensures fill { FillsAreShown }
    ensures free { FreesAreShown }
    ensures rewritten { RewritesAreShown }
{}
