//! What a node that begins on a mounted image has of it: its view, of no block yet, and its journal.
#![tactic(auto)]

ghost use Rattle.mounted_views.specs.Laws.{MountedJournalsArePlaced};

/// A law: the places of the first journal of a mounted image are blocks of the disk, each another one.
pub fn mounted_journals_are_placed()
    ensures { MountedJournalsArePlaced }
{}
