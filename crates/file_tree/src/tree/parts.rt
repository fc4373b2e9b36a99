// What a tree is made of, for those who go over all of it.
ghost use Rattle.std.specs.Prelude.{◌≡◌, ◌+◌, MatchOption};
ghost use Rattle.file_tree.specs.Tree.{file, none, entry, count_in, IsDir};
ghost use Rattle.file_tree.specs.Apply.{entries_of};
ghost use Rattle.file_tree.specs.Parts.{entries_from};

use super::{Node, Tree};
use crate::{Content, Name};

impl Tree {
    /// A file's content; a directory has none.
    pub fn content(&self) -> Option<&Content>
        ensures { MatchOption result (IsDir self.now) (λ content. self.now ≡ file content.now) }
    {
        match &self.node {
            Node::File(content) => Some(content),
            Node::Dir(_) => None,
        }
    }

    /// How many names a directory has; a file has none.
    pub fn entry_count(&self) -> usize
        ensures { result ≡ count_in (entries_of self.now) }
    {
        match &self.node {
            Node::File(_) => 0,
            Node::Dir(entries) => entries.len(),
        }
    }

    /// The name at a place among those of a directory, counted from 0, and the tree for which it stands.
    pub fn entry(&self, place: usize) -> Option<(&Name, &Tree)>
        ensures { MatchOption result (entries_from place (entries_of self.now) ≡ none)
            (λ e. entries_from place (entries_of self.now) ≡ entry e.0.now e.1.now (entries_from (place + 1) (entries_of self.now))) }
    {
        match &self.node {
            Node::File(_) => None,
            Node::Dir(entries) => match entries.get(place) {
                Some(entry) => Some((&entry.name, &entry.tree)),
                None => None,
            },
        }
    }
}
