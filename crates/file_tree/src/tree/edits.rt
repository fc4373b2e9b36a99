// What is done to one directory: a name is asked for, set to another tree, taken out.
ghost use Rattle.std.specs.Prelude.{◌≡◌, ◌≢◌, [], None, Some, MatchResult};
ghost use Rattle.file_tree.specs.Tree.{dir, file, look, set, without};
ghost use Rattle.file_tree.specs.Apply.{Found, Refused, step_to, entries_of};
ghost use Rattle.file_tree.specs.Held.{entries_held, NamesRise};
ghost use Rattle.file_tree.specs.Walks.{IsThere};

use super::{Entry, Node, Tree, place_of};
use crate::{Content, Name, Reply};
use std::alloc::Global;
use std::mem;

impl Tree {
    // What its parts take memory from.
    pub(super) fn allocator(&self) -> Global {
        match &self.node {
            Node::File(content) => content.allocator(),
            Node::Dir(entries) => *entries.allocator(),
        }
    }

    // An empty file, which also stands where a tree is taken out for a while. It takes no memory.
    pub(super) fn hollow(&self) -> Tree
        ensures { result ≡ file [] }
    {
        Tree::file(Content::new(Vec::new(self.allocator())))
    }

    // The names of a directory rise.
    pub(super) fn rises(&self)
        ensures { NamesRise (entries_of self.now) }
    {
        let _ = &self.node;
    }

    // What stands one name below, or what refuses the step. It finds the name by halving.
    pub(super) fn child(&self, name: &Name) -> Result<&Tree, Reply>
        ensures { MatchResult result (λ tree. step_to (Found self.now) name.now ≡ Found tree.now) (λ refused. step_to (Found self.now) name.now ≡ Refused refused) }
    {
        match &self.node {
            Node::File(_) => Err(Reply::NotDir),
            Node::Dir(entries) => match place_of(entries, name.bytes()) {
                Ok(place) => Ok(&entries[place].tree),
                Err(_) => Err(Reply::NotFound),
            },
        }
    }

    // Sets a name that is there to another tree, and gives back what it stood for. It takes no memory.
    pub(super) fn exchange(&mut self, name: &Name, tree: Tree) -> Tree
        requires { IsThere (step_to (Found self.old) name.now) }
        ensures stood { step_to (Found self.old) name.now ≡ Found result }
        ensures set { self.new ≡ dir (set (entries_of self.old) name.now tree) }
        ensures back { dir (set (entries_of self.old) name.now result) ≡ self.old }
    {
        match &mut self.node {
            Node::File(_) => unreachable!(),
            Node::Dir(entries) => exchange_entry(entries, name.bytes(), tree),
        }
    }

    // Takes out a name that is there, and gives what it stood for. It moves the names behind it.
    pub(super) fn remove(&mut self, name: &Name) -> Tree
        requires { IsThere (step_to (Found self.old) name.now) }
        ensures stood { step_to (Found self.old) name.now ≡ Found result }
        ensures gone { self.new ≡ dir (without (entries_of self.old) name.now) }
    {
        match &mut self.node {
            Node::File(_) => unreachable!(),
            Node::Dir(entries) => remove_entry(entries, name.bytes()),
        }
    }
}

fn exchange_entry(entries: &mut Vec<Entry>, name: &[u8], tree: Tree) -> Tree
    requires rise { NamesRise (entries_held entries.old.items) }
    requires there { look (entries_held entries.old.items) name.now ≢ None }
    ensures stood { look (entries_held entries.old.items) name.now ≡ Some result }
    ensures set { entries_held entries.new.items ≡ set (entries_held entries.old.items) name.now tree }
    ensures rise { NamesRise (entries_held entries.new.items) }
    ensures back { set (entries_held entries.old.items) name.now result ≡ entries_held entries.old.items }
{
    match place_of(entries, name) {
        Ok(place) => {
            let entry = &mut entries[place];
            mem::replace(&mut entry.tree, tree)
        }
        Err(_) => unreachable!(),
    }
}

fn remove_entry(entries: &mut Vec<Entry>, name: &[u8]) -> Tree
    requires rise { NamesRise (entries_held entries.old.items) }
    requires there { look (entries_held entries.old.items) name.now ≢ None }
    ensures stood { look (entries_held entries.old.items) name.now ≡ Some result }
    ensures gone { entries_held entries.new.items ≡ without (entries_held entries.old.items) name.now }
    ensures rise { NamesRise (entries_held entries.new.items) }
{
    match place_of(entries, name) {
        Ok(place) => entries.remove(place).tree,
        Err(_) => unreachable!(),
    }
}
