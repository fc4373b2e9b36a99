ghost use Rattle.std.specs.Prelude.{◌≡◌, ◌≢◌, ◌<◌, ◌≤◌, ◌↔◌, length, IfOk, IfErr, OnOk, OnErr, None, IsTrue};
ghost use Rattle.file_tree.specs.Tree.{file, dir, none, look, set, IsDir};
ghost use Rattle.file_tree.specs.Apply.{entries_of};
ghost use Rattle.file_tree.specs.Held.{entries_held, IsEntryAt, IsPlace, NamesRise};

use crate::{Content, Name, NoMemory};
use std::alloc::Global;
use std::marker::Model;

/// A file, or a directory with its names in rising byte order.
#[derive(Drop)]
#[cycle(tree)]
pub struct Tree {
    node: Node,
}

#[derive(Drop)]
#[cycle(tree)]
enum Node {
    File(Content),
    Dir(Vec<Entry>),
}

#[derive(Drop)]
#[cycle(tree)]
struct Entry {
    name: Name,
    tree: Tree,
}

impl Model for Tree {
    ghost use Rattle.file_tree.specs.Tree.{Tree, node_count};
    ghost use Rattle.file_tree.specs.TreeCode.{coded_tree};

    ghost Value = { Tree };

    ghost coded = { coded_tree };

    ghost use Rattle.file_tree.specs.Held.{tree_held};

    ghost view = { λ t. tree_held t.node };

    ghost use Rattle.file_tree.specs.Held.{NodeRises};

    ghost invariant = { λ t. NodeRises t.node };

    ghost size = { node_count };

    ghost use Rattle.file_tree.specs.TreeFalls.{depth_le-node_count};

    ghost size_decreases = { λ a h. depth_le-node_count a.node };
}

impl Tree {
    /// A file of these bytes.
    pub fn file(content: Content) -> Tree
        ensures { result ≡ file content }
    {
        Tree {
            node: Node::File(content),
        }
    }

    /// An empty directory.
    pub fn dir(alloc: Global) -> Tree
        ensures { result ≡ dir none }
    {
        Tree {
            node: Node::Dir(Vec::new(alloc)),
        }
    }

    /// Adds a name with this tree, and all else stays. It finds the name's place by halving, and moves the
    /// names behind it.
    pub fn put(&mut self, name: Name, tree: Tree) -> Result<(), NoMemory>
        requires directory { IsDir self.old }
        requires absent { look (entries_of self.old) name ≡ None }
        ensures ok { OnOk result (self.new ≡ dir (set (entries_of self.old) name tree)) }
        ensures err { OnErr result (self.new ≡ self.old) }
    {
        match &mut self.node {
            Node::File(_) => unreachable!(),
            Node::Dir(entries) => put_entry(entries, name, tree),
        }
    }
}

impl Tree {
    /// Whether this is a directory that has no such name. It finds the name's place by halving.
    pub fn lacks(&self, name: &[u8]) -> bool
        ensures { IsTrue result ↔ IsDir self.now × (look (entries_of self.now) name.now ≡ None) }
    {
        match &self.node {
            Node::File(_) => false,
            Node::Dir(entries) => place_of(entries, name).is_err(),
        }
    }
}

// Where a name is among the entries, or where it would go.
fn place_of(entries: &[Entry], name: &[u8]) -> Result<usize, usize>
    requires { NamesRise (entries_held entries.now) }
    ensures there { IfOk result (λ _. look (entries_held entries.now) name.now ≢ None) }
    ensures at { IfOk result (λ place. IsEntryAt entries.now place name.now) }
    ensures inside { IfOk result (λ place. place < length entries.now) }
    ensures absent { IfErr result (λ _. look (entries_held entries.now) name.now ≡ None) }
    ensures place { IfErr result (λ place. IsPlace entries.now place name.now) }
    ensures within { IfErr result (λ place. place ≤ length entries.now) }
{
    entries.binary_search_by(|entry| entry.name.bytes().cmp(name))
}

fn put_entry(entries: &mut Vec<Entry>, name: Name, tree: Tree) -> Result<(), NoMemory>
    requires rise { NamesRise (entries_held entries.old.items) }
    requires absent { look (entries_held entries.old.items) name ≡ None }
    ensures ok { OnOk result (entries_held entries.new.items ≡ set (entries_held entries.old.items) name tree) }
    ensures rise { NamesRise (entries_held entries.new.items) }
    ensures err { OnErr result (entries.new.items ≡ entries.old.items) }
{
    match place_of(entries, name.bytes()) {
        Ok(_) => unreachable!(),
        Err(place) => {
            entries.insert(place, Entry { name, tree })?;
            Ok(())
        }
    }
}

impl Tree {
    /// An equal tree.
    #[cycle(copies)]
    pub fn copy(&self) -> Result<Tree, NoMemory>
        ensures { IfOk result (λ tree. tree ≡ self.now) }
    {
        match &self.node {
            Node::File(content) => Ok(Tree {
                node: Node::File(content.copy()?),
            }),
            Node::Dir(entries) => Ok(Tree {
                node: Node::Dir(copy_entries(entries)?),
            }),
        }
    }
}

#[cycle(copies)]
fn copy_entries(entries: &Vec<Entry>) -> Result<Vec<Entry>, NoMemory>
    ensures { IfOk result (λ all. entries_held all.items ≡ entries_held entries.now.items) }
{
    let mut all = Vec::new(*entries.allocator());
    for entry in entries {
        all.push(Entry {
            name: entry.name.copy()?,
            tree: entry.tree.copy()?,
        })?;
    }
    Ok(all)
}

mod apply;
mod changes;
mod edits;
mod files;
mod moves;
mod parts;
mod paths;
mod reads;

pub use files::FILE_LIMIT;
