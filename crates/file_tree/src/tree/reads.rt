// What a tree is asked, and stays.
ghost use Rattle.std.specs.Prelude.{◌≡◌, IfOk};
ghost use Rattle.file_tree.specs.Tree.{count_in, names_in};
ghost use Rattle.file_tree.specs.Apply.{walk, list_reply, read_reply, stat_reply};
ghost use Rattle.file_tree.specs.Held.{entries_held};

use super::{Entry, Node, Tree};
use crate::{Kind, Name, NameList, NoMemory, Reply};
use std::alloc::Global;

impl Tree {
    pub(super) fn read(&self, names: &[Name], at: u64, count: u32) -> Result<Reply, NoMemory>
        ensures { IfOk result (λ reply. reply ≡ read_reply (walk self.now names.now) at count) }
    {
        match self.find(names) {
            Err(refused) => Ok(refused),
            Ok(tree) => match &tree.node {
                Node::File(content) => Ok(Reply::Bytes(content.part(at, count)?)),
                Node::Dir(_) => Ok(Reply::IsDir),
            },
        }
    }

    pub(super) fn stat(&self, names: &[Name]) -> Reply
        ensures { result ≡ stat_reply (walk self.now names.now) }
    {
        match self.find(names) {
            Err(refused) => refused,
            Ok(tree) => match &tree.node {
                Node::File(content) => Reply::Stat(Kind::File, content.bytes().len() as u64),
                Node::Dir(entries) => Reply::Stat(Kind::Dir, count_of(entries)),
            },
        }
    }

    pub(super) fn list(&self, names: &[Name]) -> Result<Reply, NoMemory>
        ensures { IfOk result (λ reply. reply ≡ list_reply (walk self.now names.now)) }
    {
        match self.find(names) {
            Err(refused) => Ok(refused),
            Ok(tree) => match &tree.node {
                Node::File(_) => Ok(Reply::NotDir),
                Node::Dir(entries) => {
                    let names = names_of(*entries.allocator(), entries)?;
                    Ok(Reply::Names(NameList::new(names)))
                }
            },
        }
    }
}

fn count_of(entries: &[Entry]) -> u64
    ensures { result ≡ count_in (entries_held entries.now) }
{
    entries.len() as u64
}

fn names_of(alloc: Global, entries: &[Entry]) -> Result<Vec<Name>, NoMemory>
    ensures { IfOk result (λ names. names.items ≡ names_in (entries_held entries.now)) }
{
    let mut names = Vec::new(alloc);
    for entry in entries {
        names.push(entry.name.copy()?)?;
    }
    Ok(names)
}
