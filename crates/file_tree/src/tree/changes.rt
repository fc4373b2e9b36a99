// Names are added and removed.
ghost use Rattle.std.specs.Prelude.{◌≡◌, IfOk, OnErr};
ghost use Rattle.file_tree.specs.Apply.{Found, walk, add, rmdir, unlink};
ghost use Rattle.file_tree.specs.Tree.{dir};
ghost use Rattle.file_tree.specs.Held.{entries_held};
ghost use Rattle.file_tree.specs.Walks.{empty_refusal, new_refusal};

use super::{Entry, Node, Tree};
use crate::{Name, NoMemory, Reply};

impl Tree {
    // What refuses a new name in the directory at a path.
    fn refuses_new(&self, parent: &[Name], name: &Name) -> Option<Reply>
        ensures { result ≡ new_refusal (walk self.now parent.now) name.now }
    {
        match self.find(parent) {
            Err(refused) => Some(refused),
            Ok(tree) => match &tree.node {
                Node::File(_) => Some(Reply::NotDir),
                Node::Dir(_) => {
                    if tree.lacks(name.bytes()) {
                        None
                    } else {
                        Some(Reply::Exists)
                    }
                }
            },
        }
    }

    // What refuses a call that wants an empty directory at a path.
    fn refuses_empty(&self, names: &[Name]) -> Option<Reply>
        ensures { result ≡ empty_refusal (walk self.now names.now) }
    {
        match self.find(names) {
            Err(refused) => Some(refused),
            Ok(tree) => match &tree.node {
                Node::File(_) => Some(Reply::NotDir),
                Node::Dir(entries) => refuses_names(entries),
            },
        }
    }

    pub(super) fn add(&mut self, path: &[Name], new: Tree) -> Result<Reply, NoMemory>
        ensures ok { IfOk result (λ reply. add self.old path.now new ≡ record { reply = reply; tree = self.new }) }
        ensures err { OnErr result (self.new ≡ self.old) }
    {
        match path.split_last() {
            None => Ok(Reply::Exists),
            Some((name, parent)) => {
                if let Some(refusal) = self.refuses_new(parent, name) {
                    return Ok(refusal);
                }
                self.put_new(parent, name, new)?;
                Ok(Reply::Ok)
            }
        }
    }

    pub(super) fn unlink(&mut self, path: &[Name]) -> Reply
        ensures { unlink self.old path.now ≡ record { reply = result; tree = self.new } }
    {
        if path.is_empty() {
            return Reply::IsDir;
        }
        if let Some(refusal) = self.refuses_file(path) {
            return refusal;
        }
        let _ = self.take_out(path);
        Reply::Ok
    }

    pub(super) fn rmdir(&mut self, path: &[Name]) -> Reply
        ensures { rmdir self.old path.now ≡ record { reply = result; tree = self.new } }
    {
        if path.is_empty() {
            return Reply::Inside;
        }
        if let Some(refusal) = self.refuses_empty(path) {
            return refusal;
        }
        let _ = self.take_out(path);
        Reply::Ok
    }
}

// What refuses that a directory goes: that it has names.
pub(super) fn refuses_names(entries: &[Entry]) -> Option<Reply>
    ensures { result ≡ empty_refusal (Found (dir (entries_held entries.now))) }
{
    match entries {
        [] => None,
        [_, ..] => Some(Reply::NotEmpty),
    }
}
