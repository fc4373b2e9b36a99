// A file's content is changed.
ghost use Rattle.std.specs.Prelude.{◌≡◌, ◌+◌, ◌≤◌, None, length, IfOk, OnOk, OnErr};
ghost use Rattle.file_tree.specs.Tree.{file, IsDir};
ghost use Rattle.file_tree.specs.Apply.{Found, walk, file_limit, overwritten, resized, truncate_at, write_at};
ghost use Rattle.file_tree.specs.Walks.{bytes_of, file_refusal};
ghost use Rattle.file_tree.specs.declared.reply.Reply.TheVariants as replies;

use super::{Node, Tree};
use crate::{Name, NoMemory, Reply};

/// How many bytes a file may have.
pub const FILE_LIMIT: u64 = 67_108_864;

impl Tree {
    // What refuses a call that wants a file at a path.
    pub(super) fn refuses_file(&self, names: &[Name]) -> Option<Reply>
        ensures { result ≡ file_refusal (walk self.now names.now) }
    {
        match self.find(names) {
            Err(refused) => Some(refused),
            Ok(tree) => match &tree.node {
                Node::File(_) => None,
                Node::Dir(_) => Some(Reply::IsDir),
            },
        }
    }

    fn overwrite(&mut self, at: usize, bytes: &[u8]) -> Result<(), NoMemory>
        requires file { file_refusal (Found self.old) ≡ None }
        requires size { at + length bytes.now ≤ file_limit }
        ensures ok { OnOk result (self.new ≡ file (overwritten at bytes.now (bytes_of self.old))) }
        ensures err { OnErr result (self.new ≡ self.old) }
    {
        match &mut self.node {
            Node::File(content) => content.overwrite(at, bytes),
            Node::Dir(_) => unreachable!(),
        }
    }

    fn resize(&mut self, size: usize) -> Result<(), NoMemory>
        requires { file_refusal (Found self.old) ≡ None }
        ensures ok { OnOk result (self.new ≡ file (resized size (bytes_of self.old))) }
        ensures err { OnErr result (self.new ≡ self.old) }
    {
        match &mut self.node {
            Node::File(content) => content.resize(size),
            Node::Dir(_) => unreachable!(),
        }
    }

    // Writes to a file that is there. Its content is taken out, changed and put back.
    fn write_there(&mut self, names: &[Name], at: usize, bytes: &[u8]) -> Result<(), NoMemory>
        requires file { file_refusal (walk self.old names.now) ≡ None }
        requires size { at + length bytes.now ≤ file_limit }
        ensures ok { OnOk result (write_at (walk self.old names.now) self.old names.now at bytes.now ≡ record { reply = replies.Ok; tree = self.new }) }
        ensures err { OnErr result (self.new ≡ self.old) }
    {
        let hollow = self.hollow();
        let mut file = self.set_at(names, hollow);
        let written = file.overwrite(at, bytes);
        let _ = self.set_at(names, file);
        written
    }

    fn resize_there(&mut self, names: &[Name], size: usize) -> Result<(), NoMemory>
        requires file { file_refusal (walk self.old names.now) ≡ None }
        requires size { size ≤ file_limit }
        ensures ok { OnOk result (truncate_at (walk self.old names.now) self.old names.now size ≡ record { reply = replies.Ok; tree = self.new }) }
        ensures err { OnErr result (self.new ≡ self.old) }
    {
        let hollow = self.hollow();
        let mut file = self.set_at(names, hollow);
        let resized = file.resize(size);
        let _ = self.set_at(names, file);
        resized
    }

    pub(super) fn write(&mut self, names: &[Name], at: u64, bytes: &[u8]) -> Result<Reply, NoMemory>
        ensures ok { IfOk result (λ reply. write_at (walk self.old names.now) self.old names.now at bytes.now ≡ record { reply = reply; tree = self.new }) }
        ensures err { OnErr result (self.new ≡ self.old) }
    {
        if let Some(refusal) = self.refuses_file(names) {
            return Ok(refusal);
        }
        let length = bytes.len() as u64;
        if at > FILE_LIMIT || length > FILE_LIMIT - at {
            return Ok(Reply::TooBig);
        }
        self.write_there(names, at as usize, bytes)?;
        Ok(Reply::Ok)
    }

    pub(super) fn truncate(&mut self, names: &[Name], size: u64) -> Result<Reply, NoMemory>
        ensures ok { IfOk result (λ reply. truncate_at (walk self.old names.now) self.old names.now size ≡ record { reply = reply; tree = self.new }) }
        ensures err { OnErr result (self.new ≡ self.old) }
    {
        if let Some(refusal) = self.refuses_file(names) {
            return Ok(refusal);
        }
        if size > FILE_LIMIT {
            return Ok(Reply::TooBig);
        }
        self.resize_there(names, size as usize)?;
        Ok(Reply::Ok)
    }
}
