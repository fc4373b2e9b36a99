// The calls.
ghost use Rattle.std.specs.Prelude.{◌≡◌, IfOk, OnErr};
ghost use Rattle.file_tree.specs.Apply.{apply};

use super::Tree;
use crate::{Call, NoMemory, Reply};

impl Tree {
    /// Takes a call, and answers it. A directory's names are found by halving. What was written is copied, and
    /// nothing else of a file's content; a list copies the names.
    pub fn apply(&mut self, call: &Call) -> Result<Reply, NoMemory>
        // The reply, and the tree after it.
        ensures ok { IfOk result (λ reply. apply call.now self.old ≡ record { reply = reply; tree = self.new }) }
        // Without memory nothing changes.
        ensures err { OnErr result (self.new ≡ self.old) }
    {
        match call {
            Call::Create(path) => {
                let file = self.hollow();
                self.add(path.names(), file)
            }
            Call::Mkdir(path) => {
                let directory = Tree::dir(self.allocator());
                self.add(path.names(), directory)
            }
            Call::Unlink(path) => Ok(self.unlink(path.names())),
            Call::Rmdir(path) => Ok(self.rmdir(path.names())),
            Call::Read(path, at, count) | Call::Dread(path, at, count) => {
                self.read(path.names(), *at, *count)
            }
            Call::Write(path, at, content) => self.write(path.names(), *at, content.bytes()),
            Call::Truncate(path, size) => self.truncate(path.names(), *size),
            Call::Stat(path) => Ok(self.stat(path.names())),
            Call::List(path) => self.list(path.names()),
            Call::Rename(from, to) => self.rename(from.names(), to.names()),
            Call::Sync => Ok(Reply::Ok),
        }
    }
}
