// What is done at a path: another tree is put there, or what stands there is taken out.
ghost use Rattle.std.specs.Prelude.{◌≡◌, ◌≢◌, ◌∷◌, ◌++◌, [], MatchResult, OnErr, OnOk};
ghost use Rattle.file_tree.specs.Apply.{Found, Refused, walk, put_at, remove_at};
ghost use Rattle.file_tree.specs.Names.{parent_of, last_of};
ghost use Rattle.file_tree.specs.Walks.{IsRoomThere, IsThere};

use super::Tree;
use crate::{Name, NoMemory, Reply};
use std::mem;

impl Tree {
    // What stands at a path, or the first refusal on the way.
    pub(super) fn find(&self, names: &[Name]) -> Result<&Tree, Reply>
        ensures { MatchResult result (λ tree. walk self.now names.now ≡ Found tree.now) (λ refused. walk self.now names.now ≡ Refused refused) }
    {
        let mut tree = self;
        let mut rest = names;
        while let [name, more @ ..] = rest {
            match tree.child(name) {
                Ok(below) => tree = below,
                Err(refused) => return Err(refused),
            }
            rest = more;
        }
        Ok(tree)
    }

    // Puts a tree where another one stands, and gives that one. It takes no memory.
    pub(super) fn set_at(&mut self, names: &[Name], tree: Tree) -> Tree
        requires { IsThere (walk self.old names.now) }
        ensures stood { walk self.old names.now ≡ Found result }
        ensures put { self.new ≡ put_at names.now tree self.old }
        ensures back { put_at names.now result self.old ≡ self.old }
    {
        match names {
            [] => mem::replace(self, tree),
            [name, rest @ ..] => {
                let hollow = self.hollow();
                let mut child = self.exchange(name, hollow);
                let stood = child.set_at(rest, tree);
                let _ = self.exchange(name, child);
                stood
            }
        }
    }

    // Puts a tree at a new name in a directory.
    pub(super) fn put_new(
        &mut self,
        parent: &[Name],
        name: &Name,
        tree: Tree,
    ) -> Result<(), NoMemory>
        requires { IsRoomThere (walk self.old parent.now) name.now }
        ensures ok { OnOk result (self.new ≡ put_at (parent.now ++ name.now ∷ []) tree self.old) }
        ensures err { OnErr result (self.new ≡ self.old) }
    {
        let name = name.copy()?;
        let hollow = self.hollow();
        let mut directory = self.set_at(parent, hollow);
        let put = directory.put(name, tree);
        let _ = self.set_at(parent, directory);
        put
    }

    // Takes out what stands at a path, and gives it. It takes no memory.
    pub(super) fn take_out(&mut self, path: &[Name]) -> Tree
        requires there { IsThere (walk self.old path.now) }
        requires some { path.now ≢ [] }
        ensures stood { walk self.old path.now ≡ Found result }
        ensures gone { self.new ≡ remove_at path.now self.old }
    {
        match path.split_last() {
            None => unreachable!(),
            Some((name, parent)) => {
                let hollow = self.hollow();
                let mut directory = self.set_at(parent, hollow);
                let stood = directory.remove(name);
                let _ = self.set_at(parent, directory);
                stood
            }
        }
    }
}
