// What stands at one path is moved to another one.
ghost use Rattle.std.specs.Prelude.{◌≡◌, ◌≢◌, [], IfOk, MatchOption, OnErr, OnOk};
ghost use Rattle.file_tree.specs.Tree.{Tree as Whole};
ghost use Rattle.file_tree.specs.Apply.{Found, refuse, walk, put_at, remove_at, refusal_over, rename, move_from};
ghost use Rattle.file_tree.specs.Names.{last_of, leads_to, parent_of};
ghost use Rattle.file_tree.specs.Walks.{HasRoom, IsDirThere, MayMove, PartAtOnce, is_there, target_refusal};

use super::changes::refuses_names;
use super::{Node, Tree};
use crate::{Name, NoMemory, Reply};

// Whether the second path is the first, or goes on from it.
fn leads(from: &[Name], to: &[Name]) -> bool
    ensures { result ≡ leads_to from.now to.now }
{
    match from {
        [] => true,
        [name, source @ ..] => match to {
            [] => false,
            [other, target @ ..] => name.bytes() == other.bytes() && leads(source, target),
        },
    }
}

// What refuses that one tree goes where another one stands.
fn refuses_over(moved: &Tree, there: &Tree) -> Option<Reply>
    ensures { result ≡ refusal_over moved.now there.now }
{
    match (&moved.node, &there.node) {
        (Node::File(_), Node::File(_)) => None,
        (Node::File(_), Node::Dir(_)) => Some(Reply::IsDir),
        (Node::Dir(_), Node::File(_)) => Some(Reply::NotDir),
        (Node::Dir(_), Node::Dir(entries)) => refuses_names(entries),
    }
}

impl Tree {
    // What refuses what is moved at a new path.
    fn refuses_target(&self, moved: &Tree, to: &[Name]) -> Option<Reply>
        requires { to.now ≢ [] }
        ensures { result ≡ target_refusal (walk self.now (parent_of to.now)) moved.now (last_of to.now) }
    {
        match to.split_last() {
            None => unreachable!(),
            Some((name, parent)) => match self.find(parent) {
                Err(refused) => Some(refused),
                Ok(directory) => refuses_in(directory, moved, name),
            },
        }
    }

    // How a move is answered that isn't made: it is refused, or leads nowhere else.
    fn refuses_found(&self, moved: &Tree, from: &[Name], to: &[Name]) -> Option<Reply>
        requires moved { walk self.now from.now ≡ Found moved.now }
        requires some { to.now ≢ [] }
        ensures { MatchOption result (MayMove self.now from.now to.now) (λ reply. move_from (Found moved.now) self.now from.now to.now ≡ refuse reply self.now) }
    {
        if leads(from, to) {
            return if leads(to, from) {
                Some(Reply::Ok)
            } else {
                Some(Reply::Inside)
            };
        }
        self.refuses_target(moved, to)
    }

    fn refuses_move(&self, from: &[Name], to: &[Name]) -> Option<Reply>
        ensures { MatchOption result (MayMove self.now from.now to.now) (λ reply. rename self.now from.now to.now ≡ refuse reply self.now) }
    {
        if from.is_empty() {
            return Some(Reply::Inside);
        }
        if to.is_empty() {
            return Some(Reply::Exists);
        }
        match self.find(from) {
            Err(refused) => Some(refused),
            Ok(moved) => self.refuses_found(moved, from, to),
        }
    }

    fn stands(&self, names: &[Name]) -> bool
        ensures { result ≡ is_there (walk self.now names.now) }
    {
        match self.find(names) {
            Ok(_) => true,
            Err(_) => false,
        }
    }

    // Puts something where nothing stands.
    fn make_room(&mut self, to: &[Name]) -> Result<(), NoMemory>
        requires parent { IsDirThere (walk self.old (parent_of to.now)) }
        requires some { to.now ≢ [] }
        ensures ok { OnOk result (HasRoom self.old self.new to.now) }
        ensures err { OnErr result (self.new ≡ self.old) }
    {
        if self.stands(to) {
            return Ok(());
        }
        match to.split_last() {
            None => unreachable!(),
            Some((name, parent)) => {
                let hollow = self.hollow();
                self.put_new(parent, name, hollow)
            }
        }
    }

    // Moves between two names of this directory, or to or from below them. Only the room wants memory, so
    // nothing has changed where there is none.
    fn move_apart(&mut self, from: &[Name], to: &[Name]) -> Result<(), NoMemory>
        requires may { MayMove self.old from.now to.now }
        requires part { PartAtOnce from.now to.now }
        ensures ok { OnOk result ((moved : Whole) → walk self.old from.now ≡ Found moved → self.new ≡ put_at to.now moved (remove_at from.now self.old)) }
        ensures err { OnErr result (self.new ≡ self.old) }
    {
        self.rises();
        self.make_room(to)?;
        let moved = self.take_out(from);
        let _ = self.set_at(to, moved);
        Ok(())
    }

    // Goes down to where the paths part, and moves there.
    fn move_below(&mut self, from: &[Name], to: &[Name]) -> Result<(), NoMemory>
        requires { MayMove self.old from.now to.now }
        ensures ok { OnOk result ((moved : Whole) → walk self.old from.now ≡ Found moved → self.new ≡ put_at to.now moved (remove_at from.now self.old)) }
        ensures err { OnErr result (self.new ≡ self.old) }
    {
        match from {
            [] => unreachable!(),
            [name, source @ ..] => match to {
                [] => unreachable!(),
                [other, target @ ..] => {
                    if name.bytes() != other.bytes() {
                        return self.move_apart(from, to);
                    }
                    let hollow = self.hollow();
                    let mut child = self.exchange(name, hollow);
                    let moved = child.move_below(source, target);
                    let _ = self.exchange(name, child);
                    moved
                }
            },
        }
    }

    pub(super) fn rename(&mut self, from: &[Name], to: &[Name]) -> Result<Reply, NoMemory>
        ensures ok { IfOk result (λ reply. rename self.old from.now to.now ≡ record { reply = reply; tree = self.new }) }
        ensures err { OnErr result (self.new ≡ self.old) }
    {
        if let Some(reply) = self.refuses_move(from, to) {
            return Ok(reply);
        }
        self.move_below(from, to)?;
        Ok(Reply::Ok)
    }
}

// What refuses what is moved at a name in what is found.
fn refuses_in(directory: &Tree, moved: &Tree, name: &Name) -> Option<Reply>
    ensures { result ≡ target_refusal (Found directory.now) moved.now name.now }
{
    match &directory.node {
        Node::File(_) => Some(Reply::NotDir),
        Node::Dir(_) => match directory.child(name) {
            Ok(there) => refuses_over(moved, there),
            Err(_) => None,
        },
    }
}
