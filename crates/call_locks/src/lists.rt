// The list of a call, path by path.
ghost use Rattle.std.specs.Prelude.{◌≡◌, ◌++◌, length, IfOk, OnOk};
ghost use Rattle.call_locks.specs.Wants.{shared_above, way_to, at_new_name, at_old_name, at_move, wanted};

use crate::Want;
use file_tree::{Call, Path};
use glock_names::State;
use no_memory::NoMemory;
use std::alloc::Global;

// How many names a path has.
fn depth_of(path: &Path) -> u16
    ensures { result ≡ length path.now }
{
    path.names().len() as u16
}

// The inodes above a depth, shared.
fn want_above(wants: &mut Vec<Want>, second: bool, depth: u16) -> Result<(), NoMemory>
    ensures { OnOk result (wants.new.items ≡ wants.old.items ++ shared_above second depth) }
{
    for above in 0..depth {
        wants.push(Want {
            second,
            depth: above,
            state: State::Sh,
        })?;
    }
    Ok(())
}

// The inode at a depth in a state, behind its ancestors.
fn want_way(wants: &mut Vec<Want>, second: bool, depth: u16, state: State) -> Result<(), NoMemory>
    ensures { OnOk result (wants.new.items ≡ wants.old.items ++ way_to second depth state) }
{
    want_above(wants, second, depth)?;
    wants.push(Want {
        second,
        depth,
        state,
    })?;
    Ok(())
}

// Where a name is made: the directory that gets it.
fn want_new_name(wants: &mut Vec<Want>, path: &Path) -> Result<(), NoMemory>
    ensures { OnOk result (wants.new.items ≡ wants.old.items ++ at_new_name path.now) }
{
    let depth = depth_of(path);
    if depth == 0 {
        return Ok(());
    }
    want_way(wants, false, depth - 1, State::Ex)
}

// Where a name goes: its directory, and what it stands for.
fn want_old_name(wants: &mut Vec<Want>, second: bool, path: &Path) -> Result<(), NoMemory>
    ensures { OnOk result (wants.new.items ≡ wants.old.items ++ at_old_name second path.now) }
{
    let depth = depth_of(path);
    if depth == 0 {
        return Ok(());
    }
    want_way(wants, second, depth - 1, State::Ex)?;
    wants.push(Want {
        second,
        depth,
        state: State::Ex,
    })?;
    Ok(())
}

// Both names of a move.
#[tactic(auto, using(crate::proofs::Paths::no_from, crate::proofs::Paths::no_to, crate::proofs::Paths::some_move))]
fn want_move(wants: &mut Vec<Want>, from: &Path, to: &Path) -> Result<(), NoMemory>
    ensures { OnOk result (wants.new.items ≡ wants.old.items ++ at_move from.now to.now) }
{
    if depth_of(from) == 0 || depth_of(to) == 0 {
        return Ok(());
    }
    want_old_name(wants, false, from)?;
    want_old_name(wants, true, to)?;
    Ok(())
}

/// The locks that a call takes on its paths, those of the first path before those of the second, each from the root down.
///
/// Ancestors are shared. The directory in which a name comes or goes is exclusive, and so is a file that is written and an inode
/// that is removed, moved or replaced; that of the second path of a `rename` counts only where its name is there. What is read is
/// shared, by `dread` deferred. A call that its path alone refuses, and `sync`, want nothing.
///
/// It is left to who takes the locks: where two paths share an inode, to take the stronger state; to take the lock that
/// orders renames before a `rename`'s; of the inodes whose parents are taken, to take that of least number next; and to take groups
/// and a new inode's own lock after all of these.
///
/// Costs one vector, and a step for each name.
pub fn wants(alloc: Global, call: &Call) -> Result<Vec<Want>, NoMemory>
    ensures { IfOk result (λ all. all.items ≡ wanted call.now) }
{
    let mut all = Vec::new(alloc);
    match call {
        Call::Create(path) | Call::Mkdir(path) => want_new_name(&mut all, path)?,
        Call::Unlink(path) | Call::Rmdir(path) => want_old_name(&mut all, false, path)?,
        Call::Read(path, ..) | Call::Stat(path) | Call::List(path) => {
            want_way(&mut all, false, depth_of(path), State::Sh)?
        }
        Call::Dread(path, ..) => want_way(&mut all, false, depth_of(path), State::Df)?,
        Call::Write(path, ..) | Call::Truncate(path, ..) => {
            want_way(&mut all, false, depth_of(path), State::Ex)?
        }
        Call::Rename(from, to) => want_move(&mut all, from, to)?,
        Call::Sync => {}
    }
    Ok(all)
}
