// What comes next on one of two paths.
ghost use Rattle.std.specs.Prelude.{ℕ, ◌≡◌, ◌≤◌, ◌<◌, IfOk, length, true};
ghost use Rattle.file_tree.specs.Names.{IsName};
ghost use Rattle.gfs2_layout.specs.Holding.{Holding};
ghost use Rattle.gfs2_layout.specs.Inode.{dinode_in};
ghost use Rattle.gfs2_layout.specs.Structures.{is_directory};
ghost use Rattle.glock_names.specs.Steps.{IfIs, IfNeedBlock, OnlyDamaged};
ghost use Rattle.glock_names.specs.Views.{HasBlock, IsOfView};
ghost use Rattle.dinode_tree.specs.Broken.{IsBroken};
ghost use Rattle.dinode_tree.specs.Shown.{IsShown};
ghost use Rattle.path_walks.specs.Holds.{holds, hold_of};
ghost use Rattle.path_walks.specs.Walks.{IsNeededIn};
ghost use Rattle.pair_walks.specs.Ahead.{IsAheadOf, IsChildOf, IsDamageAhead, IsDamageOfName, IsLacking, IsNeededAhead, IsVisited};

use crate::walk::End;
use dinode_tree::read_dinode;
use directories::look;
use file_tree::Name;
use glock_names::{CallFault, LockName, Missing, State, Step, View, is_at_most};
use path_walks::Place;
use resource_groups::group_of;

/// What comes next on a path: an inode, that of a name in the directory above it (the root is its own), or nothing, since the path has ended.
#[derive(Clone, Copy)]
pub(crate) enum Next {
    Inode { block: u64, above: u64 },
    Ended(End),
}

/// What an inode is come to with.
#[derive(Clone, Copy)]
pub(crate) enum Visit {
    /// Its lock is held, and this is what was read.
    At(Place),
    /// Its lock isn't held so strongly.
    NeedLock(LockName),
    /// Its dinode isn't in the view.
    NeedBlock(Missing),
}

/// The inode in a block: its lock is looked at, and then its dinode.
pub(crate) fn come_to<V: View>(
    view: &V,
    inode: u64,
    above: u64,
    state: State,
) -> Result<Visit, CallFault>
    ensures visited { IfOk result (IsVisited (V.seen view.now) inode above state) }
    ensures damaged { (h : Holding) → IsShown (V.seen view.now) inode h → OnlyDamaged result (IsBroken h) }
    ensures held { OnlyDamaged result (λ rule block. holds (V.seen view.now) (hold_of inode state) ≡ true) }
    ensures kept { OnlyDamaged result (IsOfView (V.seen view.now)) }
{
    let lock = LockName {
        kind: 2,
        number: inode,
    };
    if !is_at_most(state, view.state(lock)) {
        return Ok(Visit::NeedLock(lock));
    }
    match read_dinode(view, inode)? {
        Step::Is(dinode) => Ok(Visit::At(Place {
            inode,
            above,
            dinode,
        })),
        Step::NeedBlock(missing) => Ok(Visit::NeedBlock(missing)),
    }
}

// Where a name of the directory at a place leads: to a data block of a group. None where it hasn't the name.
fn child_of<V: View>(view: &V, place: &Place, name: &Name) -> Result<Step<Option<u64>>, CallFault>
    requires there { HasBlock (V.seen view.now) place.now.inode }
    requires dinode { (h : Holding) → IsShown (V.seen view.now) place.now.inode h → place.now.dinode ≡ dinode_in h }
    requires directory { is_directory place.now.dinode ≡ true }
    ensures named { IsName name.now }
    ensures found { IfIs result (IsChildOf (V.seen view.now) place.now.inode name.now) }
    ensures needed { IfNeedBlock result (IsNeededIn (V.seen view.now) place.now.inode name.now) }
    ensures damaged { OnlyDamaged result (IsDamageOfName (V.seen view.now) place.now.inode name.now) }
    ensures kept { OnlyDamaged result (IsOfView (V.seen view.now)) }
{
    let bytes = name.bytes();
    let entry = match look(view, place.inode, bytes)? {
        Step::Is(Some(entry)) => entry,
        Step::Is(None) => return Ok(Step::Is(None)),
        Step::NeedBlock(missing) => return Ok(Step::NeedBlock(missing)),
    };
    if group_of(view, entry.addr).is_none() {
        return Err(CallFault::Damaged {
            block: place.inode,
            rule: 2,
        });
    }
    Ok(Step::Is(Some(entry.addr)))
}

// How a path ends whose name at this depth isn't there: at the directory, if that is the last, or before.
fn lacking(place: &Place, names: &[Name], depth: usize) -> End
    requires { depth < length names.now }
    ensures { IsLacking place.now names.now depth result }
{
    if depth == names.len() - 1 {
        End::Lacks(*place)
    } else {
        End::NotFound
    }
}

/// What comes behind the inode at a place, to which so many of these names lead.
pub(crate) fn ahead<V: View>(
    view: &V,
    place: &Place,
    names: &[Name],
    depth: usize,
) -> Result<Step<Next>, CallFault>
    requires there { HasBlock (V.seen view.now) place.now.inode }
    requires dinode { (h : Holding) → IsShown (V.seen view.now) place.now.inode h → place.now.dinode ≡ dinode_in h }
    requires depth { depth ≤ length names.now }
    ensures ahead { IfIs result (IsAheadOf (V.seen view.now) place.now names.now depth) }
    ensures needed { IfNeedBlock result (IsNeededAhead (V.seen view.now) place.now.inode names.now depth) }
    ensures damaged { OnlyDamaged result (IsDamageAhead (V.seen view.now) place.now.inode names.now depth) }
    ensures kept { OnlyDamaged result (IsOfView (V.seen view.now)) }
{
    let Some(name) = names.get(depth) else {
        return Ok(Step::Is(Next::Ended(End::At(*place))));
    };
    if !place.dinode.is_directory() {
        return Ok(Step::Is(Next::Ended(End::NotDir)));
    }
    match child_of(view, place, name)? {
        Step::Is(Some(block)) => Ok(Step::Is(Next::Inode {
            block,
            above: place.inode,
        })),
        Step::Is(None) => Ok(Step::Is(Next::Ended(lacking(place, names, depth)))),
        Step::NeedBlock(missing) => Ok(Step::NeedBlock(missing)),
    }
}
