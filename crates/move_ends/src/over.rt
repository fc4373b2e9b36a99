// What becomes of an inode over which another one is to move.
ghost use Rattle.std.specs.Prelude.{ℕ, ◌≡◌, false, true, IfOk};
ghost use Rattle.gfs2_layout.specs.Holding.{Holding};
ghost use Rattle.gfs2_layout.specs.Inode.{dinode_in};
ghost use Rattle.gfs2_layout.specs.Structures.{is_directory};
ghost use Rattle.glock_names.specs.Steps.{IfDamaged, OnlyDamaged};
ghost use Rattle.glock_names.specs.Views.{HasBlock, IsOfView};
ghost use Rattle.dinode_tree.specs.Broken.{IsBroken};
ghost use Rattle.dinode_tree.specs.Shown.{IsShown};
ghost use Rattle.resource_groups.specs.Putting.{HasDataBlock};
ghost use Rattle.removing_calls.specs.Removing.{BreaksAsLinear, IsDirectoryAim, IsFileAim};
ghost use Rattle.move_ends.specs.Over.{IsApart, IsDirectoryOf, IsEndRead, IsToldOver, IsWrongApart, IsWrongOver};

use crate::ends::Ends;
use dinode_tree::read_dinode;
use file_tree::Reply;
use glock_names::{CallFault, Missing, Step, View};
use pair_walks::{End, Place};
use removing_calls::{Aim, blocks_of, directory_aim, file_aim};
use std::alloc::Global;

/// What becomes of an inode over which another one is to move.
#[derive(Drop)]
pub(crate) enum Replaced {
    /// It stays, and the call is refused so.
    Refused(Reply),
    /// It goes, with these blocks.
    Goes(Vec<u64>),
    /// This block isn't in the view.
    NeedBlock(Missing),
}

// Whether it is to go: a file for a file, and for a directory one without names.
fn aim_over<V: View>(view: &V, from: &Place, at: &Place) -> Result<Aim, CallFault>
    requires there { HasBlock (V.seen view.now) at.now.inode }
    requires dinode { (h : Holding) → IsShown (V.seen view.now) at.now.inode h → at.now.dinode ≡ dinode_in h }
    ensures by_file { (h : Holding) → is_directory from.now.dinode ≡ false → IsShown (V.seen view.now) at.now.inode h → IfOk result (IsFileAim h) }
    ensures by_directory { (h : Holding) → is_directory from.now.dinode ≡ true → IsShown (V.seen view.now) at.now.inode h → IfOk result (IsDirectoryAim h) }
    ensures damaged { (h : Holding) → IsShown (V.seen view.now) at.now.inode h → IfDamaged result (BreaksAsLinear h) }
    ensures of_directory { IfDamaged result (λ rule b. is_directory from.now.dinode ≡ true) }
    ensures kept { IfDamaged result (IsOfView (V.seen view.now)) }
{
    if from.dinode.is_directory() {
        directory_aim(view, at)
    } else {
        Ok(file_aim(at))
    }
}

// What becomes of the inode at a place over which that at another one is to move.
fn over<V: View>(alloc: Global, view: &V, from: &Place, at: &Place) -> Result<Replaced, CallFault>
    requires inside { HasDataBlock (V.seen view.now) at.now.inode }
    requires there { HasBlock (V.seen view.now) at.now.inode }
    requires dinode { (h : Holding) → IsShown (V.seen view.now) at.now.inode h → at.now.dinode ≡ dinode_in h }
    ensures told { IfOk result (IsToldOver (V.seen view.now) from.now at.now) }
    ensures damaged { IfDamaged result (IsWrongOver (V.seen view.now) from.now at.now) }
    ensures kept { IfDamaged result (IsOfView (V.seen view.now)) }
{
    match aim_over(view, from, at)? {
        Aim::Refused(reply) => return Ok(Replaced::Refused(reply)),
        Aim::Taken => {}
    }
    match blocks_of(alloc, view, at.inode, &at.dinode)? {
        Step::Is(blocks) => Ok(Replaced::Goes(blocks)),
        Step::NeedBlock(missing) => Ok(Replaced::NeedBlock(missing)),
    }
}

// The directory above the inode at a place, which the view has; what is above it isn't looked for.
fn directory_of<V: View>(view: &V, at: &Place) -> Result<Place, CallFault>
    requires { HasBlock (V.seen view.now) at.now.above }
    ensures is { IfOk result (IsDirectoryOf (V.seen view.now) at.now) }
    ensures damaged { (h : Holding) → IsShown (V.seen view.now) at.now.above h → OnlyDamaged result (IsBroken h) }
    ensures kept { OnlyDamaged result (IsOfView (V.seen view.now)) }
{
    match read_dinode(view, at.above)? {
        Step::Is(dinode) => Ok(Place {
            inode: at.above,
            above: at.above,
            dinode,
        }),
        Step::NeedBlock(_) => unreachable!(),
    }
}

/// What is found where the first path leads to the inode at a place, and the second ends so, not going on from there.
pub(crate) fn apart<V: View>(
    alloc: Global,
    view: &V,
    from: Place,
    end: End,
) -> Result<Ends, CallFault>
    requires { IsEndRead (V.seen view.now) end }
    ensures told { IfOk result (IsApart (V.seen view.now) from end) }
    ensures damaged { IfDamaged result (IsWrongApart (V.seen view.now) from end) }
    ensures kept { IfDamaged result (IsOfView (V.seen view.now)) }
{
    let at = match end {
        End::At(at) => at,
        End::Lacks(to) => {
            return Ok(Ends::Moves {
                from,
                to,
                replaced: None,
            });
        }
        End::NotFound => return Ok(Ends::Refused(Reply::NotFound)),
        End::NotDir => return Ok(Ends::Refused(Reply::NotDir)),
    };
    let to = directory_of(view, &at)?;
    match over(alloc, view, &from, &at)? {
        Replaced::Refused(reply) => Ok(Ends::Refused(reply)),
        Replaced::Goes(blocks) => Ok(Ends::Moves {
            from,
            to,
            replaced: Some(blocks),
        }),
        Replaced::NeedBlock(missing) => Ok(Ends::NeedBlock(missing)),
    }
}
