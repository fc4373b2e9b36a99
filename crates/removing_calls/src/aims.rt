// What a call that removes a name does with the inode at its path's end.
ghost use Rattle.std.specs.Prelude.{◌≡◌, true, IfOk};
ghost use Rattle.gfs2_layout.specs.Holding.{Holding};
ghost use Rattle.gfs2_layout.specs.Inode.{dinode_in, has_hash_flag, is_hashed_in};
ghost use Rattle.glock_names.specs.Steps.{IfDamaged};
ghost use Rattle.glock_names.specs.Views.{HasBlock, IsOfView};
ghost use Rattle.dinode_tree.specs.Shown.{IsShown};
ghost use Rattle.removing_calls.specs.Removing.{BreaksAsLinear, IsAimOf, IsDirectoryAim, IsFileAim, IsRemoving};

use crate::counting::check_count;
use file_tree::{Call, Reply};
use gfs2_layout::Dinode;
use glock_names::{CallFault, View};
use path_walks::Place;

/// What is to become of an inode.
#[derive(Drop)]
pub enum Aim {
    /// It stays, and the call is answered so.
    Refused(Reply),
    /// It goes.
    Taken,
}

// Whether a directory's dinode says that it is a hashed one.
fn is_hashed(dinode: &Dinode) -> bool
    ensures { result ≡ has_hash_flag dinode.now }
{
    dinode.flags / 2 % 2 == 1
}

/// Whether an inode's dinode says that it is a hashed directory.
pub(crate) fn is_hashed_directory(dinode: &Dinode) -> bool
    ensures { (h : Holding) → dinode.now ≡ dinode_in h → result ≡ is_hashed_in h }
{
    if !dinode.is_directory() {
        return false;
    }
    is_hashed(dinode)
}

/// What is to become of an inode that is to be a file, and go: it does, where it is one.
pub fn file_aim(place: &Place) -> Aim
    ensures { (h : Holding) → place.now.dinode ≡ dinode_in h → IsFileAim h result }
{
    if place.dinode.is_directory() {
        Aim::Refused(Reply::IsDir)
    } else {
        Aim::Taken
    }
}

/// What is to become of an inode that is to be a directory without names, and go: `.` and `..` are counted in its dinode, and a linear directory's count is
/// held against its records; a hashed one's is held against its leaves when these are gathered. It goes over a linear directory's records twice.
pub fn directory_aim<V: View>(view: &V, place: &Place) -> Result<Aim, CallFault>
    requires there { HasBlock (V.seen view.now) place.now.inode }
    requires dinode { (h : Holding) → IsShown (V.seen view.now) place.now.inode h → place.now.dinode ≡ dinode_in h }
    ensures aim { (h : Holding) → IsShown (V.seen view.now) place.now.inode h → IfOk result (IsDirectoryAim h) }
    ensures damaged { (h : Holding) → IsShown (V.seen view.now) place.now.inode h → IfDamaged result (BreaksAsLinear h) }
    ensures kept { IfDamaged result (IsOfView (V.seen view.now)) }
{
    if !place.dinode.is_directory() {
        return Ok(Aim::Refused(Reply::NotDir));
    }
    if !is_hashed(&place.dinode) {
        check_count(view, place.inode, place.dinode.entries)?;
    }
    if place.dinode.entries != 2 {
        return Ok(Aim::Refused(Reply::NotEmpty));
    }
    Ok(Aim::Taken)
}

/// What a call that removes a name makes of the inode at its path's end. Where that is a linear directory to be removed, it goes over its
/// records twice.
pub(crate) fn aim_at<V: View>(view: &V, call: &Call, place: &Place) -> Result<Aim, CallFault>
    requires removing { IsRemoving call.now }
    requires there { HasBlock (V.seen view.now) place.now.inode }
    requires dinode { (h : Holding) → IsShown (V.seen view.now) place.now.inode h → place.now.dinode ≡ dinode_in h }
    ensures aim { (h : Holding) → IsShown (V.seen view.now) place.now.inode h → IfOk result (IsAimOf call.now h) }
    ensures damaged { (h : Holding) → IsShown (V.seen view.now) place.now.inode h → IfDamaged result (BreaksAsLinear h) }
    ensures kept { IfDamaged result (IsOfView (V.seen view.now)) }
{
    match call {
        Call::Unlink(_) => Ok(file_aim(place)),
        Call::Rmdir(_) => directory_aim(view, place),
        _ => unreachable!(),
    }
}
