// What a call that writes does with the inode at its path's end.
ghost use Rattle.std.specs.Prelude.{◌+◌, ◌≤◌};
ghost use Rattle.gfs2_layout.specs.Structures.{dinode_length};
ghost use Rattle.writing_calls.specs.Contents.{IsAimOf, IsCutAimOf};

use file_tree::{FILE_LIMIT, Reply};
use gfs2_layout::{DINODE_LENGTH, Dinode};

/// What is to become of an inode.
#[derive(Drop)]
pub(crate) enum Aim {
    /// It stays, and the call is answered so.
    Refused(Reply),
    /// Its size is above what its dinode's block has room for, though its content is to stand there.
    Broken,
    /// The bytes go behind its dinode.
    Stuffed,
    /// The bytes go into blocks, or the file gets longer.
    Blocks,
    /// It is cut.
    Cut,
}

/// What a write of so many bytes from a place on does with the inode of this dinode, in blocks of this size.
pub(crate) fn aim_of(dinode: &Dinode, block_size: u32, at: u64, count: u64) -> Aim
    requires { dinode_length ≤ block_size }
    ensures { IsAimOf block_size dinode.now (at + count) result }
{
    if dinode.is_directory() {
        return Aim::Refused(Reply::IsDir);
    }
    if at > FILE_LIMIT || count > FILE_LIMIT - at {
        return Aim::Refused(Reply::TooBig);
    }
    let room = u64::from(block_size) - DINODE_LENGTH as u64;
    if dinode.height != 0 || at + count > room {
        return Aim::Blocks;
    }
    if dinode.size > room {
        return Aim::Broken;
    }
    Aim::Stuffed
}

/// What a cut to so many bytes does with the inode of this dinode.
pub(crate) fn aim_of_cut(dinode: &Dinode, size: u64) -> Aim
    ensures { IsCutAimOf dinode.now size result }
{
    if dinode.is_directory() {
        return Aim::Refused(Reply::IsDir);
    }
    if size > FILE_LIMIT {
        return Aim::Refused(Reply::TooBig);
    }
    if size > dinode.size {
        return Aim::Blocks;
    }
    Aim::Cut
}
