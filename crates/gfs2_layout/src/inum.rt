ghost use Rattle.std.specs.Prelude.{◌≡◌, ◌+◌, ◌≤◌, length};

use crate::numbers::u64_at;

/// An inode's formal number and the address of its dinode's block (`gfs2_inum`).
#[derive(Clone, Copy, Debug, PartialEq, Eq)]
pub struct Inum {
    pub number: u64,
    pub address: u64,
}

impl Inum {
    ghost use Rattle.gfs2_layout.specs.Structures.{inum_at};

    pub(crate) fn at(bytes: &[u8], at: usize) -> Inum
        requires { at + 16 ≤ length bytes.now }
        ensures { result ≡ inum_at at bytes.now }
    {
        Inum {
            number: u64_at(bytes, at),
            address: u64_at(bytes, at + 8),
        }
    }
}
