ghost use Rattle.std.specs.Prelude.{◌≡◌, ◌≤◌, length, drop, Ok};

use crate::fields::Number::{U16, U32, U64};
use crate::fields::put_fields;
use crate::header::{MAGIC, fault_of_header};
use crate::numbers::{u16_at, u32_at, u64_at};
use crate::{Inum, LayoutFault};

/// How many bytes a dinode has. What its block holds behind them is the content of a stuffed inode, or pointers.
pub const DINODE_LENGTH: usize = 232;

/// A dinode (`gfs2_dinode`), the first bytes of its block. Sizes are in bytes, times in seconds.
#[derive(Clone, Copy, Debug, PartialEq, Eq)]
pub struct Dinode {
    pub num: Inum,
    pub mode: u32,
    pub uid: u32,
    pub gid: u32,
    pub nlink: u32,
    pub size: u64,
    /// How many blocks the inode has, the dinode's own among them.
    pub blocks: u64,
    pub atime: u64,
    pub mtime: u64,
    pub ctime: u64,
    pub major: u32,
    pub minor: u32,
    pub goal_meta: u64,
    pub goal_data: u64,
    pub generation: u64,
    pub flags: u32,
    pub payload_format: u32,
    /// How many levels of pointers lead to the content; at 0 it follows the dinode.
    pub height: u16,
    pub depth: u16,
    pub entries: u32,
    pub eattr: u64,
    pub atime_nsec: u32,
    pub mtime_nsec: u32,
    pub ctime_nsec: u32,
}

impl Dinode {
    ghost use Rattle.gfs2_layout.specs.Structures.{dinode_of, dinode_read, dinode_length, is_directory, is_regular};
    ghost use Rattle.gfs2_layout.specs.Writing.{dinode_put};

    /// Reads a dinode. Faults: `Short` below 232 bytes, `Magic`, `Kind` other than 4, `Format` other than
    /// 400.
    pub fn read(bytes: &[u8]) -> Result<Dinode, LayoutFault>
        ensures { result ≡ dinode_read bytes.now }
    {
        match fault_of_header(bytes, DINODE_LENGTH, 4, 400) {
            Some(fault) => Err(fault),
            None => Ok(Dinode::fields(bytes)),
        }
    }

    fn fields(bytes: &[u8]) -> Dinode
        requires { dinode_length ≤ length bytes.now }
        ensures { result ≡ dinode_of bytes.now }
    {
        Dinode {
            num: Inum::at(bytes, 24),
            mode: u32_at(bytes, 40),
            uid: u32_at(bytes, 44),
            gid: u32_at(bytes, 48),
            nlink: u32_at(bytes, 52),
            size: u64_at(bytes, 56),
            blocks: u64_at(bytes, 64),
            atime: u64_at(bytes, 72),
            mtime: u64_at(bytes, 80),
            ctime: u64_at(bytes, 88),
            major: u32_at(bytes, 96),
            minor: u32_at(bytes, 100),
            goal_meta: u64_at(bytes, 104),
            goal_data: u64_at(bytes, 112),
            generation: u64_at(bytes, 120),
            flags: u32_at(bytes, 128),
            payload_format: u32_at(bytes, 132),
            height: u16_at(bytes, 138),
            depth: u16_at(bytes, 146),
            entries: u32_at(bytes, 148),
            eattr: u64_at(bytes, 168),
            atime_nsec: u32_at(bytes, 176),
            mtime_nsec: u32_at(bytes, 180),
            ctime_nsec: u32_at(bytes, 184),
        }
    }

    /// Writes the dinode. Pads and the reserved bytes keep theirs.
    pub fn write(&self, bytes: &mut [u8])
        requires { dinode_length ≤ length bytes.old }
        ensures bytes { bytes.new ≡ dinode_put self.now bytes.old }
        ensures read { dinode_read bytes.new ≡ Ok self.now }
        ensures behind { drop dinode_length bytes.new ≡ drop dinode_length bytes.old }
    {
        let fields = [
            (0, U32(MAGIC)),
            (4, U32(4)),
            (16, U32(400)),
            (20, U32(0)),
            (24, U64(self.num.number)),
            (32, U64(self.num.address)),
            (40, U32(self.mode)),
            (44, U32(self.uid)),
            (48, U32(self.gid)),
            (52, U32(self.nlink)),
            (56, U64(self.size)),
            (64, U64(self.blocks)),
            (72, U64(self.atime)),
            (80, U64(self.mtime)),
            (88, U64(self.ctime)),
            (96, U32(self.major)),
            (100, U32(self.minor)),
            (104, U64(self.goal_meta)),
            (112, U64(self.goal_data)),
            (120, U64(self.generation)),
            (128, U32(self.flags)),
            (132, U32(self.payload_format)),
            (138, U16(self.height)),
            (146, U16(self.depth)),
            (148, U32(self.entries)),
            (168, U64(self.eattr)),
            (176, U32(self.atime_nsec)),
            (180, U32(self.mtime_nsec)),
            (184, U32(self.ctime_nsec)),
        ];
        put_fields(bytes, &fields);
    }

    /// Whether the mode's file type (`S_IFMT`, 0o170000) is a directory's (`S_IFDIR`).
    pub fn is_directory(&self) -> bool
        ensures { result ≡ is_directory self.now }
    {
        self.mode / 4096 % 16 == 4
    }

    /// Whether the mode's file type is a regular file's (`S_IFREG`).
    pub fn is_regular(&self) -> bool
        ensures { result ≡ is_regular self.now }
    {
        self.mode / 4096 % 16 == 8
    }
}
