ghost use Rattle.std.specs.Prelude.{◌≡◌, ◌≤◌, length, drop, Ok};

use crate::fields::Number::{U32, U64};
use crate::fields::put_fields;
use crate::header::{MAGIC, fault_of_header};
use crate::numbers::{bytes_at, put_bytes, u32_at};
use crate::{Inum, LayoutFault};

/// The superblock (`gfs2_sb`), 272 bytes at byte 65,536 of the device.
#[derive(Clone, Copy, Debug, PartialEq, Eq)]
pub struct SuperBlock {
    pub fs_format: u32,
    pub multihost_format: u32,
    /// The block size in bytes, and its logarithm.
    pub bsize: u32,
    pub bsize_shift: u32,
    /// The master directory, which has the system's files, and the root directory.
    pub master: Inum,
    pub root: Inum,
    pub lock_protocol: [u8; 64],
    pub lock_table: [u8; 64],
    pub uuid: [u8; 16],
}

impl SuperBlock {
    ghost use Rattle.gfs2_layout.specs.Structures.{superblock_of, superblock_read};
    ghost use Rattle.gfs2_layout.specs.Writing.{superblock_put, texts_put};

    /// Reads a superblock. Faults: `Short` below 272 bytes, `Magic`, `Kind` other than 1, `Format` other
    /// than 100.
    pub fn read(bytes: &[u8]) -> Result<SuperBlock, LayoutFault>
        ensures { result ≡ superblock_read bytes.now }
    {
        match fault_of_header(bytes, 272, 1, 100) {
            Some(fault) => Err(fault),
            None => Ok(SuperBlock::fields(bytes)),
        }
    }

    fn fields(bytes: &[u8]) -> SuperBlock
        requires { 272 ≤ length bytes.now }
        ensures { result ≡ superblock_of bytes.now }
    {
        SuperBlock {
            fs_format: u32_at(bytes, 24),
            multihost_format: u32_at(bytes, 28),
            bsize: u32_at(bytes, 36),
            bsize_shift: u32_at(bytes, 40),
            master: Inum::at(bytes, 48),
            root: Inum::at(bytes, 80),
            lock_protocol: bytes_at(bytes, 96),
            lock_table: bytes_at(bytes, 160),
            uuid: bytes_at(bytes, 256),
        }
    }
    /// Writes the superblock. Pads keep their bytes.
    pub fn write(&self, bytes: &mut [u8])
        requires { 272 ≤ length bytes.old }
        ensures bytes { bytes.new ≡ superblock_put self.now bytes.old }
        ensures read { superblock_read bytes.new ≡ Ok self.now }
        ensures behind { drop 272 bytes.new ≡ drop 272 bytes.old }
    {
        self.put_texts(bytes);
        let fields = [
            (0, U32(MAGIC)),
            (4, U32(1)),
            (16, U32(100)),
            (20, U32(0)),
            (24, U32(self.fs_format)),
            (28, U32(self.multihost_format)),
            (36, U32(self.bsize)),
            (40, U32(self.bsize_shift)),
            (48, U64(self.master.number)),
            (56, U64(self.master.address)),
            (80, U64(self.root.number)),
            (88, U64(self.root.address)),
        ];
        put_fields(bytes, &fields);
    }

    fn put_texts(&self, bytes: &mut [u8])
        requires { 272 ≤ length bytes.old }
        ensures bytes { bytes.new ≡ texts_put self.now bytes.old }
        ensures lock_protocol { length self.now.lock_protocol ≡ 64 }
        ensures lock_table { length self.now.lock_table ≡ 64 }
        ensures uuid { length self.now.uuid ≡ 16 }
    {
        put_bytes(bytes, 96, &self.lock_protocol);
        put_bytes(bytes, 160, &self.lock_table);
        put_bytes(bytes, 256, &self.uuid);
    }
}
