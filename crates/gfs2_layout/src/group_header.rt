ghost use Rattle.std.specs.Prelude.{◌≡◌, ◌≤◌, length, drop, Ok};

use crate::LayoutFault;
use crate::checksum::put_checksum;
use crate::fields::Number::{U32, U64};
use crate::fields::put_fields;
use crate::header::{MAGIC, fault_of_header};
use crate::numbers::{u32_at, u64_at};

/// The header of a resource group (`gfs2_rgrp`), the first 128 bytes of its first block.
#[derive(Clone, Copy, Debug, PartialEq, Eq)]
pub struct GroupHeader {
    pub flags: u32,
    /// How many of the data blocks are free, and how many are dinodes.
    pub free: u32,
    pub dinodes: u32,
    pub skip: u32,
    pub igeneration: u64,
    /// The first data block, and how many there are.
    pub data0: u64,
    pub data_blocks: u32,
    /// How many bytes the group's bitmap has, at four blocks a byte.
    pub bitbytes: u32,
}

impl GroupHeader {
    ghost use Rattle.gfs2_layout.specs.Structures.{group_of, group_read};
    ghost use Rattle.gfs2_layout.specs.Writing.{group_put};

    /// Reads a group's header. Faults: `Short` below 128 bytes, `Magic`, `Kind` other than 2, `Format`
    /// other than 200. The checksum is not looked at.
    pub fn read(bytes: &[u8]) -> Result<GroupHeader, LayoutFault>
        ensures { result ≡ group_read bytes.now }
    {
        match fault_of_header(bytes, 128, 2, 200) {
            Some(fault) => Err(fault),
            None => Ok(GroupHeader::fields(bytes)),
        }
    }

    fn fields(bytes: &[u8]) -> GroupHeader
        requires { 128 ≤ length bytes.now }
        ensures { result ≡ group_of bytes.now }
    {
        GroupHeader {
            flags: u32_at(bytes, 24),
            free: u32_at(bytes, 28),
            dinodes: u32_at(bytes, 32),
            skip: u32_at(bytes, 36),
            igeneration: u64_at(bytes, 40),
            data0: u64_at(bytes, 48),
            data_blocks: u32_at(bytes, 56),
            bitbytes: u32_at(bytes, 60),
        }
    }

    /// Writes the header with its checksum. Pads and the reserved bytes keep what they hold.
    pub fn write(&self, bytes: &mut [u8])
        requires { 128 ≤ length bytes.old }
        ensures bytes { bytes.new ≡ group_put self.now bytes.old }
        ensures read { group_read bytes.new ≡ Ok self.now }
        ensures behind { drop 128 bytes.new ≡ drop 128 bytes.old }
    {
        let fields = [
            (0, U32(MAGIC)),
            (4, U32(2)),
            (16, U32(200)),
            (20, U32(0)),
            (24, U32(self.flags)),
            (28, U32(self.free)),
            (32, U32(self.dinodes)),
            (36, U32(self.skip)),
            (40, U64(self.igeneration)),
            (48, U64(self.data0)),
            (56, U32(self.data_blocks)),
            (60, U32(self.bitbytes)),
        ];
        put_fields(bytes, &fields);
        put_checksum::<128>(bytes, 64);
    }
}
