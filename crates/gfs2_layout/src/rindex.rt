ghost use Rattle.std.specs.Prelude.{◌≡◌, ◌≤◌, length, drop, Ok};

use crate::LayoutFault;
use crate::fields::Number::{U32, U64};
use crate::fields::put_fields;
use crate::numbers::{u32_at, u64_at};

/// An entry of the list of resource groups (`gfs2_rindex`), 96 bytes.
#[derive(Clone, Copy, Debug, PartialEq, Eq)]
pub struct Rindex {
    /// The block of the group's header.
    pub address: u64,
    /// How many blocks the header and the bitmaps have.
    pub length: u32,
    /// The first data block, and how many there are.
    pub data0: u64,
    pub data_blocks: u32,
    /// How many bytes the group's bitmap has, at four blocks a byte.
    pub bitbytes: u32,
}

impl Rindex {
    ghost use Rattle.gfs2_layout.specs.Structures.{rindex_of, rindex_read};
    ghost use Rattle.gfs2_layout.specs.Writing.{rindex_put};

    /// Reads an entry. Faults: `Short` below 96 bytes.
    pub fn read(bytes: &[u8]) -> Result<Rindex, LayoutFault>
        ensures { result ≡ rindex_read bytes.now }
    {
        if bytes.len() < 96 {
            return Err(LayoutFault::Short);
        }
        Ok(Rindex::fields(bytes))
    }

    fn fields(bytes: &[u8]) -> Rindex
        requires { 96 ≤ length bytes.now }
        ensures { result ≡ rindex_of bytes.now }
    {
        Rindex {
            address: u64_at(bytes, 0),
            length: u32_at(bytes, 8),
            data0: u64_at(bytes, 16),
            data_blocks: u32_at(bytes, 24),
            bitbytes: u32_at(bytes, 28),
        }
    }

    /// Writes the entry. The pad and the reserved bytes keep what they hold.
    pub fn write(&self, bytes: &mut [u8])
        requires { 96 ≤ length bytes.old }
        ensures bytes { bytes.new ≡ rindex_put self.now bytes.old }
        ensures read { rindex_read bytes.new ≡ Ok self.now }
        ensures behind { drop 96 bytes.new ≡ drop 96 bytes.old }
    {
        let fields = [
            (0, U64(self.address)),
            (8, U32(self.length)),
            (16, U64(self.data0)),
            (24, U32(self.data_blocks)),
            (28, U32(self.bitbytes)),
        ];
        put_fields(bytes, &fields);
    }
}
