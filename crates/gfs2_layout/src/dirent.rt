ghost use Rattle.std.specs.Prelude.{◌≡◌, ◌≤◌, length, drop};

use crate::fields::Number::{U16, U32, U64};
use crate::fields::put_fields;
use crate::numbers::{u16_at, u32_at};
use crate::{Inum, LayoutFault};

/// The head of a directory's record (`gfs2_dirent`), 40 bytes before its name.
#[derive(Clone, Copy, Debug, PartialEq, Eq)]
pub struct Dirent {
    pub inum: Inum,
    /// The CRC-32 of the name.
    pub hash: u32,
    /// How many bytes the record has, with its head, its name and what room is behind it.
    pub rec_len: u16,
    pub name_len: u16,
    /// 4 for a directory, 8 for a regular file.
    pub kind: u16,
    pub rahead: u16,
}

impl Dirent {
    ghost use Rattle.gfs2_layout.specs.Structures.{answer, dirent_of, dirent_read, is_in_use, kind_fault};
    ghost use Rattle.gfs2_layout.specs.Writing.{dirent_put};

    /// Reads the head of a record. Faults: `Short` below 40 bytes, `Value` at place 24 where a record in
    /// use has another kind than 4 and 8.
    pub fn read(bytes: &[u8]) -> Result<Dirent, LayoutFault>
        ensures { result ≡ dirent_read bytes.now }
    {
        if bytes.len() < 40 {
            return Err(LayoutFault::Short);
        }
        let head = Dirent::head(bytes);
        if head.is_in_use() && head.kind != 4 && head.kind != 8 {
            return Err(LayoutFault::Value {
                place: 24,
                found: u64::from(head.kind),
            });
        }
        Ok(head)
    }

    /// The fields of a record's head as they stand, whatever its kind.
    pub fn head(bytes: &[u8]) -> Dirent
        requires { 40 ≤ length bytes.now }
        ensures { result ≡ dirent_of bytes.now }
    {
        Dirent {
            inum: Inum::at(bytes, 0),
            hash: u32_at(bytes, 16),
            rec_len: u16_at(bytes, 20),
            name_len: u16_at(bytes, 22),
            kind: u16_at(bytes, 24),
            rahead: u16_at(bytes, 26),
        }
    }

    /// Writes the head of a record. The pad keeps its bytes.
    pub fn write(&self, bytes: &mut [u8])
        requires { 40 ≤ length bytes.old }
        ensures bytes { bytes.new ≡ dirent_put self.now bytes.old }
        ensures head { dirent_of bytes.new ≡ self.now }
        ensures read { dirent_read bytes.new ≡ answer (kind_fault self.now) self.now }
        ensures behind { drop 40 bytes.new ≡ drop 40 bytes.old }
    {
        let fields = [
            (0, U64(self.inum.number)),
            (8, U64(self.inum.address)),
            (16, U32(self.hash)),
            (20, U16(self.rec_len)),
            (22, U16(self.name_len)),
            (24, U16(self.kind)),
            (26, U16(self.rahead)),
        ];
        put_fields(bytes, &fields);
    }

    /// Whether the record is in use: neither number of its inum is zero.
    pub fn is_in_use(&self) -> bool
        ensures { result ≡ is_in_use self.now }
    {
        self.inum.number != 0 && self.inum.address != 0
    }
}
