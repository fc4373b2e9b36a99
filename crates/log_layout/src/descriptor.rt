ghost use Rattle.std.specs.Prelude.{◌≡◌, ◌≤◌, length, drop, Ok};
ghost use Rattle.log_layout.specs.Descriptors.{kind_number, kind_of};
ghost use Rattle.gfs2_layout.specs.Bytes.{u32_at as number_32};

use crate::numbers::{put_u32, u32_at};
use gfs2_layout::{LayoutFault, MetaHeader};

// The kind and the format of a descriptor's block.
const KIND: u32 = 9;

const FORMAT: u32 = 900;

/// What a chunk has: blocks of metadata, numbers of revoked blocks, or blocks of files' content (in GFS2 'journaled data').
#[derive(Clone, Copy, Debug, PartialEq, Eq)]
pub enum ChunkKind {
    Metadata,
    Revoke,
    Journaled,
}

impl ChunkKind {
    fn number(self) -> u32
        ensures { result ≡ kind_number self }
    {
        match self {
            ChunkKind::Metadata => 300,
            ChunkKind::Revoke => 301,
            ChunkKind::Journaled => 302,
        }
    }

    fn of(number: u32) -> Option<ChunkKind>
        ensures { result ≡ kind_of number }
    {
        match number {
            300 => Some(ChunkKind::Metadata),
            301 => Some(ChunkKind::Revoke),
            302 => Some(ChunkKind::Journaled),
            _ => None,
        }
    }
}

/// The head of a chunk (`gfs2_log_descriptor`), 72 bytes before its entries.
#[derive(Clone, Copy, Debug, PartialEq, Eq)]
pub struct LogDescriptor {
    /// The number of the journal.
    pub jid: u32,
    pub kind: ChunkKind,
    /// How many blocks the chunk has, the descriptor's own among them.
    pub length: u32,
    /// How many entries it has (the first data number).
    pub entries: u32,
}

impl LogDescriptor {
    ghost use Rattle.log_layout.specs.Descriptors.{descriptor_put, descriptor_read, of_kind};

    /// Reads a descriptor. Faults: `Short` below 72 bytes, `Magic`, `Kind` other than 9, `Format` other than 900, `Value` at
    /// place 24 where the chunk is of another kind than the three.
    pub fn read(bytes: &[u8]) -> Result<LogDescriptor, LayoutFault>
        ensures { result ≡ descriptor_read bytes.now }
    {
        if bytes.len() < 72 {
            return Err(LayoutFault::Short);
        }
        let header = MetaHeader::read(bytes)?;
        if header.kind != KIND {
            return Err(LayoutFault::Kind(header.kind));
        }
        if header.format != FORMAT {
            return Err(LayoutFault::Format(header.format));
        }
        LogDescriptor::of_known(header.jid, bytes)
    }

    fn of_known(jid: u32, bytes: &[u8]) -> Result<LogDescriptor, LayoutFault>
        requires { 72 ≤ length bytes.now }
        ensures { jid ≡ number_32 20 bytes.now → result ≡ of_kind (kind_of (number_32 24 bytes.now)) bytes.now }
    {
        let found = u32_at(bytes, 24);
        match ChunkKind::of(found) {
            Some(kind) => Ok(LogDescriptor {
                jid,
                kind,
                length: u32_at(bytes, 28),
                entries: u32_at(bytes, 32),
            }),
            None => Err(LayoutFault::Value {
                place: 24,
                found: u64::from(found),
            }),
        }
    }

    /// Writes the descriptor. The pad and the reserved bytes keep what they hold.
    pub fn write(&self, bytes: &mut [u8])
        requires { 72 ≤ length bytes.old }
        ensures bytes { bytes.new ≡ descriptor_put self.now bytes.old }
        ensures read { descriptor_read bytes.new ≡ Ok self.now }
        ensures behind { drop 72 bytes.new ≡ drop 72 bytes.old }
        ensures size { length bytes.new ≡ length bytes.old }
    {
        let header = MetaHeader {
            kind: KIND,
            format: FORMAT,
            jid: self.jid,
        };
        header.write(bytes);
        put_u32(bytes, 24, self.kind.number());
        put_u32(bytes, 28, self.length);
        put_u32(bytes, 32, self.entries);
        put_u32(bytes, 36, 0);
    }
}
