ghost use Rattle.std.specs.Prelude.{◌≡◌, ◌≤◌, ◌↔◌, length, drop, Ok, IfNone, IsTrue};
ghost use Rattle.gfs2_layout.specs.Headers.{HasHeader};
ghost use Rattle.gfs2_layout.specs.Structures.{header_fault};

use crate::LayoutFault;
use crate::fields::Number::U32;
use crate::fields::put_fields;
use crate::numbers::u32_at;

pub(crate) const MAGIC: u32 = 0x0116_1970;

/// The header of a block of metadata (`gfs2_meta_header`): its kind, its format, and the number of the
/// journal that it is in.
#[derive(Clone, Copy, Debug, PartialEq, Eq)]
pub struct MetaHeader {
    pub kind: u32,
    pub format: u32,
    pub jid: u32,
}

impl MetaHeader {
    ghost use Rattle.gfs2_layout.specs.Structures.{header_read};
    ghost use Rattle.gfs2_layout.specs.Writing.{header_put};

    /// Reads the header of any kind. Faults: `Short` below 24 bytes, `Magic`.
    pub fn read(bytes: &[u8]) -> Result<MetaHeader, LayoutFault>
        ensures { result ≡ header_read bytes.now }
    {
        if bytes.len() < 24 {
            return Err(LayoutFault::Short);
        }
        if u32_at(bytes, 0) != MAGIC {
            return Err(LayoutFault::Magic);
        }
        Ok(MetaHeader {
            kind: u32_at(bytes, 4),
            format: u32_at(bytes, 16),
            jid: u32_at(bytes, 20),
        })
    }

    /// Writes the header. The pad keeps its bytes.
    pub fn write(&self, bytes: &mut [u8])
        requires { 24 ≤ length bytes.old }
        ensures bytes { bytes.new ≡ header_put self.now bytes.old }
        ensures read { header_read bytes.new ≡ Ok self.now }
        ensures behind { drop 24 bytes.new ≡ drop 24 bytes.old }
    {
        let fields = [
            (0, U32(MAGIC)),
            (4, U32(self.kind)),
            (16, U32(self.format)),
            (20, U32(self.jid)),
        ];
        put_fields(bytes, &fields);
    }
}

// What is wrong with a block's header where this kind and format are wanted.
pub(crate) fn fault_of_header(
    bytes: &[u8],
    needed: usize,
    kind: u32,
    format: u32,
) -> Option<LayoutFault>
    requires { 24 ≤ needed }
    ensures value { result ≡ header_fault needed kind format bytes.now }
    ensures long { IfNone result (needed ≤ length bytes.now) }
{
    if bytes.len() < needed {
        return Some(LayoutFault::Short);
    }
    if u32_at(bytes, 0) != MAGIC {
        return Some(LayoutFault::Magic);
    }
    let found = u32_at(bytes, 4);
    if found != kind {
        return Some(LayoutFault::Kind(found));
    }
    let found = u32_at(bytes, 16);
    if found != format {
        return Some(LayoutFault::Format(found));
    }
    None
}

/// Whether a block begins with the magic, this kind and this format.
pub fn has_header(bytes: &[u8], kind: u32, format: u32) -> bool
    requires { 24 ≤ length bytes.now }
    ensures { IsTrue result ↔ HasHeader kind format bytes.now }
{
    match MetaHeader::read(bytes) {
        Ok(header) => header.kind == kind && header.format == format,
        Err(_) => false,
    }
}
