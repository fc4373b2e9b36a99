ghost use Rattle.std.specs.Prelude.{◌≡◌, ◌≤◌, length, drop, Ok};

use crate::LayoutFault;
use crate::fields::Number::{U16, U32, U64};
use crate::fields::put_fields;
use crate::header::{MAGIC, fault_of_header};
use crate::numbers::{u16_at, u32_at, u64_at};

// The format of a directory's records.
const RECORDS: u32 = 1200;

/// The head of a hashed directory's leaf (`gfs2_leaf`), 104 bytes before its records.
#[derive(Clone, Copy, Debug, PartialEq, Eq)]
pub struct Leaf {
    /// How many bits of a name's hash lead to the leaf.
    pub depth: u16,
    pub entries: u16,
    /// The block of the next leaf of the chain, or 0.
    pub next: u64,
}

impl Leaf {
    ghost use Rattle.gfs2_layout.specs.Structures.{answer, leaf_of, leaf_read, records_fault};
    ghost use Rattle.gfs2_layout.specs.Writing.{leaf_put};

    /// Reads a leaf's head. Faults: `Short` below 104 bytes, `Magic`, `Kind` other than 6, `Format` other
    /// than 600, `Value` at place 28 where its records have another format than 1200.
    pub fn read(bytes: &[u8]) -> Result<Leaf, LayoutFault>
        ensures { result ≡ leaf_read bytes.now }
    {
        match fault_of_header(bytes, 104, 6, 600) {
            Some(fault) => Err(fault),
            None => Leaf::of_records(bytes),
        }
    }

    fn of_records(bytes: &[u8]) -> Result<Leaf, LayoutFault>
        requires { 104 ≤ length bytes.now }
        ensures { result ≡ answer (records_fault bytes.now) (leaf_of bytes.now) }
    {
        let found = u32_at(bytes, 28);
        if found != RECORDS {
            return Err(LayoutFault::Value {
                place: 28,
                found: u64::from(found),
            });
        }
        Ok(Leaf {
            depth: u16_at(bytes, 24),
            entries: u16_at(bytes, 26),
            next: u64_at(bytes, 32),
        })
    }

    /// Writes the head. The pad keeps its bytes; what is behind `next` becomes zero.
    pub fn write(&self, bytes: &mut [u8])
        requires { 104 ≤ length bytes.old }
        ensures bytes { bytes.new ≡ leaf_put self.now bytes.old }
        ensures read { leaf_read bytes.new ≡ Ok self.now }
        ensures behind { drop 104 bytes.new ≡ drop 104 bytes.old }
    {
        let fields = [
            (0, U32(MAGIC)),
            (4, U32(6)),
            (16, U32(600)),
            (20, U32(0)),
            (24, U16(self.depth)),
            (26, U16(self.entries)),
            (28, U32(RECORDS)),
            (32, U64(self.next)),
            (40, U64(0)),
            (48, U64(0)),
            (56, U64(0)),
            (64, U64(0)),
            (72, U64(0)),
            (80, U64(0)),
            (88, U64(0)),
            (96, U64(0)),
        ];
        put_fields(bytes, &fields);
    }
}
