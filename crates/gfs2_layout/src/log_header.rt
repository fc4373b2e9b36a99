ghost use Rattle.std.specs.Prelude.{◌≡◌, ◌≤◌, length, ◌-◌, drop, replicate, Ok, if◌then◌else◌};

use crate::LayoutFault;
use crate::checksum::{checksum, put_checksum};
use crate::fields::Number::{U32, U64};
use crate::fields::put_fields;
use crate::header::{MAGIC, fault_of_header};
use crate::numbers::{put_zeros, u32_at, u64_at};

/// A log header of version 1 (`gfs2_log_header`), the first 48 bytes of its block, with zeros behind them.
#[derive(Clone, Copy, Debug, PartialEq, Eq)]
pub struct LogHeader {
    /// The number of the journal.
    pub jid: u32,
    pub sequence: u64,
    /// Whether the journal was left clean.
    pub clean: bool,
    /// The place in the journal of the oldest transaction that is still wanted.
    pub tail: u32,
    /// The header's own place in the journal.
    pub blkno: u32,
}

impl LogHeader {
    ghost use Rattle.gfs2_layout.specs.Structures.{answer, hash_fault, log_of, log_read};
    ghost use Rattle.gfs2_layout.specs.Writing.{log_fields, log_flags, log_put, zeros_from};
    ghost use Rattle.gfs2_layout.specs.Fields.{HasItsWidth, with_fields};
    ghost use Rattle.std.specs.List.{AllByRecursion};

    /// Reads a log header, and computes the CRC-32 of 48 bytes. Faults: `Short` below 48 bytes, `Magic`,
    /// `Kind` other than 8, `Format` other than 800, `Hash`. Whether it stands in its own place is for the
    /// caller to see.
    pub fn read(bytes: &[u8]) -> Result<LogHeader, LayoutFault>
        ensures { result ≡ log_read bytes.now }
    {
        match fault_of_header(bytes, 48, 8, 800) {
            Some(fault) => Err(fault),
            None => LogHeader::of_hash(bytes),
        }
    }

    fn of_hash(bytes: &[u8]) -> Result<LogHeader, LayoutFault>
        requires { 48 ≤ length bytes.now }
        ensures { result ≡ answer (hash_fault bytes.now) (log_of bytes.now) }
    {
        let kept = u32_at(bytes, 44);
        let computed = checksum::<48>(bytes, 44);
        if kept != computed {
            return Err(LayoutFault::Hash { kept, computed });
        }
        Ok(LogHeader {
            jid: u32_at(bytes, 20),
            sequence: u64_at(bytes, 24),
            clean: u32_at(bytes, 32) % 2 == 1,
            tail: u32_at(bytes, 36),
            blkno: u32_at(bytes, 40),
        })
    }

    fn flags(&self) -> u32
        ensures { result ≡ log_flags self.now }
    {
        if self.clean { 1 } else { 0 }
    }

    /// Writes the header with its hash, and zeros from there to the end of the block that is given. The pad
    /// keeps its bytes.
    pub fn write(&self, block: &mut [u8])
        requires { 48 ≤ length block.old }
        ensures bytes { block.new ≡ log_put self.now block.old }
        ensures read { log_read block.new ≡ Ok self.now }
        ensures behind { drop 48 block.new ≡ replicate (length block.old - 48) 0 }
    {
        self.put_numbers(block);
        put_checksum::<48>(block, 44);
    }

    fn put_numbers(&self, block: &mut [u8])
        requires { 48 ≤ length block.old }
        ensures bytes { block.new ≡ with_fields (log_fields self.now) (zeros_from 48 block.old) }
        ensures widths { AllByRecursion HasItsWidth (log_fields self.now) }
    {
        put_zeros(block, 48);
        let fields = [
            (0, U32(MAGIC)),
            (4, U32(8)),
            (16, U32(800)),
            (20, U32(self.jid)),
            (24, U64(self.sequence)),
            (32, U32(self.flags())),
            (36, U32(self.tail)),
            (40, U32(self.blkno)),
        ];
        put_fields(block, &fields);
    }
}
