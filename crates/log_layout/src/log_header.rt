ghost use Rattle.std.specs.Prelude.{◌≡◌, ◌≤◌, ◌-◌, length, drop, replicate, Ok};
ghost use Rattle.std.specs.Prelude.{◌<◌, ◌^◌};
ghost use Rattle.log_layout.specs.Headers.{crc_of, with_crc};

use crate::numbers::{put_u32, put_u64, u32_at, u64_at};
use gfs2_layout::{LayoutFault, LogHeader as Front};

// How many bytes a log header has: those that its hash guards, and those behind them.
const LENGTH: usize = 120;

/// What a log header of version 2 has behind its checksum. This project gives `addr`, `jinode` and `sec` a meaning and
/// writes the others as zero.
#[derive(Clone, Copy, Debug, PartialEq, Eq)]
pub struct Later {
    pub nsec: u32,
    /// When it was written, in seconds.
    pub sec: u64,
    /// The block in which the header stands.
    pub addr: u64,
    /// The block of the journal's dinode.
    pub jinode: u64,
    pub statfs_addr: u64,
    pub quota_addr: u64,
    pub local_total: u64,
    pub local_free: u64,
    pub local_dinodes: u64,
}

/// A log header (`gfs2_log_header`), which is a block of its own. Its first 48 bytes are those of version 1, with a hash over
/// them; version 2 goes on with a checksum of all that is behind it. Where that checksum is zero the header is of version 1.
#[derive(Clone, Copy, Debug, PartialEq, Eq)]
pub struct LogHeader {
    /// The number of the journal.
    pub jid: u32,
    pub sequence: u64,
    /// Whether the journal was left clean.
    pub clean: bool,
    /// The place in the journal of the oldest transaction that is still wanted.
    pub tail: u32,
    /// The header's own place in the journal.
    pub blkno: u32,
    /// What version 2 has besides.
    pub later: Option<Later>,
}

impl Later {
    ghost use Rattle.log_layout.specs.Headers.{later_fields, later_in, with_later};
    ghost use Rattle.log_layout.specs.Fields.{HaveWidths, with_fields};

    fn read(bytes: &[u8]) -> Later
        requires { 120 ≤ length bytes.now }
        ensures { result ≡ later_in bytes.now }
    {
        Later {
            nsec: u32_at(bytes, 52),
            sec: u64_at(bytes, 56),
            addr: u64_at(bytes, 64),
            jinode: u64_at(bytes, 72),
            statfs_addr: u64_at(bytes, 80),
            quota_addr: u64_at(bytes, 88),
            local_total: u64_at(bytes, 96),
            local_free: u64_at(bytes, 104),
            local_dinodes: u64_at(bytes, 112),
        }
    }

    #[tactic(auto, unfolding(crate::specs::Fields::with_fields))]
    fn write(&self, bytes: &mut [u8])
        requires { 120 ≤ length bytes.old }
        ensures bytes { bytes.new ≡ with_fields (later_fields self.now) bytes.old }
        ensures widths { HaveWidths (later_fields self.now) }
    {
        put_u32(bytes, 52, self.nsec);
        put_u64(bytes, 56, self.sec);
        put_u64(bytes, 64, self.addr);
        put_u64(bytes, 72, self.jinode);
        put_u64(bytes, 80, self.statfs_addr);
        put_u64(bytes, 88, self.quota_addr);
        put_u64(bytes, 96, self.local_total);
        put_u64(bytes, 104, self.local_free);
        put_u64(bytes, 112, self.local_dinodes);
    }
}

impl LogHeader {
    ghost use Rattle.log_layout.specs.Headers.{as_read, crc_of, later_of, log_put, log_read, read_behind, with_later, with_crc};

    /// Reads a log header, and computes the CRC-32 of 48 bytes and, where the checksum behind them isn't zero, the CRC-32C of
    /// all from byte 52 on. Faults: `Short` below 120 bytes, `Magic`, `Kind` other than 8, `Format` other than 800, `Hash` of
    /// the hash, or else of that checksum. Whether it stands in its own place is for the caller to see.
    pub fn read(bytes: &[u8]) -> Result<LogHeader, LayoutFault>
        ensures { result ≡ log_read bytes.now }
    {
        if bytes.len() < LENGTH {
            return Err(LayoutFault::Short);
        }
        match Front::read(bytes) {
            Ok(front) => LogHeader::behind(front, bytes),
            Err(fault) => Err(fault),
        }
    }

    fn behind(front: Front, bytes: &[u8]) -> Result<LogHeader, LayoutFault>
        requires { 120 ≤ length bytes.now }
        ensures { result ≡ read_behind (Ok front) bytes.now }
    {
        let kept = u32_at(bytes, 48);
        if kept == 0 {
            return Ok(LogHeader::of(front, None));
        }
        let computed = checksum(bytes);
        if kept != computed {
            return Err(LayoutFault::Hash { kept, computed });
        }
        Ok(LogHeader::of(front, Some(Later::read(bytes))))
    }

    fn of(front: Front, later: Option<Later>) -> LogHeader
        ensures { result ≡ with_later front later }
    {
        LogHeader {
            jid: front.jid,
            sequence: front.sequence,
            clean: front.clean,
            tail: front.tail,
            blkno: front.blkno,
            later,
        }
    }

    /// Writes the header with its hash and, of version 2, its checksum, and zeros from there to the end of the block that is
    /// given. The pad keeps its bytes.
    pub fn write(&self, block: &mut [u8])
        requires { 120 ≤ length block.old }
        ensures bytes { block.new ≡ log_put self.now block.old }
        ensures read { log_read block.new ≡ Ok (as_read self.now block.new) }
        ensures behind { drop 120 block.new ≡ replicate (length block.old - 120) 0 }
        ensures size { length block.new ≡ length block.old }
    {
        let front = Front {
            jid: self.jid,
            sequence: self.sequence,
            clean: self.clean,
            tail: self.tail,
            blkno: self.blkno,
        };
        front.write(block);
        if let Some(later) = self.later {
            later.write(block);
            put_checksum(block);
        }
    }
}

// The CRC-32C of all behind the checksum itself.
#[tactic(auto, unfolding(crate::specs::Headers::crc_of))]
fn checksum(bytes: &[u8]) -> u32
    requires { 52 ≤ length bytes.now }
    ensures { result ≡ crc_of bytes.now }
{
    crc_words::crc32c_raw(&bytes[52..])
}

fn put_checksum(bytes: &mut [u8])
    requires { 52 ≤ length bytes.old }
    ensures bytes { bytes.new ≡ with_crc bytes.old }
    ensures width { crc_of bytes.old < 2 ^ 32 }
{
    let computed = checksum(bytes);
    put_u32(bytes, 48, computed);
}
