ghost use Rattle.std.specs.Prelude.{◌≡◌, ◌+◌, ◌^◌, ◌<◌, ◌≤◌, length};
ghost use Rattle.gfs2_layout.specs.Checksum.{checksum_of, with_checksum};

use crate::numbers::{bytes_at, put_u32};

// The CRC-32 of the first N bytes, with zero in the place of the checksum itself.
#[tactic(auto, unfolding(crate::specs::Checksum::checksum_of))]
pub(crate) fn checksum<const N: usize>(bytes: &[u8], at: usize) -> u32
    requires place { at + 4 ≤ N }
    requires covered { N ≤ length bytes.now }
    ensures { result ≡ checksum_of N at bytes.now }
{
    let mut covered: [u8; N] = bytes_at(bytes, 0);
    put_u32(&mut covered, at, 0);
    crc_words::crc32(&covered)
}

pub(crate) fn put_checksum<const N: usize>(bytes: &mut [u8], at: usize)
    requires place { at + 4 ≤ N }
    requires covered { N ≤ length bytes.old }
    ensures bytes { bytes.new ≡ with_checksum N at bytes.old }
    ensures width { checksum_of N at bytes.old < 2 ^ 32 }
{
    let computed = checksum::<N>(bytes, at);
    put_u32(bytes, at, computed);
}
