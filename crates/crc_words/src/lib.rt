//! Checksums of bytes: CRC-32 and CRC-32C, by tables, and equal to the division bit by bit.
#![tactic(auto)]

ghost use Rattle.std.specs.Prelude.{◌≡◌};
ghost use Rattle.crc_words.specs.Remainder.{crc32_of, crc32c_raw_of};

mod divide;
mod laws;
mod plain;
mod tables;

pub use laws::{
    bursts_change_checksums, changed_bytes_are_a_burst, checksums_go_on_over_pieces,
    checksums_have_32_bits, checksums_have_known_values, remainders_are_rests_of_division,
};
pub use plain::remainder_bit_by_bit;
use tables::crc32::{CRC32_FAR, CRC32_NEAR};
use tables::crc32c::{CRC32C_FAR, CRC32C_NEAR};

// 0x04C11DB7, the polynomial of ISO 3309, with its bits turned round.
const ISO_3309: u32 = 0xEDB8_8320;

// 0x1EDC6F41, Castagnoli's polynomial, with its bits turned round.
const CASTAGNOLI: u32 = 0x82F6_3B78;

/// The CRC-32 of the bytes, as zlib, gzip, PNG and Ethernet have it (ISO 3309, polynomial 0x04C11DB7): the least bit
/// first, from all ones, inverted at the end. It takes no memory, and about one look-up a byte.
pub fn crc32(bytes: &[u8]) -> u32
    ensures { result ≡ crc32_of bytes.now }
{
    divide::advance::<ISO_3309>(&CRC32_NEAR, &CRC32_FAR, u32::MAX, bytes) ^ u32::MAX
}

/// The CRC-32C of the bytes (Castagnoli, polynomial 0x1EDC6F41, as in RFC 3720) without the inversion at its end, as
/// Linux's `crc32c(~0, ..)` gives it: the least bit first, from all ones. It costs what `crc32` costs.
pub fn crc32c_raw(bytes: &[u8]) -> u32
    ensures { result ≡ crc32c_raw_of bytes.now }
{
    divide::advance::<CASTAGNOLI>(&CRC32C_NEAR, &CRC32C_FAR, u32::MAX, bytes)
}
