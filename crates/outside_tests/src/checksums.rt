// Checksums with known values, and by tables and bit by bit.
use crc_words::{crc32, crc32c_raw, remainder_bit_by_bit};

// The polynomials with their bits turned round: 0x04C11DB7 of ISO 3309, and Castagnoli's 0x1EDC6F41.
const ISO_3309: u32 = 0xEDB8_8320;

const CASTAGNOLI: u32 = 0x82F6_3B78;

// The SCSI Read (10) command of RFC 3720, B.4.
const READ_COMMAND: [u8; 48] = [
    0x01, 0xc0, 0, 0, 0, 0, 0, 0, 0, 0, 0, 0, 0, 0, 0, 0, 0x14, 0, 0, 0, 0, 0, 0x04, 0, 0, 0, 0,
    0x14, 0, 0, 0, 0x18, 0x28, 0, 0, 0, 0, 0, 0, 0, 0x02, 0, 0, 0, 0, 0, 0, 0,
];

#[test]
fn crc32_has_known_values(rt: HostRuntime) {
    assert_eq!(rt; crc32(b"123456789"), 0xcbf4_3926);
    assert_eq!(rt; crc32(b"a"), 0xe8b7_be43);
    assert_eq!(rt; crc32(b""), 0);
}

#[test]
fn crc32c_raw_has_known_values(rt: HostRuntime) {
    assert_eq!(rt; crc32c_raw(b"123456789"), 0x1cf9_6d7c);
    assert_eq!(rt; crc32c_raw(b""), 0xffff_ffff);
}

// The values of RFC 3720, B.4, which end with the inversion.
#[test]
fn crc32c_raw_has_the_values_of_iscsi(rt: HostRuntime) {
    let mut rising = [0; 32];
    let mut falling = [0; 32];
    for i in 0..32u8 {
        rising[i as usize] = i;
        falling[i as usize] = 31 - i;
    }
    assert_eq!(rt; !crc32c_raw(&[0; 32]), 0x8a91_36aa);
    assert_eq!(rt; !crc32c_raw(&[0xff; 32]), 0x62a8_ab43);
    assert_eq!(rt; !crc32c_raw(&rising), 0x46dd_794e);
    assert_eq!(rt; !crc32c_raw(&falling), 0x113f_db5c);
    assert_eq!(rt; !crc32c_raw(&READ_COMMAND), 0xd996_3a56);
}

// Each length to 40, where only words and bytes are taken, and to 200, where the lanes are, at each alignment.
#[test]
fn tables_agree_with_single_bits(rt: HostRuntime) {
    let mut text = [0; 208];
    for i in 0..208usize {
        text[i] = (i * i * 7 % 251) as u8;
    }
    for at in 0..8usize {
        for length in 0..201usize {
            let piece = &text[at..at + length];
            let usual = !remainder_bit_by_bit(ISO_3309, u32::MAX, piece);
            let castagnoli = remainder_bit_by_bit(CASTAGNOLI, u32::MAX, piece);
            assert_eq!(rt; crc32(piece), usual, "{length} bytes at {at}");
            assert_eq!(rt; crc32c_raw(piece), castagnoli, "{length} bytes at {at}");
        }
    }
}
