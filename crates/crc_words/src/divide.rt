//! The division by tables: a word of eight bytes at a time, and four such words side by side in a long text.
ghost use Rattle.std.specs.Prelude.{◌≡◌, ◌+◌, ◌<◌, ◌≤◌, length, take, drop, bit_xor};
ghost use Rattle.crc_words.specs.Remainder.{after_bits, remainder};
ghost use Rattle.crc_words.specs.Table.{IsTable};
ghost use Rattle.crc_words.specs.TextNumber.{text_number};

// The eight bytes at a place as one number, the first the lowest.
#[inline(always)]
fn word(bytes: &[u8], at: usize) -> u64
    requires { at + 8 ≤ length bytes.now }
    ensures { result ≡ text_number (take 8 (drop at bytes.now)) }
{
    u64::from_le_bytes([
        bytes[at],
        bytes[at + 1],
        bytes[at + 2],
        bytes[at + 3],
        bytes[at + 4],
        bytes[at + 5],
        bytes[at + 6],
        bytes[at + 7],
    ])
}

// What a word is after its own 64 steps and as many more as the table's delay.
#[inline(always)]
fn divided<const POLYNOMIAL: u32, const DELAY: usize>(table: &[u32; 2048], word: u64) -> u32
    requires { IsTable POLYNOMIAL DELAY table.now }
    ensures { result ≡ after_bits POLYNOMIAL (64 + DELAY) word }
{
    table[1792 + (word & 0xff) as usize]
        ^ table[1536 + (word >> 8 & 0xff) as usize]
        ^ table[1280 + (word >> 16 & 0xff) as usize]
        ^ table[1024 + (word >> 24 & 0xff) as usize]
        ^ table[768 + (word >> 32 & 0xff) as usize]
        ^ table[512 + (word >> 40 & 0xff) as usize]
        ^ table[256 + (word >> 48 & 0xff) as usize]
        ^ table[(word >> 56) as usize]
}

// The state after the eight bytes at a place, and after the steps of the table's delay.
#[inline(always)]
fn after_word<const POLYNOMIAL: u32, const DELAY: usize>(
    table: &[u32; 2048],
    state: u32,
    bytes: &[u8],
    at: usize,
) -> u32
    requires table { IsTable POLYNOMIAL DELAY table.now }
    requires within { at + 8 ≤ length bytes.now }
    ensures { result ≡ after_bits POLYNOMIAL (64 + DELAY)
        (bit_xor state (text_number (take 8 (drop at bytes.now)))) }
{
    divided::<POLYNOMIAL, DELAY>(table, u64::from(state) ^ word(bytes, at))
}

// Byte by byte.
fn advance_bytes<const POLYNOMIAL: u32>(near: &[u32; 2048], mut state: u32, bytes: &[u8]) -> u32
    requires { IsTable POLYNOMIAL 0 near.now }
    ensures { result ≡ remainder POLYNOMIAL state bytes.now }
{
    for byte in bytes {
        state = near[((state & 0xff) as u8 ^ *byte) as usize] ^ (state >> 8);
    }
    state
}

// Word by word, and then the bytes that are left.
fn advance_words<const POLYNOMIAL: u32>(near: &[u32; 2048], mut state: u32, bytes: &[u8]) -> u32
    requires { IsTable POLYNOMIAL 0 near.now }
    ensures { result ≡ remainder POLYNOMIAL state bytes.now }
{
    let mut rest = bytes;
    while rest.len() >= 8 {
        state = after_word::<POLYNOMIAL, 0>(near, state, rest, 0);
        rest = &rest[8..];
    }
    advance_bytes::<POLYNOMIAL>(near, state, rest)
}

// The state after a text, from the state before it. A text of 32 bytes or more goes in four lanes, which take every
// fourth word and do not wait for one another; each lane stands 64 bits above the one before. The last 32 bytes that
// fill the lanes join them into one state.
pub(crate) fn advance<const POLYNOMIAL: u32>(
    near: &[u32; 2048],
    far: &[u32; 2048],
    state: u32,
    bytes: &[u8],
) -> u32
    requires near { IsTable POLYNOMIAL 0 near.now }
    requires far { IsTable POLYNOMIAL 192 far.now }
    ensures { result ≡ remainder POLYNOMIAL state bytes.now }
{
    if bytes.len() < 32 {
        return advance_words::<POLYNOMIAL>(near, state, bytes);
    }
    let mut rest = bytes;
    let (mut a, mut b, mut c, mut d) = (state, 0, 0, 0);
    while rest.len() >= 64 {
        a = after_word::<POLYNOMIAL, 192>(far, a, rest, 0);
        b = after_word::<POLYNOMIAL, 192>(far, b, rest, 8);
        c = after_word::<POLYNOMIAL, 192>(far, c, rest, 16);
        d = after_word::<POLYNOMIAL, 192>(far, d, rest, 24);
        rest = &rest[32..];
    }
    let ab = after_word::<POLYNOMIAL, 0>(near, a, rest, 0) ^ b;
    let abc = after_word::<POLYNOMIAL, 0>(near, ab, rest, 8) ^ c;
    let abcd = after_word::<POLYNOMIAL, 0>(near, abc, rest, 16) ^ d;
    let all = after_word::<POLYNOMIAL, 0>(near, abcd, rest, 24);
    advance_words::<POLYNOMIAL>(near, all, &rest[32..])
}
