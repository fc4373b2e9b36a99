// Numbers in bytes, the first byte highest, and numbers in words.

/// So many bytes from a place on.
pub(crate) fn part(bytes: &[u8], at: usize, count: usize) -> Option<&[u8]> {
    if at <= bytes.len() && count <= bytes.len() - at {
        return Some(&bytes[at..at + count]);
    }
    None
}

/// The number of so many bytes at a place.
pub(crate) fn number_at(bytes: &[u8], at: usize, width: usize) -> Option<u64> {
    let mut number = 0u64;
    for byte in part(bytes, at, width)? {
        number = number.wrapping_mul(256).wrapping_add(u64::from(*byte));
    }
    Some(number)
}

/// Puts bytes over those at a place. Answers false where there are not so many.
pub fn put_bytes(bytes: &mut [u8], at: usize, new: &[u8]) -> bool {
    if at <= bytes.len() && new.len() <= bytes.len() - at {
        bytes[at..at + new.len()].copy_from_slice(new);
        return true;
    }
    false
}

/// Puts the last bytes of a number over those at a place, so many of at most eight.
pub(crate) fn put_number(bytes: &mut [u8], at: usize, width: usize, number: u64) -> bool {
    let all = number.to_be_bytes();
    let width = width.min(8);
    put_bytes(bytes, at, &all[8 - width..])
}

/// The number that a word is: decimal, hexadecimal behind `0x`, or octal behind `0o`.
pub fn number_word(word: &str) -> Option<u64> {
    if let Some(digits) = word.strip_prefix("0x") {
        return u64::from_str_radix(digits, 16).ok();
    }
    if let Some(digits) = word.strip_prefix("0o") {
        return u64::from_str_radix(digits, 8).ok();
    }
    word.parse::<u64>().ok()
}

/// The first word of a text; the text goes on behind it and a space.
pub fn next_word<'a>(rest: &mut &'a str) -> &'a str {
    let (word, behind) = rest.split_once(' ').unwrap_or((*rest, ""));
    *rest = behind;
    word
}
