ghost use Rattle.std.specs.Prelude.{◌≡◌, ◌+◌, ◌*◌, ◌^◌, ◌<◌, ◌≤◌, ◌==◌, ◌↔◌, ◌∷◌, [], length, IfOk, IfSome, IfNone, MatchOption, IsTrue};
ghost use Rattle.std.specs.List.{list_all, position, position_or_len};
ghost use Rattle.std.specs.Char.{digit_value};
ghost use Rattle.std.specs.Option.{SomeIff};
ghost use Rattle.std.specs.Str.{bytes_eq};
ghost use Rattle.script_lang.specs.Words.{lines_in, words_in, path_in, client_in, is_lower, is_letter_or_digit, begins_line, is_client_name};

use file_tree::{Name, NoMemory, Path, PathFault};
use std::alloc::Global;

fn place_of(text: &[u8], separator: u8) -> Option<usize>
    ensures { result ≡ position (λ b. b == separator) text.now }
{
    text.iter().position(|byte| *byte == separator)
}

// How many bytes stand before the first separator, or all.
pub(crate) fn length_before(text: &[u8], separator: u8) -> usize
    ensures length { result ≡ position_or_len (λ b. b == separator) text.now }
    ensures within { result ≤ length text.now }
{
    place_of(text, separator).unwrap_or(text.len())
}

/// The first line of a text without its newline, and the lines behind it; `None` where there is none.
pub(crate) fn take_line(text: &[u8]) -> Option<(&[u8], &[u8])>
    ensures line { MatchOption result (lines_in text.now ≡ []) (λ p. lines_in text.now ≡ p.0.now ∷ lines_in p.1.now) }
    ensures place { IfSome result (λ p. (length p.0.now ≤ length text.now) × (length p.1.now < length text.now)
        × (0 < length p.1.now → length p.0.now + 1 + length p.1.now ≡ length text.now)) }
{
    if text.is_empty() {
        return None;
    }
    let end = length_before(text, b'\n');
    let next = (end + 1).min(text.len());
    Some((&text[..end], &text[next..]))
}

/// The first word of a line and the words behind it, if it has more than one.
pub(crate) fn next_word(line: &[u8]) -> Option<(&[u8], &[u8])>
    ensures { MatchOption result (words_in line.now ≡ line.now ∷ [])
        (λ p. words_in line.now ≡ p.0.now ∷ words_in p.1.now) }
{
    let end = length_before(line, b' ');
    if end < line.len() {
        Some((&line[..end], &line[end + 1..]))
    } else {
        None
    }
}

/// The word of a line that has one.
pub(crate) fn last_word(line: &[u8]) -> Option<&[u8]>
    ensures { IfSome result (λ word. words_in line.now ≡ word.now ∷ []) }
{
    match next_word(line) {
        None => Some(line),
        Some(_) => None,
    }
}

/// Whether a word is this one.
pub(crate) fn is_word(word: &[u8], wanted: &[u8]) -> bool
    ensures test { result ≡ bytes_eq word.now wanted.now }
    ensures same { IsTrue result ↔ (word.now ≡ wanted.now) }
{
    word == wanted
}

/// The path that a word spells.
pub(crate) fn path_word(alloc: Global, word: &[u8]) -> Result<Option<Path>, NoMemory>
    ensures { IfOk result (λ path. path ≡ path_in word.now) }
{
    match Path::parse(alloc, word) {
        Ok(path) => Ok(Some(path)),
        Err(PathFault::NoMemory) => Err(NoMemory),
        Err(_) => Ok(None),
    }
}

fn is_lower_case(byte: u8) -> bool
    ensures { result ≡ is_lower byte }
{
    b'a' <= byte && byte <= b'z'
}

fn is_name_byte(byte: u8) -> bool
    ensures { result ≡ is_letter_or_digit byte }
{
    is_lower_case(byte) || (b'0' <= byte && byte <= b'9')
}

fn are_name_bytes(word: &[u8]) -> bool
    ensures { result ≡ list_all is_letter_or_digit word.now }
{
    word.iter().all(|byte| is_name_byte(*byte))
}

fn begins_a_line(word: &[u8]) -> bool
    ensures { result ≡ begins_line word.now }
{
    word == b"wait".as_slice() || word == b"crash".as_slice() || word == b"join".as_slice()
}

fn names_client(word: &[u8]) -> bool
    ensures { result ≡ is_client_name word.now }
{
    !word.is_empty()
        && word.len() <= 16
        && is_lower_case(word[0])
        && are_name_bytes(word)
        && !begins_a_line(word)
}

/// The client's name that a word is.
pub(crate) fn client_word(alloc: Global, word: &[u8]) -> Result<Option<Name>, NoMemory>
    ensures { IfOk result (λ name. name ≡ client_in word.now) }
{
    if names_client(word) {
        let bytes = Vec::from_slice(alloc, word)?;
        Ok(Some(Name::new(bytes)))
    } else {
        Ok(None)
    }
}
