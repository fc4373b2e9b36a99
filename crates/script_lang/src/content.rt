ghost use Rattle.std.specs.Prelude.{◌≡◌, ◌==◌, ◌∷◌, [], ℕ, List, IfOk, MatchResult, MatchOption, Option, Some, None, option_map};
ghost use Rattle.std.specs.List.{slice_split, list_all};
ghost use Rattle.number_words.specs.Numbers.{number_in};
ghost use Rattle.script_lang.specs.Words.{words_behind, first_as, content_in, content_from, within_transfer, hex_in, filled, transfer_limit, is_lower_digit};
ghost use Rattle.script_lang.specs.Reading.{IsWrongAt};

use crate::line_words::{LineFault, first_part, part_behind, word_behind};
use crate::words::is_word;
use file_tree::{Content, NoMemory};
use hex::FromHexError;
use number_words::number_word;
use std::alloc::Global;

/// How many bytes one call reads or writes at most.
pub(crate) const TRANSFER_LIMIT: u64 = 16_384;

// Two digits a byte. A longer word is refused before it takes memory.
const LONGEST_BYTES: usize = 32_768;

fn is_lower_case_digit(byte: u8) -> bool
    ensures { result ≡ is_lower_digit byte }
{
    (b'0' <= byte && byte <= b'9') || (b'a' <= byte && byte <= b'f')
}

fn are_lower_case_digits(word: &[u8]) -> bool
    ensures { result ≡ list_all is_lower_digit word.now }
{
    word.iter().all(|byte| is_lower_case_digit(*byte))
}

// The bytes that pairs of lower-case digits write.
fn hex_word(alloc: Global, word: &[u8]) -> Result<Option<Vec<u8>>, NoMemory>
    ensures { IfOk result (λ bytes. option_map (λ v. v.items) bytes ≡ hex_in word.now) }
{
    if !are_lower_case_digits(word) {
        return Ok(None);
    }
    match hex::decode(alloc, word) {
        Ok(bytes) => Ok(Some(bytes)),
        Err(FromHexError::OutOfMemory) => Err(NoMemory),
        Err(_) => Ok(None),
    }
}

// So many times the byte, if the one word writes one byte and the other a count.
fn fill_word(alloc: Global, byte: &[u8], count: &[u8]) -> Result<Option<Content>, NoMemory>
    ensures { IfOk result (λ content. content ≡ filled (hex_in byte.now) (number_in 1 transfer_limit count.now)) }
{
    if byte.len() != 2 {
        return Ok(None);
    }
    let Some(bytes) = hex_word(alloc, byte)? else {
        return Ok(None);
    };
    let [byte] = bytes.as_slice() else {
        return Ok(None);
    };
    let Some(count) = number_word(count, 1, TRANSFER_LIMIT) else {
        return Ok(None);
    };
    Ok(Some(Content::new(vec![in alloc; *byte; count as usize]?)))
}

// From 1 byte to the limit, as pairs of digits.
fn bytes_word(alloc: Global, word: &[u8]) -> Result<Option<Content>, NoMemory>
    ensures { IfOk result (λ content. content ≡ within_transfer (hex_in word.now)) }
{
    if word.len() > LONGEST_BYTES {
        return Ok(None);
    }
    let Some(bytes) = hex_word(alloc, word)? else {
        return Ok(None);
    };
    if 1 <= bytes.len() && bytes.len() <= TRANSFER_LIMIT as usize {
        Ok(Some(Content::new(bytes)))
    } else {
        Ok(None)
    }
}

// The parts of a word that has three, parted by colons.
fn three_parts(word: &[u8]) -> Option<(&[u8], &[u8], &[u8])>
    ensures { MatchOption result (content_from word.now (slice_split (λ b. b == 58) word.now) ≡ within_transfer (hex_in word.now))
        (λ p. slice_split (λ b. b == 58) word.now ≡ p.0.now ∷ p.1.now ∷ p.2.now ∷ []) }
{
    let (first, rest) = first_part(word, b':');
    let Some((second, rest)) = part_behind(rest, b':') else {
        return None;
    };
    let Some((third, rest)) = part_behind(rest, b':') else {
        return None;
    };
    match part_behind(rest, b':') {
        None => Some((first, second, third)),
        Some(_) => None,
    }
}

// The content that a word writes.
fn content_word(alloc: Global, word: &[u8]) -> Result<Option<Content>, NoMemory>
    ensures { IfOk result (λ content. content ≡ content_in word.now) }
{
    let Some((fill, byte, count)) = three_parts(word) else {
        return bytes_word(alloc, word);
    };
    if is_word(fill, b"fill") {
        fill_word(alloc, byte, count)
    } else {
        Ok(None)
    }
}

/// The next word as the content of a write; `number` is the word's own in its line.
pub(crate) fn content_at(
    alloc: Global,
    words: &[u8],
    number: u32,
) -> Result<(Content, &[u8]), LineFault>
    ensures { MatchResult result (λ p. first_as content_in (words_behind words.now) ≡ Some (p.0, words_behind p.1.now))
        (IsWrongAt number (first_as content_in (words_behind words.now) ≡ None)) }
{
    let Some((word, behind)) = word_behind(words) else {
        return Err(LineFault::Wrong { word: number });
    };
    let Some(content) = content_word(alloc, word)? else {
        return Err(LineFault::Wrong { word: number });
    };
    Ok((content, behind))
}
