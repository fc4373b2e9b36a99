ghost use Rattle.std.specs.Prelude.{◌≡◌, ◌∷◌, ◌<◌, ◌↔◌, [], map, length, MatchOption, IsTrue};
ghost use Rattle.std.specs.String.{string_bytes};
ghost use Rattle.number_words.specs.Numbers.{number_in};
ghost use Rattle.uuid.specs.Text.{parsed};
ghost use Rattle.command_words.specs.Options.{size_in};

use number_words::number_word;
use uuid::Uuid;

/// The bytes of the first word, and the words behind it.
pub(crate) fn first_word(words: &[String]) -> Option<(&[u8], &[String])>
    ensures { MatchOption result (map string_bytes words.now ≡ [])
        (λ p. (map string_bytes words.now ≡ p.0.now ∷ map string_bytes p.1.now) × (length p.1.now < length words.now)) }
{
    match words {
        [] => None,
        [word, rest @ ..] => Some((word.as_bytes(), rest)),
    }
}

/// The number that a word writes, if it is at least `low` and at most `high`.
pub(crate) fn small_number(word: &[u8], low: u32, high: u32) -> Option<u32>
    ensures { result ≡ number_in low high word.now }
{
    match number_word(word, u64::from(low), u64::from(high)) {
        Some(number) => Some(number as u32),
        None => None,
    }
}

/// The number that a word writes, if blocks may have this size and the disk's have it.
pub(crate) fn size_number(word: &[u8], block_size: u32) -> Option<u32>
    ensures { result ≡ size_in block_size word.now }
{
    if block_size == 512 || block_size == 1024 || block_size == 2048 || block_size == 4096 {
        small_number(word, block_size, block_size)
    } else {
        None
    }
}

/// The sixteen bytes of the identifier that a word writes.
pub(crate) fn identifier(word: &[u8]) -> Option<[u8; 16]>
    ensures { result ≡ parsed word.now }
{
    match Uuid::try_parse_ascii(word) {
        Ok(uuid) => Some(uuid.into_bytes()),
        Err(_) => None,
    }
}
