ghost use Rattle.std.specs.Prelude.{◌≡◌, ◌==◌, ◌∷◌, [], IfOk, MatchResult, MatchOption, Some, None, List, ℕ};
ghost use Rattle.std.specs.List.{slice_split};
ghost use Rattle.number_words.specs.Numbers.{number_in};
ghost use Rattle.script_lang.specs.Words.{words_in, words_behind, parts_behind, first_as, path_in, client_in, the_word};
ghost use Rattle.script_lang.specs.Reading.{IsWrongAt};

use crate::words::{is_word, length_before, path_word};
use file_tree::{NoMemory, Path};
use number_words::number_word;
use std::alloc::Global;

/// Why a line is refused. Words are numbered from 0; the one after the last is wrong where a word is missing.
#[derive(Clone, Copy, Debug, PartialEq, Eq)]
pub(crate) enum LineFault {
    Wrong { word: u32 },
    NoMemory,
}

impl From<NoMemory> for LineFault {
    ghost use Rattle.std.specs.Prelude.{◌≡◌};
    ghost use Rattle.script_lang.specs.declared.line_words.LineFault.TheVariants as fault;

    ghost from_gives = { λ _ f. f ≡ fault.NoMemory };

    fn from(_: NoMemory) -> Self {
        LineFault::NoMemory
    }
}

/// The first part of a text, up to a separator, and what stands behind it.
pub(crate) fn first_part(text: &[u8], separator: u8) -> (&[u8], &[u8])
    ensures { slice_split (λ b. b == separator) text.now ≡ result.0.now ∷ parts_behind separator result.1.now }
{
    let end = length_before(text, separator);
    (&text[..end], &text[end..])
}

/// The next part, and what stands behind it; `None` where no part is left.
pub(crate) fn part_behind(rest: &[u8], separator: u8) -> Option<(&[u8], &[u8])>
    ensures { MatchOption result (parts_behind separator rest.now ≡ [])
        (λ p. parts_behind separator rest.now ≡ p.0.now ∷ parts_behind separator p.1.now) }
{
    if rest.is_empty() {
        None
    } else {
        Some(first_part(&rest[1..], separator))
    }
}

/// The first word of a line, and what stands behind it.
pub(crate) fn first_word(line: &[u8]) -> (&[u8], &[u8])
    ensures { words_in line.now ≡ result.0.now ∷ words_behind result.1.now }
{
    first_part(line, b' ')
}

/// The next word, and what stands behind it; `None` where no word is left.
pub(crate) fn word_behind(words: &[u8]) -> Option<(&[u8], &[u8])>
    ensures { MatchOption result (words_behind words.now ≡ [])
        (λ p. words_behind words.now ≡ p.0.now ∷ words_behind p.1.now) }
{
    part_behind(words, b' ')
}

/// The next word as a number within limits; `number` is the word's own in its line.
pub(crate) fn number_at(
    words: &[u8],
    number: u32,
    low: u64,
    high: u64,
) -> Result<(u64, &[u8]), LineFault>
    ensures { MatchResult result (λ p. first_as (number_in low high) (words_behind words.now) ≡ Some (p.0, words_behind p.1.now))
        (IsWrongAt number (first_as (number_in low high) (words_behind words.now) ≡ None)) }
{
    let Some((word, behind)) = word_behind(words) else {
        return Err(LineFault::Wrong { word: number });
    };
    let Some(value) = number_word(word, low, high) else {
        return Err(LineFault::Wrong { word: number });
    };
    Ok((value, behind))
}

/// The next word as a path.
pub(crate) fn path_at(alloc: Global, words: &[u8], number: u32) -> Result<(Path, &[u8]), LineFault>
    ensures { MatchResult result (λ p. first_as path_in (words_behind words.now) ≡ Some (p.0, words_behind p.1.now))
        (IsWrongAt number (first_as path_in (words_behind words.now) ≡ None)) }
{
    let Some((word, behind)) = word_behind(words) else {
        return Err(LineFault::Wrong { word: number });
    };
    let Some(path) = path_word(alloc, word)? else {
        return Err(LineFault::Wrong { word: number });
    };
    Ok((path, behind))
}

/// What stands behind the next word, which is this very one.
pub(crate) fn behind_word<'a>(
    words: &'a [u8],
    wanted: &[u8],
    number: u32,
) -> Result<&'a [u8], LineFault>
    ensures { MatchResult result (λ p. first_as (the_word wanted.now) (words_behind words.now) ≡ Some (wanted.now, words_behind p.now))
        (IsWrongAt number (first_as (the_word wanted.now) (words_behind words.now) ≡ None)) }
{
    let Some((word, behind)) = word_behind(words) else {
        return Err(LineFault::Wrong { word: number });
    };
    if is_word(word, wanted) {
        Ok(behind)
    } else {
        Err(LineFault::Wrong { word: number })
    }
}

/// No word is left.
pub(crate) fn end_at(words: &[u8], number: u32) -> Result<(), LineFault>
    ensures { MatchResult result (λ _. words_behind words.now ≡ [])
        (IsWrongAt number ((w : List ℕ) × (ws : List (List ℕ)) × (words_behind words.now ≡ w ∷ ws))) }
{
    match word_behind(words) {
        None => Ok(()),
        Some(_) => Err(LineFault::Wrong { word: number }),
    }
}
