ghost use Rattle.std.specs.Prelude.{◌≡◌, ℕ, List, IfOk, MatchResult, MatchOption, Some, None};
ghost use Rattle.file_tree.specs.declared.call.Call.{Call as TheCall};
ghost use Rattle.file_tree.specs.declared.call.Call.TheVariants as calls;
ghost use Rattle.script_lang.specs.Words.{words_behind, words_in, later, Got, Wrong};
ghost use Rattle.script_lang.specs.Grammar.{on_path, on_range, on_content, on_size, on_paths, call_after, call_read};
ghost use Rattle.script_lang.specs.Reading.{ReadsAs, IsFault, arguments_read};

use crate::content::{TRANSFER_LIMIT, content_at};
use crate::line_words::{LineFault, end_at, number_at, path_at, word_behind};
use crate::words::is_word;
use file_tree::{Call, Content, Path};
use std::alloc::Global;

/// The largest offset or size.
const OFFSET_LIMIT: u64 = 1 << 32;

/// The word that says what a call does.
#[derive(Clone, Copy, Debug, PartialEq, Eq)]
pub(crate) enum Verb {
    Create,
    Mkdir,
    Unlink,
    Rmdir,
    Read,
    Dread,
    Write,
    Truncate,
    Stat,
    List,
    Rename,
    Sync,
}

// The word is the second of its line, and a call's arguments begin at the third.
fn verb_of(word: &[u8]) -> Option<Verb>
    ensures { MatchOption result ((ws : List (List ℕ)) → call_after word.now ws ≡ Wrong 0)
        (λ verb. (ws : List (List ℕ)) → call_after word.now ws ≡ later (arguments_read verb ws)) }
{
    if is_word(word, b"create") {
        return Some(Verb::Create);
    }
    if is_word(word, b"mkdir") {
        return Some(Verb::Mkdir);
    }
    if is_word(word, b"unlink") {
        return Some(Verb::Unlink);
    }
    if is_word(word, b"rmdir") {
        return Some(Verb::Rmdir);
    }
    if is_word(word, b"read") {
        return Some(Verb::Read);
    }
    if is_word(word, b"dread") {
        return Some(Verb::Dread);
    }
    if is_word(word, b"write") {
        return Some(Verb::Write);
    }
    if is_word(word, b"truncate") {
        return Some(Verb::Truncate);
    }
    if is_word(word, b"stat") {
        return Some(Verb::Stat);
    }
    if is_word(word, b"list") {
        return Some(Verb::List);
    }
    if is_word(word, b"rename") {
        return Some(Verb::Rename);
    }
    if is_word(word, b"sync") {
        return Some(Verb::Sync);
    }
    None
}

// A path alone.
fn path_argument(alloc: Global, words: &[u8]) -> Result<Path, LineFault>
    ensures { MatchResult result
        (λ path. (call : List (List ℕ) → TheCall) → later (later (on_path call (words_behind words.now))) ≡ Got (call path))
        (λ f. (call : List (List ℕ) → TheCall) → IsFault (later (later (on_path call (words_behind words.now)))) f) }
{
    let (path, words) = path_at(alloc, words, 2)?;
    end_at(words, 3)?;
    Ok(path)
}

// A path, an offset and a count.
fn range_arguments(alloc: Global, words: &[u8]) -> Result<(Path, u64, u32), LineFault>
    ensures { MatchResult result
        (λ r. (call : List (List ℕ) → ℕ → ℕ → TheCall) → later (later (on_range call (words_behind words.now))) ≡ Got (call r.0 r.1 r.2))
        (λ f. (call : List (List ℕ) → ℕ → ℕ → TheCall) → IsFault (later (later (on_range call (words_behind words.now)))) f) }
{
    let (path, words) = path_at(alloc, words, 2)?;
    let (at, words) = number_at(words, 3, 0, OFFSET_LIMIT)?;
    let (count, words) = number_at(words, 4, 0, TRANSFER_LIMIT)?;
    end_at(words, 5)?;
    Ok((path, at, count as u32))
}

// A path, an offset and the content.
fn write_call(alloc: Global, words: &[u8]) -> Result<Call, LineFault>
    ensures { ReadsAs (later (later (on_content (words_behind words.now)))) result }
{
    let (path, words) = path_at(alloc, words, 2)?;
    let (at, words) = number_at(words, 3, 0, OFFSET_LIMIT)?;
    let (content, words) = content_at(alloc, words, 4)?;
    end_at(words, 5)?;
    Ok(Call::Write(path, at, content))
}

// A path and a size.
fn truncate_call(alloc: Global, words: &[u8]) -> Result<Call, LineFault>
    ensures { ReadsAs (later (later (on_size (words_behind words.now)))) result }
{
    let (path, words) = path_at(alloc, words, 2)?;
    let (size, words) = number_at(words, 3, 0, OFFSET_LIMIT)?;
    end_at(words, 4)?;
    Ok(Call::Truncate(path, size))
}

// Two paths.
fn rename_call(alloc: Global, words: &[u8]) -> Result<Call, LineFault>
    ensures { ReadsAs (later (later (on_paths (words_behind words.now)))) result }
{
    let (from, words) = path_at(alloc, words, 2)?;
    let (to, words) = path_at(alloc, words, 3)?;
    end_at(words, 4)?;
    Ok(Call::Rename(from, to))
}

fn call_with(alloc: Global, verb: Verb, words: &[u8]) -> Result<Call, LineFault>
    ensures { ReadsAs (later (later (arguments_read verb (words_behind words.now)))) result }
{
    match verb {
        Verb::Create => path_argument(alloc, words).map(Call::Create),
        Verb::Mkdir => path_argument(alloc, words).map(Call::Mkdir),
        Verb::Unlink => path_argument(alloc, words).map(Call::Unlink),
        Verb::Rmdir => path_argument(alloc, words).map(Call::Rmdir),
        Verb::Read => {
            range_arguments(alloc, words).map(|(path, at, count)| Call::Read(path, at, count))
        }
        Verb::Dread => {
            range_arguments(alloc, words).map(|(path, at, count)| Call::Dread(path, at, count))
        }
        Verb::Write => write_call(alloc, words),
        Verb::Truncate => truncate_call(alloc, words),
        Verb::Stat => path_argument(alloc, words).map(Call::Stat),
        Verb::List => path_argument(alloc, words).map(Call::List),
        Verb::Rename => rename_call(alloc, words),
        Verb::Sync => {
            end_at(words, 2)?;
            Ok(Call::Sync)
        }
    }
}

/// The call of a line, whose words stand behind the client's.
pub(crate) fn call_behind(alloc: Global, words: &[u8]) -> Result<Call, LineFault>
    ensures { ReadsAs (later (call_read (words_behind words.now))) result }
{
    let Some((word, words)) = word_behind(words) else {
        return Err(LineFault::Wrong { word: 1 });
    };
    let Some(verb) = verb_of(word) else {
        return Err(LineFault::Wrong { word: 1 });
    };
    call_with(alloc, verb, words)
}
