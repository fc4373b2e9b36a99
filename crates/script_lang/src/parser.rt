ghost use Rattle.std.specs.Prelude.{◌≡◌, ◌+◌, ◌<◌, ◌≤◌, ◌∷◌, [], ℕ, List, length, MatchResult, IfOk, IfErr, OnOk};
ghost use Rattle.script_lang.specs.Words.{words_in, column_of, Got};
ghost use Rattle.script_lang.specs.Grammar.{script_limit, line_limit, has_byte_past_limit, line_read, script_from, script_read, nothing, Script as TheScript};
ghost use Rattle.script_lang.specs.Reading.{IsWithinLimits, IsRefusal, IsRefusalOf};
ghost use Rattle.script_lang.specs.WellFormed.{IsWellFormed};

use crate::Script;
use crate::line_words::{LineFault, first_word, word_behind};
use crate::lines::read_line;
use crate::words::take_line;
use std::alloc::Global;

/// How many bytes a script has at most.
const SCRIPT_LIMIT: usize = 1_048_576;

/// How many lines a script has at most.
const LINE_LIMIT: u32 = 10_000;

/// Why a text is no script.
#[derive(Clone, Copy, Debug, PartialEq, Eq)]
pub enum ScriptRefusal {
    /// The line and the column, both from 1, of the first byte of the first wrong word. Where a word is missing it
    /// is one past the line's end, and where a line is missing or past a limit, the first column.
    Bad { line: u32, column: u32 },
    NoMemory,
}

// The column of a word; one past the line's end, where it has no such word.
fn column(line: &[u8], word: u32) -> u32
    requires { length line.now ≤ script_limit }
    ensures { result ≡ column_of word (words_in line.now) }
{
    let (first, behind) = first_word(line);
    if word == 0 {
        return 1;
    }
    let mut before = first.len() + 1;
    let mut words = behind;
    for _taken in 1..word {
        let Some((next, behind)) = word_behind(words) else {
            return before as u32;
        };
        before += next.len() + 1;
        words = behind;
    }
    match word_behind(words) {
        None => before as u32,
        Some(_) => before as u32 + 1,
    }
}

// The refusal of a line for its fault.
fn refusal(number: u32, line: &[u8], fault: LineFault) -> ScriptRefusal
    requires { length line.now ≤ script_limit }
    ensures { IsRefusalOf number (words_in line.now) fault result }
{
    match fault {
        LineFault::Wrong { word } => ScriptRefusal::Bad {
            line: number,
            column: column(line, word),
        },
        LineFault::NoMemory => ScriptRefusal::NoMemory,
    }
}

// Whether a line that begins behind so many bytes of the text holds the first byte past the limit.
fn passes_limit(total: usize, before: usize, line: &[u8]) -> bool
    ensures { result ≡ has_byte_past_limit total before line.now }
{
    total > SCRIPT_LIMIT && line.len() >= SCRIPT_LIMIT.saturating_sub(before)
}

// Reads the line of this number, which begins behind so many bytes of the text.
fn next_line(
    alloc: Global,
    script: &mut Script,
    number: u32,
    total: usize,
    before: usize,
    line: &[u8],
) -> Result<(), ScriptRefusal>
    requires limits { IsWithinLimits script.old }
    requires within { before + length line.now ≤ total }
    ensures { MatchResult result
        (λ _. (number ≤ line_limit) × (line_read script.old (words_in line.now) ≡ Got script.new)
        × ((ls : List (List ℕ)) → script_from total script.old number before (line.now ∷ ls)
        ≡ script_from total script.new (number + 1) (before + length line.now + 1) ls))
        (λ r. (ls : List (List ℕ)) → IsRefusal (script_from total script.old number before (line.now ∷ ls)) r) }
{
    if number > LINE_LIMIT || passes_limit(total, before, line) {
        return Err(ScriptRefusal::Bad {
            line: number,
            column: 1,
        });
    }
    match read_line(alloc, script, line) {
        Ok(()) => Ok(()),
        Err(fault) => Err(refusal(number, line, fault)),
    }
}

// The script before its first line.
fn no_lines(alloc: Global) -> Script
    ensures { result ≡ nothing }
{
    Script {
        nodes: 0,
        clients: Vec::new(alloc),
        armed: Vec::new(alloc),
        lines: Vec::new(alloc),
    }
}

/// Reads a script as docs/SCRIPT.md has it. It goes over the text once, and takes memory for what it keeps alone.
pub fn parse(alloc: Global, text: &[u8]) -> Result<Script, ScriptRefusal>
    ensures read { IfOk result (λ s. script_read text.now ≡ TheScript s) }
    ensures bad { IfErr result (IsRefusal (script_read text.now)) }
    ensures well_formed { IfOk result IsWellFormed }
{
    let mut script = no_lines(alloc);
    let mut number = 1u32;
    let mut rest = text;
    while let Some((line, after)) = take_line(rest) {
        let before = text.len() - rest.len();
        if let Err(refusal) = next_line(alloc, &mut script, number, text.len(), before, line) {
            return Err(refusal);
        }
        number += 1;
        rest = after;
    }
    if script.clients.as_slice().is_empty() {
        Err(ScriptRefusal::Bad {
            line: number,
            column: 1,
        })
    } else {
        Ok(script)
    }
}
