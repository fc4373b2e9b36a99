// A disk that fails at each of its calls in turn.
use crate::commands::Command;
use crate::running::{Fails, Given, Left, carry_out};
use crate::wanted::{Text, Wanted, tell, text_of};
use anyhow::{Context, Result, ensure};
use row_texts::{Image, next_word, number_word, range_of};
use std::alloc::Global;

// A call of the disk: whose it is, the block, and how many lines of the trace come before it.
#[derive(Clone, Copy, Drop)]
struct Call {
    node: u64,
    lines: u64,
    block: Option<u64>,
}

// Adds the calls of a word: a block or a range of them, each block twice behind `x2`, or `-` for a barrier.
fn add_word(calls: &mut Vec<Call>, image: &Image, node: u64, lines: u64, word: &str) -> Result<()> {
    if word == "-" {
        calls.push(Call {
            node,
            lines,
            block: None,
        })?;
        return Ok(());
    }
    let (word, times) = match word.strip_suffix("x2") {
        Some(word) => (word, 2),
        None => (word, 1),
    };
    let (first, last) = range_of(image, word)?;
    for block in first..=last.min(1_000_000) {
        for _ in 0..times {
            calls.push(Call {
                node,
                lines,
                block: Some(block),
            })?;
        }
    }
    Ok(())
}

// How many lines of a trace come until so many calls are answered; at least the first.
fn lines_behind(trace: &str, answered: u64) -> u64 {
    let mut lines = 0u64;
    let mut count = 0u64;
    for line in trace.lines() {
        if count >= answered && lines > 0 {
            return lines;
        }
        lines = lines.saturating_add(1);
        if line.starts_with("call ") {
            count = count.saturating_add(1);
        }
    }
    lines
}

// Adds the calls of a line, as `node 0: BLOCKS` or `node 1 after 2: BLOCKS`.
fn add_line(calls: &mut Vec<Call>, image: &Image, trace: &str, line: &str) -> Result<()> {
    let (whose, blocks) = line.split_once(": ").context("a sweep without blocks")?;
    let whose = whose
        .strip_prefix("node ")
        .context("a sweep without a node")?;
    let (node, answered) = whose.split_once(" after ").unwrap_or((whose, "0"));
    let node = number_word(node).context("no node")?;
    let answered = number_word(answered).context("no number of lines")?;
    let lines = lines_behind(trace, answered);
    for word in blocks.split(' ') {
        add_word(calls, image, node, lines, word)?;
    }
    Ok(())
}

// Adds the write or the barrier that a line of a trace tells, before which so many lines come.
fn add_item(calls: &mut Vec<Call>, lines: u64, line: &str) -> Result<()> {
    let mut rest = line;
    let word = next_word(&mut rest);
    if word == "barrier" {
        calls.push(Call {
            node: 1,
            lines,
            block: None,
        })?;
    }
    if word == "write" {
        let _node = next_word(&mut rest);
        let _kind = next_word(&mut rest);
        let block = number_word(next_word(&mut rest));
        calls.push(Call {
            node: 1,
            lines,
            block,
        })?;
    }
    Ok(())
}

// Adds the writes and barriers that a trace tells behind so many lines, and before the next call.
fn add_writes(calls: &mut Vec<Call>, trace: &str, after: u64) -> Result<()> {
    let mut lines = 0u64;
    for line in trace.lines() {
        if lines >= after {
            if line.starts_with("call ") {
                return Ok(());
            }
            add_item(calls, lines, line)?;
        }
        lines = lines.saturating_add(1);
    }
    Ok(())
}

// So many lines of a text.
fn put_front(out: &mut Vec<u8>, text: &[u8], count: u64) -> Result<()> {
    let mut lines = 0u64;
    for byte in text {
        if lines >= count {
            return Ok(());
        }
        out.push(*byte)?;
        if *byte == b'\n' {
            lines = lines.saturating_add(1);
        }
    }
    Ok(())
}

// What the first lines of a trace tell: how many calls and commits, and whether the journal is left dirty.
#[derive(Clone, Copy, Drop)]
struct Told {
    calls: u64,
    commits: u64,
    dirty: u64,
}

fn told_by(trace: &str, count: u64) -> Told {
    let mut told = Told {
        calls: 0,
        commits: 0,
        dirty: 0,
    };
    let mut lines = 0u64;
    for line in trace.lines() {
        if lines >= count {
            return told;
        }
        lines = lines.saturating_add(1);
        if line.starts_with("call ") {
            told.calls = told.calls.saturating_add(1);
        }
        if line.starts_with("commit ") {
            told.commits = told.commits.saturating_add(1);
            told.dirty = 1;
        }
        if line.starts_with("write 1 clean ") {
            told.dirty = 0;
        }
    }
    told
}

fn fault_line(alloc: Global, call: &Call) -> Result<String> {
    let node = call.node;
    match call.block {
        Some(block) => Ok(format!(in alloc;
            "device fault: node {node} block {block} count 0 to 1\n"
        )?),
        None => Ok(format!(in alloc; "device fault: node {node} block - count 0 to 1\n")?),
    }
}

fn all_of(bytes: Vec<u8>) -> Text {
    Text { bytes, least: None }
}

// What is left where this call fails: before a node's first call only the fault is told, and then also what was answered.
fn wanted_at(alloc: Global, whole: &Wanted, call: &Call) -> Result<Wanted> {
    let mut out = Vec::new(alloc);
    let mut trace = Vec::new(alloc);
    if call.node > 0 {
        let told = told_by(text_of(&whole.trace.bytes), call.lines);
        put_front(&mut out, &whole.out.bytes, told.calls)?;
        let counts = format!(in alloc;
            "calls {} lost 0 commits {} crashes 0 dirty {}\n",
            told.calls, told.commits, told.dirty
        )?;
        out.extend_from_slice(counts.as_bytes())?;
        put_front(&mut trace, &whole.trace.bytes, call.lines)?;
    }
    out.extend_from_slice(fault_line(alloc, call)?.as_bytes())?;
    Ok(Wanted {
        status: 5,
        out: all_of(out),
        trace: all_of(trace),
        history: None,
    })
}

fn carry(
    alloc: Global,
    image: &Image,
    bytes: Vec<u8>,
    command: &Command<'_>,
    call: u64,
) -> Result<Left> {
    let fails = command.given.fails.with_disk(alloc, call)?;
    carry_out(alloc, image.size, bytes, &command.given, &fails)
}

// Carries out a command of these words alone.
fn carry_words(alloc: Global, size: u32, bytes: Vec<u8>, words: &str) -> Result<Left> {
    let given = Given {
        words,
        script: Vec::new(alloc),
        fails: Fails::none(alloc),
        outcomes: Vec::new(alloc),
    };
    carry_out(alloc, size, bytes, &given, &given.fails)
}

// Where a call failed behind a commit, a replay brings back all that the command did.
fn check_replayed(
    alloc: Global,
    image: &Image,
    left: Left,
    made: &[u8],
    report: &mut String,
    before: &str,
) -> Result<()> {
    let left = carry_words(alloc, image.size, left.bytes, "replay")?;
    let found = carry_words(alloc, image.size, left.bytes, "show")?;
    let wanted = carry_words(alloc, image.size, made.to_vec(alloc)?, "show")?;
    if found.out.bytes() != wanted.out.bytes() {
        writeln!(report, "  {before}a replay brings another tree")?;
    }
    Ok(())
}

// Where a call failed, the command is carried out again on what was left, and ends as it should, with the image that it
// should leave.
fn check_again(
    alloc: Global,
    image: &Image,
    command: &Command<'_>,
    left: Left,
    made: &[u8],
    report: &mut String,
    before: &str,
) -> Result<()> {
    let left = carry_out(
        alloc,
        image.size,
        left.bytes,
        &command.given,
        &command.given.fails,
    )?;
    tell(alloc, report, before, &command.wanted, &left)?;
    if left.bytes.as_slice() != made {
        writeln!(report, "  {before}the image that is made again is another")?;
    }
    Ok(())
}

fn calls_of(alloc: Global, image: &Image, trace: &str, lines: &[&str]) -> Result<Vec<Call>> {
    let mut calls = Vec::new(alloc);
    for line in lines {
        if *line == "again" {
            continue;
        }
        match line.strip_prefix("writes after ") {
            Some(word) => {
                let answered = number_word(word).context("no number of lines")?;
                add_writes(&mut calls, trace, lines_behind(trace, answered))?;
            }
            None => add_line(&mut calls, image, trace, line)?,
        }
    }
    Ok(calls)
}

fn heading(alloc: Global, size: u32, number: u64) -> Result<String> {
    Ok(format!(in alloc; "at {size}, call {number}: ")?)
}

fn bytes_of(left: Left) -> Vec<u8> {
    left.bytes
}

fn says_again(lines: &[&str]) -> bool {
    for line in lines {
        if *line == "again" {
            return true;
        }
    }
    false
}

/// Tells in what a command differs where each of these calls of the disk fails in turn, on this image; and where one call more
/// is to fail, to which it doesn't come. With a line `again`, the command is then carried out again; without one, it leaves the image as it is.
pub(crate) fn sweep(
    alloc: Global,
    base: &Image,
    image: &Image,
    command: &Command<'_>,
    lines: &[&str],
    made: &[u8],
    report: &mut String,
) -> Result<()> {
    let trace = text_of(&command.wanted.trace.bytes);
    let calls = calls_of(alloc, base, trace, lines)?;
    let is_again = says_again(lines);
    let mut number = 0u64;
    let mut bytes = image.bytes.to_vec(alloc)?;
    for call in &calls {
        number = number.saturating_add(1);
        let before = heading(alloc, image.size, number)?;
        let left = carry(alloc, image, bytes, command, number)?;
        let wanted = wanted_at(alloc, &command.wanted, call)?;
        tell(alloc, report, before.as_str(), &wanted, &left)?;
        bytes = if is_again {
            if told_by(trace, call.lines).commits > 0 && call.node > 0 {
                check_replayed(alloc, image, left, made, report, before.as_str())?;
            } else {
                check_again(alloc, image, command, left, made, report, before.as_str())?;
            }
            image.bytes.to_vec(alloc)?
        } else {
            bytes_of(left)
        };
        if !report.is_empty() {
            return Ok(());
        }
    }
    if bytes.as_slice() != image.bytes.as_slice() {
        writeln!(report, "  at {}: a sweep left another image", image.size)?;
    }
    check_calls(alloc, image, command, number, report)
}

/// Tells in what a command differs where one call more of the disk is to fail than these, so many; and that the last of them
/// is made.
pub(crate) fn check_calls(
    alloc: Global,
    image: &Image,
    command: &Command<'_>,
    count: u64,
    report: &mut String,
) -> Result<()> {
    let before = format!(in alloc; "at {}, behind call {count}: ", image.size)?;
    let left = carry(
        alloc,
        image,
        image.bytes.to_vec(alloc)?,
        command,
        count.saturating_add(1),
    )?;
    tell(alloc, report, before.as_str(), &command.wanted, &left)?;
    if count > 0 {
        let left = carry(alloc, image, image.bytes.to_vec(alloc)?, command, count)?;
        if left.status != 5 && command.given.fails.disk.is_empty() {
            writeln!(report, "  at {}: call {count} is not made", image.size)?;
        }
    }
    Ok(())
}
