// What a command is to leave, and in what that which it left differs.
use crate::running::Left;
use anyhow::Result;
use row_texts::next_word;
use std::alloc::Global;

/// What a sink is to have got: all of a text, or a front of it, of so many bytes at least, and not all.
#[derive(Drop)]
pub(crate) struct Text {
    pub bytes: Vec<u8>,
    pub least: Option<u64>,
}

/// The status, the output and the trace of a command, or of the trace the history alone. Where no status is wanted, it is 0.
#[derive(Drop)]
pub(crate) struct Wanted {
    pub status: u8,
    pub out: Text,
    pub trace: Text,
    pub history: Option<Text>,
}

impl Wanted {
    pub(crate) fn nothing(alloc: Global) -> Wanted {
        Wanted {
            status: 0,
            out: Text {
                bytes: Vec::new(alloc),
                least: None,
            },
            trace: Text {
                bytes: Vec::new(alloc),
                least: None,
            },
            history: None,
        }
    }
}

// The lines of a trace but for those of writes, barriers and commits.
fn history_of(alloc: Global, trace: &[u8]) -> Result<Vec<u8>> {
    let mut history = Vec::new(alloc);
    for line in text_of(trace).lines() {
        let mut rest = line;
        let word = next_word(&mut rest);
        if word != "write" && word != "barrier" && word != "commit" {
            history.extend_from_slice(line.as_bytes())?;
            history.push(b'\n')?;
        }
    }
    Ok(history)
}

/// Bytes as a text.
pub(crate) fn text_of(bytes: &[u8]) -> &str {
    match str::from_utf8(bytes) {
        Ok(text) => text,
        Err(_) => "(no text)",
    }
}

// At most so much of a line is told.
fn shortened(line: &str) -> &str {
    match line.split_at_checked(100) {
        Some((front, _)) => front,
        None => line,
    }
}

// Tells the first lines that differ, or else how long both are.
fn tell_lines(report: &mut String, wanted: &[u8], found: &[u8]) -> Result<()> {
    let mut number = 0u64;
    for (wanted, found) in text_of(wanted).lines().zip(text_of(found).lines()) {
        number = number.saturating_add(1);
        if wanted != found {
            let wanted = shortened(wanted);
            let found = shortened(found);
            writeln!(report, " line {number}: wanted '{wanted}', found '{found}'")?;
            return Ok(());
        }
    }
    writeln!(
        report,
        ": wanted {} bytes, found {}",
        wanted.len(),
        found.len()
    )?;
    Ok(())
}

fn tell_text(
    report: &mut String,
    before: &str,
    what: &str,
    wanted: &Text,
    found: &[u8],
) -> Result<()> {
    if let Some(least) = wanted.least {
        let is_front = found.len() < wanted.bytes.len() && wanted.bytes.starts_with(found);
        if !is_front || (found.len() as u64) < least {
            writeln!(
                report,
                "  {before}{what}: wanted a front of {least} bytes at least, found {} bytes",
                found.len()
            )?;
        }
        return Ok(());
    }
    if wanted.bytes.as_slice() != found {
        write!(report, "  {before}{what}")?;
        tell_lines(report, &wanted.bytes, found)?;
    }
    Ok(())
}

/// Tells in what this differs.
pub(crate) fn tell(
    alloc: Global,
    report: &mut String,
    before: &str,
    wanted: &Wanted,
    left: &Left,
) -> Result<()> {
    if wanted.status != left.status {
        writeln!(
            report,
            "  {before}status: wanted {}, found {}",
            wanted.status, left.status
        )?;
    }
    tell_text(report, before, "out", &wanted.out, left.out.bytes())?;
    match &wanted.history {
        Some(history) => {
            let found = history_of(alloc, left.trace.bytes())?;
            tell_text(report, before, "history", history, &found)
        }
        None => tell_text(report, before, "trace", &wanted.trace, left.trace.bytes()),
    }
}
