// Texts as they are written in rows: numbers and bytes in braces, bytes as `\xNN`, and lines that come several times.
use crate::contents::{content_of, put_escaped};
use crate::images::Image;
use crate::logging::put_logged;
use crate::numbers::{next_word, number_word};
use crate::places::number_of;
use anyhow::{Result, bail, ensure};
use std::alloc::Global;

// Which line this is of those that come several times, from the first and from the last on.
#[derive(Clone, Copy)]
struct Count {
    up: u64,
    down: u64,
}

fn put_decimal(alloc: Global, out: &mut Vec<u8>, number: u64) -> Result<()> {
    let text = format!(in alloc; "{number}")?;
    out.extend_from_slice(text.as_bytes())?;
    Ok(())
}

fn put_digits(alloc: Global, out: &mut Vec<u8>, bytes: &[u8]) -> Result<()> {
    for byte in bytes {
        let text = format!(in alloc; "{byte:02x}")?;
        out.extend_from_slice(text.as_bytes())?;
    }
    Ok(())
}

// Puts a text so many times.
fn put_times(out: &mut Vec<u8>, count: u64, text: &str) -> Result<()> {
    ensure!(count <= 10_000_000, "too often: {count}");
    for _ in 0..count {
        put_escaped(out, text)?;
    }
    Ok(())
}

// Which line this is, of those that come several times, as `i` and `d` say, or so many lines further on, as `i+9`.
fn counted(count: Count, words: &str) -> Option<u64> {
    let (word, more) = words.split_once('+').unwrap_or((words, "0"));
    let number = match word {
        "i" => count.up,
        "d" => count.down,
        _ => return None,
    };
    Some(number.saturating_add(number_word(more)?))
}

// Puts what the words in a pair of braces stand for.
fn put_braced(
    alloc: Global,
    out: &mut Vec<u8>,
    image: &Image,
    count: Count,
    words: &str,
) -> Result<()> {
    if words.is_empty() {
        return Ok(());
    }
    if let Some(number) = counted(count, words) {
        return put_decimal(alloc, out, number);
    }
    if let Some((times, text)) = words.split_once(" of ") {
        return put_times(out, number_of(image, times)?, text);
    }
    if let Some(bytes) = content_of(alloc, image, words)? {
        return put_digits(alloc, out, &bytes);
    }
    put_decimal(alloc, out, number_of(image, words)?)
}

// Puts a line without its newline.
fn put_words(
    alloc: Global,
    out: &mut Vec<u8>,
    image: &Image,
    count: Count,
    line: &str,
) -> Result<()> {
    let mut rest = line;
    for _ in 0..=line.len() {
        let Some((before, behind)) = rest.split_once('{') else {
            break;
        };
        let Some((words, behind)) = behind.split_once('}') else {
            bail!("a brace that is not closed");
        };
        put_escaped(out, before)?;
        put_braced(alloc, out, image, count, words)?;
        rest = behind;
    }
    put_escaped(out, rest)
}

// Puts a line, and its newline unless a backslash stands at its end.
fn put_line(
    alloc: Global,
    out: &mut Vec<u8>,
    image: &Image,
    count: Count,
    line: &str,
) -> Result<()> {
    if let Some(text) = line.strip_suffix("\\") {
        return put_words(alloc, out, image, count, text);
    }
    put_words(alloc, out, image, count, line)?;
    out.push(b'\n')?;
    Ok(())
}

// Whether the image's blocks have one of these sizes.
fn is_at(image: &Image, sizes: &str) -> bool {
    sizes
        .split(',')
        .any(|size| number_word(size) == Some(u64::from(image.size)))
}

/// Puts these lines.
pub fn put_lines(alloc: Global, out: &mut Vec<u8>, image: &Image, lines: &[&str]) -> Result<()> {
    for line in lines {
        match line.strip_prefix("\\at ") {
            None => put_repeated(alloc, out, image, line)?,
            Some(mut rest) => {
                if is_at(image, next_word(&mut rest)) {
                    put_repeated(alloc, out, image, rest)?;
                }
            }
        }
    }
    Ok(())
}

// Puts a line, or behind `\times COUNT` that line so many times.
fn put_repeated(alloc: Global, out: &mut Vec<u8>, image: &Image, line: &str) -> Result<()> {
    let Some(mut rest) = line.strip_prefix("\\times ") else {
        if put_logged(alloc, out, image, line)? {
            return Ok(());
        }
        return put_line(alloc, out, image, Count { up: 1, down: 1 }, line);
    };
    let times = number_of(image, next_word(&mut rest))?;
    ensure!(times <= 10_000_000, "too often: {times}");
    for before in 0..times {
        let count = Count {
            up: before.saturating_add(1),
            down: times.saturating_sub(before),
        };
        put_line(alloc, out, image, count, rest)?;
    }
    Ok(())
}
