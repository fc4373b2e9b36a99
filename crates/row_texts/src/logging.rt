// What node 1 writes with its log, in the first journal of an image and at home, as lines of a trace.
use crate::images::Image;
use crate::places::{number_of, range_of};
use anyhow::{Context, Result};
use std::alloc::Global;

// The block of a place of the journal.
fn block_at(alloc: Global, image: &Image, place: u64) -> Result<u64> {
    let word = format!(in alloc; "journal0.place{place}")?;
    number_of(image, word.as_str())
}

fn put_barrier(out: &mut Vec<u8>) -> Result<()> {
    out.extend_from_slice(b"barrier 1\n")?;
    Ok(())
}

// Writes to these places of the journal, and a barrier.
fn put_log(alloc: Global, out: &mut Vec<u8>, image: &Image, words: &str) -> Result<()> {
    for word in words.split(' ') {
        let (first, last) = range_of(image, word)?;
        for place in first..=last.min(1_000_000) {
            let block = block_at(alloc, image, place)?;
            let line = format!(in alloc; "write 1 log {block}\n")?;
            out.extend_from_slice(line.as_bytes())?;
        }
    }
    put_barrier(out)
}

// Writes of these blocks to their places, and a barrier.
fn put_home(alloc: Global, out: &mut Vec<u8>, image: &Image, words: &str) -> Result<()> {
    for word in words.split(' ') {
        let (first, last) = range_of(image, word)?;
        for block in first..=last.min(1_000_000) {
            let line = format!(in alloc; "write 1 home {block}\n")?;
            out.extend_from_slice(line.as_bytes())?;
        }
    }
    put_barrier(out)
}

// A log header of this kind at a place, of a sequence and up to a call as the words have them, and a barrier.
fn put_header(
    alloc: Global,
    out: &mut Vec<u8>,
    image: &Image,
    kind: &str,
    place: u64,
    words: &str,
) -> Result<()> {
    let block = block_at(alloc, image, place)?;
    let line = format!(in alloc; "write 1 {kind} {block} {words}\n")?;
    out.extend_from_slice(line.as_bytes())?;
    put_barrier(out)
}

// The commit of a flush.
fn put_commit(alloc: Global, out: &mut Vec<u8>, words: &str) -> Result<()> {
    let line = format!(in alloc; "commit 1 {words}\n")?;
    out.extend_from_slice(line.as_bytes())?;
    Ok(())
}

// The place of a header, and the words behind it.
fn split_place<'a>(image: &Image, words: &'a str) -> Result<(u64, &'a str)> {
    let (place, rest) = words.split_once(' ').context("a header without words")?;
    Ok((number_of(image, place)?, rest))
}

/// Puts what a line says that begins with `\log`, `\head`, `\home` or `\clean`, and tells whether it was one.
pub(crate) fn put_logged(
    alloc: Global,
    out: &mut Vec<u8>,
    image: &Image,
    line: &str,
) -> Result<bool> {
    if let Some(words) = line.strip_prefix("\\log ") {
        put_log(alloc, out, image, words)?;
    } else if let Some(words) = line.strip_prefix("\\home ") {
        put_home(alloc, out, image, words)?;
    } else if let Some(words) = line.strip_prefix("\\head ") {
        let (place, rest) = split_place(image, words)?;
        put_header(alloc, out, image, "head", place, rest)?;
        put_commit(alloc, out, rest)?;
    } else if let Some(words) = line.strip_prefix("\\clean ") {
        let (place, rest) = split_place(image, words)?;
        put_header(alloc, out, image, "clean", place, rest)?;
    } else {
        return Ok(false);
    }
    Ok(true)
}
