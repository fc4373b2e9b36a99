// Patches: new bytes at a named place of an image.
use crate::contents::{content_of, name_of};
use crate::fields::{DINODE_LENGTH, entry_field, field_of, record_field};
use crate::images::Image;
use crate::numbers::{next_word, number_at, number_word, part, put_bytes, put_number};
use crate::places::{number_of, range_of};
use anyhow::{Context, Result, ensure};
use std::alloc::Global;

// Where a patch stands, in bytes of the image, and how many bytes its number has.
#[derive(Clone, Copy, Drop)]
struct Spot {
    at: usize,
    width: usize,
}

/// What a patch puts, and where.
#[derive(Drop)]
pub struct Change {
    at: usize,
    bytes: Vec<u8>,
}

impl Change {
    pub fn put(&self, image: &mut Image) -> Result<()> {
        ensure!(
            put_bytes(&mut image.bytes, self.at, &self.bytes),
            "a patch outside the device"
        );
        Ok(())
    }

    /// Whether these bytes stand there.
    pub fn holds(&self, image: &Image) -> bool {
        part(&image.bytes, self.at, self.bytes.len()) == Some(self.bytes.as_slice())
    }
}

fn kind_of(base: &Image, now: &Image, block: u64) -> Option<u64> {
    match base.kind(block) {
        Some(kind) => Some(kind),
        None => now.kind(block),
    }
}

fn pointer(kind: Option<u64>, word: &str) -> Option<(usize, usize)> {
    let index = number_word(word)?.min(4096) as usize;
    let first = if kind == Some(4) { DINODE_LENGTH } else { 24 };
    Some((index.saturating_mul(8).saturating_add(first), 8))
}

fn entry(word: &str, field: &str) -> Option<(usize, usize)> {
    let index = number_word(word)?.min(4096) as usize;
    let (at, width) = entry_field(field)?;
    Some((
        index
            .saturating_mul(96)
            .saturating_add(DINODE_LENGTH)
            .saturating_add(at),
        width,
    ))
}

fn record(
    alloc: Global,
    base: &Image,
    block: u64,
    rest: &mut &str,
) -> Result<Option<(usize, usize)>> {
    let name = name_of(alloc, next_word(rest))?;
    let field = next_word(rest);
    let Some(start) = base.record(block, &name) else {
        return Ok(None);
    };
    let place = if field == "byte" {
        number_word(next_word(rest)).map(|at| (at.min(4096) as usize, 0usize))
    } else {
        record_field(field)
    };
    Ok(place.map(|(at, width)| (start.saturating_add(at), width)))
}

// Where in its block a patch stands, and how many bytes its number has.
fn place(
    alloc: Global,
    base: &Image,
    now: &Image,
    block: u64,
    rest: &mut &str,
) -> Result<Option<(usize, usize)>> {
    let kind = kind_of(base, now, block);
    let word = next_word(rest);
    match word {
        "record" => record(alloc, base, block, rest),
        "entry" => {
            let index = next_word(rest);
            Ok(entry(index, next_word(rest)))
        }
        "pointer" => Ok(pointer(kind, next_word(rest))),
        "byte" => Ok(number_word(next_word(rest)).map(|at| (at.min(4096) as usize, 0usize))),
        "word" => Ok(number_word(next_word(rest)).map(|at| (at.min(4096) as usize, 4usize))),
        _ => Ok(field_of(kind, word)),
    }
}

fn find_spot(alloc: Global, base: &Image, now: &Image, rest: &mut &str) -> Result<Spot> {
    let mut word = next_word(rest);
    if word == "block" {
        word = next_word(rest);
    }
    let block = number_of(base, word)?;
    let found = place(alloc, base, now, block, rest)?;
    let (at, width) = found.context("no such place")?;
    Ok(Spot {
        at: base.start(block).saturating_add(at),
        width,
    })
}

// The number that is put: one that the words mean, or the one that stands there and more, or less.
fn value(base: &Image, now: &Image, spot: &Spot, words: &str) -> Result<u64> {
    let old = number_at(&now.bytes, spot.at, spot.width).context("a patch outside the device")?;
    if let Some(more) = words.strip_prefix("+") {
        return Ok(old.wrapping_add(number_word(more).context("no number")?));
    }
    if let Some(less) = words.strip_prefix("-") {
        return Ok(old.wrapping_sub(number_word(less).context("no number")?));
    }
    number_of(base, words)
}

/// Reads a patch, `PLACE FIELD VALUE`: names mean what they mean on the first image, and what stands there now is on the
/// second.
pub fn change_of(alloc: Global, base: &Image, now: &Image, words: &str) -> Result<Change> {
    let mut rest = words;
    let spot = find_spot(alloc, base, now, &mut rest)?;
    if let Some(bytes) = content_of(alloc, base, rest)? {
        return Ok(Change { at: spot.at, bytes });
    }
    let number = value(base, now, &spot, rest)?;
    let mut bytes = vec![in alloc; 0u8; spot.width.min(64)]?;
    ensure!(
        put_number(&mut bytes, 0, spot.width, number),
        "no number of so many bytes"
    );
    Ok(Change { at: spot.at, bytes })
}

/// Puts pointers that lead to one block, `PLACE FIRST COUNT BLOCK`, so many from the first on.
pub fn put_pointers(base: &Image, image: &mut Image, words: &str) -> Result<()> {
    let mut rest = words;
    let block = number_of(base, next_word(&mut rest))?;
    let first = number_of(base, next_word(&mut rest))?;
    let count = number_of(base, next_word(&mut rest))?;
    let to = number_of(base, rest)?;
    let head = if kind_of(base, image, block) == Some(4) {
        DINODE_LENGTH
    } else {
        24
    };
    for index in 0..count.min(4096) {
        let index = first.saturating_add(index).min(4096) as usize;
        let at = image
            .start(block)
            .saturating_add(head)
            .saturating_add(index.saturating_mul(8));
        ensure!(
            put_bytes(&mut image.bytes, at, &to.to_be_bytes()),
            "a pointer outside the device"
        );
    }
    Ok(())
}

// Turns a bit of a block, in one of its bytes.
fn flip(image: &mut Image, block: u64) -> Result<()> {
    let size = u64::from(image.size).max(1);
    let at = image.start(block).saturating_add((block % size) as usize);
    ensure!(at < image.bytes.len(), "a block outside the device");
    image.bytes[at] ^= 0x10;
    Ok(())
}

/// Turns a bit of each of these blocks.
pub fn flip_all(base: &Image, image: &mut Image, words: &str) -> Result<()> {
    for word in words.split(' ') {
        let (first, last) = range_of(base, word)?;
        for block in first..=last.min(1_000_000) {
            flip(image, block)?;
        }
    }
    Ok(())
}
