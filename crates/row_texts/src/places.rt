// What the words for blocks and numbers mean on an image.
use crate::fields::DINODE_LENGTH;
use crate::images::Image;
use crate::numbers::number_word;
use anyhow::{Context, Result};
use std::alloc::Global;

// How many bytes stand before the superblock.
const SUPERBLOCK_START: u64 = 65_536;

/// Calls the blocks of an image that was made by the names of their structures.
pub fn call_structures(alloc: Global, image: &mut Image) -> Result<()> {
    let size = u64::from(image.size).max(1);
    let superblock = SUPERBLOCK_START / size;
    image.call(alloc, "super", superblock)?;
    image.call(alloc, "past", image.blocks())?;
    let Some(master) = image.number(superblock, 56, 8) else {
        return Ok(());
    };
    let Some(root) = image.number(superblock, 88, 8) else {
        return Ok(());
    };
    if master == 0 {
        return Ok(());
    }
    image.call(alloc, "group", superblock.saturating_add(1))?;
    image.call(alloc, "master", master)?;
    image.call(alloc, "root", root)?;
    call_system_files(alloc, image, master)
}

fn call_system_files(alloc: Global, image: &mut Image, master: u64) -> Result<()> {
    if let Some(rindex) = image.led_to(master, b"rindex") {
        image.call(alloc, "rindex", rindex)?;
    }
    let Some(jindex) = image.led_to(master, b"jindex") else {
        return Ok(());
    };
    image.call(alloc, "jindex", jindex)?;
    for journal in 0..8u8 {
        let name = format!(in alloc; "journal{journal}")?;
        if let Some(block) = image.led_to(jindex, name.as_bytes()) {
            image.call(alloc, name.as_str(), block)?;
        }
    }
    Ok(())
}

/// The first free block of the first group, of those that its first bitmap has.
pub(crate) fn first_free(image: &Image) -> Option<u64> {
    let group = image.called("group")?;
    let data = image.number(group, 48, 8)?;
    let count = image.number(group, 56, 4)?;
    for index in 0..count.min(16_384) {
        let byte = image.number(group, 128usize.saturating_add((index / 4) as usize), 1)?;
        if (byte >> (2 * (index % 4))) % 4 == 0 {
            return Some(data.saturating_add(index));
        }
    }
    None
}

// A block of a journal's file of height 2: one of pointers, or one of its places.
fn journal_block(image: &Image, dinode: u64, word: &str) -> Option<u64> {
    let pointers = (image.size as usize).saturating_sub(24) / 8;
    if let Some(digits) = word.strip_prefix("pointers") {
        let index = number_word(digits)?.min(4096) as usize;
        return image.number(
            dinode,
            index.saturating_mul(8).saturating_add(DINODE_LENGTH),
            8,
        );
    }
    let index = number_word(word.strip_prefix("place")?)?.min(65_536) as usize;
    if pointers == 0 {
        return None;
    }
    let at = (index / pointers)
        .saturating_mul(8)
        .saturating_add(DINODE_LENGTH);
    let block = image.number(dinode, at, 8)?;
    image.number(
        block,
        (index % pointers).saturating_mul(8).saturating_add(24),
        8,
    )
}

// What a single word means: a number, the size of a block, what of it is behind a dinode, or a block by its name.
fn term_of(image: &Image, word: &str) -> Option<u64> {
    if let Some(number) = number_word(word) {
        return Some(number);
    }
    if let Some(block) = image.called(word) {
        return Some(block);
    }
    match word {
        "size" => Some(u64::from(image.size)),
        "area" => Some(u64::from(image.size).saturating_sub(DINODE_LENGTH as u64)),
        "free" => first_free(image),
        _ => {
            let (journal, place) = word.split_once('.')?;
            journal_block(image, image.called(journal)?, place)
        }
    }
}

// A word, or a part of it, as `TERM/BY`.
fn find_part(image: &Image, word: &str) -> Option<(u64, u64)> {
    if let Some(number) = term_of(image, word) {
        return Some((number, 1));
    }
    let (term, by) = word.rsplit_once('/')?;
    Some((term_of(image, term)?, number_word(by)?.max(1)))
}

// The same, or so many times it, as `TIMES*TERM`.
fn find_product(image: &Image, word: &str) -> Option<u64> {
    if let Some((number, by)) = find_part(image, word) {
        return Some(number / by.max(1));
    }
    let (times, part) = word.split_once('*')?;
    let (number, by) = find_part(image, part)?;
    Some(number_word(times)?.saturating_mul(number) / by.max(1))
}

fn find(image: &Image, word: &str) -> Option<u64> {
    if let Some(number) = find_product(image, word) {
        return Some(number);
    }
    if let Some((term, more)) = word.rsplit_once('+') {
        return Some(find_product(image, term)?.saturating_add(number_word(more)?));
    }
    let (term, less) = word.rsplit_once('-')?;
    Some(find_product(image, term)?.saturating_sub(number_word(less)?))
}

/// The number that a word means on an image: a number, `size`, `area`, or a block's name; so many times that, or a part of
/// it; and more or less.
pub fn number_of(image: &Image, word: &str) -> Result<u64> {
    find(image, word).context(format_args!("no number: {word}"))
}

/// The blocks from one word to another, as `A..B`; of a single word its block alone.
pub fn range_of(image: &Image, word: &str) -> Result<(u64, u64)> {
    match word.split_once("..") {
        Some((first, last)) => Ok((number_of(image, first)?, number_of(image, last)?)),
        None => {
            let number = number_of(image, word)?;
            Ok((number, number))
        }
    }
}
