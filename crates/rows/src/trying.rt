// A row is tried: its image is made, its commands are carried out one after another, and what differs is told.
use crate::commands::Command;
use crate::recipes::{Book, change, made_anew};
use crate::running::{Fails, Given, Left, carry_out};
use crate::sweeps::{check_calls, sweep};
use crate::wanted::{Wanted, tell};
use anyhow::{Context, Result, bail, ensure};
use crc_words::crc32;
use row_texts::{Entry, Image, Item, change_of, next_word, number_word};
use std::alloc::Global;
use std::mem;

fn show_of(alloc: Global) -> Given<'static> {
    Given {
        words: "show",
        script: Vec::new(alloc),
        fails: Fails::none(alloc),
        outcomes: Vec::new(alloc),
    }
}

fn read_command<'a>(
    alloc: Global,
    book: &Book<'a>,
    names: &Image,
    items: &[Item<'a>],
) -> Result<Command<'a>> {
    let first = items.first().context("no command")?;
    let words = first
        .words
        .strip_prefix("do")
        .context("no command before what is wanted")?;
    let mut command = Command::new(alloc, words);
    for item in items.iter().skip(1) {
        command.take(alloc, book, names, item)?;
    }
    Ok(command)
}

// Carries a command out on an image.
fn carry(alloc: Global, image: &mut Image, given: &Given<'_>) -> Result<Left> {
    let bytes = mem::replace(&mut image.bytes, Vec::new(alloc));
    let mut left = carry_out(alloc, image.size, bytes, given, &given.fails)?;
    image.bytes = mem::replace(&mut left.bytes, Vec::new(alloc));
    Ok(left)
}

// Tells in what the checksum of the image that a command left differs.
fn check_sum(image: &Image, sum: Option<u64>, report: &mut String) -> Result<()> {
    if let Some(sum) = sum {
        let found = u64::from(crc32(&image.bytes));
        if found != sum {
            writeln!(
                report,
                "  at {}: crc: wanted {sum:08x}, found {found:08x}",
                image.size
            )?;
        }
    }
    Ok(())
}

// Tells what should stand on the image that a command left, and doesn't.
fn check_holds(
    alloc: Global,
    base: Option<&Image>,
    image: &Image,
    holds: &[&str],
    report: &mut String,
) -> Result<()> {
    let names = match base {
        Some(base) => base,
        None => image,
    };
    for words in holds {
        if !change_of(alloc, names, image, words)?.holds(image) {
            writeln!(report, "  at {}: not so: holds {words}", image.size)?;
        }
    }
    Ok(())
}

// Tells in what the show of the image that a command left differs.
fn check_show(
    alloc: Global,
    image: &mut Image,
    shows: Option<&[u8]>,
    report: &mut String,
) -> Result<()> {
    let Some(shows) = shows else {
        return Ok(());
    };
    let left = carry(alloc, image, &show_of(alloc))?;
    let mut wanted = Wanted::nothing(alloc);
    wanted.out.bytes = shows.to_vec(alloc)?;
    let before = format!(in alloc; "at {}: the show afterwards: ", image.size)?;
    tell(alloc, report, before.as_str(), &wanted, &left)
}

// The image before a command, where it is needed afterwards.
fn keep(alloc: Global, image: &Image, command: &Command<'_>) -> Result<Option<Image>> {
    if command.same || command.sweep.is_some() || command.calls.is_some() {
        return Ok(Some(image.copy(alloc)?));
    }
    Ok(None)
}

// Tells in what a command differs that is carried out again on the image as it was before.
fn check_kept(
    alloc: Global,
    base: Option<&Image>,
    kept: &Image,
    command: &Command<'_>,
    left: &[u8],
    report: &mut String,
) -> Result<()> {
    if command.same && kept.bytes.as_slice() != left {
        writeln!(report, "  at {}: the image is not as it was", kept.size)?;
    }
    if let Some(count) = command.calls {
        check_calls(alloc, kept, command, count, report)?;
    }
    let names = match base {
        Some(base) => base,
        None => kept,
    };
    if let Some(lines) = &command.sweep {
        sweep(alloc, names, kept, command, lines, left, report)?;
    }
    Ok(())
}

// The command of these items, in which names have the meaning that they have on the base, or else on the image as it is.
fn command_on<'a>(
    alloc: Global,
    book: &Book<'a>,
    base: Option<&Image>,
    image: &Image,
    items: &[Item<'a>],
) -> Result<Command<'a>> {
    match base {
        Some(base) => read_command(alloc, book, base, items),
        None => read_command(alloc, book, image, items),
    }
}

fn heading(alloc: Global, size: u32, words: &str) -> Result<String> {
    Ok(format!(in alloc; "at {size}:{words}: ")?)
}

// Tries the command of these items on an image.
fn try_command<'a>(
    alloc: Global,
    book: &Book<'a>,
    base: Option<&Image>,
    image: &mut Image,
    items: &[Item<'a>],
    report: &mut String,
) -> Result<()> {
    if items.is_empty() {
        return Ok(());
    }
    let command = command_on(alloc, book, base, image, items)?;
    let before = heading(alloc, image.size, command.given.words)?;
    let kept = keep(alloc, image, &command)?;
    let left = carry(alloc, image, &command.given)?;
    tell(alloc, report, before.as_str(), &command.wanted, &left)?;
    check_sum(image, command.sum, report)?;
    check_holds(alloc, base, image, &command.holds, report)?;
    check_show(alloc, image, command.shows.as_deref(), report)?;
    if let Some(kept) = &kept {
        check_kept(alloc, base, kept, &command, &image.bytes, report)?;
    }
    Ok(())
}

// Where a row takes its image from.
fn is_source(word: &str) -> bool {
    matches!(word, "image" | "zeros" | "ones" | "mkfs")
}

// The image of this name and size of a block, on which names have their meaning.
fn base_of<'b>(book: &'b Book<'_>, words: &str, size: u32) -> Result<Option<&'b Image>> {
    let Some(name) = words.strip_prefix("image ") else {
        return Ok(None);
    };
    for image in book.images(name)? {
        if image.size == size {
            return Ok(Some(image));
        }
    }
    bail!("no image {name} in blocks of {size} bytes")
}

// The image that an item begins a row with: a copy of the base, or one of its own.
fn begin(alloc: Global, base: Option<&Image>, words: &str) -> Result<Image> {
    match base {
        Some(base) => base.copy(alloc),
        None => made_anew(alloc, words)?.context("no image"),
    }
}

// Tries a row in this size of a block: each item that begins a command, or changes the image, ends the command before it.
fn try_at<'a>(
    alloc: Global,
    book: &Book<'a>,
    entry: &Entry<'a>,
    size: u32,
    report: &mut String,
) -> Result<()> {
    let items = entry.items.as_slice();
    let first = items.first().context("a row without an image")?;
    let base = base_of(book, first.words, size)?;
    let mut image = begin(alloc, base, first.words)?;
    let mut start = 1usize;
    let mut at = 0usize;
    for item in items {
        if at > 0 && ends_command(item.words) {
            if let Some(command) = items.get(start..at) {
                try_command(alloc, book, base, &mut image, command, report)?;
            }
            start = at;
            if !is_command(item.words) {
                change_image(alloc, base, &mut image, item.words)?;
                start = at.saturating_add(1);
            }
        }
        at = at.saturating_add(1);
    }
    match items.get(start..) {
        Some(command) => try_command(alloc, book, base, &mut image, command, report),
        None => Ok(()),
    }
}

fn is_command(words: &str) -> bool {
    words == "do" || words.starts_with("do ")
}

fn names_sizes(words: &str) -> bool {
    words.starts_with("sizes ")
}

fn ends_command(words: &str) -> bool {
    is_command(words) || names_sizes(words) || is_change(words)
}

// Changes the image as an item says that stands before a command or between two. The item of sizes changes nothing.
fn change_image(alloc: Global, base: Option<&Image>, image: &mut Image, words: &str) -> Result<()> {
    if is_change(words) {
        change(alloc, base, image, words).context(format_args!("{words}"))?;
    }
    Ok(())
}

fn is_change(words: &str) -> bool {
    let mut rest = words;
    matches!(
        next_word(&mut rest),
        "file" | "link" | "leaf" | "patch" | "points" | "flip" | "cut" | "grow" | "name"
    )
}

// The sizes of blocks in which a row is tried: those that it names, or else those of its image.
fn sizes_of(alloc: Global, book: &Book<'_>, entry: &Entry<'_>) -> Result<Vec<u32>> {
    let mut sizes = Vec::new(alloc);
    for item in &entry.items {
        if let Some(words) = item.words.strip_prefix("sizes ") {
            for word in words.split(' ') {
                sizes.push(number_word(word).context("no size of a block")?.min(65_536) as u32)?;
            }
            return Ok(sizes);
        }
    }
    let first = entry.items.first().context("a row without an image")?;
    let mut rest = first.words;
    let word = next_word(&mut rest);
    ensure!(is_source(word), "a row without an image");
    if word == "image" {
        for image in book.images(rest)? {
            sizes.push(image.size)?;
        }
    } else {
        sizes.push(
            number_word(next_word(&mut rest))
                .context("no size of a block")?
                .min(65_536) as u32,
        )?;
    }
    Ok(sizes)
}

/// Tries a row, and tells in what it differs: nothing where it is right.
pub(crate) fn try_row<'a>(alloc: Global, book: &Book<'a>, entry: &Entry<'a>) -> Result<String> {
    let mut report = String::new(alloc);
    for size in sizes_of(alloc, book, entry)? {
        try_at(alloc, book, entry, size, &mut report)?;
    }
    Ok(report)
}
