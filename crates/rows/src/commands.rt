// The commands of a row: what each is given, and what it is to leave.
use crate::recipes::Book;
use crate::running::{Fails, Given};
use crate::wanted::{Text, Wanted};
use anyhow::{Context, Result, bail};
use row_texts::{Image, Item, next_word, number_word, put_lines};
use std::alloc::Global;

/// A command, and what a row says of it. `shows` is what a show is to print of the image afterwards, `sum` the checksum of the
/// image, `calls` how many calls of the disk there are; `same` says that the image is as it was, `holds` what
/// stands in it, and `sweep` which calls of the disk fail in turn.
#[derive(Drop)]
pub(crate) struct Command<'a> {
    pub given: Given<'a>,
    pub wanted: Wanted,
    pub shows: Option<Vec<u8>>,
    pub sum: Option<u64>,
    pub calls: Option<u64>,
    pub same: bool,
    pub holds: Vec<&'a str>,
    pub sweep: Option<Vec<&'a str>>,
}

// The text of an item: that of the name behind its first word, and the lines below it.
fn text_of<'a>(
    alloc: Global,
    book: &Book<'a>,
    image: &Image,
    name: &str,
    block: &[&'a str],
) -> Result<Vec<u8>> {
    let mut out = Vec::new(alloc);
    if !name.is_empty() {
        put_lines(alloc, &mut out, image, book.text(name)?)?;
    }
    put_lines(alloc, &mut out, image, block)?;
    Ok(out)
}

// What a sink is to get: `NAME`, or `front LEAST NAME`.
fn sink_text<'a>(
    alloc: Global,
    book: &Book<'a>,
    image: &Image,
    words: &str,
    block: &[&'a str],
) -> Result<Text> {
    let Some(mut rest) = words.strip_prefix("front ") else {
        return Ok(Text {
            bytes: text_of(alloc, book, image, words, block)?,
            least: None,
        });
    };
    let least = number_word(next_word(&mut rest)).context("no number behind front")?;
    Ok(Text {
        bytes: text_of(alloc, book, image, rest, block)?,
        least: Some(least),
    })
}

fn numbers_of(alloc: Global, words: &str) -> Result<Vec<u64>> {
    let mut numbers = Vec::new(alloc);
    for word in words.split(' ') {
        numbers.push(number_word(word).context(format_args!("no number: {word}"))?)?;
    }
    Ok(numbers)
}

fn status_of(word: &str) -> Result<u8> {
    word.parse::<u8>()
        .ok()
        .context(format_args!("no status: {word}"))
}

impl<'a> Command<'a> {
    /// A command of these words, of which nothing else is said.
    pub(crate) fn new(alloc: Global, words: &'a str) -> Command<'a> {
        Command {
            given: Given {
                words,
                script: Vec::new(alloc),
                fails: Fails::none(alloc),
                outcomes: Vec::new(alloc),
            },
            wanted: Wanted::nothing(alloc),
            shows: None,
            sum: None,
            calls: None,
            same: false,
            holds: Vec::new(alloc),
            sweep: None,
        }
    }

    fn take_fails(&mut self, alloc: Global, words: &str) -> Result<()> {
        let mut rest = words;
        let which = next_word(&mut rest);
        let numbers = numbers_of(alloc, rest)?;
        match which {
            "disk" => self.given.fails.disk = numbers,
            "script" => self.given.fails.script = numbers,
            "trace" => self.given.fails.trace = numbers,
            "out" => self.given.fails.out = numbers,
            _ => bail!("nothing that fails: {which}"),
        }
        Ok(())
    }

    fn take_outcomes(&mut self, words: &'a str) -> Result<()> {
        for word in words.split(' ') {
            self.given.outcomes.push(word)?;
        }
        Ok(())
    }

    // A status and the line that tells it, which is all that is put.
    fn take_told(&mut self, alloc: Global, image: &Image, words: &str) -> Result<()> {
        let mut rest = words;
        self.wanted.status = status_of(next_word(&mut rest))?;
        put_lines(alloc, &mut self.wanted.out.bytes, image, &[rest])
    }

    /// Takes an item of the row.
    pub(crate) fn take(
        &mut self,
        alloc: Global,
        book: &Book<'a>,
        image: &Image,
        item: &Item<'a>,
    ) -> Result<()> {
        let mut rest = item.words;
        let block = item.block.as_slice();
        match next_word(&mut rest) {
            "script" => self.given.script = text_of(alloc, book, image, rest, block)?,
            "fails" => self.take_fails(alloc, rest)?,
            "outcomes" => self.take_outcomes(rest)?,
            "told" => self.take_told(alloc, image, rest)?,
            "status" => self.wanted.status = status_of(rest)?,
            "out" => self.wanted.out = sink_text(alloc, book, image, rest, block)?,
            "trace" => self.wanted.trace = sink_text(alloc, book, image, rest, block)?,
            "history" => {
                self.wanted.history = Some(sink_text(alloc, book, image, rest, block)?);
            }
            "shows" => self.shows = Some(text_of(alloc, book, image, rest, block)?),
            "crc" => self.sum = u64::from_str_radix(rest, 16).ok(),
            "calls" => self.calls = number_word(rest),
            "same" => self.same = true,
            "holds" => self.holds.push(rest)?,
            "sweep" => self.take_sweep(alloc, item)?,
            word => bail!("no item of a row: {word}"),
        }
        Ok(())
    }

    fn take_sweep(&mut self, alloc: Global, item: &Item<'a>) -> Result<()> {
        let mut lines = Vec::new(alloc);
        for line in &item.block {
            lines.push(*line)?;
        }
        self.sweep = Some(lines);
        Ok(())
    }
}
