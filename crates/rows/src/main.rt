//! Tries rows over the top call in memory: `rows FILE..`. docs/ROWS.md says how a row is written.
#![tactic(auto)]

mod commands;
mod recipes;
mod running;
mod sweeps;
mod trying;
mod wanted;

use anyhow::{Context, Result};
use recipes::Book;
use row_texts::{Entry, read_entries};
use std::alloc::Global;
use std::process::ExitCode;
use std::rt::Files;
use std::{env, fs};
use trying::try_row;

// Takes an entry into the book, or tries it where it is a row and prints what came of it. Answers whether a row was found to
// differ.
fn take_entry<'a>(
    rt: &(impl Print + AllocGlobal),
    book: &mut Book<'a>,
    entry: Entry<'a>,
) -> Result<bool> {
    let alloc = rt.alloc();
    if !entry.is_row() {
        book.take(alloc, entry)?;
        return Ok(false);
    }
    let report = match try_row(alloc, book, &entry) {
        Ok(report) => report,
        Err(fault) => format!(in alloc; "  {fault}\n")?,
    };
    if report.is_empty() {
        println!(rt; "row {} ok", entry.name)?;
        return Ok(false);
    }
    println!(rt; "row {}", entry.name)?;
    print!(rt; "{report}")?;
    Ok(true)
}

// How many rows of this text differ.
fn take_text<'a>(
    rt: &(impl Print + AllocGlobal),
    book: &mut Book<'a>,
    text: &'a str,
) -> Result<u64> {
    let mut count = 0u64;
    for entry in read_entries(rt.alloc(), text)? {
        if take_entry(rt, book, entry)? {
            count = count.saturating_add(1);
        }
    }
    Ok(count)
}

// The texts of the files that the words behind the first name.
fn read_texts(
    rt: &(impl Files + AllocGlobal),
    alloc: Global,
    words: &[String],
) -> Result<Vec<String>> {
    let mut texts = Vec::new(alloc);
    for word in words.iter().skip(1) {
        let text = fs::read_to_string(rt, word.as_str()).context(format_args!("{word}"))?;
        texts.push(text)?;
    }
    Ok(texts)
}

fn main(rt: HostRuntime) -> Result<ExitCode> {
    let words: Vec<String> = env::args(&rt)?.collect(rt.alloc())?;
    let texts = read_texts(&rt, rt.alloc(), &words)?;
    let mut book = Book::new(rt.alloc());
    let mut count = 0u64;
    for text in &texts {
        count = count.saturating_add(take_text(&rt, &mut book, text.as_str())?);
    }
    Ok(ExitCode::from(if count == 0 { 0 } else { 1 }))
}
