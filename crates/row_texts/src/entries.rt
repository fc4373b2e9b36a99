// The entries of a text: a line without an indent begins one, lines indented by two spaces are its items, and those indented
// by four are the text of the item above them.
use anyhow::{Result, bail};
use std::alloc::Global;

/// A line of an entry, and the lines of text below it.
#[derive(Drop)]
pub struct Item<'a> {
    pub words: &'a str,
    pub block: Vec<&'a str>,
}

/// A text with a name, an image, or a row.
#[derive(Drop)]
pub struct Entry<'a> {
    pub kind: &'a str,
    pub name: &'a str,
    pub items: Vec<Item<'a>>,
}

impl<'a> Entry<'a> {
    pub fn is_row(&self) -> bool {
        self.kind == "row"
    }

    // Adds a line, without the indent of an item.
    fn add(&mut self, alloc: Global, line: &'a str) -> Result<()> {
        if self.kind != "text" {
            if line.starts_with('#') {
                return Ok(());
            }
            if let Some(text) = line.strip_prefix("  ") {
                return add_text(&mut self.items, text);
            }
        }
        self.items.push(Item {
            words: line,
            block: Vec::new(alloc),
        })?;
        Ok(())
    }
}

fn add_text<'a>(items: &mut Vec<Item<'a>>, text: &'a str) -> Result<()> {
    let Some(item) = items.last_mut() else {
        bail!("text without an item above it");
    };
    item.block.push(text)?;
    Ok(())
}

fn add_line<'a>(alloc: Global, entries: &mut Vec<Entry<'a>>, line: &'a str) -> Result<()> {
    let Some(rest) = line.strip_prefix("  ") else {
        let (kind, name) = line.split_once(' ').unwrap_or((line, ""));
        entries.push(Entry {
            kind,
            name,
            items: Vec::new(alloc),
        })?;
        return Ok(());
    };
    let Some(entry) = entries.last_mut() else {
        bail!("an item without an entry above it");
    };
    entry.add(alloc, rest)
}

/// The entries of a text, in order. Empty lines and those that begin with `#` are left out.
pub fn read_entries<'a>(alloc: Global, text: &'a str) -> Result<Vec<Entry<'a>>> {
    let mut entries = Vec::new(alloc);
    for line in text.lines() {
        if !line.is_empty() && !line.starts_with('#') {
            add_line(alloc, &mut entries, line)?;
        }
    }
    Ok(entries)
}
