//! The lines of `show`: an image's journals, directories and files, each put at a text's end. A path is given by its names,
//! and may be longer than the 1,024 bytes that a call's path may have.
#![tactic(auto)]

ghost use Rattle.std.specs.Prelude.{◌≡◌, ◌++◌, IfOk};
ghost use Rattle.show_text.specs.Show.{journal_line, dir_line, file_line, checksum_text};
ghost use Rattle.text_words.specs.Words.{word};
ghost use Rattle.file_tree.specs.PathText.{names_text, path_text};

use file_tree::{Name, NoMemory, append_name};
use std::alloc::Global;
use text_words::{append, append_hex, append_number};

/// Puts the line of a journal at the end, by its number and whether it was left clean.
pub fn append_journal(text: &mut Vec<u8>, journal: u64, clean: bool) -> Result<(), NoMemory>
    ensures { IfOk result (λ _. text.new.items ≡ text.old.items ++ journal_line journal clean) }
{
    append(text, b"journal")?;
    append_number(text, journal)?;
    if clean {
        append(text, b" clean\n")
    } else {
        append(text, b" dirty\n")
    }
}

fn append_names(text: &mut Vec<u8>, names: &[Name]) -> Result<(), NoMemory>
    ensures { IfOk result (λ _. text.new.items ≡ text.old.items ++ names_text names.now) }
{
    for name in names {
        text.push(b'/')?;
        append_name(text, name)?;
    }
    Ok(())
}

// Puts the spelling of a path, of any length.
fn append_path(text: &mut Vec<u8>, names: &[Name]) -> Result<(), NoMemory>
    ensures { IfOk result (λ _. text.new.items ≡ text.old.items ++ path_text names.now) }
{
    if names.is_empty() {
        append(text, b"/")
    } else {
        append_names(text, names)
    }
}

// Puts a kind of node and the spelling of its path.
fn append_kind(text: &mut Vec<u8>, kind: &[u8], names: &[Name]) -> Result<(), NoMemory>
    ensures { IfOk result (λ _. text.new.items ≡ text.old.items ++ (kind.now ++ word (path_text names.now))) }
{
    append(text, kind)?;
    append(text, b" ")?;
    append_path(text, names)
}

/// Puts the line of the directory at the path of these names at the end.
pub fn append_dir(text: &mut Vec<u8>, names: &[Name]) -> Result<(), NoMemory>
    ensures { IfOk result (λ _. text.new.items ≡ text.old.items ++ dir_line names.now) }
{
    append_kind(text, b"dir", names)?;
    append(text, b"\n")
}

fn append_checksum(alloc: Global, text: &mut Vec<u8>, content: &[u8]) -> Result<(), NoMemory>
    ensures { IfOk result (λ _. text.new.items ≡ text.old.items ++ checksum_text content.now) }
{
    let checksum = crc_words::crc32(content);
    append_hex(alloc, text, &checksum.to_be_bytes())
}

/// Puts the line of the file at the path of these names at the end: its path, how many bytes it has, and their CRC-32.
pub fn append_file(
    alloc: Global,
    text: &mut Vec<u8>,
    names: &[Name],
    content: &[u8],
) -> Result<(), NoMemory>
    ensures { IfOk result (λ _. text.new.items ≡ text.old.items ++ file_line names.now content.now) }
{
    append_kind(text, b"file", names)?;
    append_number(text, content.len() as u64)?;
    append(text, b" ")?;
    append_checksum(alloc, text, content)?;
    append(text, b"\n")
}
