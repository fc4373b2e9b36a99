ghost use Rattle.std.specs.Prelude.{◌≡◌, ◌++◌, ◌∷◌, [], IfOk, codes, length};
ghost use Rattle.std.specs.List.{flat_map};
ghost use Rattle.text_words.specs.Words.{word, number};
ghost use Rattle.file_tree.specs.PathText.{path_text, name_text};
ghost use Rattle.file_tree.specs.CallText.{call_text, data_text, kind_text, reply_text};

use crate::path_text::{append_name, append_path};
use crate::{Call, Kind, Name, NoMemory, Path, Reply};
use std::alloc::Global;
use text_words::{append, append_hex, append_number, append_word};

// A word, and a path after it.
fn append_on_path(text: &mut Vec<u8>, verb: &[u8], path: &Path) -> Result<(), NoMemory>
    ensures { IfOk result (λ _. text.new.items ≡ text.old.items ++ (verb.now ++ word (path_text path.now))) }
{
    append(text, verb)?;
    text.push(b' ')?;
    append_path(text, path)
}

// The arguments of a read: a path, an offset and a count.
fn append_range(
    text: &mut Vec<u8>,
    verb: &[u8],
    path: &Path,
    at: u64,
    count: u32,
) -> Result<(), NoMemory>
    ensures { IfOk result (λ _. text.new.items ≡ text.old.items ++ (verb.now ++ word (path_text path.now) ++ number at ++ number count)) }
{
    append_on_path(text, verb, path)?;
    append_number(text, at)?;
    append_number(text, u64::from(count))
}

fn append_write(
    alloc: Global,
    text: &mut Vec<u8>,
    path: &Path,
    at: u64,
    content: &[u8],
) -> Result<(), NoMemory>
    ensures { IfOk result (λ _. text.new.items ≡ text.old.items ++ call_text (Call.Write path.now at content.now)) }
{
    append_on_path(text, b"write", path)?;
    append_number(text, at)?;
    text.push(b' ')?;
    append_hex(alloc, text, content)
}

fn append_rename(text: &mut Vec<u8>, from: &Path, to: &Path) -> Result<(), NoMemory>
    ensures { IfOk result (λ _. text.new.items ≡ text.old.items ++ call_text (Call.Rename from.now to.now)) }
{
    append_on_path(text, b"rename", from)?;
    text.push(b' ')?;
    append_path(text, to)
}

fn append_truncate(text: &mut Vec<u8>, path: &Path, size: u64) -> Result<(), NoMemory>
    ensures { IfOk result (λ _. text.new.items ≡ text.old.items ++ call_text (Call.Truncate path.now size)) }
{
    append_on_path(text, b"truncate", path)?;
    append_number(text, size)
}

/// Puts a call at the end of a text, as scripts and traces write it, with content in hexadecimal.
pub fn append_call(alloc: Global, text: &mut Vec<u8>, call: &Call) -> Result<(), NoMemory>
    ensures { IfOk result (λ _. text.new.items ≡ text.old.items ++ call_text call.now) }
{
    match call {
        Call::Create(path) => append_on_path(text, b"create", path),
        Call::Mkdir(path) => append_on_path(text, b"mkdir", path),
        Call::Unlink(path) => append_on_path(text, b"unlink", path),
        Call::Rmdir(path) => append_on_path(text, b"rmdir", path),
        Call::Read(path, at, count) => append_range(text, b"read", path, *at, *count),
        Call::Dread(path, at, count) => append_range(text, b"dread", path, *at, *count),
        Call::Write(path, at, content) => append_write(alloc, text, path, *at, content.bytes()),
        Call::Truncate(path, size) => append_truncate(text, path, *size),
        Call::Stat(path) => append_on_path(text, b"stat", path),
        Call::List(path) => append_on_path(text, b"list", path),
        Call::Rename(from, to) => append_rename(text, from, to),
        Call::Sync => append(text, b"sync"),
    }
}

fn append_data(alloc: Global, text: &mut Vec<u8>, bytes: &[u8]) -> Result<(), NoMemory>
    ensures { IfOk result (λ _. text.new.items ≡ text.old.items ++ data_text bytes.now) }
{
    match bytes {
        [] => append(text, b"data -"),
        [_, ..] => {
            append(text, b"data ")?;
            append_hex(alloc, text, bytes)
        }
    }
}

fn append_stat(text: &mut Vec<u8>, kind: Kind, size: u64) -> Result<(), NoMemory>
    ensures { IfOk result (λ _. text.new.items ≡ text.old.items ++ reply_text (Reply.Stat kind size)) }
{
    let word: &[u8] = match kind {
        Kind::File => b"stat file",
        Kind::Dir => b"stat dir",
    };
    append(text, word)?;
    append_number(text, size)
}

fn append_listed(text: &mut Vec<u8>, names: &[Name]) -> Result<(), NoMemory>
    ensures { IfOk result (λ _. text.new.items ≡ text.old.items ++ flat_map (λ name. word (name_text name)) names.now) }
{
    for name in names {
        text.push(b' ')?;
        append_name(text, name)?;
    }
    Ok(())
}

fn append_names_reply(text: &mut Vec<u8>, names: &[Name]) -> Result<(), NoMemory>
    ensures { IfOk result (λ _. text.new.items ≡ text.old.items ++ reply_text (Reply.Names names.now)) }
{
    append(text, b"names")?;
    append_number(text, names.len() as u64)?;
    append_listed(text, names)
}

/// Puts a reply at the end of a text, as traces and the program's output write it.
pub fn append_reply(alloc: Global, text: &mut Vec<u8>, reply: &Reply) -> Result<(), NoMemory>
    ensures { IfOk result (λ _. text.new.items ≡ text.old.items ++ reply_text reply.now) }
{
    match reply {
        Reply::Ok => append(text, b"ok"),
        Reply::Bytes(content) => append_data(alloc, text, content.bytes()),
        Reply::Stat(kind, size) => append_stat(text, *kind, *size),
        Reply::Names(names) => append_names_reply(text, names.names()),
        Reply::NotFound => append(text, b"notfound"),
        Reply::NotDir => append(text, b"notdir"),
        Reply::IsDir => append(text, b"isdir"),
        Reply::Exists => append(text, b"exists"),
        Reply::NotEmpty => append(text, b"notempty"),
        Reply::Inside => append(text, b"inside"),
        Reply::TooBig => append(text, b"toobig"),
        Reply::NoSpace => append(text, b"nospace"),
    }
}
