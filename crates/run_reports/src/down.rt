ghost use Rattle.std.specs.Prelude.{◌≡◌, ◌+◌, ◌++◌, ◌||◌, List, [], ◌∷◌, IfOk, length, drop, if◌then◌else◌, false};
ghost use Rattle.std.specs.List.{flat_map};
ghost use Rattle.trace_text.specs.declared.item.TraceItem.{TraceItem as Item};
ghost use Rattle.script_lang.specs.Script.{calls_by};
ghost use Rattle.run_rules.specs.Follows.{call_items};
ghost use Rattle.run_reports.specs.Out.{answers, down_line, is_done as tells_done, is_line_of as is_of_client, is_stopped};
ghost use Rattle.run_reports.specs.Streams.{PassesOn, PutHasCause};

use crate::places::place_of;
use crate::status::Status;
use crate::streams::{PutFault, pass_on};
use file_tree::{Call, Name, append_call};
use no_memory::NoMemory;
use script_lang::{Client, Line, Script};
use std::alloc::Global;
use stream_io::Sink;
use text_words::append;
use trace_text::TraceItem;

fn is_done(told: &Status) -> bool
    ensures { result ≡ tells_done told.now }
{
    matches!(told, Status::Done)
}

// Whether the node has stopped behind this item.
fn is_stopped_behind(node: u8, stopped: bool, item: &TraceItem) -> bool
    ensures { (rest : List Item) → is_stopped node stopped (item.now ∷ rest) ≡ is_stopped node result rest }
{
    match item {
        TraceItem::Join { node: joined } => stopped && *joined != node,
        TraceItem::Crash { node: stops } => stopped || *stops == node,
        TraceItem::Withdraw { node: stops, .. } => stopped || *stops == node,
        _ => stopped,
    }
}

// Whether the node has stopped and not joined again.
fn has_stopped(node: u8, items: &[TraceItem]) -> bool
    ensures { result ≡ is_stopped node false items.now }
{
    let mut stopped = false;
    for item in items {
        stopped = is_stopped_behind(node, stopped, item);
    }
    stopped
}

/// Whether the lines of clients of node 1 that weren't answered are told: all was done, or the node has stopped.
pub(crate) fn tells_down(told: &Status, items: &[TraceItem]) -> bool
    ensures { result ≡ (tells_done told.now || is_stopped 1 false items.now) }
{
    is_done(told) || has_stopped(1, items)
}

// Whether the item answers a line of this client.
fn answers_line(clients: &[Client], client: usize, item: &TraceItem) -> bool
    ensures { (rest : List Item) → length (call_items clients.now client (item.now ∷ rest)) ≡ (if result then 1 else 0) + length (call_items clients.now client rest) }
{
    match item {
        TraceItem::Call { client: name, .. } => place_of(clients, name.bytes()) == client,
        _ => false,
    }
}

// How many lines of this client are answered.
fn count_answers(clients: &[Client], client: usize, items: &[TraceItem]) -> usize
    ensures { result ≡ length (call_items clients.now client items.now) }
{
    let mut count = 0;
    for item in items {
        count += usize::from(answers_line(clients, client, item));
    }
    count
}

// A line that is down.
fn append_down(alloc: Global, text: &mut Vec<u8>, name: &Name, call: &Call) -> Result<(), NoMemory>
    ensures { IfOk result (λ _. text.new.items ≡ text.old.items ++ down_line name.now call.now) }
{
    append(text, name.bytes())?;
    append(text, b": ")?;
    append_call(alloc, text, call)?;
    append(text, b" = down")?;
    append(text, b"\n")
}

// The line, if it is one of this client, as one that is down.
fn append_line(
    alloc: Global,
    text: &mut Vec<u8>,
    name: &Name,
    client: usize,
    line: &Line,
) -> Result<(), NoMemory>
    ensures { IfOk result (λ _. text.new.items ≡ text.old.items ++ flat_map (down_line name.now) (calls_by client (line.now ∷ []))) }
{
    let Line::Call {
        client: place,
        call,
    } = line
    else {
        return Ok(());
    };
    if *place as usize != client {
        return Ok(());
    }
    append_down(alloc, text, name, call)
}

// Puts the line, if it is one of this client, as one that is down.
fn put_line<T: Sink>(
    alloc: Global,
    sink: &mut T,
    held: &mut Vec<u8>,
    name: &Name,
    client: usize,
    line: &Line,
) -> Result<(), PutFault>
    ensures bytes { PassesOn (T.contents sink.old) (T.contents sink.new) held.old.items held.new.items result (flat_map (down_line name.now) (calls_by client (line.now ∷ []))) }
    ensures cause { PutHasCause (T.faults sink.old) (T.faults sink.new) result }
{
    match append_line(alloc, held, name, client, line) {
        Ok(()) => pass_on(sink, held),
        Err(_) => Err(PutFault::NoMemory),
    }
}

// Puts this client's lines of these as such that are down.
fn put_lines<T: Sink>(
    alloc: Global,
    sink: &mut T,
    held: &mut Vec<u8>,
    name: &Name,
    client: usize,
    lines: &[Line],
) -> Result<(), PutFault>
    ensures bytes { PassesOn (T.contents sink.old) (T.contents sink.new) held.old.items held.new.items result (flat_map (down_line name.now) (calls_by client lines.now)) }
    ensures cause { PutHasCause (T.faults sink.old) (T.faults sink.new) result }
{
    let mut rest = lines;
    while let [line, behind @ ..] = rest {
        match put_line(alloc, sink, held, name, client, line) {
            Ok(()) => rest = behind,
            Err(fault) => return Err(fault),
        }
    }
    Ok(())
}

fn is_line_of(client: usize, line: &Line) -> bool
    ensures { result ≡ is_of_client client line.now }
{
    match line {
        Line::Call { client: place, .. } => *place as usize == client,
        _ => false,
    }
}

// The lines behind the first so many of this client.
fn lines_behind(lines: &[Line], client: usize, answered: usize) -> &[Line]
    ensures { calls_by client result.now ≡ drop answered (calls_by client lines.now) }
{
    let mut left = answered;
    let mut rest = lines;
    while let [line, behind @ ..] = rest {
        if left == 0 {
            return rest;
        }
        if is_line_of(client, line) {
            left -= 1;
        }
        rest = behind;
    }
    rest
}

/// Puts the client's lines that weren't answered, where they are told. To count the others it goes over the items.
pub(crate) fn put_down_lines<T: Sink>(
    alloc: Global,
    sink: &mut T,
    held: &mut Vec<u8>,
    script: &Script,
    items: &[TraceItem],
    place: usize,
    name: &Name,
    is_told: bool,
) -> Result<(), PutFault>
    ensures bytes { PassesOn (T.contents sink.old) (T.contents sink.new) held.old.items held.new.items result
        (if is_told then flat_map (down_line name.now) (drop (answers script.now items.now place) (calls_by place script.now.lines)) else []) }
    ensures cause { PutHasCause (T.faults sink.old) (T.faults sink.new) result }
{
    if !is_told {
        return Ok(());
    }
    let answered = count_answers(&script.clients, place, items);
    let lines = lines_behind(&script.lines, place, answered);
    put_lines(alloc, sink, held, name, place, lines)
}
