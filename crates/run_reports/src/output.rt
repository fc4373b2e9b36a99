ghost use Rattle.std.specs.Prelude.{◌≡◌, ◌+◌, ◌<◌, ◌≤◌, ◌^◌, ◌++◌, [], drop, IfOk, OnOk, if◌then◌else◌};
ghost use Rattle.std.specs.List.{flat_map};
ghost use Rattle.std.specs.Io.KnownBytes.{Appends};
ghost use Rattle.script_lang.specs.Script.{calls_by};
ghost use Rattle.stream_io.specs.Streams.{AppendsPrefix};
ghost use Rattle.run_reports.specs.StatusText.{ended, status_lines};
ghost use Rattle.run_reports.specs.Streams.{PassesOn, PutHasCause};
ghost use Rattle.run_reports.specs.OneNode.{IsOfOneNode};
ghost use Rattle.run_reports.specs.Report.{shown};
ghost use Rattle.run_reports.specs.Dirty.{dirty_told};
ghost use Rattle.run_reports.specs.Out.{counts_line, answered_line, item_line, answered_lines, answers, down_line, all_lines, line_of_replay, lines_of, out_of, replayed_lines, written_behind};

use crate::counts::{append_counts, dirty_to_tell};
use crate::down::{put_down_lines, tells_down};
use crate::places::place_of;
use crate::status::Status;
use crate::status_text::{append_one, append_status};
use crate::streams::{PutFault, pass_on, put_held};
use file_tree::{Call, Name, Reply, append_call, append_reply};
use no_memory::NoMemory;
use script_lang::{Client, Script};
use std::alloc::Global;
use stream_io::Sink;
use text_words::append;
use trace_text::TraceItem;

/// What a run prints before its counts: the lines of its clients, or those of the journals that it replayed.
#[derive(Clone, Copy, Debug, PartialEq, Eq)]
pub enum Listing {
    Clients,
    Journals,
}

// An answered line of a client.
fn append_answered(
    alloc: Global,
    text: &mut Vec<u8>,
    name: &Name,
    call: &Call,
    reply: &Reply,
) -> Result<(), NoMemory>
    ensures { IfOk result (λ _. text.new.items ≡ text.old.items ++ answered_line name.now call.now reply.now) }
{
    append(text, name.bytes())?;
    append(text, b": ")?;
    append_call(alloc, text, call)?;
    append(text, b" = ")?;
    append_reply(alloc, text, reply)?;
    append(text, b"\n")
}

// The line of an item that is a call of this client.
fn append_item_line(
    alloc: Global,
    text: &mut Vec<u8>,
    clients: &[Client],
    client: usize,
    item: &TraceItem,
) -> Result<(), NoMemory>
    ensures { IfOk result (λ _. text.new.items ≡ text.old.items ++ item_line clients.now client item.now) }
{
    let TraceItem::Call {
        client: name,
        call,
        reply,
        ..
    } = item
    else {
        return Ok(());
    };
    if place_of(clients, name.bytes()) != client {
        return Ok(());
    }
    append_answered(alloc, text, name, call, reply)
}

// Puts the line of an item that is a call of this client.
fn put_item_line<T: Sink>(
    alloc: Global,
    sink: &mut T,
    held: &mut Vec<u8>,
    clients: &[Client],
    client: usize,
    item: &TraceItem,
) -> Result<(), PutFault>
    ensures bytes { PassesOn (T.contents sink.old) (T.contents sink.new) held.old.items held.new.items result (item_line clients.now client item.now) }
    ensures cause { PutHasCause (T.faults sink.old) (T.faults sink.new) result }
{
    match append_item_line(alloc, held, clients, client, item) {
        Ok(()) => pass_on(sink, held),
        Err(_) => Err(PutFault::NoMemory),
    }
}

// Puts the answered lines of a client.
fn put_answered_lines<T: Sink>(
    alloc: Global,
    sink: &mut T,
    held: &mut Vec<u8>,
    clients: &[Client],
    client: usize,
    items: &[TraceItem],
) -> Result<(), PutFault>
    ensures bytes { PassesOn (T.contents sink.old) (T.contents sink.new) held.old.items held.new.items result (answered_lines clients.now client items.now) }
    ensures cause { PutHasCause (T.faults sink.old) (T.faults sink.new) result }
{
    let mut rest = items;
    while let [item, behind @ ..] = rest {
        match put_item_line(alloc, sink, held, clients, client, item) {
            Ok(()) => rest = behind,
            Err(fault) => return Err(fault),
        }
    }
    Ok(())
}

// Puts the lines of a client: those that are answered, and, where they are told, those that are down.
fn put_client_lines<T: Sink>(
    alloc: Global,
    sink: &mut T,
    held: &mut Vec<u8>,
    script: &Script,
    items: &[TraceItem],
    place: usize,
    client: &Client,
    tells: bool,
) -> Result<(), PutFault>
    ensures bytes { PassesOn (T.contents sink.old) (T.contents sink.new) held.old.items held.new.items result
        (answered_lines script.now.clients place items.now ++ (if tells then flat_map (down_line client.now.name) (drop (answers script.now items.now place) (calls_by place script.now.lines)) else [])) }
    ensures cause { PutHasCause (T.faults sink.old) (T.faults sink.new) result }
{
    match put_answered_lines(alloc, sink, held, &script.clients, place, items) {
        Ok(()) => put_down_lines(alloc, sink, held, script, items, place, &client.name, tells),
        Err(fault) => Err(fault),
    }
}

// Puts the lines of all clients of a run of one node.
fn put_all_lines<T: Sink>(
    alloc: Global,
    sink: &mut T,
    held: &mut Vec<u8>,
    script: &Script,
    items: &[TraceItem],
    told: &Status,
) -> Result<(), PutFault>
    requires one { IsOfOneNode script.now items.now }
    ensures bytes { PassesOn (T.contents sink.old) (T.contents sink.new) held.old.items held.new.items result
        (all_lines script.now items.now told.now 0 script.now.clients) }
    ensures cause { PutHasCause (T.faults sink.old) (T.faults sink.new) result }
{
    let tells = tells_down(told, items);
    let mut place = 0;
    let mut rest = script.clients.as_slice();
    while let [client, behind @ ..] = rest {
        match put_client_lines(alloc, sink, held, script, items, place, client, tells) {
            Ok(()) => {}
            Err(fault) => return Err(fault),
        }
        place += 1;
        rest = behind;
    }
    Ok(())
}

// The line that an item gives, where so many blocks were written before it to put a journal home.
fn append_replayed(text: &mut Vec<u8>, written: u64, item: &TraceItem) -> Result<(), NoMemory>
    ensures { IfOk result (λ _. text.new.items ≡ text.old.items ++ line_of_replay written item.now) }
{
    let TraceItem::Recovered { node, .. } = item else {
        return Ok(());
    };
    append_one(text, b"replayed", u64::from(node.saturating_sub(1)))?;
    append_one(text, b" blocks", written.saturating_sub(1))?;
    append(text, b"\n")
}

// How many blocks were written to put a journal home, behind this item.
fn count_written(written: u64, item: &TraceItem) -> u64
    requires { written < 2 ^ 63 }
    ensures is { result ≡ written_behind written item.now }
    ensures most { result ≤ written + 1 }
{
    match item {
        TraceItem::WriteReplay { .. } => written + 1,
        TraceItem::Recovered { .. } => 0,
        _ => written,
    }
}

// Puts the line that an item gives, where so many blocks were written before it.
fn put_replayed<T: Sink>(
    sink: &mut T,
    held: &mut Vec<u8>,
    written: u64,
    item: &TraceItem,
) -> Result<(), PutFault>
    ensures bytes { PassesOn (T.contents sink.old) (T.contents sink.new) held.old.items held.new.items result (line_of_replay written item.now) }
    ensures cause { PutHasCause (T.faults sink.old) (T.faults sink.new) result }
{
    match append_replayed(held, written, item) {
        Ok(()) => pass_on(sink, held),
        Err(_) => Err(PutFault::NoMemory),
    }
}

// Puts the lines of the journals that were replayed.
fn put_replayed_lines<T: Sink>(
    sink: &mut T,
    held: &mut Vec<u8>,
    items: &[TraceItem],
) -> Result<(), PutFault>
    ensures bytes { PassesOn (T.contents sink.old) (T.contents sink.new) held.old.items held.new.items result (replayed_lines items.now) }
    ensures cause { PutHasCause (T.faults sink.old) (T.faults sink.new) result }
{
    let mut written = 0;
    let mut rest = items;
    while let [item, behind @ ..] = rest {
        match put_replayed(sink, held, written, item) {
            Ok(()) => {}
            Err(fault) => return Err(fault),
        }
        written = count_written(written, item);
        rest = behind;
    }
    Ok(())
}

// Puts what stands before the counts.
fn put_listing<T: Sink>(
    alloc: Global,
    sink: &mut T,
    held: &mut Vec<u8>,
    listing: Listing,
    script: &Script,
    items: &[TraceItem],
    told: &Status,
) -> Result<(), PutFault>
    requires one { IsOfOneNode script.now items.now }
    ensures bytes { PassesOn (T.contents sink.old) (T.contents sink.new) held.old.items held.new.items result (lines_of listing script.now items.now told.now) }
    ensures cause { PutHasCause (T.faults sink.old) (T.faults sink.new) result }
{
    match listing {
        Listing::Clients => put_all_lines(alloc, sink, held, script, items, told),
        Listing::Journals => put_replayed_lines(sink, held, items),
    }
}

// Puts the counts and the status at the end of what is held.
fn append_end(
    text: &mut Vec<u8>,
    script: &Script,
    items: &[TraceItem],
    told: &Status,
    dirty: u64,
) -> Result<(), NoMemory>
    ensures { IfOk result (λ _. text.new.items ≡ text.old.items ++ (counts_line script.now items.now dirty ++ status_lines script.now.clients told.now)) }
{
    append_counts(text, script, items, dirty)?;
    append_status(text, &script.clients, told)
}

// Puts the lines of a run or a replay that has items.
fn put_run<T: Sink>(
    alloc: Global,
    sink: &mut T,
    held: &mut Vec<u8>,
    listing: Listing,
    script: &Script,
    items: &[TraceItem],
    told: &Status,
    dirty: u64,
) -> Result<(), PutFault>
    requires one { IsOfOneNode script.now items.now }
    ensures bytes { PassesOn (T.contents sink.old) (T.contents sink.new) held.old.items held.new.items result
        (lines_of listing script.now items.now told.now ++ (counts_line script.now items.now dirty ++ status_lines script.now.clients told.now)) }
    ensures cause { PutHasCause (T.faults sink.old) (T.faults sink.new) result }
{
    match put_listing(alloc, sink, held, listing, script, items, told) {
        Ok(()) => {}
        Err(fault) => return Err(fault),
    }
    match append_end(held, script, items, told, dirty) {
        Ok(()) => Ok(()),
        Err(_) => Err(PutFault::NoMemory),
    }
}

// Puts the lines of a run; of one without items, the status alone.
fn put_lines<T: Sink>(
    alloc: Global,
    sink: &mut T,
    held: &mut Vec<u8>,
    listing: Listing,
    script: &Script,
    items: &[TraceItem],
    told: &Status,
    dirty: u64,
) -> Result<(), PutFault>
    requires one { IsOfOneNode script.now items.now }
    ensures bytes { PassesOn (T.contents sink.old) (T.contents sink.new) held.old.items held.new.items result
        (out_of listing script.now items.now told.now dirty) }
    ensures cause { PutHasCause (T.faults sink.old) (T.faults sink.new) result }
{
    if !items.is_empty() {
        return put_run(alloc, sink, held, listing, script, items, told, dirty);
    }
    match append_status(held, &script.clients, told) {
        Ok(()) => Ok(()),
        Err(_) => Err(PutFault::NoMemory),
    }
}

// The lines that are shown, which are held first.
fn held_lines(alloc: Global, lines: Vec<u8>, told: &Status) -> Vec<u8>
    ensures { result.items ≡ shown told.now lines.items }
{
    match told {
        Status::Done => lines,
        _ => Vec::new(alloc),
    }
}

/// Puts the lines that are shown, where all was done, and what a run prints for its clients, or a replay for its journals. It holds a chunk of
/// that, and goes over the items once for each client, once more where it tells its lines that are down, and a few times for the counts.
pub(crate) fn put_out<T: Sink>(
    alloc: Global,
    sink: &mut T,
    listing: Listing,
    script: &Script,
    items: &[TraceItem],
    lines: Vec<u8>,
    told: &Status,
    dirty: u64,
) -> Result<(), PutFault>
    requires one { IsOfOneNode script.now items.now }
    ensures all { OnOk result (Appends (T.contents sink.old) (T.contents sink.new) (shown told.now lines.items ++ out_of listing script.now items.now told.now (dirty_told script.now items.now told.now dirty))) }
    ensures front { AppendsPrefix (T.contents sink.old) (T.contents sink.new) (shown told.now lines.items ++ out_of listing script.now items.now told.now (dirty_told script.now items.now told.now dirty)) }
    ensures cause { PutHasCause (T.faults sink.old) (T.faults sink.new) result }
{
    let dirty = dirty_to_tell(script, items, told, dirty);
    let mut held = held_lines(alloc, lines, told);
    match put_lines(alloc, sink, &mut held, listing, script, items, told, dirty) {
        Ok(()) => put_held(sink, &mut held),
        Err(fault) => Err(fault),
    }
}
