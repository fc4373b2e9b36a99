ghost use Rattle.std.specs.Prelude.{◌≡◌, ◌++◌, [], OnOk, IfOk, codes};
ghost use Rattle.std.specs.Io.KnownBytes.{Appends};
ghost use Rattle.stream_io.specs.Streams.{AppendsPrefix};
ghost use Rattle.trace_text.specs.Text.{item_text, print};
ghost use Rattle.run_reports.specs.Streams.{PassesOn, PutHasCause};

use no_memory::NoMemory;
use std::alloc::Global;
use stream_io::{Sink, put_all};
use text_words::append;
use trace_text::{TraceItem, append_item};

/// Why not all was put: the sink failed, or there was no memory.
#[derive(Clone, Copy, Debug, PartialEq, Eq)]
pub(crate) enum PutFault {
    Failed,
    NoMemory,
}

// How many bytes are held, at least, before they go to the sink.
const CHUNK: usize = 65_536;

/// Puts all that is held.
pub(crate) fn put_held<T: Sink>(sink: &mut T, held: &mut Vec<u8>) -> Result<(), PutFault>
    ensures bytes { PassesOn (T.contents sink.old) (T.contents sink.new) held.old.items held.new.items result [] }
    ensures none { OnOk result (held.new.items ≡ []) }
    ensures cause { PutHasCause (T.faults sink.old) (T.faults sink.new) result }
{
    match put_all(sink, held.as_slice()) {
        Ok(()) => {
            held.clear();
            Ok(())
        }
        Err(_) => Err(PutFault::Failed),
    }
}

/// Puts what is held, once that is a chunk.
pub(crate) fn pass_on<T: Sink>(sink: &mut T, held: &mut Vec<u8>) -> Result<(), PutFault>
    ensures bytes { PassesOn (T.contents sink.old) (T.contents sink.new) held.old.items held.new.items result [] }
    ensures cause { PutHasCause (T.faults sink.old) (T.faults sink.new) result }
{
    if held.len() < CHUNK {
        return Ok(());
    }
    put_held(sink, held)
}

// Puts an item and a newline behind what is held.
fn append_trace_line(alloc: Global, held: &mut Vec<u8>, item: &TraceItem) -> Result<(), NoMemory>
    ensures { IfOk result (λ _. held.new.items ≡ held.old.items ++ (item_text item.now ++ codes "\n")) }
{
    append_item(alloc, held, item)?;
    append(held, b"\n")
}

// Puts the line of an item.
fn put_trace_line<T: Sink>(
    alloc: Global,
    sink: &mut T,
    held: &mut Vec<u8>,
    item: &TraceItem,
) -> Result<(), PutFault>
    ensures bytes { PassesOn (T.contents sink.old) (T.contents sink.new) held.old.items held.new.items result (item_text item.now ++ codes "\n") }
    ensures cause { PutHasCause (T.faults sink.old) (T.faults sink.new) result }
{
    match append_trace_line(alloc, held, item) {
        Ok(()) => pass_on(sink, held),
        Err(_) => Err(PutFault::NoMemory),
    }
}

/// Puts the text of a trace. It holds a chunk of it, and no more.
pub(crate) fn put_trace<T: Sink>(
    alloc: Global,
    sink: &mut T,
    items: &[TraceItem],
) -> Result<(), PutFault>
    ensures all { OnOk result (Appends (T.contents sink.old) (T.contents sink.new) (print items.now)) }
    ensures front { AppendsPrefix (T.contents sink.old) (T.contents sink.new) (print items.now) }
    ensures cause { PutHasCause (T.faults sink.old) (T.faults sink.new) result }
{
    let mut held = Vec::new(alloc);
    let mut rest = items;
    while let [item, behind @ ..] = rest {
        match put_trace_line(alloc, sink, &mut held, item) {
            Ok(()) => rest = behind,
            Err(fault) => return Err(fault),
        }
    }
    put_held(sink, &mut held)
}
