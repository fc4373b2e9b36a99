ghost use Rattle.std.specs.Prelude.{◌≡◌, ◌++◌, ◌≤◌, ◌↔◌, IsTrue};
ghost use Rattle.trace_text.specs.Text.{print};
ghost use Rattle.run_reports.specs.Out.{out_of};
ghost use Rattle.run_reports.specs.Dirty.{dirty_told};
ghost use Rattle.run_reports.specs.OneNode.{IsOfOneNode};
ghost use Rattle.run_reports.specs.Outputs.{outputs};
ghost use Rattle.run_reports.specs.Report.{shown, IsSinkFault, IsExcused, Puts, Becomes, Reports};

use crate::output::{Listing, put_out};
use crate::status::{Status, WhichSink};
use crate::streams::{PutFault, put_trace};
use script_lang::Script;
use std::alloc::Global;
use stream_io::Sink;
use trace_text::TraceItem;

// Writes the trace, and says how the command ended once it is written.
fn report_trace<T: Sink>(alloc: Global, trace: &mut T, items: &[TraceItem], own: Status) -> Status
    ensures puts { Puts (T.contents trace.old) (T.contents trace.new) (print items.now) (IsExcused (T.faults trace.old) (T.faults trace.new) result) }
    ensures becomes { (IsSinkFault own → ⊥) → Becomes WhichSink.Trace (T.faults trace.old) (T.faults trace.new) own result }
    ensures later { T.faults trace.old ≤ T.faults trace.new }
{
    let before = trace.faults();
    match put_trace(alloc, trace, items) {
        Ok(()) => own,
        Err(PutFault::NoMemory) => Status::NoMemory,
        Err(PutFault::Failed) => Status::SinkFault {
            which: WhichSink::Trace,
            before,
            after: trace.faults(),
        },
    }
}

fn is_sink_fault(status: &Status) -> bool
    ensures { IsTrue result ↔ IsSinkFault status.now }
{
    matches!(status, Status::SinkFault { .. })
}

// Writes the output, and says how the command ended once it is written. A fault of the trace stays what is told.
fn report_out<T: Sink>(
    alloc: Global,
    sink: &mut T,
    listing: Listing,
    script: &Script,
    items: &[TraceItem],
    lines: Vec<u8>,
    told: Status,
    dirty: u64,
) -> Status
    requires one { IsOfOneNode script.now items.now }
    ensures puts { Puts (T.contents sink.old) (T.contents sink.new) (shown told lines.items ++ out_of listing script.now items.now told (dirty_told script.now items.now told dirty)) (IsExcused (T.faults sink.old) (T.faults sink.new) result) }
    ensures becomes { Becomes WhichSink.Out (T.faults sink.old) (T.faults sink.new) told result }
    ensures later { T.faults sink.old ≤ T.faults sink.new }
{
    let before = sink.faults();
    match put_out(alloc, sink, listing, script, items, lines, &told, dirty) {
        Ok(()) => told,
        Err(PutFault::NoMemory) => Status::NoMemory,
        Err(PutFault::Failed) => {
            if is_sink_fault(&told) {
                return told;
            }
            Status::SinkFault {
                which: WhichSink::Out,
                before,
                after: sink.faults(),
            }
        }
    }
}

/// Writes the trace of a run of one node and what the command prints, and says how the command ended once they are written. `own` is how it ended
/// before, and `dirty` how many journals the image has that aren't clean, which is told where all was done. Neither text is held: a chunk of it goes out
/// at a time. It goes over the items once for the trace, once for each client, once more, and over the lines of the script, for each client whose lines that are down are told, and once for
/// each of the counts, with a table of 2 KiB for the calls that were lost.
pub fn report<T: Sink, O: Sink>(
    alloc: Global,
    trace: &mut T,
    out: &mut O,
    listing: Listing,
    script: &Script,
    items: &[TraceItem],
    lines: Vec<u8>,
    own: Status,
    dirty: u64,
) -> Status
    requires own { IsSinkFault own → ⊥ }
    requires one { IsOfOneNode script.now items.now }
    ensures reports { Reports
        (outputs (T.contents trace.old) (T.faults trace.old) (O.contents out.old) (O.faults out.old))
        (outputs (T.contents trace.new) (T.faults trace.new) (O.contents out.new) (O.faults out.new))
        listing script.now items.now lines.items dirty own result }
    ensures later { (T.faults trace.old ≤ T.faults trace.new) × (O.faults out.old ≤ O.faults out.new) }
{
    let told = report_trace(alloc, trace, items, own);
    report_out(alloc, out, listing, script, items, lines, told, dirty)
}
