// A node begins.
ghost use Rattle.std.specs.Prelude.{◌≡◌, ◌<◌, ◌≤◌, false, IfOk};
ghost use Rattle.log_memory.specs.Journals.{journal_in};
ghost use Rattle.log_values.specs.Laws.{IsJournal, empty_log};
ghost use Rattle.lone_view.specs.Seeing.{Lone};
ghost use Rattle.shared_disk.specs.Disk.{DiskState};
ghost use Rattle.logged_node.specs.Beginning.{MayBeginOn, no_calls};
ghost use Rattle.logged_node.specs.Nodes.{Awaits, IsResting};

use crate::node::{CallNumbers, Node};
use log_memory::{Journal, Log};
use lone_view::LoneView;
use no_memory::NoMemory;
use std::alloc::Global;
use trace_text::TraceItem;

/// Node 1 as it begins, with what it keeps, a journal whose last header is at this place, of this sequence, and a clean one, and the items so far; it has answered no call.
/// Where it is to crash at a write, `armed` tells how many it makes until then, that one among them. Takes the memory of the log, and that of a block.
pub fn begin_node(
    alloc: Global,
    view: LoneView,
    journal: Journal,
    head: u32,
    sequence: u64,
    items: Vec<TraceItem>,
    armed: Option<u64>,
) -> Result<Node, NoMemory>
    requires journal { IsJournal (journal_in journal) }
    requires frames { 1 ≤ journal.frames }
    requires head { head < journal.length }
    requires armed { Awaits armed }
    ensures view { IfOk result (λ n. n.view ≡ view) }
    ensures log { IfOk result (λ n. n.log ≡ empty_log (journal_in journal) head sequence) }
    ensures numbers { IfOk result (λ n. n.numbers ≡ no_calls) }
    ensures items { IfOk result (λ n. n.items.items ≡ items.items) }
    ensures mounted { IfOk result (λ n. n.unmounts ≡ false) }
    ensures armed { IfOk result (λ n. n.armed ≡ armed) }
    ensures resting { IfOk result (λ n. (d : DiskState) → MayBeginOn d view (journal_in journal) → IsResting d n) }
{
    let block = vec![in alloc; 0u8; journal.block_size as usize]?;
    let log = Log::new(alloc, journal, head, sequence)?;
    let numbers = CallNumbers {
        answered: 0,
        changed: 0,
        low: 0,
        begun: 0,
    };
    Ok(Node {
        view,
        log,
        numbers,
        items,
        block,
        unmounts: false,
        flying: 0,
        armed,
    })
}
