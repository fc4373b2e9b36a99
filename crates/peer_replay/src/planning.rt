ghost use Rattle.std.specs.List.Sorted.{IsStrictlyIncreasing};
ghost use Rattle.std.specs.Prelude.{◌≡◌, ℕ, map, Ok, Some, IfOk, IfErr};
ghost use Rattle.log_layout.specs.Journal.{head_in};
ghost use Rattle.log_layout.specs.Live.{live_entry};
ghost use Rattle.log_layout.specs.Transactions.{transactions_of};
ghost use Rattle.log_layout.specs.declared.log_header.LogHeader.{LogHeader as LogHeaderValue};
ghost use Rattle.log_layout.specs.Transactions.{Sequenced as Told};
ghost use Rattle.drafts.specs.declared.change.Written.{Written as WrittenValue};
ghost use Rattle.std.specs.Prelude.{List};
ghost use Rattle.journal_scan.specs.Images.{IsImage, ring_of};
ghost use Rattle.peer_replay.specs.Plans.{IsWhyNot, clean_header as clean_header_of, put_home};
ghost use Rattle.std.specs.Prelude.{◌<◌};
ghost use Rattle.log_layout.specs.Live.{IsReadable};

use crate::homes::gather_home;
use crate::planned::Plan;
use journal_scan::{JournalImage, ScanFault, find_head, transactions};
use log_layout::{LogHeader, heads_are_accepted, next_place};
use std::alloc::Global;

/// What a replay does with a journal. It reads the journal once, and takes memory for what stands between tail and head.
pub fn plan(alloc: Global, j: &JournalImage) -> Result<Plan, ScanFault>
    requires { IsImage j.now }
    ensures rising { IfOk result (λ p. IsStrictlyIncreasing (map (λ (w : WrittenValue). w.block) p.home.items)) }
    ensures live { IfOk result (λ p. (head : LogHeaderValue) (ts : List Told) → head_in (ring_of j.now) ≡ Some head → transactions_of (ring_of j.now) head ≡ Ok ts
        → (b : ℕ) → put_home p.home.items b ≡ live_entry ts b) }
    ensures clean { IfOk result (λ p. (head : LogHeaderValue) × (head_in (ring_of j.now) ≡ Some head) × (p.clean ≡ clean_header_of j.now.length head)) }
    ensures read { IfOk result (λ _. IsReadable (ring_of j.now)) }
    ensures why { IfErr result (IsWhyNot (ring_of j.now)) }
{
    heads_are_accepted();
    let head = find_head(j)?;
    let transactions = transactions(alloc, j, &head)?;
    let home = gather_home(alloc, transactions)?;
    Ok(Plan {
        home,
        clean: clean_header(j.length, &head),
    })
}

// The header that a replay leaves.
fn clean_header(places: u32, head: &LogHeader) -> Option<LogHeader>
    requires { head.now.blkno < places }
    ensures { result ≡ clean_header_of places head.now }
{
    if head.clean {
        return None;
    }
    let place = next_place(places, head.blkno);
    Some(LogHeader {
        jid: head.jid,
        sequence: head.sequence.wrapping_add(1),
        clean: true,
        tail: place,
        blkno: place,
        later: None,
    })
}
