// Where the number of a live block stands in a journal on a disk.
ghost use Rattle.std.specs.Prelude.{◌≡◌, ◌^◌, ◌<◌, ◌≤◌, ℕ, IsTrue, IfOk, IfErr, false, length, List, Some};
ghost use Rattle.std.specs.List.{All};
ghost use Rattle.gfs2_layout.specs.Device.{IsBlockSize};
ghost use Rattle.journal_plans.specs.Plans.{HasCause, IfBadChunk, IsWhyNot};
ghost use Rattle.journal_reads.specs.Reading.{ring_read};
ghost use Rattle.journal_scan.specs.Numbers.{IsNumberAt};
ghost use Rattle.log_layout.specs.Live.{IsReadable, live_in};
ghost use Rattle.shared_disk.specs.Disk.{ReadsOnly};

use crate::PlanFault;
use crate::faults::of_read;
use journal_reads::read_journal;
use journal_scan::{find_head, find_number, live_blocks_have_numbers};
use shared_disk::SharedDisk;
use std::alloc::Global;

/// The place of a journal at which the number of a block stands that is live in it: its entry's descriptor. The journal is read anew, as
/// `read_plan` reads it, at the same cost.
pub fn read_number<D: SharedDisk>(
    alloc: Global,
    disk: &mut D,
    node: u8,
    blocks: &[u64],
    number: u64,
) -> Result<u32, PlanFault>
    requires node { node ≤ 8 }
    requires open { (D.state disk.old).is_fenced node ≡ false }
    requires inside { All (λ b. b < (D.state disk.old).count) blocks.now }
    requires few { length blocks.now < 2 ^ 32 }
    requires size { IsBlockSize (D.state disk.old).size }
    ensures place { IfOk result (λ place. place < length blocks.now) }
    ensures number { IfOk result (λ place. IsTrue (D.state disk.old).tells → IsReadable (ring_read (D.state disk.old) node blocks.now)
        → (bytes : List ℕ) → live_in (ring_read (D.state disk.old) node blocks.now) number ≡ Some bytes → IsNumberAt (ring_read (D.state disk.old) node blocks.now) number place) }
    ensures inside { IfErr result (IfBadChunk (λ place. place < length blocks.now)) }
    ensures why { IfErr result (λ fault. IsTrue (D.state disk.old).tells → IsReadable (ring_read (D.state disk.old) node blocks.now)
        → (bytes : List ℕ) → live_in (ring_read (D.state disk.old) node blocks.now) number ≡ Some bytes → IsWhyNot (ring_read (D.state disk.old) node blocks.now) fault) }
    ensures reads { ReadsOnly (D.state disk.old) (D.state disk.new) (D.list disk.old) (D.list disk.new) (D.faults disk.old) (D.faults disk.new) }
    ensures cause { IfErr result (HasCause blocks.now (D.faults disk.old node) (D.faults disk.new node)) }
{
    live_blocks_have_numbers();
    let journal = match read_journal(alloc, disk, node, blocks) {
        Ok(journal) => journal,
        Err(fault) => return Err(of_read(fault)),
    };
    let Ok(head) = find_head(&journal) else {
        return Err(PlanFault::NoHeader);
    };
    if head.tail >= journal.length {
        return Err(PlanFault::NoHeader);
    }
    let Some(place) = find_number(&journal, &head, number) else {
        return Err(PlanFault::NoHeader);
    };
    if place >= journal.length {
        return Err(PlanFault::NoHeader);
    }
    Ok(place)
}
