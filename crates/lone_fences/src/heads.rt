// The head of a journal, read by the run.
ghost use Rattle.std.specs.Prelude.{◌≡◌, ◌<◌, ◌^◌, IfOk, IfErr, IsTrue, false, length};
ghost use Rattle.std.specs.List.{All};
ghost use Rattle.gfs2_layout.specs.Device.{IsBlockSize};
ghost use Rattle.journal_reads.specs.Reading.{HasCause};
ghost use Rattle.journal_scan.specs.Images.{IsImage, ring_of};
ghost use Rattle.log_layout.specs.Journal.{head_in};
ghost use Rattle.lost_calls.specs.Heads.{accepted};
ghost use Rattle.shared_disk.specs.Disk.{ReadsOnly};
ghost use Rattle.lone_fences.specs.Heads.{accepted_as, head_on};

use journal_reads::{ReadFault, read_journal};
use journal_scan::{JournalImage, find_head};
use log_layout::{heads_are_accepted, places_say_all};
use lost_calls::LeftHead;
use shared_disk::SharedDisk;
use std::alloc::Global;

// The accepted head of a journal in memory, which has these blocks at its places.
fn placed_head(journal: &JournalImage, blocks: &[u64]) -> LeftHead
    requires image { IsImage journal.now }
    requires long { journal.now.length ≡ length blocks.now }
    ensures { accepted result ≡ accepted_as blocks.now (head_in (ring_of journal.now)) }
{
    heads_are_accepted();
    match find_head(journal) {
        Ok(head) => LeftHead {
            block: blocks[head.blkno as usize],
            sequence: head.sequence,
            is_clean: head.clean,
        },
        Err(_) => LeftHead {
            block: 0,
            sequence: 0,
            is_clean: false,
        },
    }
}

/// The accepted head of the journal with these blocks at its places, as the run reads it, which has no write in flight; where there is none, one that is older than any. It costs a read for
/// each place, and memory for all of them.
pub fn left_head<D: SharedDisk>(
    alloc: Global,
    disk: &mut D,
    blocks: &[u64],
) -> Result<LeftHead, ReadFault>
    requires size { IsBlockSize (D.state disk.old).size }
    requires free { (D.state disk.old).is_fenced 0 ≡ false }
    requires inside { All (λ b. b < (D.state disk.old).count) blocks.now }
    requires few { length blocks.now < 2 ^ 32 }
    ensures head { IfOk result (λ head. IsTrue (D.state disk.old).tells → accepted head ≡ head_on (D.state disk.old) blocks.now) }
    ensures reads { ReadsOnly (D.state disk.old) (D.state disk.new) (D.list disk.old) (D.list disk.new) (D.faults disk.old) (D.faults disk.new) }
    ensures cause { IfErr result (HasCause blocks.now (D.faults disk.old 0) (D.faults disk.new 0)) }
{
    places_say_all();
    let journal = read_journal(alloc, disk, 0, blocks)?;
    Ok(placed_head(&journal, blocks))
}
