// A journal on a disk, and its plan.
ghost use Rattle.std.specs.Prelude.{◌≡◌, ◌^◌, ◌<◌, ◌≤◌, IsTrue, IfOk, IfErr, IfSome, false, length, map};
ghost use Rattle.std.specs.List.{All, AllByRecursion};
ghost use Rattle.std.specs.List.Sorted.{IsStrictlyIncreasing};
ghost use Rattle.drafts.specs.declared.change.Written.{Written as WrittenValue};
ghost use Rattle.gfs2_layout.specs.Device.{IsBlockSize};
ghost use Rattle.journal_plans.specs.Plans.{HasCause, IfBadChunk, IsPlanOf, IsWhyNot};
ghost use Rattle.journal_reads.specs.Reading.{ring_read};
ghost use Rattle.log_layout.specs.declared.log_header.LogHeader.{LogHeader as LogHeaderValue};
ghost use Rattle.shared_disk.specs.Disk.{ReadsOnly};

use crate::PlanFault;
use crate::faults::{of_read, of_scan};
use journal_reads::read_journal;
use log_layout::heads_are_accepted;
use peer_replay::{Plan, plan};
use shared_disk::SharedDisk;
use std::alloc::Global;

/// What a replay does with a journal on a disk, given the block at each of its places, as a node sees the disk. It only reads: each place once, into memory.
/// It takes memory for all of them, and besides what `plan` takes.
pub fn read_plan<D: SharedDisk>(
    alloc: Global,
    disk: &mut D,
    node: u8,
    blocks: &[u64],
) -> Result<Plan, PlanFault>
    requires node { node ≤ 8 }
    requires open { (D.state disk.old).is_fenced node ≡ false }
    requires inside { All (λ b. b < (D.state disk.old).count) blocks.now }
    requires few { length blocks.now < 2 ^ 32 }
    requires size { IsBlockSize (D.state disk.old).size }
    ensures rising { IfOk result (λ p. IsStrictlyIncreasing (map (λ (w : WrittenValue). w.block) p.home.items)) }
    ensures whole { IfOk result (λ p. AllByRecursion (λ (w : WrittenValue). length w.bytes ≡ (D.state disk.old).size) p.home.items) }
    ensures place { IfOk result (λ p. IfSome p.clean (λ (h : LogHeaderValue). h.blkno < length blocks.now)) }
    ensures plan { IfOk result (λ p. IsTrue (D.state disk.old).tells → IsPlanOf (ring_read (D.state disk.old) node blocks.now) p) }
    ensures inside { IfErr result (IfBadChunk (λ place. place < length blocks.now)) }
    ensures why { IfErr result (λ fault. IsTrue (D.state disk.old).tells → IsWhyNot (ring_read (D.state disk.old) node blocks.now) fault) }
    ensures reads { ReadsOnly (D.state disk.old) (D.state disk.new) (D.list disk.old) (D.list disk.new) (D.faults disk.old) (D.faults disk.new) }
    ensures cause { IfErr result (HasCause blocks.now (D.faults disk.old node) (D.faults disk.new node)) }
{
    heads_are_accepted();
    let journal = match read_journal(alloc, disk, node, blocks) {
        Ok(journal) => journal,
        Err(fault) => return Err(of_read(fault)),
    };
    match plan(alloc, &journal) {
        Ok(planned) => Ok(planned),
        Err(fault) => Err(of_scan(fault)),
    }
}
