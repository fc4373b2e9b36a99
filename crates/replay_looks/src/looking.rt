// A journal's plan, and whether all that it writes may be written.
ghost use Rattle.std.specs.Prelude.{◌≡◌, ◌^◌, ◌<◌, ◌≤◌, ℕ, List, Some, IsTrue, IfOk, IfErr, IfSome, false, if◌then◌else◌, length, map};
ghost use Rattle.std.specs.List.{All, AllByRecursion};
ghost use Rattle.std.specs.List.Sorted.{IsStrictlyIncreasing};
ghost use Rattle.drafts.specs.declared.change.Written.{Written as WrittenValue};
ghost use Rattle.gfs2_layout.specs.Device.{IsBlockSize};
ghost use Rattle.journal_plans.specs.Plans.{IsPlanOf};
ghost use Rattle.journal_reads.specs.Reading.{ring_read};
ghost use Rattle.log_layout.specs.Live.{IsReadable, live_in};
ghost use Rattle.log_layout.specs.declared.log_header.LogHeader.{LogHeader as LogHeaderValue};
ghost use Rattle.replay_looks.specs.Looks.{HasCause, IsHindered, IsStopped};
ghost use Rattle.replay_marks.specs.Marking.{has_block, mark_of};
ghost use Rattle.replay_marks.specs.declared.marks.Mark.TheVariants as variant;
ghost use Rattle.shared_disk.specs.Disk.{ReadsOnly};

use crate::LookFault;
use crate::faults::told;
use journal_plans::{Plan, read_number, read_plan};
use replay_marks::{Hindrance, Marks};
use shared_disk::SharedDisk;
use std::alloc::Global;

// The fault at a live block that may not be written: its number stands in a block of the journal.
fn astray<D: SharedDisk>(
    alloc: Global,
    disk: &mut D,
    node: u8,
    dinode: u64,
    blocks: &[u64],
    number: u64,
) -> LookFault
    requires node { node ≤ 8 }
    requires open { (D.state disk.old).is_fenced node ≡ false }
    requires inside { All (λ b. b < (D.state disk.old).count) blocks.now }
    requires few { length blocks.now < 2 ^ 32 }
    requires size { IsBlockSize (D.state disk.old).size }
    ensures why { IsTrue (D.state disk.old).tells → IsReadable (ring_read (D.state disk.old) node blocks.now) → (bytes : List ℕ) → live_in (ring_read (D.state disk.old) node blocks.now) number ≡ Some bytes
        → IsHindered (ring_read (D.state disk.old) node blocks.now) dinode blocks.now number result }
    ensures reads { ReadsOnly (D.state disk.old) (D.state disk.new) (D.list disk.old) (D.list disk.new) (D.faults disk.old) (D.faults disk.new) }
    ensures cause { HasCause blocks.now (D.faults disk.old node) (D.faults disk.new node) result }
{
    match read_number(alloc, disk, node, blocks, number) {
        Ok(place) => LookFault::Damaged {
            block: blocks[place as usize],
            rule: 2,
        },
        Err(fault) => told(fault, dinode, blocks),
    }
}

/// What a replay does with a journal on a disk, given the block of its dinode and the block at each of its places, as a node sees the disk; and the
/// blocks that it writes are marked as live. It only reads: each place once, into memory, and twice where a live block may not be written.
pub fn look_at_journal<D: SharedDisk>(
    alloc: Global,
    disk: &mut D,
    node: u8,
    dinode: u64,
    blocks: &[u64],
    marks: &mut Marks,
) -> Result<Plan, LookFault>
    requires node { node ≤ 8 }
    requires open { (D.state disk.old).is_fenced node ≡ false }
    requires inside { All (λ b. b < (D.state disk.old).count) blocks.now }
    requires few { length blocks.now < 2 ^ 32 }
    requires size { IsBlockSize (D.state disk.old).size }
    ensures rising { IfOk result (λ p. IsStrictlyIncreasing (map (λ (w : WrittenValue). w.block) p.home.items)) }
    ensures whole { IfOk result (λ p. AllByRecursion (λ (w : WrittenValue). length w.bytes ≡ (D.state disk.old).size) p.home.items) }
    ensures free { IfOk result (λ p. AllByRecursion (λ (w : WrittenValue). (w.block < length marks.old) × (mark_of marks.old w.block ≡ variant.Open)) p.home.items) }
    ensures place { IfOk result (λ p. IfSome p.clean (λ (h : LogHeaderValue). h.blkno < length blocks.now)) }
    ensures plan { IfOk result (λ p. IsTrue (D.state disk.old).tells → IsPlanOf (ring_read (D.state disk.old) node blocks.now) p) }
    ensures length { length marks.new ≡ length marks.old }
    ensures marks { IfOk result (λ p. (block : ℕ) → mark_of marks.new block ≡ (if has_block p.home.items block then variant.Live else mark_of marks.old block)) }
    ensures why { IfErr result (λ fault. IsTrue (D.state disk.old).tells → IsStopped (ring_read (D.state disk.old) node blocks.now) dinode blocks.now marks.old fault) }
    ensures reads { ReadsOnly (D.state disk.old) (D.state disk.new) (D.list disk.old) (D.list disk.new) (D.faults disk.old) (D.faults disk.new) }
    ensures cause { IfErr result (HasCause blocks.now (D.faults disk.old node) (D.faults disk.new node)) }
{
    let planned = match read_plan(alloc, disk, node, blocks) {
        Ok(planned) => planned,
        Err(fault) => return Err(told(fault, dinode, blocks)),
    };
    match marks.take(&planned.home) {
        Ok(()) => Ok(planned),
        Err(Hindrance::Twice(block)) => Err(LookFault::Damaged { block, rule: 20 }),
        Err(Hindrance::Astray(block)) => Err(astray(alloc, disk, node, dinode, blocks, block)),
    }
}
