// The plans of journals that were found.
ghost use Rattle.std.specs.Prelude.{◌≡◌, ◌<◌, ◌≤◌, ◌^◌, ℕ, IsTrue, IfOk, IfErr, true, if◌then◌else◌, length};
ghost use Rattle.std.specs.List.{All, AllByRecursion, list_all};
ghost use Rattle.gfs2_layout.specs.Device.{IsBlockSize};
ghost use Rattle.image_journals.specs.Found.{AreJournals};
ghost use Rattle.image_model.specs.Image.{image_of};
ghost use Rattle.image_model.specs.Replays.{HasItsJournals, Replayed};
ghost use Rattle.image_model.specs.Stands.{Layout};
ghost use Rattle.image_replays.specs.Replays.{IfDamaged, IsWritable, put_over};
ghost use Rattle.journal_plans.specs.Plans.{IsPlanOf};
ghost use Rattle.journal_reads.specs.Reading.{ring_read};
ghost use Rattle.replay_looks.specs.Looks.{IsStopped};
ghost use Rattle.replay_marks.specs.Marking.{has_block, mark_of};
ghost use Rattle.replay_marks.specs.declared.marks.Mark.TheVariants as variant;
ghost use Rattle.shared_disk.specs.Disk.{IsIdle, ReadsOnly};
ghost use Rattle.replayed_trees.specs.Answers.{HasCause, IsToldByPlans};
ghost use Rattle.replayed_trees.specs.Marking.{AreMarked};
ghost use Rattle.replayed_trees.specs.Planning.{AreInside, ArePlansOf, StopsReplay, are_below, is_inside};

use image_journals::JournalPlaces;
use replay_looks::{LookFault, Plan, look_at_journal};
use replay_marks::Marks;
use shared_disk::SharedDisk;
use std::alloc::Global;

// Whether these are blocks of a device of so many.
fn are_blocks(blocks: &[u64], count: u64) -> bool
    ensures { result ≡ are_below count blocks.now }
{
    blocks.iter().all(|block| *block < count)
}

// So it is with a journal's dinode and places.
fn is_journal_inside(journal: &JournalPlaces, count: u64) -> bool
    ensures { result ≡ is_inside count journal.now }
{
    journal.dinode < count && are_blocks(&journal.blocks, count)
}

/// And with those of all these journals.
pub(crate) fn are_journals_inside(journals: &[JournalPlaces], count: u64) -> bool
    ensures { result ≡ list_all (is_inside count) journals.now }
{
    journals
        .iter()
        .all(|journal| is_journal_inside(journal, count))
}

// The plan of a journal, and the blocks that it writes are marked as live. A journal of 2^32 places and more, which the numbers in its headers can't tell, is not read: there is no
// room.
fn plan_journal<D: SharedDisk>(
    alloc: Global,
    disk: &mut D,
    dinode: u64,
    blocks: &[u64],
    marks: &mut Marks,
) -> Result<Plan, LookFault>
    requires idle { IsIdle (D.state disk.old) }
    requires size { IsBlockSize (D.state disk.old).size }
    requires marks { length marks.old ≡ (D.state disk.old).count }
    requires inside { All (λ b. b < (D.state disk.old).count) blocks.now }
    ensures writable { IfOk result (IsWritable (D.state disk.old)) }
    ensures plan { IfOk result (λ p. IsTrue (D.state disk.old).tells → IsPlanOf (ring_read (D.state disk.old) 0 blocks.now) p) }
    ensures free { IfOk result (λ p. (block : ℕ) → has_block p.home.items block ≡ true → (block < (D.state disk.old).count) × (mark_of marks.old block ≡ variant.Open)) }
    ensures length { length marks.new ≡ length marks.old }
    ensures marks { IfOk result (λ p. (block : ℕ) → mark_of marks.new block ≡ (if has_block p.home.items block then variant.Live else mark_of marks.old block)) }
    ensures why { IfErr result (λ fault. IsTrue (D.state disk.old).tells → IsStopped (ring_read (D.state disk.old) 0 blocks.now) dinode blocks.now marks.old fault) }
    ensures reads { ReadsOnly (D.state disk.old) (D.state disk.new) (D.list disk.old) (D.list disk.new) (D.faults disk.old) (D.faults disk.new) }
    ensures cause { IfErr result (HasCause (D.faults disk.old 0) (D.faults disk.new 0)) }
{
    if blocks.len() >= 1usize << 32 {
        return Err(LookFault::NoMemory);
    }
    look_at_journal(alloc, disk, 0, dinode, blocks, marks)
}

/// What a replay of these journals puts home on an idle disk, journal by journal; or a block, with its rule, by which it is stopped. What it may write is marked. Nothing is written. A read for each
/// place of the journals, and memory for the blocks of one of them and for the plans of all.
pub(crate) fn plan_journals<D: SharedDisk>(
    alloc: Global,
    disk: &mut D,
    journals: &[JournalPlaces],
    mut marks: Marks,
) -> Result<Vec<Plan>, LookFault>
    requires idle { IsIdle (D.state disk.old) }
    requires size { IsBlockSize (D.state disk.old).size }
    requires marks { length marks ≡ (D.state disk.old).count }
    requires inside { AreInside (D.state disk.old).count journals.now }
    requires fresh { (block : ℕ) → mark_of marks block ≡ variant.Live → ⊥ }
    ensures writable { IfOk result (λ plans. AllByRecursion (IsWritable (D.state disk.old)) plans.items) }
    // Of an image with these journals, where the marks are right, the image with all that they write in its place is the replayed one: so it can be replayed.
    ensures plans { IfOk result (λ plans. IsTrue (D.state disk.old).tells → (l : Layout) → HasItsJournals (image_of (D.state disk.old)) l → AreJournals (image_of (D.state disk.old)) l journals.now → AreMarked (image_of (D.state disk.old)) l marks
        → Replayed (image_of (D.state disk.old)) l (put_over (image_of (D.state disk.old)) plans.items)) }
    // And what stops it is so.
    ensures stopped { IfErr result (λ fault. IsTrue (D.state disk.old).tells → (l : Layout) → HasItsJournals (image_of (D.state disk.old)) l → AreJournals (image_of (D.state disk.old)) l journals.now → AreMarked (image_of (D.state disk.old)) l marks
        → IfDamaged fault (λ block rule. StopsReplay (image_of (D.state disk.old)) l rule block × (block < (D.state disk.old).count))) }
    // Of any image they are the plans of these journals, by what it has at their places; and what stops it does so of some journals.
    ensures made { IfOk result (λ plans. IsTrue (D.state disk.old).tells → ArePlansOf (image_of (D.state disk.old)) journals.now plans.items × (length plans.items ≡ length journals.now)) }
    ensures next { IfErr result (λ fault. IsTrue (D.state disk.old).tells → IfDamaged fault (IsToldByPlans (image_of (D.state disk.old)))) }
    ensures reads { ReadsOnly (D.state disk.old) (D.state disk.new) (D.list disk.old) (D.list disk.new) (D.faults disk.old) (D.faults disk.new) }
    ensures cause { IfErr result (HasCause (D.faults disk.old 0) (D.faults disk.new 0)) }
{
    let mut plans = Vec::new(alloc);
    for journal in journals {
        let plan = match plan_journal(alloc, disk, journal.dinode, &journal.blocks, &mut marks) {
            Ok(plan) => plan,
            Err(fault) => return Err(fault),
        };
        match plans.push(plan) {
            Ok(()) => {}
            Err(_) => return Err(LookFault::NoMemory),
        }
    }
    Ok(plans)
}
