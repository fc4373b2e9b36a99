// The plans of all journals.
ghost use Rattle.std.specs.Prelude.{◌≡◌, ◌<◌, ◌≤◌, ◌^◌, ℕ, IsTrue, IfOk, IfErr, IfSome, Some, true, false, if◌then◌else◌, [], ◌∷◌, length, nat_lt};
ghost use Rattle.std.specs.List.{All, AllByRecursion, list_all};
ghost use Rattle.gfs2_layout.specs.Device.{IsBlockSize};
ghost use Rattle.image_model.specs.Image.{image_of};
ghost use Rattle.image_mount.specs.Mounted.{IsMounted};
ghost use Rattle.image_replays.specs.Replays.{ArePlans, HasCause, HasPlace, HavePlaces, IfDamaged, IsWritable, Stops};
ghost use Rattle.journal_plans.specs.Plans.{IsPlanOf};
ghost use Rattle.journal_reads.specs.Reading.{ring_read};
ghost use Rattle.log_layout.specs.Journal.{head_in};
ghost use Rattle.replay_looks.specs.Looks.{IsStopped};
ghost use Rattle.replay_marks.specs.Marking.{has_block, mark_of};
ghost use Rattle.replay_marks.specs.declared.marks.Mark.TheVariants as variant;
ghost use Rattle.shared_disk.specs.Disk.{IsIdle, ReadsOnly};

use crate::marking::first_marks;
use image_mount::{JournalMap, Mounted};
use replay_looks::{LookFault, Plan, look_at_journal};
use replay_marks::Marks;
use shared_disk::SharedDisk;
use std::alloc::Global;

// Whether these are blocks of a device of so many.
fn are_inside(blocks: &[u64], count: u64) -> bool
    ensures { result ≡ list_all (λ b. nat_lt b count) blocks.now }
{
    blocks.iter().all(|block| *block < count)
}

// The plan of a journal, and the blocks that it writes are marked as live.
fn plan_journal<D: SharedDisk>(
    alloc: Global,
    disk: &mut D,
    node: u8,
    journal: &JournalMap,
    marks: &mut Marks,
) -> Result<Plan, LookFault>
    requires node { node ≤ 8 }
    requires idle { IsIdle (D.state disk.old) }
    requires size { IsBlockSize (D.state disk.old).size }
    requires marks { length marks.old ≡ (D.state disk.old).count }
    ensures writable { IfOk result (IsWritable (D.state disk.old)) }
    ensures header { IfOk result (λ p. IfSome p.clean (HasPlace (D.state disk.old) journal.now.blocks)) }
    ensures free { IfOk result (λ p. (block : ℕ) → has_block p.home.items block ≡ true → (block < (D.state disk.old).count) × (mark_of marks.old block ≡ variant.Open)) }
    ensures plan { IfOk result (λ p. IsTrue (D.state disk.old).tells → head_in (ring_read (D.state disk.old) node journal.now.blocks) ≡ Some journal.now.head → IsPlanOf (ring_read (D.state disk.old) node journal.now.blocks) p) }
    ensures length { length marks.new ≡ length marks.old }
    ensures marks { IfOk result (λ p. (block : ℕ) → mark_of marks.new block ≡ (if has_block p.home.items block then variant.Live else mark_of marks.old block)) }
    ensures why { IfErr result (λ fault. IsTrue (D.state disk.old).tells → length journal.now.blocks < 2 ^ 32 → All (λ b. b < (D.state disk.old).count) journal.now.blocks
        → IsStopped (ring_read (D.state disk.old) node journal.now.blocks) journal.now.dinode journal.now.blocks marks.old fault) }
    ensures reads { ReadsOnly (D.state disk.old) (D.state disk.new) (D.list disk.old) (D.list disk.new) (D.faults disk.old) (D.faults disk.new) }
    ensures cause { IfErr result (HasCause (journal.now ∷ []) (D.state disk.old).count (D.faults disk.old node) (D.faults disk.new node)) }
{
    if journal.head.clean {
        return Ok(Plan {
            home: Vec::new(alloc),
            clean: None,
        });
    }
    if journal.blocks.len() >= 1usize << 32 {
        return Err(LookFault::Damaged {
            block: journal.dinode,
            rule: 2,
        });
    }
    if !are_inside(&journal.blocks, disk.blocks()) {
        return Err(LookFault::Damaged {
            block: journal.dinode,
            rule: 2,
        });
    }
    look_at_journal(alloc, disk, node, journal.dinode, &journal.blocks, marks)
}

/// What a replay of a mounted image writes on an idle disk, journal by journal, as a node reads it; or a block, with its rule, by
/// which it is stopped. For the plans of 256 journals and more, which no mounted image has, there is no room. Nothing is written. It costs what `look_at_journal` costs for each journal that isn't clean, and a
/// byte a block of the device.
pub fn plan_replay<D: SharedDisk>(
    alloc: Global,
    disk: &mut D,
    node: u8,
    mounted: &Mounted,
) -> Result<Vec<Plan>, LookFault>
    requires node { node ≤ 8 }
    requires idle { IsIdle (D.state disk.old) }
    requires size { IsBlockSize (D.state disk.old).size }
    ensures writable { IfOk result (λ plans. AllByRecursion (IsWritable (D.state disk.old)) plans.items) }
    ensures headers { IfOk result (λ plans. HavePlaces (D.state disk.old) mounted.now.journals plans.items) }
    ensures few { IfOk result (λ plans. length plans.items < 256) }
    ensures plans { IfOk result (λ plans. IsTrue (D.state disk.old).tells → (is : IsMounted (image_of (D.state disk.old)) mounted.now) → ArePlans (image_of (D.state disk.old)) is.layout plans.items) }
    ensures stopped { IfErr result (λ fault. IsTrue (D.state disk.old).tells → (is : IsMounted (image_of (D.state disk.old)) mounted.now)
        → IfDamaged fault (λ block rule. Stops (image_of (D.state disk.old)) is.layout rule block × (block < (D.state disk.old).count))) }
    ensures reads { ReadsOnly (D.state disk.old) (D.state disk.new) (D.list disk.old) (D.list disk.new) (D.faults disk.old) (D.faults disk.new) }
    ensures cause { IfErr result (HasCause mounted.now.journals (D.state disk.old).count (D.faults disk.old node) (D.faults disk.new node)) }
{
    let count = disk.blocks();
    if count >= 1u64 << 63 {
        return Err(LookFault::NoMemory);
    }
    // The number of a slot is a byte, and a mounted image has eight at most: for more plans there is no room.
    if mounted.journals.len() >= 256 {
        return Err(LookFault::NoMemory);
    }
    let Ok(mut marks) = first_marks(alloc, count, mounted) else {
        return Err(LookFault::NoMemory);
    };
    let Ok(mut plans) = Vec::with_capacity(alloc, mounted.journals.len()) else {
        return Err(LookFault::NoMemory);
    };
    for journal in &mounted.journals {
        let plan = match plan_journal(alloc, disk, node, journal, &mut marks) {
            Ok(plan) => plan,
            Err(fault) => return Err(fault),
        };
        match plans.push(plan) {
            Ok(()) => {}
            Err(_) => return Err(LookFault::NoMemory),
        }
    }
    Ok(plans)
}
