// The marks with which a replay begins.
ghost use Rattle.std.specs.Prelude.{◌≡◌, ◌<◌, ◌^◌, ℕ, IfOk, if◌then◌else◌, length};
ghost use Rattle.image_replays.specs.Marking.{first_mark, is_in_groups, is_of_group, is_place};
ghost use Rattle.replay_marks.specs.Marking.{mark_of};
ghost use Rattle.replay_marks.specs.declared.marks.Mark.TheVariants as variant;

use glock_names::Group;
use image_mount::{JournalMap, Mounted};
use no_memory::NoMemory;
use replay_marks::Marks;
use std::alloc::Global;

// The blocks of a group may be written.
fn open_group(marks: &mut Marks, group: &Group)
    requires { length marks.old < 2 ^ 63 }
    ensures length { length marks.new ≡ length marks.old }
    ensures marks { (block : ℕ) → block < length marks.old → mark_of marks.new block ≡ (if is_of_group block group.now then variant.Open else mark_of marks.old block) }
{
    marks.open(
        group.addr,
        group.addr.saturating_add(u64::from(group.length)),
    );
    marks.open(
        group.first,
        group.first.saturating_add(u64::from(group.count)),
    );
}

// So may those of all groups.
fn open_groups(marks: &mut Marks, groups: &[Group])
    requires { length marks.old < 2 ^ 63 }
    ensures length { length marks.new ≡ length marks.old }
    ensures marks { (block : ℕ) → block < length marks.old → mark_of marks.new block ≡ (if is_in_groups groups.now block then variant.Open else mark_of marks.old block) }
{
    for group in groups {
        open_group(marks, group);
    }
}

// The places of the journals may not.
fn bar_journals(marks: &mut Marks, journals: &[JournalMap])
    ensures length { length marks.new ≡ length marks.old }
    ensures marks { (block : ℕ) → block < length marks.old → mark_of marks.new block ≡ (if is_place journals.now block then variant.Barred else mark_of marks.old block) }
{
    for journal in journals {
        marks.bar(&journal.blocks);
    }
}

/// The marks of a mounted image's blocks before any journal is looked at.
pub(crate) fn first_marks(alloc: Global, count: u64, mounted: &Mounted) -> Result<Marks, NoMemory>
    requires { count < 2 ^ 63 }
    ensures length { IfOk result (λ marks. length marks ≡ count) }
    ensures marks { IfOk result (λ marks. (block : ℕ) → block < count → mark_of marks block ≡ first_mark mounted.now.groups mounted.now.journals mounted.now.system block) }
{
    let mut marks = Marks::new(alloc, count)?;
    open_groups(&mut marks, &mounted.groups);
    bar_journals(&mut marks, &mounted.journals);
    marks.bar(&mounted.system);
    Ok(marks)
}
