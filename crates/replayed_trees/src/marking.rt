// The marks with which a replay begins.
ghost use Rattle.std.specs.Prelude.{◌≡◌, ◌<◌, ◌^◌, ◌/◌, ◌%◌, ℕ, IfOk, if◌then◌else◌, length};
ghost use Rattle.gfs2_layout.specs.Device.{IsBlockSize};
ghost use Rattle.image_journals.specs.Found.{AreJournals};
ghost use Rattle.image_journals.specs.Frames.{HasSameFrame};
ghost use Rattle.image_journals.specs.Shown.{IfMemory};
ghost use Rattle.image_model.specs.Image.{Image, image_in};
ghost use Rattle.image_model.specs.Owners.{Owners};
ghost use Rattle.image_model.specs.Stands.{IsLaid, Layout};
ghost use Rattle.replay_marks.specs.Marking.{mark_of};
ghost use Rattle.replay_marks.specs.declared.marks.Mark.TheVariants as variant;
ghost use Rattle.replayed_trees.specs.Marking.{AreMarked, first_mark, is_in_groups, is_of_group, is_place};

use gfs2_layout::Rindex;
use image_journals::{JournalPlaces, Unfound, find_groups, find_system_blocks};
use replay_marks::Marks;
use std::alloc::Global;

// The blocks of a group may be written.
fn open_group(marks: &mut Marks, group: &Rindex)
    requires { length marks.old < 2 ^ 63 }
    ensures length { length marks.new ≡ length marks.old }
    ensures marks { (block : ℕ) → block < length marks.old → mark_of marks.new block ≡ (if is_of_group block group.now then variant.Open else mark_of marks.old block) }
{
    marks.open(
        group.address,
        group.address.saturating_add(u64::from(group.length)),
    );
    marks.open(
        group.data0,
        group.data0.saturating_add(u64::from(group.data_blocks)),
    );
}

// So may those of all groups.
fn open_groups(marks: &mut Marks, groups: &[Rindex])
    requires { length marks.old < 2 ^ 63 }
    ensures length { length marks.new ≡ length marks.old }
    ensures marks { (block : ℕ) → block < length marks.old → mark_of marks.new block ≡ (if is_in_groups groups.now block then variant.Open else mark_of marks.old block) }
{
    for group in groups {
        open_group(marks, group);
    }
}

// The places of the journals may not.
fn bar_journals(marks: &mut Marks, journals: &[JournalPlaces])
    ensures length { length marks.new ≡ length marks.old }
    ensures marks { (block : ℕ) → block < length marks.old → mark_of marks.new block ≡ (if is_place journals.now block then variant.Barred else mark_of marks.old block) }
{
    for journal in journals {
        marks.bar(&journal.blocks);
    }
}

// The marks by these groups, journals and blocks of system files.
fn marks_of(
    alloc: Global,
    count: u64,
    groups: &[Rindex],
    journals: &[JournalPlaces],
    system: &[u64],
) -> Result<Marks, Unfound>
    requires { count < 2 ^ 63 }
    ensures length { IfOk result (λ marks. length marks ≡ count) }
    ensures marks { IfMemory result (λ marks. (block : ℕ) → block < count → mark_of marks block ≡ first_mark groups.now journals.now system.now block) }
{
    let mut marks = Marks::new(alloc, count)?;
    open_groups(&mut marks, groups);
    bar_journals(&mut marks, journals);
    marks.bar(system);
    Ok(marks)
}

/// The marks of an image's blocks before any journal is looked at. It costs what finding its groups and the blocks of its system files costs, and a byte a block.
pub(crate) fn first_marks(
    alloc: Global,
    block_size: u32,
    bytes: &[u8],
    journals: &[JournalPlaces],
) -> Result<Marks, Unfound>
    requires size { IsBlockSize block_size }
    requires whole { length bytes.now % block_size ≡ 0 }
    ensures length { IfOk result (λ marks. length marks ≡ length bytes.now / block_size) }
    ensures fresh { IfOk result (λ marks. (block : ℕ) → mark_of marks block ≡ variant.Live → ⊥) }
    // Where the image has the frame of one that stands, with these journals, exactly the blocks are open that a replay may change.
    ensures marks { (r : Image) (o : Owners) (l : Layout) → HasSameFrame r (image_in block_size bytes.now) → IsLaid r o l → AreJournals (image_in block_size bytes.now) l journals.now
        → IfMemory result (AreMarked (image_in block_size bytes.now) l) }
{
    let groups = find_groups(alloc, block_size, bytes)?;
    let system = find_system_blocks(alloc, block_size, bytes)?;
    let count = (bytes.len() / block_size as usize) as u64;
    marks_of(alloc, count, &groups, journals, &system)
}
