// The journals that the directory of journals names, whether there is a gap between their numbers or not.
ghost use Rattle.std.specs.Prelude.{ℕ, ◌≡◌, ◌≤◌, true, false, [], ◌∷◌, Contains, length};
ghost use Rattle.gfs2_layout.specs.Area.{IsArea, Slot, IsShown as IsRecord};
ghost use Rattle.gfs2_layout.specs.Holding.{Holding, bytes_at};
ghost use Rattle.gfs2_layout.specs.Inode.{IsInode, depth_in, is_directory_in, dinode_in, is_hashed_in, leaf_area, records_of};
ghost use Rattle.gfs2_layout.specs.Records.{records_in};
ghost use Rattle.linear_dirs.specs.Reading.{told_in};
ghost use Rattle.image_model.specs.Image.{Image};
ghost use Rattle.image_model.specs.Owners.{Owners};
ghost use Rattle.image_model.specs.Stands.{Layout};
ghost use Rattle.image_journals.specs.Adding.{AreAdded, IsJournalFile, IsLeafOf, IsNamedAmong};
ghost use Rattle.image_journals.specs.Blocks.{seen_of};
ghost use Rattle.image_journals.specs.Shown.{IfMemory, ShowsFrame};
ghost use Rattle.image_journals.specs.Sound.{IsDirectoryIn};

use crate::Unfound;
use crate::blocks::ImageBlocks;
use crate::directories::is_hashed;
use crate::gathering::add_leaves;
use crate::journal_names::is_journal_name;
use crate::leaves::read_leaf;
use dinode_tree::{read_dinode, sound_inodes_are_shown, sound_inodes_break_nothing};
use gfs2_layout::{DINODE_LENGTH, Dinode, Record, is_area, next_record};
use glock_names::{Step, block_of};
use std::alloc::Global;

// Adds where a record leads that is in use, if it has the name of a journal.
fn add_record(record: &Record<'_>, found: &mut Vec<u64>) -> Result<(), Unfound>
    ensures { (s : Slot) → IsRecord record.now.head record.now.name.now s → IfMemory result (λ done. AreAdded found.old.items found.new.items (IsNamedAmong (told_in (s ∷ [])))) }
{
    if !record.head.is_in_use() {
        return Ok(());
    }
    if !is_journal_name(record.name) {
        return Ok(());
    }
    found.push(record.head.inum.address)?;
    Ok(())
}

// Adds where the names of journals lead in an area of records.
fn add_area(area: &[u8], found: &mut Vec<u64>) -> Result<(), Unfound>
    requires { IsArea area.now }
    ensures { IfMemory result (λ done. AreAdded found.old.items found.new.items (IsNamedAmong (records_in area.now))) }
{
    let mut rest = area;
    while let Some((record, behind)) = next_record(rest) {
        add_record(&record, found)?;
        rest = behind;
    }
    Ok(())
}

// The same in these leaves of a hashed directory.
fn add_areas(blocks: &ImageBlocks<'_>, leaves: &[u64], found: &mut Vec<u64>) -> Result<(), Unfound>
    ensures { (h : Holding) → IsDirectoryIn (seen_of blocks.now) h → is_hashed_in h ≡ true → ((x : ℕ) → Contains leaves.now x → IsLeafOf h x)
        → IfMemory result (λ done. AreAdded found.old.items found.new.items (λ d. (x : ℕ) × Contains leaves.now x × IsNamedAmong (records_in (leaf_area h x)) d)) }
{
    for leaf in leaves {
        let part = read_leaf(blocks, *leaf)?;
        add_area(part.area, found)?;
    }
    Ok(())
}

// The same in the hashed directory with its dinode in this block, whose table is so deep.
fn add_hashed(
    alloc: Global,
    blocks: &ImageBlocks<'_>,
    dir: u64,
    depth: u16,
    found: &mut Vec<u64>,
) -> Result<(), Unfound>
    ensures { (h : Holding) → IsDirectoryIn (seen_of blocks.now) h → h.own ≡ dir → is_hashed_in h ≡ true → depth ≡ depth_in h
        → IfMemory result (λ done. AreAdded found.old.items found.new.items (IsNamedAmong (records_of h))) }
{
    let mut leaves = Vec::new(alloc);
    add_leaves(alloc, blocks, dir, depth, &mut leaves)?;
    add_areas(blocks, &leaves, found)
}

// The same in a linear directory, whose dinode's block has these bytes.
fn add_linear(bytes: &[u8], found: &mut Vec<u64>) -> Result<(), Unfound>
    requires least { 512 ≤ length bytes.now }
    ensures { (h : Holding) → IsInode h → is_directory_in h ≡ true → is_hashed_in h ≡ false → bytes.now ≡ bytes_at h h.own
        → IfMemory result (λ done. AreAdded found.old.items found.new.items (IsNamedAmong (records_of h))) }
{
    let area = &bytes[DINODE_LENGTH..];
    if !is_area(area) {
        return Err(Unfound::Broken);
    }
    add_area(area, found)
}

// The same by the directory's dinode, whose block has these bytes.
fn add_named(
    alloc: Global,
    blocks: &ImageBlocks<'_>,
    dir: u64,
    dinode: &Dinode,
    bytes: &[u8],
    found: &mut Vec<u64>,
) -> Result<(), Unfound>
    requires least { 512 ≤ length bytes.now }
    ensures { (h : Holding) → IsDirectoryIn (seen_of blocks.now) h → h.own ≡ dir → dinode.now ≡ dinode_in h → bytes.now ≡ bytes_at h h.own
        → IfMemory result (λ done. AreAdded found.old.items found.new.items (IsNamedAmong (records_of h))) }
{
    if is_hashed(dinode) {
        return add_hashed(alloc, blocks, dir, dinode.depth, found);
    }
    add_linear(bytes, found)
}

/// Adds the dinodes of all journals that the directory of journals with its dinode in this block names, those behind a gap too.
pub(crate) fn add_journal_files(
    alloc: Global,
    blocks: &ImageBlocks<'_>,
    jindex: u64,
    found: &mut Vec<u64>,
) -> Result<(), Unfound>
    ensures { (r : Image) (o : Owners) (l : Layout) → ShowsFrame (seen_of blocks.now) r o l → jindex ≡ l.jindex
        → IfMemory result (λ done. AreAdded found.old.items found.new.items (IsJournalFile r)) }
{
    sound_inodes_are_shown();
    sound_inodes_break_nothing();
    let step = match read_dinode(blocks, jindex) {
        Ok(step) => step,
        Err(_) => return Err(Unfound::Broken),
    };
    let dinode = match step {
        Step::Is(dinode) => dinode,
        Step::NeedBlock(_) => return Err(Unfound::Broken),
    };
    let Some(bytes) = block_of(blocks, jindex) else {
        return Err(Unfound::Broken);
    };
    add_named(alloc, blocks, jindex, &dinode, bytes, found)
}
