// The blocks at the places of a journal.
ghost use Rattle.std.specs.Prelude.{ℕ, ◌≡◌, ◌/◌, ◌<◌};
ghost use Rattle.gfs2_layout.specs.Inode.{content_block};
ghost use Rattle.image_model.specs.Claims.{HasJournal, every};
ghost use Rattle.image_model.specs.Image.{Image};
ghost use Rattle.image_model.specs.Owners.{Owners};
ghost use Rattle.image_model.specs.Stands.{Layout};
ghost use Rattle.log_layout.specs.Journal.{ring_of};
ghost use Rattle.image_journals.specs.Blocks.{seen_of};
ghost use Rattle.image_journals.specs.Shown.{AreItsBlocks, IfMemory, ShowsFrame};

use crate::Unfound;
use crate::blocks::ImageBlocks;
use dinode_tree::{place, read_dinode, sound_inodes_are_shown, sound_inodes_break_nothing};
use glock_names::Step;
use std::alloc::Global;

// The block at a place of the journal with its dinode in this block.
fn block_at(blocks: &ImageBlocks<'_>, dinode: u64, index: u64) -> Result<u64, Unfound>
    ensures { (r : Image) (o : Owners) (l : Layout) (j : ℕ) → ShowsFrame (seen_of blocks.now) r o l → HasJournal r j dinode → index < (ring_of (every r dinode)).places
        → IfMemory result (λ b. b ≡ content_block (every r dinode) index) }
{
    sound_inodes_are_shown();
    sound_inodes_break_nothing();
    let step = match place(blocks, dinode, index) {
        Ok(step) => step,
        Err(_) => return Err(Unfound::Broken),
    };
    let found = match step {
        Step::Is(found) => found,
        Step::NeedBlock(_) => return Err(Unfound::Broken),
    };
    match found {
        Some(block) => Ok(block),
        None => Err(Unfound::Broken),
    }
}

// How many places it has.
fn place_count(blocks: &ImageBlocks<'_>, dinode: u64) -> Result<u64, Unfound>
    ensures { (r : Image) (o : Owners) (l : Layout) (j : ℕ) → ShowsFrame (seen_of blocks.now) r o l → HasJournal r j dinode → IfMemory result (λ n. n ≡ (ring_of (every r dinode)).places) }
{
    sound_inodes_are_shown();
    sound_inodes_break_nothing();
    let step = match read_dinode(blocks, dinode) {
        Ok(step) => step,
        Err(_) => return Err(Unfound::Broken),
    };
    match step {
        Step::Is(read) => Ok(read.size / u64::from(blocks.size)),
        Step::NeedBlock(_) => Err(Unfound::Broken),
    }
}

/// The blocks at the places of the journal with its dinode in this block. It takes memory for their numbers, and looks at a pointer a level for each.
pub(crate) fn places_of(
    alloc: Global,
    blocks: &ImageBlocks<'_>,
    dinode: u64,
) -> Result<Vec<u64>, Unfound>
    ensures { (r : Image) (o : Owners) (l : Layout) (j : ℕ) → ShowsFrame (seen_of blocks.now) r o l → HasJournal r j dinode → IfMemory result (λ found. AreItsBlocks r dinode found.items) }
{
    let mut found = Vec::new(alloc);
    let count = place_count(blocks, dinode)?;
    for index in 0..count {
        let block = block_at(blocks, dinode, index)?;
        found.push(block)?;
    }
    Ok(found)
}
