// The journals of an image.
ghost use Rattle.std.specs.Prelude.{ℕ, ◌≡◌, ◌%◌, false, length, IfOk};
ghost use Rattle.gfs2_layout.specs.Records.{is_dots as has_dots};
ghost use Rattle.gfs2_layout.specs.Device.{IsBlockSize};
ghost use Rattle.image_model.specs.Image.{Image, image_in};
ghost use Rattle.image_model.specs.Journals.{journal_name as name_of_journal};
ghost use Rattle.image_model.specs.Owners.{Owners};
ghost use Rattle.image_model.specs.Stands.{IsLaid, Layout, flat_of};
ghost use Rattle.image_journals.specs.Blocks.{seen_of};
ghost use Rattle.image_journals.specs.Found.{AreJournals};
ghost use Rattle.image_journals.specs.Frames.{HasSameFrame};
ghost use Rattle.image_journals.specs.Shown.{IfMemory, ShowsFrame};

use crate::Unfound;
use crate::blocks::ImageBlocks;
use crate::directories::look;
use crate::places::places_of;
use gfs2_layout::{SuperBlock, superblock_block};
use glock_names::block_of;
use std::alloc::Global;
use text_words::append_decimal;

/// A journal: the block of its dinode, and the block at each of its places.
#[derive(Drop)]
pub struct JournalPlaces {
    pub dinode: u64,
    pub blocks: Vec<u64>,
}

// The name of a journal.
fn journal_name(alloc: Global, number: u64) -> Result<Vec<u8>, Unfound>
    ensures { IfMemory result (λ name. name.items ≡ name_of_journal number) }
{
    let mut name = Vec::from_slice(alloc, b"journal")?;
    append_decimal(&mut name, number)?;
    Ok(name)
}

/// The block of the dinode of the master directory.
pub(crate) fn find_master(blocks: &ImageBlocks<'_>) -> Result<u64, Unfound>
    ensures { (r : Image) (o : Owners) (l : Layout) → ShowsFrame (seen_of blocks.now) r o l → IfMemory result (λ d. d ≡ l.master) }
{
    let Some(bytes) = block_of(blocks, superblock_block(blocks.size)) else {
        return Err(Unfound::Broken);
    };
    let Ok(superblock) = SuperBlock::read(bytes) else {
        return Err(Unfound::Broken);
    };
    Ok(superblock.master.address)
}

// The block of the dinode to which a name leads in the master directory.
fn find_in_master(alloc: Global, blocks: &ImageBlocks<'_>, name: &[u8]) -> Result<u64, Unfound>
    ensures { (r : Image) (o : Owners) (l : Layout) (d : ℕ) → ShowsFrame (seen_of blocks.now) r o l → has_dots name.now ≡ false → (flat_of r o l.master).child name.now ≡ Some d
        → IfMemory result (λ found. found ≡ d) }
{
    let master = find_master(blocks)?;
    let found = look(alloc, blocks, master, name)?;
    match found {
        Some(dinode) => Ok(dinode),
        None => Err(Unfound::Broken),
    }
}

/// The block of the dinode of the directory of journals.
pub(crate) fn find_jindex(alloc: Global, blocks: &ImageBlocks<'_>) -> Result<u64, Unfound>
    ensures { (r : Image) (o : Owners) (l : Layout) → ShowsFrame (seen_of blocks.now) r o l → IfMemory result (λ d. d ≡ l.jindex) }
{
    find_in_master(alloc, blocks, b"jindex")
}

/// The block of the dinode of the list of groups.
pub(crate) fn find_rindex(alloc: Global, blocks: &ImageBlocks<'_>) -> Result<u64, Unfound>
    ensures { (r : Image) (o : Owners) (l : Layout) → ShowsFrame (seen_of blocks.now) r o l → IfMemory result (λ d. d ≡ l.rindex) }
{
    find_in_master(alloc, blocks, b"rindex")
}

/// The journals of an image in memory, which is whole blocks of so many bytes: those to which the names from `journal0` on lead, as far as there is no gap. Of the image no more is
/// looked at than the blocks of its system files, and not what stands at the places of journals; so what else it holds may be in the midst of what the journals say. It takes memory for the numbers of the journals' blocks.
pub fn find_journals(
    alloc: Global,
    block_size: u32,
    bytes: &[u8],
) -> Result<Vec<JournalPlaces>, Unfound>
    requires size { IsBlockSize block_size }
    requires whole { length bytes.now % block_size ≡ 0 }
    // Of an image that has the frame of one that stands they are that one's journals, whatever stands at their places.
    ensures { (r : Image) (o : Owners) (l : Layout) → HasSameFrame r (image_in block_size bytes.now) → IsLaid r o l → IfMemory result (λ journals. AreJournals r l journals.items) }
{
    let blocks = ImageBlocks::of(block_size, bytes);
    let jindex = find_jindex(alloc, &blocks)?;
    let mut journals = Vec::new(alloc);
    for number in 0..u64::MAX {
        let name = journal_name(alloc, number)?;
        let found = look(alloc, &blocks, jindex, &name)?;
        let Some(dinode) = found else {
            return Ok(journals);
        };
        let places = places_of(alloc, &blocks, dinode)?;
        journals.push(JournalPlaces {
            dinode,
            blocks: places,
        })?;
    }
    Err(Unfound::NoMemory)
}
