// The groups of an image.
ghost use Rattle.std.specs.Prelude.{◌≡◌, ◌%◌, length};
ghost use Rattle.gfs2_layout.specs.Device.{IsBlockSize};
ghost use Rattle.gfs2_layout.specs.Inode.{content_of, dinode_in};
ghost use Rattle.image_model.specs.Groups.{groups_in};
ghost use Rattle.image_model.specs.Image.{Image, image_in};
ghost use Rattle.image_model.specs.Owners.{Owners, holding};
ghost use Rattle.image_model.specs.Stands.{IsLaid, Layout};
ghost use Rattle.image_journals.specs.Blocks.{seen_of};
ghost use Rattle.image_journals.specs.Frames.{HasSameFrame};
ghost use Rattle.image_journals.specs.Shown.{IfMemory, IsIndex, ShowsFrame};

use crate::Unfound;
use crate::blocks::ImageBlocks;
use crate::finding::find_rindex;
use dinode_tree::{
    read_dinode, read_range, sound_inodes_are_shown, sound_inodes_are_whole,
    sound_inodes_break_nothing,
};
use gfs2_layout::Rindex;
use glock_names::{CallFault, Step};
use std::alloc::Global;

// How many bytes an entry of the list of groups has.
const ENTRY: usize = 96;

// The size of a file by which journals and groups are found.
fn size_of(blocks: &ImageBlocks<'_>, dinode: u64) -> Result<u64, Unfound>
    ensures { (r : Image) (o : Owners) (l : Layout) → ShowsFrame (seen_of blocks.now) r o l → IsIndex l dinode → IfMemory result (λ size. size ≡ (dinode_in (holding r o dinode)).size) }
{
    sound_inodes_are_shown();
    sound_inodes_break_nothing();
    let step = match read_dinode(blocks, dinode) {
        Ok(step) => step,
        Err(_) => return Err(Unfound::Broken),
    };
    match step {
        Step::Is(read) => Ok(read.size),
        Step::NeedBlock(_) => Err(Unfound::Broken),
    }
}

// What such a file contains, at once. For one of 4 GiB and more there is no room.
fn content(alloc: Global, blocks: &ImageBlocks<'_>, dinode: u64) -> Result<Vec<u8>, Unfound>
    ensures { (r : Image) (o : Owners) (l : Layout) → ShowsFrame (seen_of blocks.now) r o l → IsIndex l dinode → IfMemory result (λ bytes. bytes.items ≡ content_of (holding r o dinode)) }
{
    sound_inodes_are_shown();
    sound_inodes_are_whole();
    sound_inodes_break_nothing();
    let size = size_of(blocks, dinode)?;
    if size >= 1u64 << 32 {
        return Err(Unfound::NoMemory);
    }
    let step = match read_range(alloc, blocks, dinode, 0, size as u32) {
        Ok(step) => step,
        Err(CallFault::NoMemory) => return Err(Unfound::NoMemory),
        Err(CallFault::Damaged { block: _, rule: _ }) => return Err(Unfound::Broken),
    };
    match step {
        Step::Is(bytes) => Ok(bytes),
        Step::NeedBlock(_) => Err(Unfound::Broken),
    }
}

// The entries one after another.
fn entries(alloc: Global, content: &[u8]) -> Result<Vec<Rindex>, Unfound>
    ensures { IfMemory result (λ groups. groups.items ≡ groups_in content.now) }
{
    let mut groups = Vec::new(alloc);
    let mut rest = content;
    while rest.len() >= ENTRY {
        let (entry, behind) = rest.split_at(ENTRY);
        let Ok(group) = Rindex::read(entry) else {
            unreachable!()
        };
        groups.push(group)?;
        rest = behind;
    }
    Ok(groups)
}

/// The groups of an image in memory, which is whole blocks of so many bytes, as its list of groups has them. Of the image no more is looked at than the blocks of its system files.
/// It takes memory for what that list contains; for one of 4 GiB and more there is no room.
pub fn find_groups(alloc: Global, block_size: u32, bytes: &[u8]) -> Result<Vec<Rindex>, Unfound>
    requires size { IsBlockSize block_size }
    requires whole { length bytes.now % block_size ≡ 0 }
    // Of an image that has the frame of one that stands they are that one's groups.
    ensures { (r : Image) (o : Owners) (l : Layout) → HasSameFrame r (image_in block_size bytes.now) → IsLaid r o l → IfMemory result (λ groups. groups.items ≡ l.groups) }
{
    let blocks = ImageBlocks::of(block_size, bytes);
    let rindex = find_rindex(alloc, &blocks)?;
    let list = content(alloc, &blocks, rindex)?;
    entries(alloc, &list)
}
