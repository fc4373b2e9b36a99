// The blocks of the system files.
ghost use Rattle.std.specs.Prelude.{ℕ, ◌≡◌, ◌↔◌, ◌%◌, Contains, length};
ghost use Rattle.dinode_tree.specs.Below.{IsBelow};
ghost use Rattle.gfs2_layout.specs.Device.{IsBlockSize};
ghost use Rattle.image_model.specs.Image.{Image, image_in};
ghost use Rattle.image_model.specs.Owners.{Owners, holding};
ghost use Rattle.image_model.specs.Stands.{IsLaid, Layout};
ghost use Rattle.image_model.specs.SystemFiles.{IsSystemBlock, IsSystemFile};
ghost use Rattle.image_journals.specs.Adding.{AreAdded, IsBlockOf, IsLeafOf};
ghost use Rattle.image_journals.specs.Blocks.{seen_of};
ghost use Rattle.image_journals.specs.Frames.{HasSameFrame};
ghost use Rattle.image_journals.specs.Shown.{IfMemory, ShowsFrame};

use crate::Unfound;
use crate::blocks::ImageBlocks;
use crate::directories::is_hashed;
use crate::finding::{find_jindex, find_master, find_rindex};
use crate::gathering::add_leaves;
use crate::naming::add_journal_files;
use dinode_tree::{
    blocks_below, read_dinode, sound_inodes_are_shown, sound_inodes_break_nothing,
    sound_pointers_are_parts,
};
use gfs2_layout::superblock_block;
use glock_names::{CallFault, Step};
use std::alloc::Global;

// Adds the blocks to which the pointers of the inode with its dinode in this block lead.
fn add_below(
    alloc: Global,
    blocks: &ImageBlocks<'_>,
    dinode: u64,
    found: &mut Vec<u64>,
) -> Result<(), Unfound>
    ensures { (r : Image) (o : Owners) (l : Layout) → ShowsFrame (seen_of blocks.now) r o l → IsSystemFile r dinode
        → IfMemory result (λ done. AreAdded found.old.items found.new.items (IsBelow (holding r o dinode))) }
{
    sound_inodes_are_shown();
    sound_inodes_break_nothing();
    sound_pointers_are_parts();
    let step = match blocks_below(alloc, blocks, dinode) {
        Ok(step) => step,
        Err(CallFault::NoMemory) => return Err(Unfound::NoMemory),
        Err(CallFault::Damaged { block: _, rule: _ }) => return Err(Unfound::Broken),
    };
    let below = match step {
        Step::Is(below) => below,
        Step::NeedBlock(_) => return Err(Unfound::Broken),
    };
    for pointed in &below {
        found.push(pointed.block)?;
    }
    Ok(())
}

// Adds its leaves, where it is a hashed directory.
fn add_own_leaves(
    alloc: Global,
    blocks: &ImageBlocks<'_>,
    dinode: u64,
    found: &mut Vec<u64>,
) -> Result<(), Unfound>
    ensures { (r : Image) (o : Owners) (l : Layout) → ShowsFrame (seen_of blocks.now) r o l → IsSystemFile r dinode
        → IfMemory result (λ done. AreAdded found.old.items found.new.items (IsLeafOf (holding r o dinode))) }
{
    sound_inodes_are_shown();
    sound_inodes_break_nothing();
    let step = match read_dinode(blocks, dinode) {
        Ok(step) => step,
        Err(_) => return Err(Unfound::Broken),
    };
    let read = match step {
        Step::Is(read) => read,
        Step::NeedBlock(_) => return Err(Unfound::Broken),
    };
    if !read.is_directory() {
        return Ok(());
    }
    if !is_hashed(&read) {
        return Ok(());
    }
    add_leaves(alloc, blocks, dinode, read.depth, found)
}

// Adds every block of a system file.
fn add_file(
    alloc: Global,
    blocks: &ImageBlocks<'_>,
    dinode: u64,
    found: &mut Vec<u64>,
) -> Result<(), Unfound>
    ensures { (r : Image) (o : Owners) (l : Layout) → ShowsFrame (seen_of blocks.now) r o l → IsSystemFile r dinode
        → IfMemory result (λ done. AreAdded found.old.items found.new.items (IsBlockOf (holding r o dinode))) }
{
    sound_pointers_are_parts();
    found.push(dinode)?;
    add_below(alloc, blocks, dinode, found)?;
    add_own_leaves(alloc, blocks, dinode, found)
}

// The dinodes of the system files: those of the master directory, the list of groups, the directory of journals and all journals.
fn system_files(alloc: Global, blocks: &ImageBlocks<'_>) -> Result<Vec<u64>, Unfound>
    ensures { (r : Image) (o : Owners) (l : Layout) → ShowsFrame (seen_of blocks.now) r o l → IfMemory result (λ files. (d : ℕ) → Contains files.items d ↔ IsSystemFile r d) }
{
    let mut files = Vec::new(alloc);
    let master = find_master(blocks)?;
    files.push(master)?;
    let rindex = find_rindex(alloc, blocks)?;
    files.push(rindex)?;
    let jindex = find_jindex(alloc, blocks)?;
    files.push(jindex)?;
    add_journal_files(alloc, blocks, jindex, &mut files)?;
    Ok(files)
}

/// The blocks of the system files of an image in memory, which is whole blocks of so many bytes, the superblock among them; some may be there more than once. No more of the image is looked
/// at than these blocks. It costs a look at each of them but for the content of files, and takes memory for their numbers.
pub fn find_system_blocks(alloc: Global, block_size: u32, bytes: &[u8]) -> Result<Vec<u64>, Unfound>
    requires size { IsBlockSize block_size }
    requires whole { length bytes.now % block_size ≡ 0 }
    // Of an image that has the frame of one that stands they are that one's.
    ensures { (r : Image) (o : Owners) (l : Layout) → HasSameFrame r (image_in block_size bytes.now) → IsLaid r o l → IfMemory result (λ found. (b : ℕ) → Contains found.items b ↔ IsSystemBlock r b) }
{
    let blocks = ImageBlocks::of(block_size, bytes);
    let files = system_files(alloc, &blocks)?;
    let mut found = Vec::new(alloc);
    found.push(superblock_block(blocks.size))?;
    for file in &files {
        add_file(alloc, &blocks, *file, &mut found)?;
    }
    Ok(found)
}
