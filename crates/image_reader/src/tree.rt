ghost use Rattle.image_model.specs.Rules.{IsWholeList};
ghost use Rattle.std.specs.Prelude.{ℕ, ◌≡◌, ◌+◌, ◌*◌, ◌%◌, ◌<◌, ◌≤◌, length, vec_len, true, Contains, OnOk, IfOk, IfErr};
ghost use Rattle.std.specs.List.{All};
ghost use Rattle.gfs2_layout.specs.declared.rindex.Rindex.{Rindex as IndexEntry};
ghost use Rattle.gfs2_layout.specs.Inode.{Fits, dinode_in};
ghost use Rattle.image_model.specs.Claims.{every, IsRindex, master_of};
ghost use Rattle.image_reader.specs.Owning.{IsEmpty};
ghost use Rattle.image_reader.specs.Walking.{IsSound};
ghost use Rattle.image_model.specs.Groups.{GroupFits};
ghost use Rattle.file_tree.specs.Tree.{Tree};
ghost use Rattle.gfs2_layout.specs.Structures.{is_directory};
ghost use Rattle.image_model.specs.Image.{image_in, superblock_in};
ghost use Rattle.image_reader.specs.ReadTree.{GivesTree};
ghost use Rattle.image_model.specs.Stands.{Stands};
ghost use Rattle.image_reader.specs.Reading.{image_at, held, IsTrueOf};
ghost use Rattle.gfs2_layout.specs.Device.{IsBlockSize, superblock_place};

use crate::assembly::assemble;
use crate::blocks::Blocks;
use crate::content::read_content;
use crate::directory::Visit;
use crate::groups::{check_cover, check_groups, list_groups};
use crate::image::{Image, ImageFault, damaged};
use crate::inode::Inode;
use crate::journals::{check_journals, named};
use crate::owners::Claim;
use crate::walk::Walk;
use file_tree::{FILE_LIMIT, Tree};
use gfs2_layout::{Rindex, SuperBlock};
use std::alloc::Global;

// The superblock, which is on the device and has its header.
fn read_superblock(image: &Blocks<'_>) -> Result<SuperBlock, ImageFault>
    ensures damaged { IfErr result (IsTrueOf (image_at image.now)) }
    ensures value { IfOk result (λ superblock. superblock ≡ superblock_in (image_at image.now)) }
    ensures there { OnOk result (superblock_place image.now.size < image.now.count) }
{
    let place = image.superblock_place();
    let Some(block) = image.get(place) else {
        return Err(damaged(place, 1));
    };
    let Ok(superblock) = SuperBlock::read(block.bytes()) else {
        return Err(damaged(place, 1));
    };
    Ok(superblock)
}

// The file that lists the groups, which the master directory names.
fn find_rindex<'a>(walk: &mut Walk<'a>, master: u64) -> Result<Inode<'a>, ImageFault>
    requires sound { IsSound walk.old }
    requires there { superblock_place walk.old.image.size < walk.old.image.count }
    requires empty { IsEmpty walk.old.owners.entries.items }
    requires master { master ≡ master_of (image_at walk.old.image) }
    ensures rindex { IfOk result (λ rindex. IsRindex (image_at walk.old.image) rindex.block.number) }
    ensures only { IfOk result (λ rindex. (d : ℕ) → IsRindex (image_at walk.old.image) d → d ≡ rindex.block.number) }
    ensures image { IfOk result (λ rindex. rindex.block.image ≡ walk.old.image) }
    ensures damaged { IfErr result (IsTrueOf (image_at walk.old.image)) }
    ensures sound { OnOk result (IsSound walk.new) }
    ensures same { walk.new.image ≡ walk.old.image }
{
    let top = walk.top(master, Claim::Master)?;
    let mut found = Vec::new(walk.alloc);
    walk.go_over(&top, None, &mut found)?;
    match named(&found, master, b"rindex") {
        Some(rindex) => Ok(rindex),
        None => Err(damaged(master, 18)),
    }
}

// That the list of groups is whole entries, and no more of them than the device has blocks: so it is short enough to be
// read.
fn check_entries(rindex: &Inode<'_>) -> Result<(), ImageFault>
    requires { IsRindex (image_at rindex.now.block.image) rindex.now.block.number }
    ensures damaged { IfErr result (IsTrueOf (image_at rindex.now.block.image)) }
    ensures whole { OnOk result ((dinode_in (every (image_at rindex.now.block.image) rindex.now.block.number)).size % 96 ≡ 0) }
{
    if rindex.dinode.size % 96 != 0 {
        return Err(damaged(rindex.block.number, 18));
    }
    if rindex.dinode.size / 96 > rindex.block.image.count {
        return Err(damaged(rindex.block.number, 18));
    }
    Ok(())
}

// The groups, read from the file `rindex` of the master directory before anything else is gone over.
fn find_groups(alloc: Global, image: Blocks<'_>, master: u64) -> Result<Vec<Rindex>, ImageFault>
    requires there { superblock_place image.size < image.count }
    requires master { master ≡ master_of (image_at image) }
    ensures fit { IfOk result (λ groups. All (GroupFits (image_at image.entry)) groups.items) }
    ensures list { IfOk result (λ groups. IsWholeList (image_at image.entry) groups.items) }
    ensures damaged { IfErr result (IsTrueOf (image_at image.entry)) }
{
    let mut walk = Walk::new(alloc, image, None)?;
    let rindex = find_rindex(&mut walk, master)?;
    rindex.check_fits()?;
    check_entries(&rindex)?;
    let content = read_content(alloc, &rindex)?;
    let groups = list_groups(alloc, &image, rindex.block.number, &content)?;
    check_cover(&image, &groups)?;
    Ok(groups)
}

// The root is a directory.
fn check_root(root: &Visit<'_>) -> Result<(), ImageFault>
    requires { root.now.inode.block.number ≡ (superblock_in (image_at root.now.inode.block.image)).root.address }
    ensures damaged { IfErr result (IsTrueOf (image_at root.now.inode.block.image)) }
    ensures directory { OnOk result (is_directory root.now.inode.dinode ≡ true) }
{
    if !root.inode.dinode.is_directory() {
        return Err(damaged(root.inode.block.number, 8));
    }
    Ok(())
}

/// Reads the tree of files and directories that an image stands for. The image is read as it lies: a journal
/// that isn't clean is not replayed. It takes memory for an entry a block and for the tree, and goes over each
/// block that is reached once.
pub fn read_tree(alloc: Global, image: &Image) -> Result<Tree, ImageFault>
    requires size { IsBlockSize image.now.block_size }
    requires whole { length image.now.bytes % image.now.block_size ≡ 0 }
    ensures stands { (t : Tree) → Stands (image_in image.now.block_size image.now.bytes) t → GivesTree t result }
    ensures damaged { IfErr result (IsTrueOf (image_in image.now.block_size image.now.bytes)) }
{
    read_blocks(alloc, Blocks::of(image))
}

fn read_blocks(alloc: Global, image: Blocks<'_>) -> Result<Tree, ImageFault>
    ensures right { IfOk result (λ tree. (t : Tree) → Stands (image_at image.entry) t → tree ≡ t) }
    ensures damaged { IfErr result (IsTrueOf (image_at image.entry)) }
{
    let superblock = read_superblock(&image)?;
    let groups = find_groups(alloc, image, superblock.master.address)?;
    read_from(alloc, image, &superblock, &groups)
}

// The tree, once the groups are known.
fn read_from<'a>(
    alloc: Global,
    image: Blocks<'a>,
    superblock: &SuperBlock,
    groups: &'a [Rindex],
) -> Result<Tree, ImageFault>
    requires there { superblock_place image.size < image.count }
    requires superblock { superblock.now ≡ superblock_in (image_at image) }
    requires fit { All (GroupFits (image_at image)) groups.now }
    requires list { IsWholeList (image_at image) groups.now }
    ensures right { IfOk result (λ tree. (t : Tree) → Stands (image_at image.entry) t → tree ≡ t) }
    ensures damaged { IfErr result (IsTrueOf (image_at image.entry)) }
{
    let master = superblock.master.address;
    let mut walk = Walk::new(alloc, image, Some(groups))?;
    let mut system = Vec::new(alloc);
    let mut files = Vec::new(alloc);
    let top = walk.top(master, Claim::Master)?;
    walk.tree(top, None, &mut system)?;
    let root = walk.top(superblock.root.address, Claim::Root)?;
    check_root(&root)?;
    walk.tree(root, Some(FILE_LIMIT), &mut files)?;
    check_journals(&top.inode, &system)?;
    check_groups(alloc, &image, &walk.owners, groups)?;
    assemble(alloc, &root.inode, files)
}
