ghost use Rattle.std.specs.Prelude.{◌≡◌, ◌+◌, IfOk, IfErr, OnOk};
ghost use Rattle.image_reader.specs.Assembled.{bare_of, flat_found, AreBare, Lacks, IsMovedUp};
ghost use Rattle.image_model.specs.Flat.{ReadsAs};
ghost use Rattle.image_reader.specs.Found.{IsTreeOf};
ghost use Rattle.image_reader.specs.Reading.{held, image_at, IsDinodeBlock, IsTrueOf};

use crate::content::read_content;
use crate::directory::Found;
use crate::image::ImageFault;
use crate::inode::Inode;
use file_tree::{Content, NoMemory, Tree, directories_stay_well_formed, names_stand_for_trees};
use std::alloc::Global;

// The tree of one inode: its content, or a directory that has no names yet.
fn bare_tree(alloc: Global, inode: &Inode<'_>) -> Result<Tree, ImageFault>
    requires { IsDinodeBlock inode.now.block }
    ensures bare { IfOk result (λ tree. tree ≡ bare_of (held inode.now)) }
    ensures damaged { IfErr result (IsTrueOf (image_at inode.now.block.image)) }
{
    inode.check_fits()?;
    if inode.dinode.is_directory() {
        return Ok(Tree::dir(alloc));
    }
    let bytes = read_content(alloc, inode)?;
    Ok(Tree::file(Content::new(bytes)))
}

// The trees of all inodes by their places, with no names yet.
fn bare_trees<'a>(
    alloc: Global,
    top: &Inode<'a>,
    found: &[Found<'a>],
) -> Result<Vec<Tree>, ImageFault>
    requires { IsTreeOf top.now.block.image top.now found.now }
    ensures bare { IfOk result (λ trees. AreBare top.now found.now trees.items) }
    ensures damaged { IfErr result (IsTrueOf (image_at top.now.block.image)) }
{
    let mut trees = Vec::new(alloc);
    trees.push(bare_tree(alloc, top)?)?;
    for entry in found {
        trees.push(bare_tree(alloc, &entry.inode)?)?;
    }
    Ok(trees)
}

// Moves the last tree under its name into the directory that names it.
fn move_up(trees: &mut Vec<Tree>, child: Found<'_>) -> Result<(), NoMemory>
    requires { Lacks trees.old.items child.up child.name }
    ensures { OnOk result (IsMovedUp trees.old.items trees.new.items child.entry.up child.entry.name) }
{
    let Some(tree) = trees.pop() else {
        unreachable!()
    };
    let above = &mut trees[child.up];
    above.put(child.name, tree)
}

/// The tree of what was found, put together from its leaves on. It takes memory for the tree, and moves each tree
/// once.
pub(crate) fn assemble<'a>(
    alloc: Global,
    top: &Inode<'a>,
    mut found: Vec<Found<'a>>,
) -> Result<Tree, ImageFault>
    requires { IsTreeOf top.now.block.image top.now found.items }
    ensures reads { IfOk result (ReadsAs (flat_found top.now found.entry.items) 0) }
    ensures damaged { IfErr result (IsTrueOf (image_at top.now.block.image)) }
{
    names_stand_for_trees();
    directories_stay_well_formed();
    let mut trees = bare_trees(alloc, top, &found)?;
    while let Some(child) = found.pop() {
        move_up(&mut trees, child)?;
    }
    let Some(tree) = trees.pop() else {
        unreachable!()
    };
    Ok(tree)
}
