// The leaves of a hashed directory.
ghost use Rattle.std.specs.Prelude.{ℕ, ◌≡◌, ◌^◌, ◌<◌, ◌≤◌, true};
ghost use Rattle.gfs2_layout.specs.Holding.{Holding};
ghost use Rattle.gfs2_layout.specs.Inode.{depth_in, entry, is_hashed_in, table_count};
ghost use Rattle.image_journals.specs.Adding.{AreAdded, IsLeafOf, IsOnChain};
ghost use Rattle.image_journals.specs.Blocks.{seen_of};
ghost use Rattle.image_journals.specs.Shown.{IfMemory};
ghost use Rattle.image_journals.specs.Sound.{IsDirectoryIn};

use crate::Unfound;
use crate::blocks::ImageBlocks;
use crate::directories::pointer_at;
use crate::leaves::read_leaf;
use std::alloc::Global;

// Adds the leaves of a chain, which begins with this one.
fn add_chain(blocks: &ImageBlocks<'_>, first: u64, leaves: &mut Vec<u64>) -> Result<(), Unfound>
    ensures { (h : Holding) (i : ℕ) → IsDirectoryIn (seen_of blocks.now) h → is_hashed_in h ≡ true → i < table_count h → first ≡ entry h i
        → IfMemory result (λ done. AreAdded leaves.old.items leaves.new.items (IsOnChain h i)) }
{
    let mut leaf = first;
    for _place in 0..blocks.count {
        let part = read_leaf(blocks, leaf)?;
        leaves.push(leaf)?;
        if part.next == 0 {
            return Ok(());
        }
        leaf = part.next;
    }
    // a chain with more leaves than there are blocks comes to one of them again
    Err(Unfound::Broken)
}

// How many pointers a table of this depth has.
fn pointer_count(depth: u16) -> u32
    requires { depth ≤ 15 }
    ensures { result ≡ 2 ^ depth }
{
    1 << depth
}

/// Adds the leaves of the hashed directory with its dinode in this block, whose table is so deep: those of each pointer's chain, one after another.
pub(crate) fn add_leaves(
    alloc: Global,
    blocks: &ImageBlocks<'_>,
    dir: u64,
    depth: u16,
    leaves: &mut Vec<u64>,
) -> Result<(), Unfound>
    ensures { (h : Holding) → IsDirectoryIn (seen_of blocks.now) h → h.own ≡ dir → is_hashed_in h ≡ true → depth ≡ depth_in h
        → IfMemory result (λ done. AreAdded leaves.old.items leaves.new.items (IsLeafOf h)) }
{
    if depth > 15 {
        return Err(Unfound::Broken);
    }
    for index in 0..pointer_count(depth) {
        let first = pointer_at(alloc, blocks, dir, index)?;
        add_chain(blocks, first, leaves)?;
    }
    Ok(())
}
