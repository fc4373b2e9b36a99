// The blocks that go with an inode.
ghost use Rattle.std.specs.Prelude.{ℕ, ◌≡◌, ◌↔◌, ◌⊎◌, Contains, IfNone, IfOk, IfSome, map, true};
ghost use Rattle.gfs2_layout.specs.Holding.{Holding};
ghost use Rattle.gfs2_layout.specs.Inode.{dinode_in, is_hashed_in};
ghost use Rattle.glock_names.specs.Steps.{IfIs, IfNeedBlock, IfDamaged};
ghost use Rattle.glock_names.specs.Views.{HasBlock, IsOfView};
ghost use Rattle.dinode_tree.specs.Below.{AnyIndex, IsBelow};
ghost use Rattle.dinode_tree.specs.Reading.{IsNeeded};
ghost use Rattle.dinode_tree.specs.Shown.{IsShown};
ghost use Rattle.dinode_tree.specs.declared.below.PointedBlock.{PointedBlock};
ghost use Rattle.resource_groups.specs.Putting.{HasDataBlock};
ghost use Rattle.directories.specs.Shown.{CountsItsLeaves};
ghost use Rattle.directories.specs.Shown as dirs;
ghost use Rattle.removing_calls.specs.Removing.{AreAllOf, IsNeededOf, IsWrongBelow};

use crate::aims::is_hashed_directory;
use dinode_tree::{PointedBlock, blocks_below};
use directories::counted_leaves;
use gfs2_layout::Dinode;
use glock_names::{CallFault, Step, View};
use no_memory::NoMemory;
use resource_groups::group_of;
use std::alloc::Global;

// The first of these blocks that is no data block of a group of the view; None where all are.
fn stray_block<V: View>(view: &V, below: &[PointedBlock]) -> Option<PointedBlock>
    ensures some { IfSome result (λ p. Contains below.now p × (¬ (HasDataBlock (V.seen view.now) p.block))) }
    ensures none { IfNone result ((p : PointedBlock) → Contains below.now p → HasDataBlock (V.seen view.now) p.block) }
{
    for pointed in below {
        if group_of(view, pointed.block).is_none() {
            return Some(*pointed);
        }
    }
    None
}

// The numbers of these blocks.
fn numbers_of(alloc: Global, below: &[PointedBlock]) -> Result<Vec<u64>, NoMemory>
    ensures { IfOk result (λ numbers. numbers.items ≡ map (λ (p : PointedBlock). p.block) below.now) }
{
    Ok(below.iter().map(|pointed| pointed.block).collect(alloc)?)
}

// The blocks of an inode, its dinode's among them, but for the leaves of a hashed directory, each a data block of a group.
fn tree_blocks<V: View>(alloc: Global, view: &V, inode: u64) -> Result<Step<Vec<u64>>, CallFault>
    requires inside { HasDataBlock (V.seen view.now) inode }
    ensures all { (h : Holding) → IsShown (V.seen view.now) inode h → IfIs result (λ blocks. (b : ℕ) → Contains blocks.items b ↔ ((b ≡ h.own) ⊎ IsBelow h b)) }
    ensures inside { IfIs result (λ blocks. (b : ℕ) → Contains blocks.items b → HasDataBlock (V.seen view.now) b) }
    ensures needed { (h : Holding) → IsShown (V.seen view.now) inode h → IfNeedBlock result (IsNeeded (V.seen view.now) h AnyIndex 1) }
    ensures damaged { IfDamaged result (IsWrongBelow (V.seen view.now) inode) }
    ensures kept { IfDamaged result (IsOfView (V.seen view.now)) }
{
    let below = match blocks_below(alloc, view, inode)? {
        Step::Is(below) => below,
        Step::NeedBlock(missing) => return Ok(Step::NeedBlock(missing)),
    };
    if let Some(stray) = stray_block(view, &below) {
        return Err(CallFault::Damaged {
            block: stray.from,
            rule: 2,
        });
    }
    let mut blocks = numbers_of(alloc, &below)?;
    blocks.push(inode)?;
    Ok(Step::Is(blocks))
}

/// The blocks of an inode, its dinode's among them, each a data block of a group; those of a hashed directory with its leaves, whose records its dinode
/// counts. It costs what `blocks_below` costs, and for each block goes over the groups; of a hashed directory what `counted_leaves` costs.
pub fn blocks_of<V: View>(
    alloc: Global,
    view: &V,
    inode: u64,
    dinode: &Dinode,
) -> Result<Step<Vec<u64>>, CallFault>
    requires inside { HasDataBlock (V.seen view.now) inode }
    requires there { HasBlock (V.seen view.now) inode }
    requires dinode { (h : Holding) → IsShown (V.seen view.now) inode h → dinode.now ≡ dinode_in h }
    ensures all { IfIs result (λ blocks. AreAllOf (V.seen view.now) inode blocks.items) }
    ensures inside { IfIs result (λ blocks. (b : ℕ) → Contains blocks.items b → HasDataBlock (V.seen view.now) b) }
    ensures counted { (h : Holding) → dirs.IsShown (V.seen view.now) inode h → is_hashed_in h ≡ true → IfIs result (λ blocks. CountsItsLeaves h) }
    ensures needed { IfNeedBlock result (IsNeededOf (V.seen view.now) inode) }
    ensures damaged { IfDamaged result (IsWrongBelow (V.seen view.now) inode) }
    ensures kept { IfDamaged result (IsOfView (V.seen view.now)) }
{
    let mut blocks = match tree_blocks(alloc, view, inode)? {
        Step::Is(blocks) => blocks,
        Step::NeedBlock(missing) => return Ok(Step::NeedBlock(missing)),
    };
    if !is_hashed_directory(dinode) {
        return Ok(Step::Is(blocks));
    }
    let leaves = match counted_leaves(alloc, view, inode)? {
        Step::Is(leaves) => leaves,
        Step::NeedBlock(missing) => return Ok(Step::NeedBlock(missing)),
    };
    blocks.extend_from_slice(&leaves)?;
    Ok(Step::Is(blocks))
}
