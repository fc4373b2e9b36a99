// Whether a view has every block of a hashed directory's table.
ghost use Rattle.std.specs.Prelude.{ℕ, ◌≡◌, None, Contains, IfNone, IfSome, MatchOption};
ghost use Rattle.gfs2_layout.specs.Holding.{Holding};
ghost use Rattle.gfs2_layout.specs.Inode.{dinode_in};
ghost use Rattle.glock_names.specs.Steps.{IfDamaged, IfIs, IfNeedBlock};
ghost use Rattle.glock_names.specs.Views.{HasBlock, IsOfView};
ghost use Rattle.dinode_tree.specs.Below.{AnyIndex, IsBelow};
ghost use Rattle.dinode_tree.specs.Reading.{IsNeeded};
ghost use Rattle.dinode_tree.specs.declared.below.PointedBlock.{PointedBlock as Pointed};
ghost use Rattle.resource_groups.specs.Putting.{HasDataBlock};
ghost use Rattle.hash_steps.specs.Shown.{IsShown};
ghost use Rattle.hash_inserts.specs.Drafting.{SeesTree};
ghost use Rattle.hash_inserts.specs.Inserting.{IsWrongToInsert};

use dinode_tree::{PointedBlock, blocks_below, every_view_shows_an_inode, read_dinode};
use gfs2_layout::Dinode;
use glock_names::{CallFault, Missing, Step, View, block_of};
use hash_steps::damaged;
use linear_dirs::lock_of;
use resource_groups::group_of;
use std::alloc::Global;

// The first of some blocks that the view hasn't.
fn first_missing<V: View>(view: &V, blocks: &[PointedBlock]) -> Option<PointedBlock>
    ensures { MatchOption result ((p : Pointed) → Contains blocks.now p → HasBlock (V.seen view.now) p.block) (λ p. Contains blocks.now p × ((V.seen view.now).block_at p.block ≡ None)) }
{
    for pointed in blocks {
        let Some(_bytes) = block_of(view, pointed.block) else {
            return Some(*pointed);
        };
    }
    None
}

// The first of some blocks that is no data block of a group of the view.
fn first_stray<V: View>(view: &V, blocks: &[PointedBlock]) -> Option<PointedBlock>
    ensures some { IfSome result (λ p. Contains blocks.now p × (¬ (HasDataBlock (V.seen view.now) p.block))) }
    ensures none { IfNone result ((p : Pointed) → Contains blocks.now p → HasDataBlock (V.seen view.now) p.block) }
{
    for pointed in blocks {
        if group_of(view, pointed.block).is_none() {
            return Some(*pointed);
        }
    }
    None
}

/// Looks that a view has the dinode of the hashed directory in this block, and every block to which its pointers lead, each a data block of a
/// group: the first that isn't there it asks for. The answer is the dinode. It costs a look into the view for each, a look at the groups, and
/// memory for their list.
pub(crate) fn see_table<V: View>(
    alloc: Global,
    view: &V,
    dir: u64,
) -> Result<Step<Dinode>, CallFault>
    ensures dinode { (h : Holding) → IsShown (V.seen view.now) dir h → IfIs result (λ dinode. dinode ≡ dinode_in h) }
    ensures seen { (h : Holding) → IsShown (V.seen view.now) dir h → IfIs result (λ dinode. SeesTree (V.seen view.now) h) }
    ensures inside { (h : Holding) → IsShown (V.seen view.now) dir h → IfIs result (λ dinode. (b : ℕ) → IsBelow h b → HasDataBlock (V.seen view.now) b) }
    ensures needed { (h : Holding) → IsShown (V.seen view.now) dir h → IfNeedBlock result (IsNeeded (V.seen view.now) h AnyIndex 0) }
    ensures absent { IfNeedBlock result (λ missing. (V.seen view.now).block_at missing.block ≡ None) }
    ensures damaged { (h : Holding) → IsShown (V.seen view.now) dir h → IfDamaged result (IsWrongToInsert (V.seen view.now) h) }
    ensures kept { IfDamaged result (IsOfView (V.seen view.now)) }
{
    every_view_shows_an_inode();
    let _size = view.block_size();
    let dinode = match read_dinode(view, dir)? {
        Step::Is(dinode) => dinode,
        Step::NeedBlock(missing) => return Ok(Step::NeedBlock(missing)),
    };
    let blocks = match blocks_below(alloc, view, dir)? {
        Step::Is(blocks) => blocks,
        Step::NeedBlock(missing) => return Ok(Step::NeedBlock(missing)),
    };
    if let Some(stray) = first_stray(view, &blocks) {
        return Err(damaged(stray.from, 2));
    }
    match first_missing(view, &blocks) {
        None => Ok(Step::Is(dinode)),
        Some(pointed) => Ok(Step::NeedBlock(Missing {
            lock: lock_of(dir),
            block: pointed.block,
            plain: false,
            from: pointed.from,
        })),
    }
}
