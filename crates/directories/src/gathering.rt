// The leaves of a hashed directory.
ghost use Rattle.std.specs.Prelude.{ℕ, ◌≡◌, Contains, None, true};
ghost use Rattle.gfs2_layout.specs.Holding.{Holding};
ghost use Rattle.gfs2_layout.specs.Inode.{is_hashed_in};
ghost use Rattle.glock_names.specs.Steps.{IfIs, IfNeedBlock, IfDamaged};
ghost use Rattle.glock_names.specs.Views.{IsOfView};
ghost use Rattle.resource_groups.specs.Putting.{HasDataBlock};
ghost use Rattle.tree_tables.specs.Leaves.{AreLeaves};
ghost use Rattle.directories.specs.Shown.{CountsItsLeaves, IsBroken, IsNeededForAll, IsShown};

use dinode_tree::read_dinode;
use glock_names::{CallFault, Step, View};
use std::alloc::Global;
use tree_tables::TreeTable;
use tree_tables::hashed::{all_leaves, have_records};

/// The blocks of the leaves of the hashed directory with its dinode in this block, each once. It looks that its dinode counts the records in them. It
/// costs what `all_leaves` costs, and a step for each record; memory for the list.
pub fn counted_leaves<V: View>(
    alloc: Global,
    view: &V,
    dir: u64,
) -> Result<Step<Vec<u64>>, CallFault>
    requires { (h : Holding) → IsShown (V.seen view.now) dir h → is_hashed_in h ≡ true }
    ensures found { (h : Holding) → IsShown (V.seen view.now) dir h → IfIs result (λ leaves. AreLeaves h leaves.items) }
    ensures counted { (h : Holding) → IsShown (V.seen view.now) dir h → IfIs result (λ leaves. CountsItsLeaves h) }
    ensures inside { IfIs result (λ leaves. (x : ℕ) → Contains leaves.items x → HasDataBlock (V.seen view.now) x) }
    ensures needed { (h : Holding) → IsShown (V.seen view.now) dir h → IfNeedBlock result (IsNeededForAll (V.seen view.now) h) }
    ensures absent { IfNeedBlock result (λ missing. (V.seen view.now).block_at missing.block ≡ None) }
    ensures damaged { (h : Holding) → IsShown (V.seen view.now) dir h → IfDamaged result (IsBroken (V.seen view.now) h) }
    ensures kept { IfDamaged result (IsOfView (V.seen view.now)) }
{
    let dinode = match read_dinode(view, dir)? {
        Step::Is(dinode) => dinode,
        Step::NeedBlock(missing) => return Ok(Step::NeedBlock(missing)),
    };
    let table = match TreeTable::of(view, dir)? {
        Step::Is(table) => table,
        Step::NeedBlock(missing) => return Ok(Step::NeedBlock(missing)),
    };
    let leaves = match all_leaves(alloc, view, dir, &table)? {
        Step::Is(leaves) => leaves,
        Step::NeedBlock(missing) => return Ok(Step::NeedBlock(missing)),
    };
    if !have_records(view, dir, &leaves, dinode.entries) {
        return Err(CallFault::Damaged {
            block: dir,
            rule: 12,
        });
    }
    Ok(Step::Is(leaves))
}
