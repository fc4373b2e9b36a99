// The names of a directory.
ghost use Rattle.std.specs.Prelude.{◌≡◌, None, true};
ghost use Rattle.gfs2_layout.specs.Holding.{Holding};
ghost use Rattle.gfs2_layout.specs.Inode.{is_hashed_in};
ghost use Rattle.glock_names.specs.Steps.{IfIs, IfNeedBlock, IfDamaged};
ghost use Rattle.glock_names.specs.Views.{IsOfView};
ghost use Rattle.directories.specs.Shown.{AreNames, IsBroken, IsDirectoryIn, IsNeededForAll, IsShown};

use crate::looking::is_hashed;
use dinode_tree::read_dinode;
use file_tree::Name;
use glock_names::{CallFault, Step, View};
use std::alloc::Global;
use tree_tables::TreeTable;

// The same of a hashed directory.
fn names_hashed<V: View>(alloc: Global, view: &V, dir: u64) -> Result<Step<Vec<Name>>, CallFault>
    ensures found { (h : Holding) → IsShown (V.seen view.now) dir h → is_hashed_in h ≡ true → IfIs result (λ names. AreNames h names.items) }
    ensures needed { (h : Holding) → IsShown (V.seen view.now) dir h → is_hashed_in h ≡ true → IfNeedBlock result (IsNeededForAll (V.seen view.now) h) }
    ensures absent { IfNeedBlock result (λ missing. (V.seen view.now).block_at missing.block ≡ None) }
    ensures damaged { (h : Holding) → IsShown (V.seen view.now) dir h → is_hashed_in h ≡ true → IfDamaged result (IsBroken (V.seen view.now) h) }
    ensures kept { IfDamaged result (IsOfView (V.seen view.now)) }
{
    let table = match TreeTable::of(view, dir)? {
        Step::Is(table) => table,
        Step::NeedBlock(missing) => return Ok(Step::NeedBlock(missing)),
    };
    tree_tables::hashed::names(alloc, view, dir, &table)
}

/// The names of the directory with its dinode in this block but `.` and `..`. It goes over all its records, those of a hashed one chain after chain,
/// and takes memory for the names.
pub fn names<V: View>(alloc: Global, view: &V, dir: u64) -> Result<Step<Vec<Name>>, CallFault>
    requires directory { IsDirectoryIn (V.seen view.now) dir }
    ensures found { (h : Holding) → IsShown (V.seen view.now) dir h → IfIs result (λ names. AreNames h names.items) }
    ensures needed { (h : Holding) → IsShown (V.seen view.now) dir h → IfNeedBlock result (IsNeededForAll (V.seen view.now) h) }
    ensures absent { IfNeedBlock result (λ missing. (V.seen view.now).block_at missing.block ≡ None) }
    ensures damaged { (h : Holding) → IsShown (V.seen view.now) dir h → IfDamaged result (IsBroken (V.seen view.now) h) }
    ensures kept { IfDamaged result (IsOfView (V.seen view.now)) }
{
    let dinode = match read_dinode(view, dir)? {
        Step::Is(dinode) => dinode,
        Step::NeedBlock(missing) => return Ok(Step::NeedBlock(missing)),
    };
    if is_hashed(&dinode) {
        return names_hashed(alloc, view, dir);
    }
    linear_dirs::names(alloc, view, dir)
}
