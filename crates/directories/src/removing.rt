// A name taken from a directory in a draft.
ghost use Rattle.std.specs.Prelude.{◌≡◌, None, true};
ghost use Rattle.gfs2_layout.specs.Holding.{Holding};
ghost use Rattle.gfs2_layout.specs.Inode.{is_hashed_in};
ghost use Rattle.drafts.specs.Fates.{seen_in};
ghost use Rattle.glock_names.specs.Steps.{IfIs, IfNeedBlock, IfDamaged};
ghost use Rattle.glock_names.specs.Views.{HasBlock, IsOfView};
ghost use Rattle.directories.specs.Shown.{IsBroken, IsDirectoryIn, IsNeededFor, IsShown};
ghost use Rattle.directories.specs.Taking.{HasNameIn, IsWithoutName, PutsTwo};

use crate::looking::is_hashed;
use dinode_tree::read_dinode;
use drafts::Draft;
use glock_names::{CallFault, Step, View};
use tree_tables::TreeTable;

// The same of a hashed directory.
fn remove_hashed<V: View>(
    draft: &mut Draft<'_, V>,
    dir: u64,
    name: &[u8],
) -> Result<Step<u64>, CallFault>
    requires hashed { (h : Holding) → IsShown (seen_in V.seen draft.old) dir h → is_hashed_in h ≡ true }
    requires named { HasNameIn (seen_in V.seen draft.old) dir name.now }
    requires there { HasBlock (seen_in V.seen draft.old) dir }
    ensures taken { IfIs result (IsWithoutName (seen_in V.seen draft.old) (seen_in V.seen draft.new) dir name.now) }
    ensures two { IfIs result (PutsTwo V.seen draft.old draft.new dir) }
    ensures needed { (h : Holding) → IsShown (seen_in V.seen draft.old) dir h → IfNeedBlock result (IsNeededFor (seen_in V.seen draft.old) h name.now) }
    ensures absent { IfNeedBlock result (λ missing. (seen_in V.seen draft.old).block_at missing.block ≡ None) }
    ensures waits { IfNeedBlock result (λ missing. draft.new ≡ draft.old) }
    ensures damaged { (h : Holding) → IsShown (seen_in V.seen draft.old) dir h → IfDamaged result (IsBroken (seen_in V.seen draft.old) h) }
    ensures kept { IfDamaged result (IsOfView (seen_in V.seen draft.old)) }
    ensures stays { IfDamaged result (λ rule block. draft.new ≡ draft.old) }
{
    let _size = draft.block_size();
    let table = match TreeTable::of(&*draft, dir)? {
        Step::Is(table) => table,
        Step::NeedBlock(missing) => return Ok(Step::NeedBlock(missing)),
    };
    match tree_tables::hashed::remove(draft, dir, name, &table)? {
        Step::Is(Some(leaf)) => Ok(Step::Is(leaf)),
        Step::Is(None) => unreachable!(),
        Step::NeedBlock(missing) => Ok(Step::NeedBlock(missing)),
    }
}

/// Takes a name that is there from the directory with its dinode in this block: the first record of it is cut, and the dinode counts it no more, nor does
/// a leaf that had it. It answers the block that had the record. It looks at what `look` looks at, and that the counts have a number below them. It costs
/// what `look` costs, and two copies of each block that it puts.
pub fn remove<V: View>(
    draft: &mut Draft<'_, V>,
    dir: u64,
    name: &[u8],
) -> Result<Step<u64>, CallFault>
    requires directory { IsDirectoryIn (seen_in V.seen draft.old) dir }
    requires named { HasNameIn (seen_in V.seen draft.old) dir name.now }
    ensures taken { IfIs result (IsWithoutName (seen_in V.seen draft.old) (seen_in V.seen draft.new) dir name.now) }
    ensures two { IfIs result (PutsTwo V.seen draft.old draft.new dir) }
    ensures needed { (h : Holding) → IsShown (seen_in V.seen draft.old) dir h → IfNeedBlock result (IsNeededFor (seen_in V.seen draft.old) h name.now) }
    ensures absent { IfNeedBlock result (λ missing. (seen_in V.seen draft.old).block_at missing.block ≡ None) }
    ensures waits { IfNeedBlock result (λ missing. draft.new ≡ draft.old) }
    ensures damaged { (h : Holding) → IsShown (seen_in V.seen draft.old) dir h → IfDamaged result (IsBroken (seen_in V.seen draft.old) h) }
    ensures kept { IfDamaged result (IsOfView (seen_in V.seen draft.old)) }
    ensures stays { IfDamaged result (λ rule block. draft.new ≡ draft.old) }
{
    let _size = draft.block_size();
    let dinode = match read_dinode(&*draft, dir)? {
        Step::Is(dinode) => dinode,
        Step::NeedBlock(missing) => return Ok(Step::NeedBlock(missing)),
    };
    if is_hashed(&dinode) {
        return remove_hashed(draft, dir, name);
    }
    match linear_dirs::remove(draft, dir, name)? {
        Step::Is(()) => Ok(Step::Is(dir)),
        Step::NeedBlock(missing) => Ok(Step::NeedBlock(missing)),
    }
}
