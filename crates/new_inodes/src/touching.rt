// The times of an inode whose content or names change.
ghost use Rattle.std.specs.Prelude.{ℕ, List, ◌≡◌, ◌≤◌, false, length, drop, None, Some, Ok, OnOk, OnErr};
ghost use Rattle.std.specs.FinMap.{insert as with_fate};
ghost use Rattle.drafts.specs.declared.fate.Fate.TheVariants.{Put};
ghost use Rattle.gfs2_layout.specs.Holding.{Holding};
ghost use Rattle.gfs2_layout.specs.Structures.{dinode_length, dinode_read};
ghost use Rattle.gfs2_layout.specs.Writing.{dinode_put};
ghost use Rattle.glock_names.specs.Steps.{IfIs, IfNeedBlock, IfDamaged};
ghost use Rattle.glock_names.specs.Views.{HasBlock, IsOfView};
ghost use Rattle.dinode_tree.specs.Broken.{IsBroken};
ghost use Rattle.dinode_tree.specs.Reading.{inode_lock};
ghost use Rattle.dinode_tree.specs.Shown.{IsShown};
ghost use Rattle.dinode_tree.specs.Walking.{missing_dinode};
ghost use Rattle.drafts.specs.Fates.{seen_in};
ghost use Rattle.linear_dirs.specs.Shown.{IsLinearIn, holding_over};
ghost use Rattle.new_inodes.specs.Touched.{IsTouched};

use dinode_tree::{every_view_shows_an_inode, read_dinode};
use drafts::Draft;
use gfs2_layout::Dinode;
use glock_names::{CallFault, Step, View};
use linear_dirs::lock_of;
use no_memory::NoMemory;

/// Puts a dinode into its block, which the draft sees.
pub(crate) fn put_dinode<V: View>(
    draft: &mut Draft<'_, V>,
    inode: u64,
    dinode: &Dinode,
) -> Result<(), NoMemory>
    requires seen { HasBlock (seen_in V.seen draft.old) inode }
    requires room { dinode_length ≤ (V.seen draft.old.view).size }
    ensures put { (bytes : List ℕ) → (seen_in V.seen draft.old).block_at inode ≡ Some bytes
        → OnOk result (draft.new ≡ record draft.old { fates = with_fate draft.old.fates inode (Put (inode_lock inode) false (dinode_put dinode.now bytes)) }) }
    ensures read { (bytes : List ℕ) → (seen_in V.seen draft.old).block_at inode ≡ Some bytes → OnOk result (dinode_read (dinode_put dinode.now bytes) ≡ Ok dinode.now) }
    ensures behind { (bytes : List ℕ) → (seen_in V.seen draft.old).block_at inode ≡ Some bytes → OnOk result (drop dinode_length (dinode_put dinode.now bytes) ≡ drop dinode_length bytes) }
    ensures whole { (bytes : List ℕ) → (seen_in V.seen draft.old).block_at inode ≡ Some bytes → OnOk result (length (dinode_put dinode.now bytes) ≡ (V.seen draft.old.view).size) }
    ensures err { OnErr result (draft.new ≡ draft.old) }
{
    let Some(mut bytes) = draft.copy(inode)? else {
        unreachable!()
    };
    dinode.write(&mut bytes);
    draft.put(lock_of(inode), inode, false, &bytes)
}

/// Puts a time, in seconds, as that of the last change of its content and of itself into the dinode in this block. It looks at what
/// `read_dinode` looks at. It costs two copies of the block.
pub fn touch<V: View>(
    draft: &mut Draft<'_, V>,
    inode: u64,
    time: u64,
) -> Result<Step<()>, CallFault>
    ensures touched { (h : Holding) → IsShown (seen_in V.seen draft.old) inode h → IfIs result (λ done. IsTouched h (holding_over (seen_in V.seen draft.new) h) time) }
    ensures one { IfIs result (λ done. (bytes : List ℕ) × (draft.new ≡ record draft.old { fates = with_fate draft.old.fates inode (Put (inode_lock inode) false bytes) })) }
    ensures there { IfIs result (λ done. HasBlock (seen_in V.seen draft.old) inode) }
    ensures linear { IsLinearIn (seen_in V.seen draft.old) inode → IsLinearIn (seen_in V.seen draft.new) inode }
    ensures needed { IfNeedBlock result (λ missing. missing ≡ missing_dinode inode) }
    ensures absent { IfNeedBlock result (λ missing. (seen_in V.seen draft.old).block_at inode ≡ None) }
    ensures waits { IfNeedBlock result (λ missing. draft.new ≡ draft.old) }
    ensures damaged { (h : Holding) → IsShown (seen_in V.seen draft.old) inode h → IfDamaged result (IsBroken h) }
    ensures kept { IfDamaged result (IsOfView (seen_in V.seen draft.old)) }
    ensures stays { OnErr result (draft.new ≡ draft.old) }
{
    let _size = draft.block_size();
    every_view_shows_an_inode();
    let dinode = match read_dinode(&*draft, inode)? {
        Step::Is(dinode) => dinode,
        Step::NeedBlock(missing) => return Ok(Step::NeedBlock(missing)),
    };
    let touched = Dinode {
        mtime: time,
        ctime: time,
        ..dinode
    };
    put_dinode(draft, inode, &touched)?;
    Ok(Step::Is(()))
}
