ghost use Rattle.std.specs.Prelude.{◌≡◌, ◌≢◌, ◌⊎◌, true, None};
ghost use Rattle.gfs2_layout.specs.Headers.{HasHeader};
ghost use Rattle.gfs2_layout.specs.Structures.{is_directory, is_regular};
ghost use Rattle.gfs2_layout.specs.Holding.{Holding};
ghost use Rattle.gfs2_layout.specs.Inode.{Fits};
ghost use Rattle.glock_names.specs.Steps.{IfIs, IfNeedBlock, OnlyDamaged};
ghost use Rattle.dinode_tree.specs.Shown.{IsShown};
ghost use Rattle.glock_names.specs.Views.{IsOfView};
ghost use Rattle.dinode_tree.specs.Broken.{IsBroken};
ghost use Rattle.dinode_tree.specs.Walking.{held, IsIn, missing_dinode};

use crate::blocks::lock_of;
use crate::inode::Inode;
use glock_names::{CallFault, Missing, Step, View, block_of};

/// Looks at a dinode: at its header, its address and number, its mode, and whether its size fits it or its height.
pub(crate) fn look<V: View>(view: &V, dinode: u64) -> Result<Step<Inode<'_>>, CallFault>
    ensures block { IfIs result (λ inode. inode.block ≡ dinode) }
    ensures seen { IfIs result (λ inode. IsIn (V.seen view.now) inode) }
    ensures header { IfIs result (λ inode. HasHeader 4 400 inode.bytes.now) }
    ensures address { IfIs result (λ inode. inode.dinode.num.address ≡ dinode) }
    ensures number { IfIs result (λ inode. inode.dinode.num.number ≢ 0) }
    ensures mode { IfIs result (λ inode. (is_directory inode.dinode ≡ true) ⊎ (is_regular inode.dinode ≡ true)) }
    ensures fits { IfIs result (λ inode. Fits (held inode)) }
    ensures needed { IfNeedBlock result (λ missing. missing ≡ missing_dinode dinode) }
    ensures absent { IfNeedBlock result (λ missing. (V.seen view.now).block_at dinode ≡ None) }
    ensures damaged { (h : Holding) → IsShown (V.seen view.now) dinode h → OnlyDamaged result (IsBroken h) }
    ensures kept { OnlyDamaged result (IsOfView (V.seen view.now)) }
{
    let Some(bytes) = block_of(view, dinode) else {
        return Ok(Step::NeedBlock(Missing {
            lock: lock_of(dinode),
            block: dinode,
            plain: false,
            from: dinode,
        }));
    };
    let inode = Inode::read(dinode, bytes)?;
    inode.check_number()?;
    inode.check_mode()?;
    inode.check_fits()?;
    Ok(Step::Is(inode))
}
