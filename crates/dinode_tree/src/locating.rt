ghost use Rattle.std.specs.Prelude.{ℕ, ◌≡◌, None, IfSome};
ghost use Rattle.std.specs.Option.{option_map};
ghost use Rattle.gfs2_layout.specs.Holding.{Holding};
ghost use Rattle.gfs2_layout.specs.Inode.{Leads, dinode_in, Fits};
ghost use Rattle.glock_names.specs.Steps.{IfIs, IfNeedBlock, OnlyDamaged};
ghost use Rattle.dinode_tree.specs.Shown.{IsShown};
ghost use Rattle.glock_names.specs.Views.{HasBlock, IsOfView};
ghost use Rattle.dinode_tree.specs.Broken.{IsBroken};
ghost use Rattle.dinode_tree.specs.Walking.{IsIn, missing_dinode};
ghost use Rattle.dinode_tree.specs.Reading.{block_at, IsHeadedWay, IsNeeded, IsRightDinode};

use crate::inode::Inode;
use crate::links::find;
use crate::looks::look;
use gfs2_layout::Dinode;
use glock_names::{CallFault, Step, View};

/// A block of content, and the block in which its number stands.
#[derive(Clone, Copy, Debug, PartialEq, Eq)]
pub struct Located {
    pub block: u64,
    pub from: u64,
}

/// What a dinode says that has its header, its own address and a number, whose mode is one, and whose size fits it or its
/// height. It looks at them in this order.
pub fn read_dinode<V: View>(view: &V, dinode: u64) -> Result<Step<Dinode>, CallFault>
    ensures found { (h : Holding) → IsShown (V.seen view.now) dinode h → IfIs result (λ d. d ≡ dinode_in h) }
    ensures fits { (h : Holding) → IsShown (V.seen view.now) dinode h → IfIs result (λ d. Fits h) }
    ensures right { (h : Holding) → IsShown (V.seen view.now) dinode h → IfIs result (λ d. IsRightDinode h) }
    ensures there { IfIs result (λ d. HasBlock (V.seen view.now) dinode) }
    ensures needed { IfNeedBlock result (λ missing. missing ≡ missing_dinode dinode) }
    ensures absent { IfNeedBlock result (λ missing. (V.seen view.now).block_at dinode ≡ None) }
    ensures damaged { (h : Holding) → IsShown (V.seen view.now) dinode h → OnlyDamaged result (IsBroken h) }
    ensures kept { OnlyDamaged result (IsOfView (V.seen view.now)) }
{
    match look(view, dinode)? {
        Step::Is(inode) => Ok(Step::Is(inode.dinode)),
        Step::NeedBlock(missing) => Ok(Step::NeedBlock(missing)),
    }
}

// The block of content with this index.
fn located_in<V: View>(
    view: &V,
    inode: &Inode<'_>,
    index: u64,
) -> Result<Step<Option<Located>>, CallFault>
    requires { IsIn (V.seen view.now) inode.now }
    ensures found { (h : Holding) → IsShown (V.seen view.now) inode.now.block h → IfIs result (λ found. option_map (λ (l : Located). l.block) found ≡ block_at h index) }
    ensures leads { (h : Holding) → IsShown (V.seen view.now) inode.now.block h → IfIs result (λ found. IfSome found (λ l. (k : ℕ) × Leads h l.from k 0 index l.block)) }
    ensures headed { (h : Holding) → IsShown (V.seen view.now) inode.now.block h → IfIs result (λ found. IfSome found (λ l. IsHeadedWay h index)) }
    ensures needed { (h : Holding) → IsShown (V.seen view.now) inode.now.block h → IfNeedBlock result (IsNeeded (V.seen view.now) h (λ i. i ≡ index) 1) }
    ensures damaged { (h : Holding) → IsShown (V.seen view.now) inode.now.block h → OnlyDamaged result (IsBroken h) }
    ensures kept { OnlyDamaged result (IsOfView (V.seen view.now)) }
{
    match find(view, inode, index)? {
        Step::Is(Some(link)) => Ok(Step::Is(Some(Located {
            block: link.block,
            from: link.way.from,
        }))),
        Step::Is(None) => Ok(Step::Is(None)),
        Step::NeedBlock(missing) => Ok(Step::NeedBlock(missing)),
    }
}

/// The block of content with this index, as `place` gives it, with the block in which its number stands. Each indirect block
/// on the way to it has its header.
pub fn locate<V: View>(
    view: &V,
    dinode: u64,
    index: u64,
) -> Result<Step<Option<Located>>, CallFault>
    ensures found { (h : Holding) → IsShown (V.seen view.now) dinode h → IfIs result (λ found. option_map (λ (l : Located). l.block) found ≡ block_at h index) }
    ensures leads { (h : Holding) → IsShown (V.seen view.now) dinode h → IfIs result (λ found. IfSome found (λ l. (k : ℕ) × Leads h l.from k 0 index l.block)) }
    ensures headed { (h : Holding) → IsShown (V.seen view.now) dinode h → IfIs result (λ found. IfSome found (λ l. IsHeadedWay h index)) }
    ensures needed { (h : Holding) → IsShown (V.seen view.now) dinode h → IfNeedBlock result (IsNeeded (V.seen view.now) h (λ i. i ≡ index) 1) }
    ensures damaged { (h : Holding) → IsShown (V.seen view.now) dinode h → OnlyDamaged result (IsBroken h) }
    ensures kept { OnlyDamaged result (IsOfView (V.seen view.now)) }
{
    match look(view, dinode)? {
        Step::Is(inode) => located_in(view, &inode, index),
        Step::NeedBlock(missing) => Ok(Step::NeedBlock(missing)),
    }
}
