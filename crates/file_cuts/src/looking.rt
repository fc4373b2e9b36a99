// The blocks of a file on the way to content past an end.
ghost use Rattle.std.specs.Prelude.{ℕ, ◌≡◌, ◌⊎◌, ◌+◌, ◌^◌, ◌<◌, ◌≤◌};
ghost use Rattle.gfs2_layout.specs.Holding.{Holding};
ghost use Rattle.glock_names.specs.Steps.{IfIs, IfNeedBlock, OnlyDamaged};
ghost use Rattle.glock_names.specs.Views.{IsOfView};
ghost use Rattle.dinode_tree.specs.Broken.{IsBroken};
ghost use Rattle.dinode_tree.specs.Reading.{IsNeeded};
ghost use Rattle.dinode_tree.specs.Shown.{IsShown};
ghost use Rattle.growth_laws.specs.Files.{IsFile};
ghost use Rattle.file_cuts.specs.Progress.{IsSeenOver};

use crate::places::behind_hole;
use file_walks::find_place;
use glock_names::{CallFault, Step, View};

/// Looks whether the view has the indirect blocks on the way to each block of content from an index on up to another, and at least to the
/// first of them.
pub(crate) fn look_past<V: View>(
    view: &V,
    inode: u64,
    end: u64,
    count: u64,
) -> Result<Step<()>, CallFault>
    requires low { end < 2 ^ 63 }
    ensures seen { (h : Holding) (i : ℕ) → IsFile h → IsShown (V.seen view.now) inode h → end ≤ i → (i ≡ end) ⊎ (i < count) → IfIs result (λ done. IsSeenOver (V.seen view.now) h i) }
    ensures needed { (h : Holding) → IsShown (V.seen view.now) inode h → IfNeedBlock result (IsNeeded (V.seen view.now) h (λ i. end ≤ i) 1) }
    ensures damaged { (h : Holding) → IsShown (V.seen view.now) inode h → OnlyDamaged result (IsBroken h) }
    ensures kept { OnlyDamaged result (IsOfView (V.seen view.now)) }
{
    let size = view.block_size() as usize;
    let mut index = end;
    while index == end || index < count {
        match find_place(view, inode, 0, index)? {
            Step::Is(Some(stop)) => index = behind_hole(size, stop.level, index),
            Step::Is(None) => return Ok(Step::Is(())),
            Step::NeedBlock(missing) => return Ok(Step::NeedBlock(missing)),
        }
    }
    Ok(Step::Is(()))
}
