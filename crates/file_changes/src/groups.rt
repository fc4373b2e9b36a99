// What is wrong with the groups of some blocks, told of the view itself.
ghost use Rattle.std.specs.Prelude.{ℕ, ◌≡◌, false, Contains};
ghost use Rattle.glock_names.specs.Steps.{IfIs, IfNeedBlock, IfDamaged};
ghost use Rattle.glock_names.specs.Views.{IsOfView};
ghost use Rattle.resource_groups.specs.Freeing.{BreaksSome, IsNeededFor};
ghost use Rattle.resource_groups.specs.Putting.{HasDataBlock};

use drafts::Draft;
use glock_names::{CallFault, Step, View};
use resource_groups::free_blocks;
use std::alloc::Global;

/// Tells what is damaged or missing in the view's groups of these blocks; the answer, where nothing is, is false. It costs what
/// `free_blocks` costs in a draft of its own, which is dropped.
pub(crate) fn tell_groups<V: View>(
    alloc: Global,
    view: &V,
    blocks: &[u64],
) -> Result<Step<bool>, CallFault>
    requires inside { (b : ℕ) → Contains blocks.now b → HasDataBlock (V.seen view.now) b }
    ensures not { IfIs result (λ done. done ≡ false) }
    ensures needed { IfNeedBlock result (IsNeededFor (V.seen view.now) blocks.now) }
    ensures damaged { IfDamaged result (BreaksSome (V.seen view.now) blocks.now) }
    ensures kept { IfDamaged result (IsOfView (V.seen view.now)) }
{
    let mut draft = Draft::new(alloc, view);
    match free_blocks(&mut draft, blocks)? {
        Step::Is(()) => Ok(Step::Is(false)),
        Step::NeedBlock(missing) => Ok(Step::NeedBlock(missing)),
    }
}
