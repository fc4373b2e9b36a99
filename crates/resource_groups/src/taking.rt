// One state put at several data blocks in a draft.
ghost use Rattle.std.specs.Prelude.{ℕ, List, ◌∷◌, ◌<◌, [], Contains};
ghost use Rattle.glock_names.specs.Steps.{IfIs, IfNeedBlock, IfDamaged};
ghost use Rattle.glock_names.specs.Views.{HasGroup, IsOfView, IsView};
ghost use Rattle.glock_names.specs.declared.views.Group.{Group};
ghost use Rattle.resource_groups.specs.Shown.{IsShown, IsDataOf, IsBroken};
ghost use Rattle.drafts.specs.Fates.{seen_in};
ghost use Rattle.resource_groups.specs.Putting.{IsOneOfTwo, HasDataBlock};
ghost use Rattle.resource_groups.specs.Freeing.{IsNeededFor, BreaksSome};
ghost use Rattle.resource_groups.specs.Taking.{AreSet, AreTaken, KeepsBlocks};

use crate::putting::set_state;
use drafts::Draft;
use glock_names::{CallFault, Step, View};

// Puts the state of one data block.
fn set_one<V: View>(draft: &mut Draft<'_, V>, block: u64, state: u8) -> Result<Step<()>, CallFault>
    requires block { HasDataBlock (seen_in V.seen draft.old) block }
    requires state { state < 4 }
    ensures set { IfIs result (λ done. AreSet V.seen draft.old draft.new (block ∷ []) state) }
    ensures rest { KeepsBlocks V.seen draft.old draft.new (block ∷ []) }
    ensures needed { (g : Group) → HasGroup (seen_in V.seen draft.old) g → IsDataOf g block → IfNeedBlock result (IsOneOfTwo (seen_in V.seen draft.old) g block) }
    ensures damaged { (g : Group) (at : ℕ → List ℕ) → HasGroup (seen_in V.seen draft.old) g → IsDataOf g block → IsShown (seen_in V.seen draft.old) g at → IfDamaged result (IsBroken at g) }
    ensures kept { IfDamaged result (IsOfView (seen_in V.seen draft.old)) }
    ensures view { IsView (seen_in V.seen draft.old) }
{
    set_state(draft, block, state)
}

// Puts a state at data blocks of the view's groups, one after another.
pub(crate) fn set_states<V: View>(
    draft: &mut Draft<'_, V>,
    blocks: &[u64],
    state: u8,
) -> Result<Step<()>, CallFault>
    requires blocks { (b : ℕ) → Contains blocks.now b → HasDataBlock (seen_in V.seen draft.old) b }
    requires state { state < 4 }
    ensures set { IfIs result (λ done. AreSet V.seen draft.old draft.new blocks.now state) }
    ensures rest { KeepsBlocks V.seen draft.old draft.new blocks.now }
    ensures needed { IfNeedBlock result (IsNeededFor (seen_in V.seen draft.old) blocks.now) }
    ensures damaged { IfDamaged result (BreaksSome (seen_in V.seen draft.old) blocks.now) }
    ensures kept { IfDamaged result (IsOfView (seen_in V.seen draft.old)) }
    ensures view { IsView (seen_in V.seen draft.old) }
{
    let _size = draft.block_size();
    for block in blocks {
        match set_one(draft, *block, state)? {
            Step::Is(()) => {}
            Step::NeedBlock(missing) => return Ok(Step::NeedBlock(missing)),
        }
    }
    Ok(Step::Is(()))
}

/// Takes data blocks of the view's groups, which were free: the bits of each say that it is in use, and the counts in its group's
/// header follow. What becomes of the blocks themselves stays. It costs what `set_state` costs for each block. Where a block is
/// needed, a rule is broken or memory ends, those before have been taken.
pub fn take_blocks<V: View>(draft: &mut Draft<'_, V>, blocks: &[u64]) -> Result<Step<()>, CallFault>
    requires blocks { (b : ℕ) → Contains blocks.now b → HasDataBlock (seen_in V.seen draft.old) b }
    ensures taken { IfIs result (λ done. AreTaken V.seen draft.old draft.new blocks.now) }
    ensures rest { KeepsBlocks V.seen draft.old draft.new blocks.now }
    ensures needed { IfNeedBlock result (IsNeededFor (seen_in V.seen draft.old) blocks.now) }
    ensures damaged { IfDamaged result (BreaksSome (seen_in V.seen draft.old) blocks.now) }
    ensures kept { IfDamaged result (IsOfView (seen_in V.seen draft.old)) }
{
    set_states(draft, blocks, 1)
}
