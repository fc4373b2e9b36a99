// Data blocks freed in a draft.
ghost use Rattle.std.specs.Prelude.{ℕ, List, ◌≡◌, Some, Contains, OnOk};
ghost use Rattle.std.specs.FinMap.{get};
ghost use Rattle.glock_names.specs.Steps.{IfIs, IfNeedBlock, IfDamaged};
ghost use Rattle.glock_names.specs.Views.{IsOfView};
ghost use Rattle.drafts.specs.Fates.{seen_in};
ghost use Rattle.drafts.specs.declared.fate.Fate.TheVariants.{Freed};
ghost use Rattle.resource_groups.specs.Putting.{HasDataBlock};
ghost use Rattle.resource_groups.specs.Freeing.{AreFreed, KeepsRest, KeepsAllBut, IsNeededFor, BreaksSome};

use crate::taking::set_states;
use drafts::Draft;
use glock_names::{CallFault, Step, View};
use no_memory::NoMemory;

// Frees each of these blocks in the draft.
fn free_each<V: View>(draft: &mut Draft<'_, V>, blocks: &[u64]) -> Result<(), NoMemory>
    ensures freed { OnOk result ((b : ℕ) → Contains blocks.now b → get draft.new.fates b ≡ Some Freed) }
    ensures rest { KeepsAllBut draft.old draft.new blocks.now }
{
    for block in blocks {
        draft.free(*block)?;
    }
    Ok(())
}

/// Frees data blocks of the view's groups: the bits of each say so, the counts in its group's header follow, and the draft
/// frees it. It costs what `set_state` costs for each block. Where a block is needed or a rule is broken, the bits of those before say
/// so; where memory ends, some may have been freed too.
pub fn free_blocks<V: View>(draft: &mut Draft<'_, V>, blocks: &[u64]) -> Result<Step<()>, CallFault>
    requires blocks { (b : ℕ) → Contains blocks.now b → HasDataBlock (seen_in V.seen draft.old) b }
    ensures freed { IfIs result (λ done. AreFreed V.seen draft.old draft.new blocks.now) }
    ensures rest { KeepsRest V.seen draft.old draft.new blocks.now }
    ensures needed { IfNeedBlock result (IsNeededFor (seen_in V.seen draft.old) blocks.now) }
    ensures damaged { IfDamaged result (BreaksSome (seen_in V.seen draft.old) blocks.now) }
    ensures kept { IfDamaged result (IsOfView (seen_in V.seen draft.old)) }
{
    match set_states(draft, blocks, 0)? {
        Step::Is(()) => {
            free_each(draft, blocks)?;
            Ok(Step::Is(()))
        }
        Step::NeedBlock(missing) => Ok(Step::NeedBlock(missing)),
    }
}
