// The groups of a draft that moves a name: they say which blocks were taken, and which are free.
ghost use Rattle.std.specs.Prelude.{ℕ, ◌++◌, Contains};
ghost use Rattle.glock_names.specs.Steps.{IfDamaged, IfIs, IfNeedBlock};
ghost use Rattle.glock_names.specs.Views.{IsOfView};
ghost use Rattle.resource_groups.specs.Freeing.{BreaksSome, IsNeededFor};
ghost use Rattle.resource_groups.specs.Putting.{HasDataBlock};
ghost use Rattle.name_drafts.specs.Steps.{LeavesGroups};
ghost use Rattle.name_moves.specs.Steps.{AreSaidAndDone};

use crate::losing::is_a_view;
use drafts::{Change, Draft};
use glock_names::{CallFault, Step, View};
use resource_groups::{free_blocks, take_blocks};

/// Says of data blocks that they are in use, and of others that they are free, in their groups, in a draft that left the groups, and ends it.
pub(crate) fn say_and_finish<V: View>(
    mut draft: Draft<'_, V>,
    taken: &[u64],
    freed: &[u64],
) -> Result<Step<Change>, CallFault>
    requires taken { (b : ℕ) → Contains taken.now b → HasDataBlock (V.seen draft.view) b }
    requires freed { (b : ℕ) → Contains freed.now b → HasDataBlock (V.seen draft.view) b }
    requires groups { LeavesGroups (V.seen draft.view) draft.fates }
    ensures said { IfIs result (AreSaidAndDone (V.seen draft.entry.view) draft.entry.fates taken.now freed.now) }
    ensures needed { IfNeedBlock result (IsNeededFor (V.seen draft.entry.view) (taken.now ++ freed.now)) }
    ensures damaged { IfDamaged result (BreaksSome (V.seen draft.entry.view) (taken.now ++ freed.now)) }
    ensures kept { IfDamaged result (IsOfView (V.seen draft.entry.view)) }
{
    is_a_view(&draft);
    match take_blocks(&mut draft, taken)? {
        Step::Is(()) => {}
        Step::NeedBlock(missing) => return Ok(Step::NeedBlock(missing)),
    }
    is_a_view(&draft);
    match free_blocks(&mut draft, freed)? {
        Step::Is(()) => {}
        Step::NeedBlock(missing) => return Ok(Step::NeedBlock(missing)),
    }
    Ok(Step::Is(draft.finish()?))
}
