// The groups of a draft that makes a name: they say which blocks were taken.
ghost use Rattle.std.specs.Prelude.{ℕ, List, [], ◌∷◌, ◌≡◌, ◌≢◌, false, Contains};
ghost use Rattle.drafts.specs.Fates.{seen_in};
ghost use Rattle.glock_names.specs.Steps.{IfDamaged, IfIs, IfNeedBlock};
ghost use Rattle.glock_names.specs.Views.{HasBlock, HasGroup, IsOfView, IsView};
ghost use Rattle.resource_groups.specs.Freeing.{BreaksSome, IsNeededFor};
ghost use Rattle.resource_groups.specs.Putting.{HasDataBlock};
ghost use Rattle.resource_groups.specs.Shown.{IsBroken, IsDataOf, IsMissing, IsShown, group_lock};
ghost use Rattle.resource_groups.specs.Taking.{AreSet, KeepsBlocks};
ghost use Rattle.name_drafts.specs.Drafting.{IsNextOf};
ghost use Rattle.name_drafts.specs.Steps.{IsNewSaid, IsSaidAndDone, LeavesGroups};

use crate::directory::is_a_view;
use crate::drafting::NewBlock;
use drafts::{Change, Draft};
use glock_names::{CallFault, Group, LockName, Missing, Step, View, block_of};
use resource_groups::{set_state, take_blocks, take_number};
use std::alloc::Global;

// A group's header that isn't there.
fn missing_header(group: &Group) -> Missing
    ensures { result ≡ record { lock = group_lock group.now; block = group.now.addr; plain = false; from = group.now.addr } }
{
    Missing {
        lock: LockName {
            kind: 3,
            number: group.addr,
        },
        block: group.addr,
        plain: false,
        from: group.addr,
    }
}

/// The number that the next new inode of a group gets. It looks whether the view has the group's header. It costs two copies of the header's block.
pub(crate) fn number_of_next<V: View>(
    alloc: Global,
    view: &V,
    group: &Group,
) -> Result<Step<u64>, CallFault>
    requires { HasGroup (V.seen view.now) group.now }
    ensures next { (at : ℕ → List ℕ) → IsShown (V.seen view.now) group.now at → IfIs result (IsNextOf at group.now) }
    ensures some { IfIs result (λ number. number ≢ 0) }
    ensures there { IfIs result (λ number. HasBlock (V.seen view.now) group.now.addr) }
    ensures needed { IfNeedBlock result (IsMissing (V.seen view.now) group.now) }
    ensures which { IfNeedBlock result (λ missing. missing.block ≡ group.now.addr) }
    ensures damaged { (at : ℕ → List ℕ) → IsShown (V.seen view.now) group.now at → IfDamaged result (IsBroken at group.now) }
    ensures kept { IfDamaged result (IsOfView (V.seen view.now)) }
{
    is_a_view(view);
    if block_of(view, group.addr).is_none() {
        return Ok(Step::NeedBlock(missing_header(group)));
    }
    let mut draft = Draft::new(alloc, view);
    take_number(&mut draft, group)
}

// Says that a data block of a group is a dinode.
fn say_dinode<V: View>(draft: &mut Draft<'_, V>, block: u64) -> Result<Step<()>, CallFault>
    requires { HasDataBlock (seen_in V.seen draft.old) block }
    ensures set { IfIs result (λ done. AreSet V.seen draft.old draft.new (block ∷ []) 3) }
    ensures rest { KeepsBlocks V.seen draft.old draft.new (block ∷ []) }
    ensures needed { IfNeedBlock result (IsNeededFor (seen_in V.seen draft.old) (block ∷ [])) }
    ensures damaged { IfDamaged result (BreaksSome (seen_in V.seen draft.old) (block ∷ [])) }
    ensures kept { IfDamaged result (IsOfView (seen_in V.seen draft.old)) }
    ensures view { IsView (seen_in V.seen draft.old) }
{
    set_state(draft, block, 3)
}

// Gives the number of a new inode, and says in its group that its block is a dinode, in a draft that left the groups.
fn say_new<V: View>(draft: &mut Draft<'_, V>, new: &NewBlock) -> Result<Step<u64>, CallFault>
    requires group { HasGroup (V.seen draft.old.view) new.now.group }
    requires block { IsDataOf new.now.group new.now.block }
    requires groups { LeavesGroups (V.seen draft.old.view) draft.old.fates }
    requires there { HasBlock (V.seen draft.old.view) new.now.group.addr }
    ensures said { IfIs result (IsNewSaid V.seen draft.old draft.new new.now) }
    ensures next { (at : ℕ → List ℕ) → IsShown (V.seen draft.old.view) new.now.group at → IfIs result (IsNextOf at new.now.group) }
    ensures needed { IfNeedBlock result (IsNeededFor (V.seen draft.old.view) (new.now.block ∷ [])) }
    ensures damaged { IfDamaged result (BreaksSome (V.seen draft.old.view) (new.now.block ∷ [])) }
    ensures kept { IfDamaged result (IsOfView (V.seen draft.old.view)) }
{
    is_a_view(&*draft);
    let number = match take_number(draft, &new.group)? {
        Step::Is(number) => number,
        Step::NeedBlock(missing) => return Ok(Step::NeedBlock(missing)),
    };
    match say_dinode(draft, new.block)? {
        Step::Is(()) => {}
        Step::NeedBlock(missing) => return Ok(Step::NeedBlock(missing)),
    }
    is_a_view(&*draft);
    Ok(Step::Is(number))
}

/// Gives the number of a new inode, says in its group that its block is a dinode, and of other data blocks in theirs that they are in use, in a draft that
/// left the groups, and ends it.
pub(crate) fn say_and_finish<V: View>(
    mut draft: Draft<'_, V>,
    new: &NewBlock,
    taken: &[u64],
) -> Result<Step<Change>, CallFault>
    requires group { HasGroup (V.seen draft.view) new.now.group }
    requires block { IsDataOf new.now.group new.now.block }
    requires taken { (b : ℕ) → Contains taken.now b → HasDataBlock (V.seen draft.view) b }
    requires groups { LeavesGroups (V.seen draft.view) draft.fates }
    requires there { HasBlock (V.seen draft.view) new.now.group.addr }
    ensures said { IfIs result (IsSaidAndDone (V.seen draft.entry.view) draft.entry.fates new.now taken.now) }
    ensures needed { IfNeedBlock result (IsNeededFor (V.seen draft.entry.view) (new.now.block ∷ taken.now)) }
    ensures damaged { IfDamaged result (BreaksSome (V.seen draft.entry.view) (new.now.block ∷ taken.now)) }
    ensures kept { IfDamaged result (IsOfView (V.seen draft.entry.view)) }
{
    is_a_view(&draft);
    match say_new(&mut draft, new)? {
        Step::Is(_number) => {}
        Step::NeedBlock(missing) => return Ok(Step::NeedBlock(missing)),
    }
    match take_blocks(&mut draft, taken)? {
        Step::Is(()) => {}
        Step::NeedBlock(missing) => return Ok(Step::NeedBlock(missing)),
    }
    Ok(Step::Is(draft.finish()?))
}
