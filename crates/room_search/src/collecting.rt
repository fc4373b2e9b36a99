// The least free data blocks of groups.
ghost use Rattle.std.specs.Prelude.{ℕ, List, ◌≡◌, ◌++◌, take, IfOk};
ghost use Rattle.glock_names.specs.Steps.{IfDamaged, IfIs, IfNeedBlock};
ghost use Rattle.glock_names.specs.Views.{HasGroup, IsOfView};
ghost use Rattle.resource_groups.specs.Shown.{IsBroken, IsMissing, IsShown, said};
ghost use Rattle.room_search.specs.Blocks.{free_in, free_in_all};
ghost use Rattle.room_search.specs.Parts.{AreGroupsOf, IsBrokenIn, IsMissingIn};
ghost use Rattle.room_search.specs.Searches.{AreShown};

use glock_names::{CallFault, Group, Step, View};
use resource_groups::find_free;
use std::alloc::Global;

// Puts the free data blocks of a group behind the first of some blocks, by rising number, until all are as many as are needed.
fn collect<V: View>(
    view: &V,
    group: &Group,
    need: u64,
    blocks: &mut Vec<u64>,
) -> Result<Step<()>, CallFault>
    requires { HasGroup (V.seen view.now) group.now }
    ensures found { (at : ℕ → List ℕ) (before : List ℕ) → IsShown (V.seen view.now) group.now at → blocks.old.items ≡ take need before
        → IfIs result (λ done. blocks.new.items ≡ take need (before ++ free_in (said at) group.now)) }
    ensures needed { (at : ℕ → List ℕ) → IsShown (V.seen view.now) group.now at → IfNeedBlock result (IsMissing (V.seen view.now) group.now) }
    ensures damaged { (at : ℕ → List ℕ) → IsShown (V.seen view.now) group.now at → IfDamaged result (IsBroken at group.now) }
    ensures kept { IfDamaged result (IsOfView (V.seen view.now)) }
{
    let _size = view.block_size();
    let mut after = 0;
    while (blocks.len() as u64) < need {
        match find_free(view, group, after)? {
            Step::Is(Some(block)) => {
                blocks.push(block)?;
                after = block;
            }
            Step::Is(None) => return Ok(Step::Is(())),
            Step::NeedBlock(missing) => return Ok(Step::NeedBlock(missing)),
        }
    }
    Ok(Step::Is(()))
}

/// The first free data blocks of these groups, group after group, as many as are needed, or all. It goes over the bits up to the last
/// of them, and takes memory for them.
pub(crate) fn collect_in<V: View>(
    alloc: Global,
    view: &V,
    groups: &[Group],
    need: u64,
) -> Result<Step<Vec<u64>>, CallFault>
    requires { AreGroupsOf (V.seen view.now) groups.now }
    ensures found { (at : ℕ → List ℕ) → AreShown (V.seen view.now) at → IfIs result (λ blocks. blocks.items ≡ take need (free_in_all (said at) groups.now)) }
    ensures needed { (at : ℕ → List ℕ) → AreShown (V.seen view.now) at → IfNeedBlock result (IsMissingIn (V.seen view.now) groups.now) }
    ensures damaged { IfDamaged result (IsBrokenIn (V.seen view.now) groups.now) }
    ensures kept { IfDamaged result (IsOfView (V.seen view.now)) }
{
    let mut blocks = Vec::new(alloc);
    for group in groups {
        match collect(view, group, need, &mut blocks)? {
            Step::Is(()) => {}
            Step::NeedBlock(missing) => return Ok(Step::NeedBlock(missing)),
        }
    }
    Ok(Step::Is(blocks))
}
