// How many data blocks of groups are free, under the locks of these.
ghost use Rattle.std.specs.Prelude.{ℕ, List, ◌≡◌, ◌≤◌, [], ◌∷◌, length, map, IfOk};
ghost use Rattle.profile_limits.specs.Limits.{most_groups};
ghost use Rattle.glock_names.specs.Steps.{OnlyDamaged};
ghost use Rattle.glock_names.specs.Views.{HasGroup, IsOfView};
ghost use Rattle.resource_groups.specs.Shown.{said};
ghost use Rattle.path_walks.specs.Holds.{hold_of_group};
ghost use Rattle.room_search.specs.Blocks.{free_in, free_in_all};
ghost use Rattle.room_search.specs.Parts.{AreGroupsOf};
ghost use Rattle.room_search.specs.Searches.{AreShown, IsGroupBroken, IsUnder};

use crate::search::Locked;
use glock_names::{CallFault, Group, LockName, State, Step, View, is_at_most};
use resource_groups::count_free;

// How many data blocks of a group are free, under its lock.
fn count_of<V: View>(view: &V, group: &Group) -> Result<Locked<u32>, CallFault>
    requires { HasGroup (V.seen view.now) group.now }
    ensures found { (at : ℕ → List ℕ) → AreShown (V.seen view.now) at → IfOk result (IsUnder (V.seen view.now) (hold_of_group group.now ∷ []) (λ count. count ≡ length (free_in (said at) group.now))) }
    ensures damaged { OnlyDamaged result (IsGroupBroken (V.seen view.now)) }
    ensures kept { OnlyDamaged result (IsOfView (V.seen view.now)) }
{
    let lock = LockName {
        kind: 3,
        number: group.addr,
    };
    if !is_at_most(State::Ex, view.state(lock)) {
        return Ok(Locked::NeedLock {
            lock,
            state: State::Ex,
        });
    }
    match count_free(view, group)? {
        Step::Is(count) => Ok(Locked::Is(count)),
        Step::NeedBlock(missing) => Ok(Locked::NeedBlock(missing)),
    }
}

/// How many data blocks of these groups, at most 64, are free, each group under its lock. It goes over all of their bits.
pub(crate) fn count_in<V: View>(view: &V, groups: &[Group]) -> Result<Locked<u64>, CallFault>
    requires few { length groups.now ≤ most_groups }
    requires of_view { AreGroupsOf (V.seen view.now) groups.now }
    ensures found { (at : ℕ → List ℕ) → AreShown (V.seen view.now) at → IfOk result (IsUnder (V.seen view.now) (map hold_of_group groups.now) (λ count. count ≡ length (free_in_all (said at) groups.now))) }
    ensures damaged { OnlyDamaged result (IsGroupBroken (V.seen view.now)) }
    ensures kept { OnlyDamaged result (IsOfView (V.seen view.now)) }
{
    let mut count = 0u64;
    for group in groups {
        match count_of(view, group)? {
            Locked::Is(more) => count += u64::from(more),
            Locked::NeedLock { lock, state } => return Ok(Locked::NeedLock { lock, state }),
            Locked::NeedBlock(missing) => return Ok(Locked::NeedBlock(missing)),
        }
    }
    Ok(Locked::Is(count))
}
