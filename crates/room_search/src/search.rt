// The blocks that a node takes for a call.
ghost use Rattle.std.specs.Prelude.{ℕ, List, [], ◌∷◌, ◌≡◌, ◌≤◌, length, map, Some, IfOk};
ghost use Rattle.glock_names.specs.Steps.{IfDamaged};
ghost use Rattle.profile_limits.specs.Limits.{most_groups};
ghost use Rattle.glock_names.specs.Views.{HasGroup, IsOfView, IsView, Rise};
ghost use Rattle.glock_names.specs.declared.views.Group.{Group as GroupValue};
ghost use Rattle.resource_groups.specs.Shown.{said};
ghost use Rattle.image_model.specs.Image.{Image};
ghost use Rattle.image_model.specs.Owners.{Owners};
ghost use Rattle.image_model.specs.Stands.{Layout};
ghost use Rattle.file_tree.specs.Tree.{Tree};
ghost use Rattle.image_changes.specs.Does.{IsOf};
ghost use Rattle.path_walks.specs.Holds.{hold_of_group};
ghost use Rattle.room_search.specs.Blocks.{first_holds, free_in_all, group_of_node, group_holds};
ghost use Rattle.room_search.specs.Parts.{AreGroupsOf, IsFrontOf};
ghost use Rattle.room_search.specs.Searches.{AreShown, HasOwnGroup, IsFoundIn, IsFoundOfIn, IsGroupBroken, IsTaken, IsTakenOf, IsTold, IsUnder};

use crate::collecting::collect_in;
use crate::counting::count_in;
use glock_names::{CallFault, Group, LockName, Missing, State, Step, View};
use std::alloc::Global;

/// What is found under locks, or what stands in the way.
#[derive(Drop)]
pub enum Locked<T> {
    Is(T),
    /// This lock isn't held so strongly.
    NeedLock { lock: LockName, state: State },
    /// This block isn't in the view.
    NeedBlock(Missing),
}

/// The blocks that are taken, or how many are free in all groups, which are too few.
#[derive(Drop)]
pub enum Taken {
    Is(Vec<u64>),
    TooFew(u64),
}

// The group that a node goes to first.
fn own_group<V: View>(view: &V, node: u8) -> Group
    requires some { 1 ≤ length (V.seen view.now).groups }
    requires node { 1 ≤ node }
    ensures own { group_of_node (V.seen view.now).groups node ≡ Some result }
    ensures has { HasGroup (V.seen view.now) result }
    ensures rise { Rise (V.seen view.now).size 0 (result ∷ []) }
{
    let _size = view.block_size();
    let groups = view.groups();
    groups[(node as usize - 1) % groups.len()]
}

// The first free blocks of these groups, as many as are needed, or how few there are. It counts first, so that no memory is taken
// for too few.
fn find_in<V: View>(
    alloc: Global,
    view: &V,
    groups: &[Group],
    need: u64,
) -> Result<Locked<Taken>, CallFault>
    requires few { length groups.now ≤ most_groups }
    requires of_view { AreGroupsOf (V.seen view.now) groups.now }
    ensures found { (at : ℕ → List ℕ) → AreShown (V.seen view.now) at → IfOk result (IsUnder (V.seen view.now) (map hold_of_group groups.now) (IsFrontOf (free_in_all (said at) groups.now) need)) }
    ensures damaged { IfDamaged result (IsGroupBroken (V.seen view.now)) }
    ensures kept { IfDamaged result (IsOfView (V.seen view.now)) }
{
    let _size = view.block_size();
    let count = match count_in(view, groups)? {
        Locked::Is(count) => count,
        Locked::NeedLock { lock, state } => return Ok(Locked::NeedLock { lock, state }),
        Locked::NeedBlock(missing) => return Ok(Locked::NeedBlock(missing)),
    };
    if count < need {
        return Ok(Locked::Is(Taken::TooFew(count)));
    }
    match collect_in(alloc, view, groups, need)? {
        Step::Is(blocks) => Ok(Locked::Is(Taken::Is(blocks))),
        Step::NeedBlock(missing) => Ok(Locked::NeedBlock(missing)),
    }
}

// The blocks that are taken where these groups come first: of them, or else of all.
fn find_in_either<V: View>(
    alloc: Global,
    view: &V,
    first: &[Group],
    need: u64,
) -> Result<Locked<Taken>, CallFault>
    requires few { length first.now ≤ most_groups }
    requires of_view { AreGroupsOf (V.seen view.now) first.now }
    requires rise { Rise (V.seen view.now).size 0 first.now }
    ensures found { (at : ℕ → List ℕ) → AreShown (V.seen view.now) at
        → IfOk result (IsUnder (V.seen view.now) (first_holds (said at) (V.seen view.now).groups first.now need) (IsTakenOf (V.seen view.now) (said at) (V.seen view.now).groups first.now need)) }
    ensures damaged { IfDamaged result (IsGroupBroken (V.seen view.now)) }
    ensures kept { IfDamaged result (IsOfView (V.seen view.now)) }
    ensures unasked { need ≡ 0 → IfDamaged result (λ rule block. ⊥) }
    ensures view { IsView (V.seen view.now) }
{
    let _size = view.block_size();
    if need == 0 {
        return Ok(Locked::Is(Taken::Is(Vec::new(alloc))));
    }
    match find_in(alloc, view, first, need)? {
        Locked::Is(Taken::Is(blocks)) => Ok(Locked::Is(Taken::Is(blocks))),
        Locked::Is(Taken::TooFew(_)) => find_in(alloc, view, view.groups(), need),
        Locked::NeedLock { lock, state } => Ok(Locked::NeedLock { lock, state }),
        Locked::NeedBlock(missing) => Ok(Locked::NeedBlock(missing)),
    }
}

/// The blocks that are taken for a call that needs so many, where these groups come first, some of the view's, one behind another: the least free ones of these, and
/// where they have too few, of all groups in order. Where none is needed no lock is looked at, and no block. Else the locks of these groups are, and where they have too
/// few those of all groups. It goes over the bits of each of these groups once to count the free blocks, of those that come first twice where all are looked at, and then
/// over those up to the last block that is taken. Memory is taken for these blocks alone.
pub fn find_first<V: View>(
    alloc: Global,
    view: &V,
    first: &[Group],
    need: u64,
) -> Result<Locked<Taken>, CallFault>
    requires few { length first.now ≤ most_groups }
    requires of_view { AreGroupsOf (V.seen view.now) first.now }
    requires rise { Rise (V.seen view.now).size 0 first.now }
    ensures found { (at : ℕ → List ℕ) → AreShown (V.seen view.now) at
        → IfOk result (IsUnder (V.seen view.now) (first_holds (said at) (V.seen view.now).groups first.now need) (IsTakenOf (V.seen view.now) (said at) (V.seen view.now).groups first.now need)) }
    ensures image { (im : Image) (o : Owners) (l : Layout) (t : Tree) → IsOf (V.seen view.now) im o l t → IfOk result (IsFoundOfIn (V.seen view.now) im o l first.now need) }
    ensures told { IfOk result (IsTold (V.seen view.now) need) }
    ensures damaged { IfDamaged result (IsGroupBroken (V.seen view.now)) }
    ensures kept { IfDamaged result (IsOfView (V.seen view.now)) }
    ensures unasked { need ≡ 0 → IfDamaged result (λ rule block. ⊥) }
    ensures sound { (im : Image) (o : Owners) (l : Layout) (t : Tree) → IsOf (V.seen view.now) im o l t → IfDamaged result (λ rule block. ⊥) }
{
    find_in_either(alloc, view, first, need)
}

/// The blocks that a node, from 1, takes for a call that needs so many: the least free ones of its own group, and where that has too
/// few, of all groups in order. Where none is needed no lock is looked at, and no block. Else the lock of the node's group is, and
/// where that has too few those of all groups. It goes over the bits of each of these groups once to count the free blocks, of the own
/// one twice where all are looked at, and then over those up to the last block that is taken. Memory is taken for these blocks alone.
pub fn find_room<V: View>(
    alloc: Global,
    view: &V,
    node: u8,
    need: u64,
) -> Result<Locked<Taken>, CallFault>
    requires some { 1 ≤ length (V.seen view.now).groups }
    requires node { 1 ≤ node }
    ensures found { (at : ℕ → List ℕ) (own : GroupValue) → AreShown (V.seen view.now) at → group_of_node (V.seen view.now).groups node ≡ Some own
        → IfOk result (IsUnder (V.seen view.now) (group_holds (said at) (V.seen view.now).groups own need) (IsTaken (V.seen view.now) (said at) (V.seen view.now).groups own need)) }
    ensures image { (im : Image) (o : Owners) (l : Layout) (t : Tree) → IsOf (V.seen view.now) im o l t → IfOk result (IsFoundIn (V.seen view.now) im o l node need) }
    ensures told { IfOk result (IsTold (V.seen view.now) need) }
    ensures own { HasOwnGroup (V.seen view.now) node }
    ensures damaged { IfDamaged result (IsGroupBroken (V.seen view.now)) }
    ensures kept { IfDamaged result (IsOfView (V.seen view.now)) }
    ensures unasked { need ≡ 0 → IfDamaged result (λ rule block. ⊥) }
    ensures sound { (im : Image) (o : Owners) (l : Layout) (t : Tree) → IsOf (V.seen view.now) im o l t → IfDamaged result (λ rule block. ⊥) }
{
    let own = own_group(view, node);
    find_first(alloc, view, &[own], need)
}
