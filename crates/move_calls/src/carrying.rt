// A move that can be made is carried out.
ghost use Rattle.std.specs.Prelude.{ℕ, ◌≡◌, ◌≢◌, ◌⊎◌, ◌≤◌, List, length, Contains, Some, IfNone, IfOk, IfSome, false, true};
ghost use Rattle.glock_names.specs.Steps.{IfDamaged, IfIs, IfNeedBlock};
ghost use Rattle.glock_names.specs.Views.{IsOfView};
ghost use Rattle.glock_names.specs.declared.views.Group.{Group as GroupValue};
ghost use Rattle.resource_groups.specs.Shown.{said};
ghost use Rattle.room_search.specs.Blocks.{group_of_node};
ghost use Rattle.room_search.specs.Searches.{AreShown, IsGroupBroken, IsTakenOf, IsTold, IsUnder};
ghost use Rattle.name_moves.specs.Moving.{CanBeMoved, freed_by, move_of};
ghost use Rattle.move_calls.specs.Carrying.{FirstAreHeld, HasRoom, IsCarried, IsCounted, IsDamageOf, IsOffWay, IsOwnGroup, IsStuck, LacksFirst, NeedsFor, first_groups, locks_of_room, where_needed};
ghost use Rattle.move_calls.specs.Checks.{IsNeededOnWays};

use crate::checks::freed_blocks;
use crate::firsts::groups_of;
use crate::looking::{count_blocks, draft_in, look_ahead, look_at_freed};
use crate::ways::{block_on_ways, is_a_view};
use drafts::{Attempt, Stamp};
use file_tree::Reply;
use glock_names::{CallFault, LockName, State, Step, View, block_of};
use name_moves::{NameMove, lacked_of};
use room_search::{Locked, Taken, find_first};
use std::alloc::Global;

// The first of the dinodes of a move that is one of these blocks.
fn taken_dinode(m: &NameMove<'_>, room: &[u64]) -> Option<u64>
    ensures some { IfSome result (λ b. Contains room.now b × ((b ≡ m.now.from) ⊎ ((b ≡ m.now.to.inode) ⊎ (b ≡ m.now.moved.inode)))) }
    ensures none { IfNone result ((b : ℕ) → Contains room.now b → (b ≢ m.now.from) × (b ≢ m.now.to.inode) × (b ≢ m.now.moved.inode)) }
{
    if room.contains(&m.from) {
        return Some(m.from);
    }
    if room.contains(&m.to.inode) {
        return Some(m.to.inode);
    }
    if room.contains(&m.moved.inode) {
        return Some(m.moved.inode);
    }
    None
}

// The first of these blocks that goes with what stands at the new name.
fn taken_that_goes(m: &NameMove<'_>, room: &[u64]) -> Option<u64>
    ensures some { IfSome result (λ b. Contains room.now b × Contains (freed_by (move_of m.now)) b) }
    ensures none { IfNone result ((b : ℕ) → Contains room.now b → Contains (freed_by (move_of m.now)) b → ⊥) }
{
    let freed = freed_blocks(m);
    for block in room {
        if freed.contains(block) {
            return Some(*block);
        }
    }
    None
}

// Looks that the blocks which were found for a move may be taken. False where one of them goes with what stands at the new name, and the view hasn't it.
fn check_room<V: View>(view: &V, m: &NameMove<'_>, room: &[u64]) -> Result<Step<bool>, CallFault>
    requires { CanBeMoved (V.seen view.now) (move_of m.now) }
    ensures off { IfIs result (λ off. off ≡ true → IsOffWay (V.seen view.now) (move_of m.now) room.now) }
    ensures goes { (node need : ℕ) → HasRoom (V.seen view.now) node (move_of m.now) need room.now → IfIs result (λ off. off ≡ false → IsStuck (V.seen view.now) node (move_of m.now)) }
    ensures needed { IfNeedBlock result (IsNeededOnWays (V.seen view.now) (move_of m.now)) }
    ensures damaged { (node need : ℕ) → HasRoom (V.seen view.now) node (move_of m.now) need room.now → IfDamaged result (IsDamageOf (V.seen view.now) node (move_of m.now)) }
    ensures kept { IfDamaged result (IsOfView (V.seen view.now)) }
{
    is_a_view(view);
    if let Some(block) = taken_dinode(m, room) {
        return Err(CallFault::Damaged { block, rule: 5 });
    }
    if let Some(freed) = taken_that_goes(m, room) {
        if block_of(view, freed).is_none() {
            return Ok(Step::Is(false));
        }
        return Err(CallFault::Damaged {
            block: freed,
            rule: 5,
        });
    }
    match block_on_ways(view, m, room)? {
        Step::Is(None) => Ok(Step::Is(true)),
        Step::Is(Some(block)) => Err(CallFault::Damaged { block, rule: 5 }),
        Step::NeedBlock(missing) => Ok(Step::NeedBlock(missing)),
    }
}

// Carries out a move in these blocks.
fn carry_in<V: View>(
    alloc: Global,
    view: &V,
    m: &NameMove<'_>,
    room: &[u64],
    stamp: &Stamp,
) -> Result<Attempt, CallFault>
    requires can { CanBeMoved (V.seen view.now) (move_of m.now) }
    requires room { (need : ℕ) × HasRoom (V.seen view.now) stamp.now.node (move_of m.now) need room.now }
    ensures carried { IfOk result (IsCarried (V.seen view.now) stamp.now.node stamp.now.time (move_of m.now)) }
    ensures damaged { IfDamaged result (IsDamageOf (V.seen view.now) stamp.now.node (move_of m.now)) }
    ensures kept { IfDamaged result (IsOfView (V.seen view.now)) }
{
    is_a_view(view);
    match check_room(view, m, room)? {
        Step::Is(true) => {}
        Step::Is(false) => return Ok(Attempt::NotBuilt),
        Step::NeedBlock(missing) => return Ok(Attempt::NeedBlock(missing)),
    }
    match draft_in(alloc, view, m, room, stamp)? {
        Step::Is(Some(change)) => Ok(Attempt::Done {
            reply: Reply::Ok,
            change,
        }),
        Step::Is(None) => Ok(Attempt::NotBuilt),
        Step::NeedBlock(missing) => Ok(Attempt::NeedBlock(missing)),
    }
}

// The number of the group to which a node goes first.
fn own_number<V: View>(view: &V, node: u8) -> u64
    requires some { 1 ≤ length (V.seen view.now).groups }
    requires node { 1 ≤ node }
    ensures { (own : GroupValue) × (IsOwnGroup (V.seen view.now) node own × (result ≡ own.addr)) }
{
    let groups = view.groups();
    let own = groups[(node as usize - 1) % groups.len()];
    own.addr
}

// A number, where blocks are needed.
fn if_needed(number: u64, need: u64) -> Option<u64>
    ensures { result ≡ where_needed number need }
{
    if need == 0 { None } else { Some(number) }
}

// Of the groups that come first, those that have some of what goes and where blocks are needed the node's own, the lock of the first that isn't held.
fn lacked_first<V: View>(view: &V, m: &NameMove<'_>, node: u8, need: u64) -> Option<LockName>
    requires groups { 1 ≤ length (V.seen view.now).groups }
    requires node { 1 ≤ node }
    ensures some { IfSome result (LacksFirst (V.seen view.now) node (move_of m.now) need) }
    ensures none { IfNone result (FirstAreHeld (V.seen view.now) node (move_of m.now) need) }
{
    let own = own_number(view, node);
    lacked_of(view, if_needed(own, need), freed_blocks(m))
}

// Finds the blocks that a move needs, in the groups that come first together, or else in all. Where none is needed it looks at no group.
fn find_blocks<V: View>(
    alloc: Global,
    view: &V,
    m: &NameMove<'_>,
    node: u8,
    need: u64,
) -> Result<Locked<Taken>, CallFault>
    requires groups { 1 ≤ length (V.seen view.now).groups }
    requires node { 1 ≤ node }
    ensures found { (at : ℕ → List ℕ) (own : GroupValue) → AreShown (V.seen view.now) at → group_of_node (V.seen view.now).groups node ≡ Some own
        → IfOk result (IsUnder (V.seen view.now) (locks_of_room (V.seen view.now) at own need (move_of m.now)) (IsTakenOf (V.seen view.now) (said at) (V.seen view.now).groups (first_groups (V.seen view.now) own need (move_of m.now)) need)) }
    ensures told { IfOk result (IsTold (V.seen view.now) need) }
    ensures damaged { IfDamaged result (IsGroupBroken (V.seen view.now)) }
    ensures kept { IfDamaged result (IsOfView (V.seen view.now)) }
    ensures unasked { need ≡ 0 → IfDamaged result (λ rule block. ⊥) }
{
    is_a_view(view);
    let own = own_number(view, node);
    let first = groups_of(alloc, view, if_needed(own, need), freed_blocks(m))?;
    find_first(alloc, view, &first, need)
}

// Finds the blocks that a move needs, of which the groups are held that come first, and carries it out in them.
fn carry_held<V: View>(
    alloc: Global,
    view: &V,
    m: &NameMove<'_>,
    need: u64,
    stamp: &Stamp,
) -> Result<Attempt, CallFault>
    requires can { CanBeMoved (V.seen view.now) (move_of m.now) }
    requires counted { IsCounted (V.seen view.now) stamp.now.node (move_of m.now) need }
    requires node { 1 ≤ stamp.now.node }
    ensures carried { IfOk result (IsCarried (V.seen view.now) stamp.now.node stamp.now.time (move_of m.now)) }
    ensures damaged { IfDamaged result (IsDamageOf (V.seen view.now) stamp.now.node (move_of m.now)) }
    ensures kept { IfDamaged result (IsOfView (V.seen view.now)) }
{
    is_a_view(view);
    match look_at_freed(alloc, view, m)? {
        Step::Is(()) => {}
        Step::NeedBlock(missing) => return Ok(Attempt::NeedBlock(missing)),
    }
    match find_blocks(alloc, view, m, stamp.node, need)? {
        Locked::Is(Taken::Is(room)) => carry_in(alloc, view, m, &room, stamp),
        Locked::Is(Taken::TooFew(free)) => Ok(Attempt::NoSpace { need, free }),
        Locked::NeedLock { lock, state } => Ok(Attempt::NeedLock { lock, state }),
        Locked::NeedBlock(missing) => Ok(Attempt::NeedBlock(missing)),
    }
}

// Carries out a move that needs so many blocks.
fn carry_counted<V: View>(
    alloc: Global,
    view: &V,
    m: &NameMove<'_>,
    need: u64,
    stamp: &Stamp,
) -> Result<Attempt, CallFault>
    requires can { CanBeMoved (V.seen view.now) (move_of m.now) }
    requires needs { NeedsFor (V.seen view.now) (move_of m.now) need }
    requires groups { 1 ≤ length (V.seen view.now).groups }
    requires node { 1 ≤ stamp.now.node }
    ensures carried { IfOk result (IsCarried (V.seen view.now) stamp.now.node stamp.now.time (move_of m.now)) }
    ensures damaged { IfDamaged result (IsDamageOf (V.seen view.now) stamp.now.node (move_of m.now)) }
    ensures kept { IfDamaged result (IsOfView (V.seen view.now)) }
{
    match lacked_first(view, m, stamp.node, need) {
        Some(lock) => Ok(Attempt::NeedLock {
            lock,
            state: State::Ex,
        }),
        None => carry_held(alloc, view, m, need, stamp),
    }
}

/// Carries out a move that can be made. Where names go from the directory that gets the new one, the way to that is looked at as it is. The blocks that are needed are counted, then the
/// locks of the groups that have some of what goes are looked at, and where blocks are needed with these, by rising number, that of the node's own group; then the groups of what
/// goes are looked at; and then the locks under which blocks are found. It costs what `need_name`, `need_to_move`, `find_first` and `moving` cost, and freeing what goes in a draft
/// that is thrown away, and passes over the blocks.
pub fn carry<V: View>(
    alloc: Global,
    view: &V,
    m: &NameMove<'_>,
    stamp: &Stamp,
) -> Result<Attempt, CallFault>
    requires can { CanBeMoved (V.seen view.now) (move_of m.now) }
    requires groups { 1 ≤ length (V.seen view.now).groups }
    requires node { 1 ≤ stamp.now.node }
    ensures carried { IfOk result (IsCarried (V.seen view.now) stamp.now.node stamp.now.time (move_of m.now)) }
    ensures damaged { IfDamaged result (IsDamageOf (V.seen view.now) stamp.now.node (move_of m.now)) }
    ensures kept { IfDamaged result (IsOfView (V.seen view.now)) }
{
    is_a_view(view);
    match look_ahead(alloc, view, m)? {
        Step::Is(()) => {}
        Step::NeedBlock(missing) => return Ok(Attempt::NeedBlock(missing)),
    }
    match count_blocks(alloc, view, m)? {
        Step::Is(Some(need)) => carry_counted(alloc, view, m, need, stamp),
        Step::Is(None) => Ok(Attempt::NotBuilt),
        Step::NeedBlock(missing) => Ok(Attempt::NeedBlock(missing)),
    }
}
