// The blocks that a new name takes: the new inode's, whose lock is looked at, and those that the directory needs for the record.
ghost use Rattle.std.specs.Prelude.{ℕ, List, ◌≡◌, ◌≤◌, length, Contains, None, Some, IfNone, IfOk, IfSome};
ghost use Rattle.file_tree.specs.Names.{IsName};
ghost use Rattle.gfs2_layout.specs.Holding.{Holding};
ghost use Rattle.glock_names.specs.Steps.{IfDamaged, IfIs, IfNeedBlock};
ghost use Rattle.glock_names.specs.Views.{HasBlock, IsOfView};
ghost use Rattle.glock_names.specs.declared.views.Group.{Group as GroupValue};
ghost use Rattle.resource_groups.specs.Shown.{said};
ghost use Rattle.room_search.specs.Blocks.{group_of_node};
ghost use Rattle.room_search.specs.Searches.{AreShown, IsGroupBroken, IsUnder};
ghost use Rattle.name_drafts.specs.DirectoryShown.{IsDirectoryIn, IsShown};
ghost use Rattle.name_drafts.specs.Inserting.{IsNeededForName, IsWrongForName};
ghost use Rattle.name_drafts.specs.Way.{IsOnWay, IsRightWay};
ghost use Rattle.making_calls.specs.Blocks.{block_holds};
ghost use Rattle.making_calls.specs.Searches.{IsTaken, blocks_of};

use file_tree::Name;
use glock_names::{CallFault, LockName, State, Step, View, is_at_most};
use name_drafts::{NewBlock, block_on_way};
use resource_groups::group_of;
use room_search::{Locked, Taken, find_room};
use std::alloc::Global;

/// Free blocks: the new inode's with its group, and the rest by rising number.
#[derive(Drop)]
pub(crate) struct Room {
    pub new: NewBlock,
    pub rest: Vec<u64>,
}

/// The blocks that are taken, or how few are free in all groups.
#[derive(Drop)]
pub(crate) enum NewRoom {
    Is(Room),
    TooFew(u64),
}

/// The blocks that a node, from 1, takes for a new name, so many in all: the least free ones of its own group, or else of all groups in
/// order. The locks of groups are looked at as `find_room` does it, and then that of the first block, which is the new inode's. It costs what
/// `find_room` costs, and goes over the groups and the blocks.
pub(crate) fn find_blocks<V: View>(
    alloc: Global,
    view: &V,
    node: u8,
    need: u64,
) -> Result<Locked<NewRoom>, CallFault>
    requires some { 1 ≤ length (V.seen view.now).groups }
    requires node { 1 ≤ node }
    requires need { 1 ≤ need }
    ensures found { (at : ℕ → List ℕ) (own : GroupValue) → AreShown (V.seen view.now) at → group_of_node (V.seen view.now).groups node ≡ Some own
        → IfOk result (IsUnder (V.seen view.now) (block_holds (said at) (V.seen view.now).groups own need) (IsTaken (V.seen view.now) (said at) own need)) }
    ensures damaged { IfDamaged result (IsGroupBroken (V.seen view.now)) }
    ensures kept { IfDamaged result (IsOfView (V.seen view.now)) }
{
    let _size = view.block_size();
    let mut blocks = match find_room(alloc, view, node, need)? {
        Locked::Is(Taken::Is(blocks)) => blocks,
        Locked::Is(Taken::TooFew(free)) => return Ok(Locked::Is(NewRoom::TooFew(free))),
        Locked::NeedLock { lock, state } => return Ok(Locked::NeedLock { lock, state }),
        Locked::NeedBlock(missing) => return Ok(Locked::NeedBlock(missing)),
    };
    let block = blocks.remove(0);
    let Some(group) = group_of(view, block) else {
        unreachable!()
    };
    let lock = LockName {
        kind: 2,
        number: block,
    };
    if !is_at_most(State::Ex, view.state(lock)) {
        return Ok(Locked::NeedLock {
            lock,
            state: State::Ex,
        });
    }
    Ok(Locked::Is(NewRoom::Is(Room {
        new: NewBlock { group, block },
        rest: blocks,
    })))
}

/// The first of these blocks that is on the way to a name in the directory with its dinode in this block. Where none is, the way is right. It costs what
/// `block_on_way` costs.
pub(crate) fn taken_on_way<V: View>(
    view: &V,
    dir: u64,
    name: &Name,
    room: &Room,
) -> Result<Step<Option<u64>>, CallFault>
    requires directory { IsDirectoryIn (V.seen view.now) dir }
    requires named { IsName name.now }
    ensures some { (h : Holding) → IsShown (V.seen view.now) dir h → IfIs result (λ found. IfSome found (λ b. Contains (blocks_of room.now) b × IsOnWay h name.now b)) }
    ensures there { IfIs result (λ found. IfSome found (HasBlock (V.seen view.now))) }
    ensures none { (h : Holding) → IsShown (V.seen view.now) dir h → IfIs result (λ found. IfNone found (IsRightWay (V.seen view.now) h name.now (blocks_of room.now))) }
    ensures needed { (h : Holding) → IsShown (V.seen view.now) dir h → IfNeedBlock result (IsNeededForName (V.seen view.now) h name.now) }
    ensures absent { IfNeedBlock result (λ missing. (V.seen view.now).block_at missing.block ≡ None) }
    ensures damaged { (h : Holding) → IsShown (V.seen view.now) dir h → IfDamaged result (IsWrongForName (V.seen view.now) h) }
    ensures kept { IfDamaged result (IsOfView (V.seen view.now)) }
{
    block_on_way(view, dir, name.bytes(), room.new.block, &room.rest)
}
