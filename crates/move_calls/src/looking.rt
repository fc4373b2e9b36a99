// What a move needs, and its draft: a directory from which names go is looked at as it is first, and no block is called wrong for what it is once they have gone.
ghost use Rattle.std.specs.Prelude.{ℕ, ◌≡◌, ◌≢◌, ◌⊎◌, [], false, true, Contains, IfNone, IfSome, None};
ghost use Rattle.growth_drafts.specs.Taken.{IsDistinct};
ghost use Rattle.gfs2_layout.specs.Holding.{Holding};
ghost use Rattle.glock_names.specs.Steps.{IfDamaged, IfIs, IfNeedBlock};
ghost use Rattle.glock_names.specs.Views.{IsOfView};
ghost use Rattle.move_ends.specs.Shown as dirs;
ghost use Rattle.resource_groups.specs.Freeing.{BreaksSome, IsNeededFor};
ghost use Rattle.resource_groups.specs.Putting.{HasDataBlock};
ghost use Rattle.name_moves.specs.Inserting.{IsNeededForName, IsWrongForName, SeesForName};
ghost use Rattle.name_moves.specs.Moving.{CanBeMoved, IsMoving, freed_by, lost_there, move_of};
ghost use Rattle.move_calls.specs.Carrying.{HasRoom, IsDamageOf, IsOffWay, IsStuck, NeedsBlock, NeedsFor};

use crate::checks::freed_blocks;
use drafts::{Change, Draft, Stamp};
use glock_names::{CallFault, Missing, Step, View};
use name_moves::{NameMove, moving, need_name, need_to_move};
use resource_groups::{free_blocks, group_of};
use std::alloc::Global;

// The kind of the locks of groups.
const OF_GROUP: u8 = 3;

// Whether names go from the directory that gets the new one.
fn loses_names(m: &NameMove<'_>) -> bool
    ensures some { result ≡ true → lost_there (move_of m.now) ≢ [] }
    ensures none { result ≡ false → lost_there (move_of m.now) ≡ [] }
{
    m.replaced.is_some() || m.from == m.to.inode
}

// Whether a block is one of a group, or a data block of one.
fn is_in_groups<V: View>(view: &V, missing: &Missing) -> bool
    ensures within { result ≡ true → (missing.now.lock.kind ≡ 3) ⊎ HasDataBlock (V.seen view.now) missing.now.block }
    ensures astray { result ≡ false → (missing.now.lock.kind ≢ 3) × (¬ (HasDataBlock (V.seen view.now) missing.now.block)) }
{
    missing.lock.kind == OF_GROUP || group_of(view, missing.block).is_some()
}

/// Where names go from the directory that gets the new one, looks at the way to that as it is. It costs what `need_name` costs.
pub fn look_ahead<V: View>(alloc: Global, view: &V, m: &NameMove<'_>) -> Result<Step<()>, CallFault>
    requires can { CanBeMoved (V.seen view.now) (move_of m.now) }
    ensures seen { (h : Holding) → dirs.IsShown (V.seen view.now) m.now.to.inode h → IfIs result (λ done. lost_there (move_of m.now) ≢ [] → SeesForName (V.seen view.now) h m.now.new_name.now) }
    ensures needed { (h : Holding) → dirs.IsShown (V.seen view.now) m.now.to.inode h → IfNeedBlock result (IsNeededForName (V.seen view.now) h m.now.new_name.now) }
    ensures absent { IfNeedBlock result (λ missing. (V.seen view.now).block_at missing.block ≡ None) }
    ensures damaged { (h : Holding) → dirs.IsShown (V.seen view.now) m.now.to.inode h → IfDamaged result (IsWrongForName (V.seen view.now) h) }
    ensures kept { IfDamaged result (IsOfView (V.seen view.now)) }
{
    if !loses_names(m) {
        return Ok(Step::Is(()));
    }
    match need_name(alloc, view, m.to.inode, m.new_name.bytes())? {
        Step::Is(_) => Ok(Step::Is(())),
        Step::NeedBlock(missing) => Ok(Step::NeedBlock(missing)),
    }
}

/// Looks at the groups of what goes: it is freed in a draft that is thrown away.
pub fn look_at_freed<V: View>(
    alloc: Global,
    view: &V,
    m: &NameMove<'_>,
) -> Result<Step<()>, CallFault>
    requires can { CanBeMoved (V.seen view.now) (move_of m.now) }
    ensures needed { IfNeedBlock result (IsNeededFor (V.seen view.now) (freed_by (move_of m.now))) }
    ensures damaged { IfDamaged result (BreaksSome (V.seen view.now) (freed_by (move_of m.now))) }
    ensures kept { IfDamaged result (IsOfView (V.seen view.now)) }
{
    let mut draft = Draft::new(alloc, view);
    free_blocks(&mut draft, freed_blocks(m))
}

/// How many blocks a move needs, where the way to the new name was looked at as it is if names go first. None where names go from the directory that gets the new one, and a rule is broken or a block is led to that is no data block of a group. It costs what `need_to_move` costs.
pub fn count_blocks<V: View>(
    alloc: Global,
    view: &V,
    m: &NameMove<'_>,
) -> Result<Step<Option<u64>>, CallFault>
    requires can { CanBeMoved (V.seen view.now) (move_of m.now) }
    requires looked { lost_there (move_of m.now) ≢ [] → (h : Holding) → dirs.IsShown (V.seen view.now) m.now.to.inode h → SeesForName (V.seen view.now) h m.now.new_name.now }
    ensures need { IfIs result (λ found. IfSome found (NeedsFor (V.seen view.now) (move_of m.now))) }
    ensures stuck { (node : ℕ) → IfIs result (λ found. IfNone found (IsStuck (V.seen view.now) node (move_of m.now))) }
    ensures needed { (node : ℕ) → IfNeedBlock result (NeedsBlock (V.seen view.now) node (move_of m.now)) }
    ensures damaged { (node : ℕ) → IfDamaged result (IsDamageOf (V.seen view.now) node (move_of m.now)) }
    ensures kept { IfDamaged result (IsOfView (V.seen view.now)) }
{
    let gone = loses_names(m);
    match need_to_move(alloc, view, m) {
        Ok(Step::Is(need)) => Ok(Step::Is(Some(need))),
        Ok(Step::NeedBlock(missing)) => {
            if gone && !is_in_groups(view, &missing) {
                return Ok(Step::Is(None));
            }
            Ok(Step::NeedBlock(missing))
        }
        Err(CallFault::Damaged { block, rule }) => {
            if gone {
                return Ok(Step::Is(None));
            }
            Err(CallFault::Damaged { block, rule })
        }
        Err(CallFault::NoMemory) => Err(CallFault::NoMemory),
    }
}

/// The change of a move in blocks that were found for it and are off its way. None where it can't be made in them; or where names go from the directory that gets the new one, and a rule is
/// broken or a block is led to that is no data block of a group. It costs what `moving` costs.
pub fn draft_in<V: View>(
    alloc: Global,
    view: &V,
    m: &NameMove<'_>,
    room: &[u64],
    stamp: &Stamp,
) -> Result<Step<Option<Change>>, CallFault>
    requires can { CanBeMoved (V.seen view.now) (move_of m.now) }
    requires room { (b : ℕ) → Contains room.now b → HasDataBlock (V.seen view.now) b }
    requires once { IsDistinct room.now }
    requires off { IsOffWay (V.seen view.now) (move_of m.now) room.now }
    ensures moving { IfIs result (λ done. IfSome done (IsMoving (V.seen view.now) (move_of m.now) room.now stamp.now.time)) }
    ensures stuck { (node need : ℕ) → HasRoom (V.seen view.now) node (move_of m.now) need room.now → IfIs result (λ done. IfNone done (IsStuck (V.seen view.now) node (move_of m.now))) }
    ensures needed { (node need : ℕ) → HasRoom (V.seen view.now) node (move_of m.now) need room.now → IfNeedBlock result (NeedsBlock (V.seen view.now) node (move_of m.now)) }
    ensures damaged { (node need : ℕ) → HasRoom (V.seen view.now) node (move_of m.now) need room.now → IfDamaged result (IsDamageOf (V.seen view.now) node (move_of m.now)) }
    ensures kept { IfDamaged result (IsOfView (V.seen view.now)) }
{
    let gone = loses_names(m);
    match moving(alloc, view, m, room, stamp.time) {
        Ok(Step::Is(change)) => Ok(Step::Is(change)),
        Ok(Step::NeedBlock(missing)) => {
            if gone && !is_in_groups(view, &missing) {
                return Ok(Step::Is(None));
            }
            Ok(Step::NeedBlock(missing))
        }
        Err(CallFault::Damaged { block, rule }) => {
            if gone {
                return Ok(Step::Is(None));
            }
            Err(CallFault::Damaged { block, rule })
        }
        Err(CallFault::NoMemory) => Err(CallFault::NoMemory),
    }
}
