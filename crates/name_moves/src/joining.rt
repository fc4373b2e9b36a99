// What the directories of a move become, put into one draft.
ghost use Rattle.std.specs.Prelude.{ℕ, List, ◌≡◌, ◌≤◌, Contains, IfSome, IsSome, OnOk, length, take};
ghost use Rattle.std.specs.FinMap.{empty};
ghost use Rattle.drafts.specs.Fates.{AreWhole};
ghost use Rattle.gfs2_layout.specs.Holding.{Holding};
ghost use Rattle.glock_names.specs.Steps.{IfDamaged, IfIs, IfNeedBlock};
ghost use Rattle.glock_names.specs.Views.{IsOfView};
ghost use Rattle.resource_groups.specs.Putting.{HasDataBlock};
ghost use Rattle.name_moves.specs.Moving.{CanBeMoved, IsNeededIn, IsWrongIn, move_of};
ghost use Rattle.name_moves.specs.Steps.{AreJoined, IsPutOver, MayBeJoined};

use crate::drafting::NameMove;
use crate::parts::{get_name, give_name, lead_up};
use drafts::Draft;
use glock_names::{CallFault, Entry, Step, View};
use linear_dirs::lock_of;
use nested_drafts::put_blocks;
use no_memory::NoMemory;
use std::alloc::Global;

// Puts what was put in a draft over the same view, under a directory's lock.
fn put_part<V: View>(draft: &mut Draft<'_, V>, part: Draft<'_, V>, dir: u64) -> Result<(), NoMemory>
    requires view { part.view ≡ draft.old.view }
    requires whole { AreWhole (V.seen part.view).size part.fates }
    ensures put { OnOk result (IsPutOver dir part.entry.fates draft.old.fates draft.new.fates) }
    ensures view { OnOk result (draft.new.view ≡ draft.old.view) }
{
    let change = part.finish()?;
    put_blocks(draft, lock_of(dir), &change.blocks)
}

/// Puts what becomes of the directories of a move and of its inode into a new draft over the view, and tells how many blocks were taken for that from the front of
/// the room. None where the room isn't enough, or one of them isn't sound.
pub(crate) fn join<V: View>(
    alloc: Global,
    view: &V,
    draft: &mut Draft<'_, V>,
    m: &NameMove<'_>,
    old: &Entry,
    room: &[u64],
    time: u64,
) -> Result<Step<Option<usize>>, CallFault>
    requires new { draft.old ≡ record { view = view.now; fates = empty } }
    requires can { CanBeMoved (V.seen view.now) (move_of m.now) }
    requires room { (b : ℕ) → Contains room.now b → HasDataBlock (V.seen view.now) b }
    ensures joined { IfIs result (λ done. IfSome done (λ n. AreJoined (V.seen view.now) (move_of m.now) old.now room.now time (take n room.now) draft.new.fates)) }
    ensures few { IfIs result (λ done. IfSome done (λ n. n ≤ length room.now)) }
    ensures able { (target inode : Holding) → MayBeJoined (V.seen view.now) (move_of m.now) room.now target inode → IfIs result (λ done. IsSome done) }
    ensures view { IfIs result (λ done. draft.new.view ≡ view.now) }
    ensures needed { (blocks : List ℕ) → IfNeedBlock result (IsNeededIn (V.seen view.now) (move_of m.now) blocks) }
    ensures damaged { (blocks : List ℕ) → IfDamaged result (IsWrongIn (V.seen view.now) (move_of m.now) blocks) }
    ensures kept { IfDamaged result (IsOfView (V.seen view.now)) }
{
    let mut target = Draft::new(alloc, view);
    let taken = match get_name(alloc, &mut target, m, old, room, time)? {
        Step::Is(Some(taken)) => taken,
        Step::Is(None) => return Ok(Step::Is(None)),
        Step::NeedBlock(missing) => return Ok(Step::NeedBlock(missing)),
    };
    put_part(draft, target, m.to.inode)?;
    let mut source = Draft::new(alloc, view);
    match give_name(&mut source, m, time)? {
        Step::Is(()) => {}
        Step::NeedBlock(missing) => return Ok(Step::NeedBlock(missing)),
    }
    put_part(draft, source, m.from)?;
    let mut inode = Draft::new(alloc, view);
    match lead_up(alloc, &mut inode, m, time)? {
        Step::Is(true) => {}
        Step::Is(false) => return Ok(Step::Is(None)),
        Step::NeedBlock(missing) => return Ok(Step::NeedBlock(missing)),
    }
    put_part(draft, inode, m.moved.inode)?;
    Ok(Step::Is(Some(taken)))
}
