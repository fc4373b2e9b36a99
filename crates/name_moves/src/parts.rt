// What becomes of each directory of a move, in new drafts over the view.
ghost use Rattle.std.specs.Prelude.{ℕ, List, ◌≡◌, ◌≢◌, ◌≤◌, ◌==◌, ◌&&◌, not, true, false, None, Contains, IfSome, IsSome, length, take, codes};
ghost use Rattle.std.specs.FinMap.{empty};
ghost use Rattle.drafts.specs.Fates.{seen_in};
ghost use Rattle.gfs2_layout.specs.Holding.{Holding};
ghost use Rattle.gfs2_layout.specs.Structures.{is_directory};
ghost use Rattle.glock_names.specs.Steps.{IfDamaged, IfIs, IfNeedBlock};
ghost use Rattle.glock_names.specs.Views.{IsOfView};
ghost use Rattle.glock_names.specs.declared.steps.Entry.{Entry as EntryValue};
ghost use Rattle.hash_dirs.specs.Shown.{IsSound};
ghost use Rattle.directories.specs.Shown.{IsDirectoryIn, IsShown};
ghost use Rattle.name_drafts.specs.Inserting.{CanGetName};
ghost use Rattle.resource_groups.specs.Putting.{HasDataBlock};
ghost use Rattle.name_moves.specs.Becoming.{LosesAll};
ghost use Rattle.name_moves.specs.Moving.{CanBeMoved, IsNeededIn, IsNeededThere, IsWrongIn, IsWrongThere, entry_for, is_reparented, is_within, lost_there, move_of};
ghost use Rattle.name_moves.specs.Steps.{AreLost, GivesThere, IsNamedThere, LeadsUp};

use crate::drafting::NameMove;
use crate::losing::{has_directory, is_a_view, lose_names};
use directories::remove;
use drafts::Draft;
use gfs2_layout::Inum;
use glock_names::{CallFault, Entry, Step, View};
use name_drafts::put_name;
use name_redirects::redirect;
use new_inodes::stamp;
use std::alloc::Global;
use std::collections::VecDeque;

// Puts the new name into the directory from which the names went, and then the time, and tells how many blocks were taken for that from the front of the
// room. None where the room isn't enough, or the directory isn't sound.
fn put_new<V: View>(
    alloc: Global,
    draft: &mut Draft<'_, V>,
    m: &NameMove<'_>,
    old: &Entry,
    room: &[u64],
    time: u64,
) -> Result<Step<Option<usize>>, CallFault>
    requires can { CanBeMoved (V.seen draft.old.view) (move_of m.now) }
    requires lost { AreLost (V.seen draft.old.view) m.now.to.inode (lost_there (move_of m.now)) draft.old.fates }
    requires still { IsDirectoryIn (seen_in V.seen draft.old) m.now.to.inode }
    requires room { (b : ℕ) → Contains room.now b → HasDataBlock (V.seen draft.old.view) b }
    ensures named { IfIs result (λ done. IfSome done (λ n. IsNamedThere (V.seen draft.old.view) m.now.to.inode (lost_there (move_of m.now)) m.now.new_name.now (entry_for (move_of m.now) old.now) time room.now (take n room.now) draft.new.fates)) }
    ensures few { IfIs result (λ done. IfSome done (λ n. n ≤ length room.now)) }
    ensures able { (h : Holding) → IsShown (V.seen draft.old.view) m.now.to.inode h → IsSound h → ((k : Holding) → LosesAll (lost_there (move_of m.now)) h k → CanGetName k m.now.new_name.now room.now) → IfIs result (λ done. IsSome done) }
    ensures view { IfIs result (λ done. draft.new.view ≡ draft.old.view) }
    ensures needed { IfNeedBlock result (IsNeededThere (V.seen draft.old.view) (move_of m.now)) }
    ensures damaged { IfDamaged result (IsWrongThere (V.seen draft.old.view) (move_of m.now)) }
    ensures kept { IfDamaged result (IsOfView (V.seen draft.old.view)) }
{
    is_a_view(&*draft);
    let entry = Entry {
        number: m.moved.dinode.num.number,
        addr: m.moved.inode,
        kind: old.kind,
    };
    let dir = m.to.inode;
    let mut left = VecDeque::from_vec(Vec::from_slice(alloc, room)?);
    match put_name(alloc, draft, dir, m.new_name.bytes(), entry, &mut left)? {
        Step::Is(true) => {}
        Step::Is(false) => return Ok(Step::Is(None)),
        Step::NeedBlock(missing) => return Ok(Step::NeedBlock(missing)),
    }
    if !has_directory(&*draft, dir) {
        return Ok(Step::Is(None));
    }
    stamp(draft, dir, time)?;
    Ok(Step::Is(Some(room.len() - left.len())))
}

/// The directory that gets the new name, in a new draft: names go from it, the new one comes, with blocks from the front of the room, and then the time. It
/// tells how many blocks were taken; None where the room isn't enough, or the directory isn't sound.
pub(crate) fn get_name<V: View>(
    alloc: Global,
    draft: &mut Draft<'_, V>,
    m: &NameMove<'_>,
    old: &Entry,
    room: &[u64],
    time: u64,
) -> Result<Step<Option<usize>>, CallFault>
    requires new { draft.old.fates ≡ empty }
    requires can { CanBeMoved (V.seen draft.old.view) (move_of m.now) }
    requires room { (b : ℕ) → Contains room.now b → HasDataBlock (V.seen draft.old.view) b }
    ensures named { IfIs result (λ done. IfSome done (λ n. IsNamedThere (V.seen draft.old.view) m.now.to.inode (lost_there (move_of m.now)) m.now.new_name.now (entry_for (move_of m.now) old.now) time room.now (take n room.now) draft.new.fates)) }
    ensures few { IfIs result (λ done. IfSome done (λ n. n ≤ length room.now)) }
    ensures able { (h : Holding) → IsShown (V.seen draft.old.view) m.now.to.inode h → IsSound h → ((k : Holding) → LosesAll (lost_there (move_of m.now)) h k → CanGetName k m.now.new_name.now room.now) → IfIs result (λ done. IsSome done) }
    ensures view { IfIs result (λ done. draft.new.view ≡ draft.old.view) }
    ensures needed { IfNeedBlock result (IsNeededThere (V.seen draft.old.view) (move_of m.now)) }
    ensures damaged { IfDamaged result (IsWrongThere (V.seen draft.old.view) (move_of m.now)) }
    ensures kept { IfDamaged result (IsOfView (V.seen draft.old.view)) }
{
    match lose_names(draft, m)? {
        Step::Is(true) => {}
        Step::Is(false) => return Ok(Step::Is(None)),
        Step::NeedBlock(missing) => return Ok(Step::NeedBlock(missing)),
    }
    put_new(alloc, draft, m, old, room, time)
}

/// The directory from which the name moves to another one, in a new draft: it loses the name, and gets the time. Nothing where both names are in one.
pub(crate) fn give_name<V: View>(
    draft: &mut Draft<'_, V>,
    m: &NameMove<'_>,
    time: u64,
) -> Result<Step<()>, CallFault>
    requires new { draft.old.fates ≡ empty }
    requires can { CanBeMoved (V.seen draft.old.view) (move_of m.now) }
    ensures given { IfIs result (λ done. GivesThere (V.seen draft.old.view) (move_of m.now) time draft.new.fates) }
    ensures view { IfIs result (λ done. draft.new.view ≡ draft.old.view) }
    ensures needed { (blocks : List ℕ) → IfNeedBlock result (IsNeededIn (V.seen draft.old.view) (move_of m.now) blocks) }
    ensures damaged { (blocks : List ℕ) → IfDamaged result (IsWrongIn (V.seen draft.old.view) (move_of m.now) blocks) }
    ensures kept { IfDamaged result (IsOfView (V.seen draft.old.view)) }
{
    is_a_view(&*draft);
    if m.from == m.to.inode {
        return Ok(Step::Is(()));
    }
    match remove(draft, m.from, m.name.bytes())? {
        Step::Is(_leaf) => {}
        Step::NeedBlock(missing) => return Ok(Step::NeedBlock(missing)),
    }
    stamp(draft, m.from, time)?;
    Ok(Step::Is(()))
}

/// The inode, in a new draft: a directory that gets another parent names that as `..`, and gets the time. Nothing becomes of another. False where it isn't sound.
pub(crate) fn lead_up<V: View>(
    alloc: Global,
    draft: &mut Draft<'_, V>,
    m: &NameMove<'_>,
    time: u64,
) -> Result<Step<bool>, CallFault>
    requires new { draft.old.fates ≡ empty }
    requires can { CanBeMoved (V.seen draft.old.view) (move_of m.now) }
    ensures led { IfIs result (λ done. done ≡ true → LeadsUp (V.seen draft.old.view) (move_of m.now) time draft.new.fates) }
    ensures able { (h : Holding) → (is_reparented (move_of m.now) ≡ true → IsShown (V.seen draft.old.view) m.now.moved.inode h × IsSound h) → IfIs result (λ done. done ≡ true) }
    ensures view { IfIs result (λ done. draft.new.view ≡ draft.old.view) }
    ensures needed { (blocks : List ℕ) → IfNeedBlock result (IsNeededIn (V.seen draft.old.view) (move_of m.now) blocks) }
    ensures damaged { (blocks : List ℕ) → IfDamaged result (IsWrongIn (V.seen draft.old.view) (move_of m.now) blocks) }
    ensures kept { IfDamaged result (IsOfView (V.seen draft.old.view)) }
{
    is_a_view(&*draft);
    if !m.moved.dinode.is_directory() || m.from == m.to.inode {
        return Ok(Step::Is(true));
    }
    let parent = Inum {
        number: m.to.dinode.num.number,
        address: m.to.inode,
    };
    match redirect(alloc, draft, m.moved.inode, b"..", &parent)? {
        Step::Is(_block) => {}
        Step::NeedBlock(missing) => return Ok(Step::NeedBlock(missing)),
    }
    if !has_directory(&*draft, m.moved.inode) {
        return Ok(Step::Is(false));
    }
    stamp(draft, m.moved.inode, time)?;
    Ok(Step::Is(true))
}
