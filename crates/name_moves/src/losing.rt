// The names that go from a directory before another one comes, in a new draft.
ghost use Rattle.std.specs.Prelude.{ℕ, List, ◌≡◌, ◌≢◌, ◌⊎◌, ◌∷◌, [], true, Ok, None, Some, IsTrue};
ghost use Rattle.std.specs.FinMap.{empty};
ghost use Rattle.drafts.specs.Fates.{seen_in};
ghost use Rattle.gfs2_layout.specs.Headers.{HasHeader};
ghost use Rattle.gfs2_layout.specs.Holding.{Holding};
ghost use Rattle.gfs2_layout.specs.Structures.{dinode_of, dinode_read, is_directory};
ghost use Rattle.gfs2_layout.specs.declared.dinode.Dinode.{Dinode as DinodeValue};
ghost use Rattle.glock_names.specs.Steps.{IfDamaged, IfIs, IfNeedBlock};
ghost use Rattle.glock_names.specs.Views.{HasBlock, IsOfView, IsView};
ghost use Rattle.directories.specs.Shown.{IsBroken, IsDirectoryIn, IsNeededFor, IsShown};
ghost use Rattle.directories.specs.Taking.{HasNameIn};
ghost use Rattle.name_moves.specs.Becoming.{CanTell, IsAfter};
ghost use Rattle.name_moves.specs.Moving.{CanBeMoved, IsAskedUnder, IsNeededThere, IsWrongThere, lost_there, move_of};
ghost use Rattle.name_moves.specs.Steps.{AreLost};

use crate::drafting::NameMove;
use directories::{look, remove};
use drafts::Draft;
use gfs2_layout::Dinode;
use glock_names::{CallFault, Step, View, block_of};

/// A law: what a node has of the file system is a view of it.
pub(crate) fn is_a_view<V: View>(view: &V)
    ensures { IsView (V.seen view.now) }
{
    let _size = view.block_size();
}

/// Whether the view has this block, with the dinode of a directory.
pub(crate) fn has_directory<V: View>(view: &V, dir: u64) -> bool
    ensures there { IsTrue result → HasBlock (V.seen view.now) dir }
    ensures headed { IsTrue result → (bytes : List ℕ) → (V.seen view.now).block_at dir ≡ Some bytes → (d : DinodeValue) × (dinode_read bytes ≡ Ok d) }
    ensures directory { IsTrue result → IsDirectoryIn (V.seen view.now) dir }
    ensures all { (bytes : List ℕ) → (V.seen view.now).block_at dir ≡ Some bytes → HasHeader 4 400 bytes → is_directory (dinode_of bytes) ≡ true → IsTrue result }
{
    let Some(bytes) = block_of(view, dir) else {
        return false;
    };
    match Dinode::read(bytes) {
        Ok(dinode) => dinode.is_directory(),
        Err(_) => false,
    }
}

// Takes a name that it has from a directory in a new draft. False where it is none then, and so it wasn't told what it was.
fn lose_one<V: View>(
    draft: &mut Draft<'_, V>,
    dir: u64,
    name: &[u8],
) -> Result<Step<bool>, CallFault>
    requires new { draft.old.fates ≡ empty }
    requires there { HasBlock (V.seen draft.old.view) dir }
    requires directory { IsDirectoryIn (V.seen draft.old.view) dir }
    requires named { HasNameIn (V.seen draft.old.view) dir name.now }
    ensures lost { IfIs result (λ done. AreLost (V.seen draft.old.view) dir (name.now ∷ []) draft.new.fates) }
    ensures still { IfIs result (λ done. done ≡ true → IsDirectoryIn (seen_in V.seen draft.new) dir) }
    ensures able { (h : Holding) → IsShown (V.seen draft.old.view) dir h → CanTell (name.now ∷ []) h → IfIs result (λ done. done ≡ true) }
    ensures view { IfIs result (λ done. draft.new.view ≡ draft.old.view) }
    ensures needed { IfNeedBlock result (λ missing. IsAfter (V.seen draft.old.view) dir [] (λ k. IsNeededFor (V.seen draft.old.view) k name.now missing)) }
    ensures under { IfNeedBlock result (IsAskedUnder (V.seen draft.old.view) dir) }
    ensures damaged { IfDamaged result (λ rule block. IsAfter (V.seen draft.old.view) dir [] (λ k. IsBroken (V.seen draft.old.view) k rule block)) }
    ensures kept { IfDamaged result (IsOfView (V.seen draft.old.view)) }
{
    is_a_view(&*draft);
    match remove(draft, dir, name)? {
        Step::Is(_leaf) => Ok(Step::Is(has_directory(&*draft, dir))),
        Step::NeedBlock(missing) => Ok(Step::NeedBlock(missing)),
    }
}

// Takes another name from it, where it has that still.
fn lose_another<V: View>(
    draft: &mut Draft<'_, V>,
    dir: u64,
    gone: &[u8],
    name: &[u8],
) -> Result<Step<bool>, CallFault>
    requires lost { AreLost (V.seen draft.old.view) dir (gone.now ∷ []) draft.old.fates }
    requires there { HasBlock (V.seen draft.old.view) dir }
    requires still { IsDirectoryIn (seen_in V.seen draft.old) dir }
    requires named { HasNameIn (V.seen draft.old.view) dir name.now }
    requires other { name.now ≢ gone.now }
    ensures lost { IfIs result (λ done. done ≡ true → AreLost (V.seen draft.old.view) dir (gone.now ∷ name.now ∷ []) draft.new.fates) }
    ensures still { IfIs result (λ done. done ≡ true → IsDirectoryIn (seen_in V.seen draft.new) dir) }
    ensures able { (h : Holding) → IsShown (V.seen draft.old.view) dir h → CanTell (gone.now ∷ name.now ∷ []) h → IfIs result (λ done. done ≡ true) }
    ensures view { IfIs result (λ done. draft.new.view ≡ draft.old.view) }
    ensures needed { IfNeedBlock result (λ missing. IsAfter (V.seen draft.old.view) dir (gone.now ∷ []) (λ k. IsNeededFor (V.seen draft.old.view) k name.now missing)) }
    ensures under { IfNeedBlock result (IsAskedUnder (V.seen draft.old.view) dir) }
    ensures damaged { IfDamaged result (λ rule block. IsAfter (V.seen draft.old.view) dir (gone.now ∷ []) (λ k. IsBroken (V.seen draft.old.view) k rule block)) }
    ensures kept { IfDamaged result (IsOfView (V.seen draft.old.view)) }
{
    is_a_view(&*draft);
    match look(&*draft, dir, name)? {
        Step::Is(Some(_entry)) => {}
        Step::Is(None) => return Ok(Step::Is(false)),
        Step::NeedBlock(missing) => return Ok(Step::NeedBlock(missing)),
    }
    match remove(draft, dir, name)? {
        Step::Is(_leaf) => Ok(Step::Is(has_directory(&*draft, dir))),
        Step::NeedBlock(missing) => Ok(Step::NeedBlock(missing)),
    }
}

/// Takes the names from the directory that gets the new one, in a new draft: what stands by the new name, and then the old one where it is in the same
/// directory. False where that isn't sound.
pub(crate) fn lose_names<V: View>(
    draft: &mut Draft<'_, V>,
    m: &NameMove<'_>,
) -> Result<Step<bool>, CallFault>
    requires new { draft.old.fates ≡ empty }
    requires can { CanBeMoved (V.seen draft.old.view) (move_of m.now) }
    ensures lost { IfIs result (λ done. done ≡ true → AreLost (V.seen draft.old.view) m.now.to.inode (lost_there (move_of m.now)) draft.new.fates) }
    ensures still { IfIs result (λ done. done ≡ true → IsDirectoryIn (seen_in V.seen draft.new) m.now.to.inode) }
    ensures able { (h : Holding) → IsShown (V.seen draft.old.view) m.now.to.inode h → CanTell (lost_there (move_of m.now)) h → IfIs result (λ done. done ≡ true) }
    ensures view { IfIs result (λ done. draft.new.view ≡ draft.old.view) }
    ensures needed { IfNeedBlock result (IsNeededThere (V.seen draft.old.view) (move_of m.now)) }
    ensures damaged { IfDamaged result (IsWrongThere (V.seen draft.old.view) (move_of m.now)) }
    ensures kept { IfDamaged result (IsOfView (V.seen draft.old.view)) }
{
    let to = m.to.inode;
    let within = m.from == to;
    if m.replaced.is_none() {
        if within {
            return lose_one(draft, to, m.name.bytes());
        }
        return Ok(Step::Is(true));
    }
    match lose_one(draft, to, m.new_name.bytes())? {
        Step::Is(true) => {}
        Step::Is(false) => return Ok(Step::Is(false)),
        Step::NeedBlock(missing) => return Ok(Step::NeedBlock(missing)),
    }
    if within {
        return lose_another(draft, to, m.new_name.bytes(), m.name.bytes());
    }
    Ok(Step::Is(true))
}
