// A file that is cut.
ghost use Rattle.std.specs.Prelude.{ℕ, ◌≡◌, true, false, [], Contains, IfSome, IsSome};
ghost use Rattle.std.specs.FinMap.{empty};
ghost use Rattle.file_tree.specs.Tree.{Tree};
ghost use Rattle.drafts.specs.Fates.{seen_with};
ghost use Rattle.gfs2_layout.specs.Holding.{Holding};
ghost use Rattle.glock_names.specs.Steps.{IfIs, IfNeedBlock, IfDamaged};
ghost use Rattle.glock_names.specs.Views.{HasBlock, IsOfView};
ghost use Rattle.growth_drafts.specs.Taken.{IsCutAt};
ghost use Rattle.image_model.specs.Flat.{Path};
ghost use Rattle.image_model.specs.Image.{Image};
ghost use Rattle.image_model.specs.Owners.{Owners};
ghost use Rattle.image_model.specs.Stands.{Layout};
ghost use Rattle.image_changes.specs.Does.{IsOf, AreInside};
ghost use Rattle.image_changes.specs.Instances.{IsAt};
ghost use Rattle.draft_changes.specs.Resizing.{LeavesGroups};
ghost use Rattle.resource_groups.specs.Freeing.{BreaksSome, IsNeededFor};
ghost use Rattle.resource_groups.specs.Putting.{HasDataBlock};
ghost use Rattle.file_changes.specs.Drafting.{FreesIn, IsCutDraft, IsFreedAndDone, IsNeededAt, IsWrongAt};
ghost use Rattle.file_changes.specs.Making.{CanBeCut};

use crate::groups::tell_groups;
use crate::inside::{check_data_blocks, finish_inside, is_a_view};
use crate::times::put_time;
use draft_changes::groups_say_what_is_taken;
use drafts::{Change, Draft};
use file_cuts::cut;
use glock_names::{CallFault, Step, View};
use group_locks::standing_groups_are_sound;
use growth_laws::files_are_inodes;
use resource_groups::free_blocks;
use std::alloc::Global;

/// Cuts a file to so many bytes in a new draft over the view, and answers the blocks that this frees, each a data block of a group; the
/// file's dinode gets the time. None isn't answered in an image that stands for a tree, where the inode is a file of this size at least; with
/// it the draft may be half done. It costs what `cut` costs, and a look at the groups for each block.
pub fn cut_file<V: View>(
    alloc: Global,
    view: &V,
    draft: &mut Draft<'_, V>,
    inode: u64,
    size: u64,
    time: u64,
) -> Result<Step<Option<Vec<u64>>>, CallFault>
    requires new { draft.old ≡ record { view = view.now; fates = empty } }
    ensures cut { IfIs result (λ done. IfSome done (λ freed. IsCutDraft (V.seen view.now) inode size time freed.items draft.new.fates)) }
    ensures inside { IfIs result (λ done. IfSome done (λ freed. (b : ℕ) → Contains freed.items b → HasDataBlock (V.seen view.now) b)) }
    ensures view { IfIs result (λ done. IfSome done (λ freed. draft.new.view ≡ view.now)) }
    ensures done { (im : Image) (o : Owners) (l : Layout) (t : Tree) (path : Path) → IsOf (V.seen view.now) im o l t → IsAt im o l path inode → CanBeCut im o inode size
        → IfIs result (λ done. IsSome done) }
    ensures needed { IfNeedBlock result (IsNeededAt (V.seen view.now) inode (λ h. IsCutAt h size) []) }
    ensures damaged { IfDamaged result (IsWrongAt (V.seen view.now) inode []) }
    ensures kept { IfDamaged result (IsOfView (V.seen view.now)) }
{
    is_a_view(view);
    files_are_inodes();
    let freed = match cut(alloc, draft, inode, size)? {
        Step::Is(Some(freed)) => freed,
        Step::Is(None) => return Ok(Step::Is(None)),
        Step::NeedBlock(missing) => return Ok(Step::NeedBlock(missing)),
    };
    match check_data_blocks(alloc, view, inode, &freed)? {
        Step::Is(true) => {}
        Step::Is(false) => return Ok(Step::Is(None)),
        Step::NeedBlock(missing) => return Ok(Step::NeedBlock(missing)),
    }
    if !put_time(draft, inode, time)? {
        return Ok(Step::Is(None));
    }
    Ok(Step::Is(Some(freed)))
}

// Frees blocks in a draft over the view. Where their groups are damaged there, and not in the view, the answer is false.
fn free_in_draft<V: View>(
    alloc: Global,
    view: &V,
    draft: &mut Draft<'_, V>,
    freed: &[u64],
) -> Result<Step<bool>, CallFault>
    requires over { draft.old.view ≡ view.now }
    requires inside { (b : ℕ) → Contains freed.now b → HasDataBlock (V.seen view.now) b }
    ensures frees { IfIs result (λ done. done ≡ true → FreesIn (V.seen view.now) draft.old.fates draft.new.fates freed.now) }
    ensures view { draft.new.view ≡ view.now }
    ensures sound { (im : Image) (o : Owners) (l : Layout) (t : Tree) → IsOf (V.seen view.now) im o l t → LeavesGroups l draft.old.fates → IfIs result (λ done. done ≡ true) }
    ensures needed { IfNeedBlock result (IsNeededFor (V.seen view.now) freed.now) }
    ensures damaged { IfDamaged result (BreaksSome (V.seen view.now) freed.now) }
    ensures kept { IfDamaged result (IsOfView (V.seen view.now)) }
{
    standing_groups_are_sound();
    match free_blocks(draft, freed) {
        Ok(Step::Is(())) => Ok(Step::Is(true)),
        Ok(Step::NeedBlock(missing)) => Ok(Step::NeedBlock(missing)),
        Err(CallFault::NoMemory) => Err(CallFault::NoMemory),
        Err(CallFault::Damaged { .. }) => tell_groups(alloc, view, freed),
    }
}

/// Frees blocks over a draft over the view in which they were cut off from a file, and ends it. None isn't answered for a draft of `cut_file`
/// in an image that stands for a tree. It costs what `free_blocks` costs, and a look at the groups for each block that is put.
pub fn free_and_finish<V: View>(
    alloc: Global,
    view: &V,
    mut draft: Draft<'_, V>,
    inode: u64,
    freed: &[u64],
) -> Result<Step<Option<Change>>, CallFault>
    requires over { draft.view ≡ view.now }
    requires inside { (b : ℕ) → Contains freed.now b → HasDataBlock (V.seen view.now) b }
    ensures done { IfIs result (λ done. IfSome done (IsFreedAndDone (V.seen view.now) draft.entry.fates freed.now)) }
    ensures inside { IfIs result (λ done. IfSome done (AreInside (V.seen view.now))) }
    ensures sound { (im : Image) (o : Owners) (l : Layout) (t : Tree) (path : Path) (size time : ℕ) → IsOf (V.seen view.now) im o l t → IsAt im o l path inode
        → IsCutDraft (V.seen view.now) inode size time freed.now draft.entry.fates → CanBeCut im o inode size → IfIs result (λ done. IsSome done) }
    ensures needed { IfNeedBlock result (IsNeededAt (V.seen view.now) inode (λ h i. ⊥) freed.now) }
    ensures damaged { IfDamaged result (IsWrongAt (V.seen view.now) inode freed.now) }
    ensures kept { IfDamaged result (IsOfView (V.seen view.now)) }
{
    is_a_view(view);
    files_are_inodes();
    groups_say_what_is_taken();
    match free_in_draft(alloc, view, &mut draft, freed)? {
        Step::Is(true) => {}
        Step::Is(false) => return Ok(Step::Is(None)),
        Step::NeedBlock(missing) => return Ok(Step::NeedBlock(missing)),
    }
    finish_inside(alloc, view, draft, inode)
}
