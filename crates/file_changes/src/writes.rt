// Bytes that are written to a file.
ghost use Rattle.std.specs.Prelude.{ℕ, ◌≡◌, ◌+◌, ◌≤◌, true, false, [], length, Contains, IfSome, IsSome};
ghost use Rattle.std.specs.FinMap.{FinMap, empty};
ghost use Rattle.drafts.specs.Fates.{seen_in, seen_with};
ghost use Rattle.file_tree.specs.Apply.{file_limit};
ghost use Rattle.file_tree.specs.Tree.{Tree};
ghost use Rattle.gfs2_layout.specs.Holding.{Holding};
ghost use Rattle.glock_names.specs.Steps.{IfIs, IfNeedBlock, IfDamaged};
ghost use Rattle.glock_names.specs.Views.{HasBlock, IsOfView};
ghost use Rattle.dinode_tree.specs.Broken.{IsBroken};
ghost use Rattle.dinode_tree.specs.Reading.{IsNeeded};
ghost use Rattle.dinode_tree.specs.Shown.{IsShown};
ghost use Rattle.growth_drafts.specs.Taken.{IsLookedAt};
ghost use Rattle.growth_drafts.specs.Touched.{Follows};
ghost use Rattle.growth_laws.specs.Need.{needed};
ghost use Rattle.file_cuts.specs.Written.{CanWrite, HasWritten};
ghost use Rattle.image_model.specs.Flat.{Path};
ghost use Rattle.image_model.specs.Image.{Image};
ghost use Rattle.image_model.specs.Owners.{Owners};
ghost use Rattle.image_model.specs.Stands.{Layout};
ghost use Rattle.image_changes.specs.Does.{IsOf, AreInside};
ghost use Rattle.image_changes.specs.Instances.{IsAt};
ghost use Rattle.draft_changes.specs.Resizing.{LeavesGroups};
ghost use Rattle.resource_groups.specs.Freeing.{BreaksSome, IsNeededFor};
ghost use Rattle.resource_groups.specs.Putting.{HasDataBlock};
ghost use Rattle.file_changes.specs.Drafting.{IsNeededAt, IsWriteDraft, IsWrongAt, TakesIn, WritesFile};
ghost use Rattle.file_changes.specs.Making.{IsRoomIn};

use crate::groups::tell_groups;
use crate::inside::{finish_inside, is_a_view};
use crate::times::put_time;
use draft_changes::{free_blocks_are_new, groups_say_what_is_taken};
use drafts::{Change, Draft};
use file_cuts::write_range;
use glock_names::{CallFault, Step, View};
use group_locks::standing_groups_are_sound;
use growth_laws::files_are_inodes;
use resource_groups::take_blocks;
use std::alloc::Global;
use std::collections::VecDeque;

// Writes bytes to a file in a new draft. False where the view's file isn't a sound one, or the blocks of the room aren't as many as needed.
fn write_bytes<V: View>(
    alloc: Global,
    draft: &mut Draft<'_, V>,
    inode: u64,
    at: u64,
    new: &[u8],
    room: &[u64],
) -> Result<Step<bool>, CallFault>
    requires short { at + length new.now ≤ file_limit }
    requires new { draft.old.fates ≡ empty }
    ensures written { (h : Holding) → IsShown (V.seen draft.old.view) inode h → CanWrite h at (length new.now) room.now
        → IfIs result (λ done. done ≡ true → HasWritten (seen_with (V.seen draft.old.view) draft.new.fates) empty draft.new.fates room.now [] h at new.now) }
    ensures within { IfIs result (λ done. done ≡ true → Follows (V.seen draft.old.view) inode room.now empty draft.new.fates) }
    ensures view { draft.new.view ≡ draft.old.view }
    ensures there { IfIs result (λ done. HasBlock (V.seen draft.old.view) inode) }
    ensures done { (h : Holding) → IsShown (V.seen draft.old.view) inode h → CanWrite h at (length new.now) room.now → length room.now ≡ needed h at (length new.now) → IfIs result (λ done. done ≡ true) }
    ensures needed { (h : Holding) → IsShown (V.seen draft.old.view) inode h → IfNeedBlock result (IsNeeded (V.seen draft.old.view) h (IsLookedAt h at (at + length new.now)) 0) }
    ensures damaged { (h : Holding) → IsShown (V.seen draft.old.view) inode h → IfDamaged result (IsBroken h) }
    ensures kept { IfDamaged result (IsOfView (V.seen draft.old.view)) }
{
    let mut left = VecDeque::from_vec(Vec::from_slice(alloc, room)?);
    match write_range(alloc, draft, inode, at, new, &mut left)? {
        Step::Is(done) => Ok(Step::Is(done && left.is_empty())),
        Step::NeedBlock(missing) => Ok(Step::NeedBlock(missing)),
    }
}

// Takes the blocks of the room in a draft over the view. Where their groups are damaged there, and not in the view, the answer is false.
fn take_room<V: View>(
    alloc: Global,
    view: &V,
    draft: &mut Draft<'_, V>,
    room: &[u64],
) -> Result<Step<bool>, CallFault>
    requires over { draft.old.view ≡ view.now }
    requires inside { (b : ℕ) → Contains room.now b → HasDataBlock (V.seen view.now) b }
    ensures taken { IfIs result (λ done. done ≡ true → TakesIn (V.seen view.now) draft.old.fates draft.new.fates room.now) }
    ensures view { draft.new.view ≡ view.now }
    ensures sound { (im : Image) (o : Owners) (l : Layout) (t : Tree) → IsOf (V.seen view.now) im o l t → LeavesGroups l draft.old.fates → IfIs result (λ done. done ≡ true) }
    ensures needed { IfNeedBlock result (IsNeededFor (V.seen view.now) room.now) }
    ensures damaged { IfDamaged result (BreaksSome (V.seen view.now) room.now) }
    ensures kept { IfDamaged result (IsOfView (V.seen view.now)) }
{
    standing_groups_are_sound();
    match take_blocks(draft, room) {
        Ok(Step::Is(())) => Ok(Step::Is(true)),
        Ok(Step::NeedBlock(missing)) => Ok(Step::NeedBlock(missing)),
        Err(CallFault::NoMemory) => Err(CallFault::NoMemory),
        Err(CallFault::Damaged { .. }) => tell_groups(alloc, view, room),
    }
}

// Writes bytes to a file in a new draft over the view, puts the time, and takes the blocks of the room.
fn draft_write<V: View>(
    alloc: Global,
    view: &V,
    draft: &mut Draft<'_, V>,
    inode: u64,
    at: u64,
    new: &[u8],
    time: u64,
    room: &[u64],
) -> Result<Step<bool>, CallFault>
    requires short { at + length new.now ≤ file_limit }
    requires room { (b : ℕ) → Contains room.now b → HasDataBlock (V.seen view.now) b }
    requires new { draft.old ≡ record { view = view.now; fates = empty } }
    ensures written { IfIs result (λ done. done ≡ true → WritesFile (V.seen view.now) inode at new.now time room.now draft.new.fates) }
    ensures view { IfIs result (λ done. done ≡ true → draft.new.view ≡ view.now) }
    ensures done { (im : Image) (o : Owners) (l : Layout) (t : Tree) (path : Path) → IsOf (V.seen view.now) im o l t → IsAt im o l path inode → IsRoomIn im o l inode at (length new.now) room.now
        → IfIs result (λ done. done ≡ true) }
    ensures needed { IfNeedBlock result (IsNeededAt (V.seen view.now) inode (λ h. IsLookedAt h at (at + length new.now)) room.now) }
    ensures damaged { IfDamaged result (IsWrongAt (V.seen view.now) inode room.now) }
    ensures kept { IfDamaged result (IsOfView (V.seen view.now)) }
{
    is_a_view(view);
    files_are_inodes();
    free_blocks_are_new();
    match write_bytes(alloc, draft, inode, at, new, room)? {
        Step::Is(true) => {}
        Step::Is(false) => return Ok(Step::Is(false)),
        Step::NeedBlock(missing) => return Ok(Step::NeedBlock(missing)),
    }
    if !put_time(draft, inode, time)? {
        return Ok(Step::Is(false));
    }
    take_room(alloc, view, draft, room)
}

/// The change of a view in which bytes are written over a file's content from byte `at` on, with zeros between its end and that place:
/// without bytes, the file goes on to `at` with zeros. The blocks of `room`, data blocks of the view's groups that are free, are taken for it, as many
/// as `need_write` says, and say so in their groups; the file's dinode gets the time. None isn't answered in an image that stands for a tree, where the
/// inode is a file and the room is as large as needed. It costs what `write_range` and `take_blocks` cost, and a look at the groups for each block that is put.
pub fn write_file<V: View>(
    alloc: Global,
    view: &V,
    inode: u64,
    at: u64,
    new: &[u8],
    time: u64,
    room: &[u64],
) -> Result<Step<Option<Change>>, CallFault>
    requires short { at + length new.now ≤ file_limit }
    requires room { (b : ℕ) → Contains room.now b → HasDataBlock (V.seen view.now) b }
    ensures written { IfIs result (λ done. IfSome done (IsWriteDraft (V.seen view.now) inode at new.now time room.now)) }
    ensures inside { IfIs result (λ done. IfSome done (AreInside (V.seen view.now))) }
    ensures done { (im : Image) (o : Owners) (l : Layout) (t : Tree) (path : Path) → IsOf (V.seen view.now) im o l t → IsAt im o l path inode → IsRoomIn im o l inode at (length new.now) room.now
        → IfIs result (λ done. IsSome done) }
    ensures needed { IfNeedBlock result (IsNeededAt (V.seen view.now) inode (λ h. IsLookedAt h at (at + length new.now)) room.now) }
    ensures damaged { IfDamaged result (IsWrongAt (V.seen view.now) inode room.now) }
    ensures kept { IfDamaged result (IsOfView (V.seen view.now)) }
{
    is_a_view(view);
    files_are_inodes();
    free_blocks_are_new();
    groups_say_what_is_taken();
    let mut draft = Draft::new(alloc, view);
    match draft_write(alloc, view, &mut draft, inode, at, new, time, room)? {
        Step::Is(true) => {}
        Step::Is(false) => return Ok(Step::Is(None)),
        Step::NeedBlock(missing) => return Ok(Step::NeedBlock(missing)),
    }
    finish_inside(alloc, view, draft, inode)
}
