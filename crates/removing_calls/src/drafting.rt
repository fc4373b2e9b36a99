// The draft of a removal.
ghost use Rattle.std.specs.Prelude.{ℕ, ◌≡◌, None, Contains};
ghost use Rattle.std.specs.FinMap.{empty};
ghost use Rattle.gfs2_layout.specs.Holding.{Holding};
ghost use Rattle.glock_names.specs.Steps.{IfIs, IfNeedBlock, IfDamaged};
ghost use Rattle.glock_names.specs.Views.{IsOfView, IsView};
ghost use Rattle.directories.specs.Shown as dirs;
ghost use Rattle.directories.specs.Taking.{HasNameIn};
ghost use Rattle.drafts.specs.Fates.{seen_in};
ghost use Rattle.resource_groups.specs.Putting.{HasDataBlock};
ghost use Rattle.resource_groups.specs.Freeing.{IsNeededFor, BreaksSome};
ghost use Rattle.removing_calls.specs.Drafting.{IsFreedAndDone, IsNameTaken, IsNeededIn, IsRemoval, IsWrongIn};

use directories::remove;
use drafts::{Change, Draft};
use glock_names::{CallFault, Step, View};
use new_inodes::stamp;
use resource_groups::free_blocks;
use std::alloc::Global;

// A law: what a node has of the file system is a view of it.
fn is_a_view<V: View>(view: &V)
    ensures { IsView (V.seen view.now) }
{
    let _size = view.block_size();
}

// Takes a name that it has from a directory in a new draft, and then puts the time into its dinode. It answers the block that had the name's record.
fn take_name<V: View>(
    draft: &mut Draft<'_, V>,
    dir: u64,
    name: &[u8],
    time: u64,
) -> Result<Step<u64>, CallFault>
    requires new { draft.old.fates ≡ empty }
    requires directory { dirs.IsDirectoryIn (V.seen draft.old.view) dir }
    requires named { HasNameIn (V.seen draft.old.view) dir name.now }
    ensures taken { IfIs result (λ leaf. IsNameTaken (V.seen draft.old.view) dir name.now time leaf draft.new.fates) }
    ensures view { IfIs result (λ leaf. draft.new.view ≡ draft.old.view) }
    ensures needed { (h : Holding) → dirs.IsShown (V.seen draft.old.view) dir h → IfNeedBlock result (dirs.IsNeededFor (V.seen draft.old.view) h name.now) }
    ensures absent { IfNeedBlock result (λ missing. (V.seen draft.old.view).block_at missing.block ≡ None) }
    ensures damaged { (h : Holding) → dirs.IsShown (V.seen draft.old.view) dir h → IfDamaged result (dirs.IsBroken (V.seen draft.old.view) h) }
    ensures kept { IfDamaged result (IsOfView (V.seen draft.old.view)) }
{
    is_a_view(&*draft);
    let leaf = match remove(draft, dir, name)? {
        Step::Is(leaf) => leaf,
        Step::NeedBlock(missing) => return Ok(Step::NeedBlock(missing)),
    };
    stamp(draft, dir, time)?;
    Ok(Step::Is(leaf))
}

// Frees blocks in a draft, and ends it.
fn free_and_finish<V: View>(
    mut draft: Draft<'_, V>,
    blocks: &[u64],
) -> Result<Step<Change>, CallFault>
    requires { (b : ℕ) → Contains blocks.now b → HasDataBlock (seen_in V.seen draft) b }
    ensures freed { IfIs result (IsFreedAndDone V.seen draft.entry blocks.now) }
    ensures needed { IfNeedBlock result (IsNeededFor (seen_in V.seen draft.entry) blocks.now) }
    ensures damaged { IfDamaged result (BreaksSome (seen_in V.seen draft.entry) blocks.now) }
    ensures kept { IfDamaged result (IsOfView (seen_in V.seen draft.entry)) }
{
    match free_blocks(&mut draft, blocks)? {
        Step::Is(()) => {}
        Step::NeedBlock(missing) => return Ok(Step::NeedBlock(missing)),
    }
    Ok(Step::Is(draft.finish()?))
}

/// What a draft changes in which a name of a directory goes, the directory gets a time, and blocks are freed, each of them a data block of a
/// group, as the directory's own is, which isn't among them. It looks that the block with the name's record isn't either. It costs what `remove` and
/// `free_blocks` cost, and two copies of the dinode's block.
pub(crate) fn removal<V: View>(
    alloc: Global,
    view: &V,
    dir: u64,
    name: &[u8],
    blocks: &[u64],
    time: u64,
) -> Result<Step<Change>, CallFault>
    requires directory { dirs.IsDirectoryIn (V.seen view.now) dir }
    requires named { HasNameIn (V.seen view.now) dir name.now }
    requires inside { HasDataBlock (V.seen view.now) dir }
    requires blocks { (b : ℕ) → Contains blocks.now b → HasDataBlock (V.seen view.now) b }
    requires apart { ¬ (Contains blocks.now dir) }
    ensures removal { IfIs result (IsRemoval V.seen view.now dir name.now time blocks.now) }
    ensures needed { IfNeedBlock result (IsNeededIn (V.seen view.now) dir name.now blocks.now) }
    ensures damaged { IfDamaged result (IsWrongIn (V.seen view.now) dir name.now blocks.now) }
    ensures kept { IfDamaged result (IsOfView (V.seen view.now)) }
{
    is_a_view(view);
    let mut draft = Draft::new(alloc, view);
    let leaf = match take_name(&mut draft, dir, name, time)? {
        Step::Is(leaf) => leaf,
        Step::NeedBlock(missing) => return Ok(Step::NeedBlock(missing)),
    };
    if blocks.contains(&leaf) {
        return Err(CallFault::Damaged {
            block: leaf,
            rule: 3,
        });
    }
    free_and_finish(draft, blocks)
}
