// Whether all blocks that a change has lie where they may, and what is told where one doesn't.
ghost use Rattle.std.specs.Prelude.{ℕ, List, ◌≡◌, ◌≤◌, ◌<◌, ◌↔◌, true, false, Contains, IfSome, IsSome, IsTrue, Ok, length};
ghost use Rattle.drafts.specs.Fates.{AreWhole};
ghost use Rattle.drafts.specs.declared.change.Change.{Change};
ghost use Rattle.drafts.specs.declared.change.Written.{Written};
ghost use Rattle.gfs2_layout.specs.Holding.{Holding};
ghost use Rattle.glock_names.specs.Steps.{IfIs, IfNeedBlock, IfDamaged};
ghost use Rattle.glock_names.specs.Views.{IsOfView, IsView, end_of};
ghost use Rattle.glock_names.specs.declared.steps.Step.TheVariants.{Is};
ghost use Rattle.dinode_tree.specs.Below.{AnyIndex};
ghost use Rattle.dinode_tree.specs.Reading.{IsNeeded};
ghost use Rattle.dinode_tree.specs.Shown.{IsShown};
ghost use Rattle.dinode_tree.specs.declared.below.PointedBlock.{PointedBlock};
ghost use Rattle.image_changes.specs.Does.{AreInside, LiesInGroup};
ghost use Rattle.image_changes.specs.Drafted.{IsFinished};
ghost use Rattle.resource_groups.specs.Putting.{HasDataBlock};
ghost use Rattle.file_changes.specs.Drafting.{IsWrongAt};

use dinode_tree::{PointedBlock, blocks_below};
use drafts::{Change, Draft, Written};
use glock_names::{CallFault, Group, Step, View};
use resource_groups::group_of;
use std::alloc::Global;

/// A law: what a node has of the file system is a view of it.
pub(crate) fn is_a_view<V: View>(view: &V)
    ensures { IsView (V.seen view.now) }
{
    let _size = view.block_size();
}

// Whether the block is one of the group: of its header, its bitmap or its data blocks.
fn reaches(group: &Group, block: u64) -> bool
    ensures over { result ≡ true → group.now.addr ≤ block × block < end_of group.now }
    ensures not { result ≡ false → group.now.addr ≤ block → block < end_of group.now → ⊥ }
{
    group.addr <= block && (block < group.first || block - group.first < u64::from(group.count))
}

// Whether the block is one of a group of the view.
fn lies_in_group<V: View>(view: &V, block: u64) -> bool
    ensures { IsTrue result ↔ LiesInGroup (V.seen view.now) block }
{
    for group in view.groups() {
        if reaches(group, block) {
            return true;
        }
    }
    false
}

// Whether each written block is one of a group of the view.
fn all_lie<V: View>(view: &V, written: &[Written]) -> bool
    ensures { IsTrue result ↔ ((w : Written) → Contains written.now w → LiesInGroup (V.seen view.now) w.block) }
{
    for one in written {
        if !lies_in_group(view, one.block) {
            return false;
        }
    }
    true
}

// Whether each block is a data block of a group of the view.
fn all_are_data<V: View>(view: &V, blocks: &[u64]) -> bool
    ensures { IsTrue result ↔ ((b : ℕ) → Contains blocks.now b → HasDataBlock (V.seen view.now) b) }
{
    for block in blocks {
        if group_of(view, *block).is_none() {
            return false;
        }
    }
    true
}

// The first of these blocks that is no data block of a group of the view; None where all are.
fn stray_block<V: View>(view: &V, below: &[PointedBlock]) -> Option<PointedBlock>
    ensures { IfSome result (λ p. Contains below.now p × (¬ (HasDataBlock (V.seen view.now) p.block))) }
{
    for pointed in below {
        if group_of(view, pointed.block).is_none() {
            return Some(*pointed);
        }
    }
    None
}

// Tells the first pointer of an inode that leads to a block which is no data block of a group; the answer, where there is none, is false.
fn tell_stray<V: View>(alloc: Global, view: &V, inode: u64) -> Result<Step<bool>, CallFault>
    ensures not { IfIs result (λ inside. inside ≡ false) }
    ensures needed { (h : Holding) → IsShown (V.seen view.now) inode h → IfNeedBlock result (IsNeeded (V.seen view.now) h AnyIndex 1) }
    ensures damaged { (blocks : List ℕ) → IfDamaged result (IsWrongAt (V.seen view.now) inode blocks) }
    ensures kept { IfDamaged result (IsOfView (V.seen view.now)) }
{
    let below = match blocks_below(alloc, view, inode)? {
        Step::Is(below) => below,
        Step::NeedBlock(missing) => return Ok(Step::NeedBlock(missing)),
    };
    match stray_block(view, &below) {
        Some(stray) => Err(CallFault::Damaged {
            block: stray.from,
            rule: 2,
        }),
        None => Ok(Step::Is(false)),
    }
}

// Whether each block that a change of an inode writes lies in a group of the view. Where one doesn't, a pointer of the inode that leads to a
// block which is no data block is told, if there is one. It costs a look at the groups for each written block, and where one lies in none,
// what `blocks_below` costs and such a look for each block below.
fn check_inside<V: View>(
    alloc: Global,
    view: &V,
    inode: u64,
    change: &Change,
) -> Result<Step<bool>, CallFault>
    requires whole { (w : Written) → Contains change.now.blocks.items w → length w.bytes ≡ (V.seen view.now).size }
    ensures inside { IfIs result (λ inside. inside ≡ true → AreInside (V.seen view.now) change.now) }
    ensures all { AreInside (V.seen view.now) change.now → result ≡ Ok (Is true) }
    ensures needed { (h : Holding) → IsShown (V.seen view.now) inode h → IfNeedBlock result (IsNeeded (V.seen view.now) h AnyIndex 1) }
    ensures damaged { (blocks : List ℕ) → IfDamaged result (IsWrongAt (V.seen view.now) inode blocks) }
    ensures kept { IfDamaged result (IsOfView (V.seen view.now)) }
{
    if all_lie(view, &change.blocks) {
        return Ok(Step::Is(true));
    }
    tell_stray(alloc, view, inode)
}

/// Ends a draft of an inode over the view: its change, or None where some block that it writes lies in no group. It costs what `finish`
/// costs, and a look at the groups for each written block; where one lies in none, what `blocks_below` costs and such a look for each block below.
pub(crate) fn finish_inside<V: View>(
    alloc: Global,
    view: &V,
    draft: Draft<'_, V>,
    inode: u64,
) -> Result<Step<Option<Change>>, CallFault>
    requires whole { AreWhole (V.seen view.now).size draft.fates }
    ensures finished { IfIs result (λ done. IfSome done (IsFinished draft.entry.fates)) }
    ensures inside { IfIs result (λ done. IfSome done (AreInside (V.seen view.now))) }
    ensures all { ((change : Change) → IsFinished draft.entry.fates change → AreInside (V.seen view.now) change) → IfIs result (λ done. IsSome done) }
    ensures needed { (h : Holding) → IsShown (V.seen view.now) inode h → IfNeedBlock result (IsNeeded (V.seen view.now) h AnyIndex 1) }
    ensures damaged { (blocks : List ℕ) → IfDamaged result (IsWrongAt (V.seen view.now) inode blocks) }
    ensures kept { IfDamaged result (IsOfView (V.seen view.now)) }
{
    let change = draft.finish()?;
    match check_inside(alloc, view, inode, &change)? {
        Step::Is(true) => Ok(Step::Is(Some(change))),
        Step::Is(false) => Ok(Step::Is(None)),
        Step::NeedBlock(missing) => Ok(Step::NeedBlock(missing)),
    }
}

/// Whether each of these blocks, to which an inode leads or led in a draft, is a data block of a group of the view. Where one isn't, a pointer
/// of the inode to such a block is told, if the view has one. It costs a look at the groups for
/// each block, and where one isn't, what `blocks_below` costs and such a look for each block below.
pub(crate) fn check_data_blocks<V: View>(
    alloc: Global,
    view: &V,
    inode: u64,
    blocks: &[u64],
) -> Result<Step<bool>, CallFault>
    ensures inside { IfIs result (λ inside. inside ≡ true → (b : ℕ) → Contains blocks.now b → HasDataBlock (V.seen view.now) b) }
    ensures all { ((b : ℕ) → Contains blocks.now b → HasDataBlock (V.seen view.now) b) → result ≡ Ok (Is true) }
    ensures needed { (h : Holding) → IsShown (V.seen view.now) inode h → IfNeedBlock result (IsNeeded (V.seen view.now) h AnyIndex 1) }
    ensures damaged { (list : List ℕ) → IfDamaged result (IsWrongAt (V.seen view.now) inode list) }
    ensures kept { IfDamaged result (IsOfView (V.seen view.now)) }
{
    if all_are_data(view, blocks) {
        return Ok(Step::Is(true));
    }
    tell_stray(alloc, view, inode)
}
