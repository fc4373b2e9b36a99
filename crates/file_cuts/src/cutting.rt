// A file that is cut.
ghost use Rattle.std.specs.Prelude.{ℕ, List, Contains, ◌≡◌, ◌≢◌, ◌⊎◌, ◌+◌, ◌<◌, ◌≤◌, true, false, None, IfOk, IfSome, IsSomeAnd};
ghost use Rattle.drafts.specs.Fates.{seen_in};
ghost use Rattle.gfs2_layout.specs.Holding.{Holding};
ghost use Rattle.gfs2_layout.specs.Inode.{content_count, dinode_in, height_in};
ghost use Rattle.gfs2_layout.specs.Structures.{dinode_length};
ghost use Rattle.glock_names.specs.Steps.{IfDamaged, IfIs, IfNeedBlock, OnlyDamaged};
ghost use Rattle.glock_names.specs.Views.{HasBlock, IsOfView};
ghost use Rattle.dinode_tree.specs.Broken.{IsBroken};
ghost use Rattle.dinode_tree.specs.Reading.{IsNeeded};
ghost use Rattle.dinode_tree.specs.Shown.{IsShown};
ghost use Rattle.growth_laws.specs.Files.{IsFile};
ghost use Rattle.growth_drafts.specs.Taken.{IsCutAt};
ghost use Rattle.growth_drafts.specs.Touched.{Follows};
ghost use Rattle.file_fills.specs.Filling.{IsSeenWay};
ghost use Rattle.growth_steps.specs.Sizes.{CanHaveSize};
ghost use Rattle.file_cuts.specs.Cut.{CanCut, HasCut, WasLedTo, end_of};
ghost use Rattle.file_cuts.specs.Progress.{HasNewEnd, IsSeenOver};

use crate::freeing::free_past;
use crate::looking::look_past;
use dinode_tree::read_dinode;
use drafts::Draft;
use file_fills::look_at;
use file_heights::{clear_last, set_size_and_count};
use file_walks::count_blocks;
use gfs2_layout::Dinode;
use glock_names::{CallFault, Step, View};
use growth_steps::{resize_stuffed, set_height};
use no_memory::NoMemory;
use std::alloc::Global;

// Looks at the blocks of a file on the way to what a cut takes, and at the last block that stays, where it is cut itself.
fn look_for_cut<V: View>(
    view: &V,
    inode: u64,
    dinode: &Dinode,
    size: u64,
) -> Result<Step<()>, CallFault>
    ensures over { (h : Holding) (i : ℕ) → IsFile h → IsShown (V.seen view.now) inode h → dinode.now ≡ dinode_in h → end_of h size ≤ i → (i ≡ end_of h size) ⊎ (i < content_count h) → IfIs result (λ done. IsSeenOver (V.seen view.now) h i) }
    ensures last { (h : Holding) (i : ℕ) → IsFile h → IsShown (V.seen view.now) inode h → dinode.now ≡ dinode_in h → i + 1 ≡ end_of h size → IsCutAt h size i → IfIs result (λ done. IsSeenWay (V.seen view.now) h i) }
    ensures needed { (h : Holding) → IsShown (V.seen view.now) inode h → dinode.now ≡ dinode_in h → IfNeedBlock result (IsNeeded (V.seen view.now) h (IsCutAt h size) 0) }
    ensures damaged { (h : Holding) → IsShown (V.seen view.now) inode h → OnlyDamaged result (IsBroken h) }
    ensures kept { OnlyDamaged result (IsOfView (V.seen view.now)) }
{
    let block_size = u64::from(view.block_size());
    let end = size.div_ceil(block_size);
    if size % block_size != 0 {
        match look_at(view, inode, dinode.is_regular(), size / block_size)? {
            Step::Is(()) => {}
            Step::NeedBlock(missing) => return Ok(Step::NeedBlock(missing)),
        }
    }
    look_past(view, inode, end, count_blocks(block_size as usize, dinode))
}

// Whether the view has a block.
fn sees<V: View>(view: &V, block: u64) -> bool
    ensures yes { result ≡ true → HasBlock (V.seen view.now) block }
    ensures no { result ≡ false → (V.seen view.now).block_at block ≡ None }
{
    view.block(block).is_some()
}

// Gives a file in blocks its new end, past which it has no block, and tells in its dinode that it has so many blocks. False where the last
// block of content isn't seen.
fn set_end<V: View>(
    draft: &mut Draft<'_, V>,
    inode: u64,
    dinode: &Dinode,
    size: u64,
    blocks: u64,
) -> Result<bool, NoMemory>
    requires there { HasBlock (seen_in V.seen draft.old) inode }
    ensures ended { (h : Holding) → IsFile h → IsShown (seen_in V.seen draft.old) inode h → dinode.now ≡ dinode_in h → CanHaveSize h size
        → ((i : ℕ) → i + 1 ≡ end_of h size → IsCutAt h size i → IsSeenWay (seen_in V.seen draft.old) h i)
        → IfOk result (λ done. (done ≡ true) × HasNewEnd (seen_in V.seen draft.new) draft.old.fates draft.new.fates h size blocks) }
    ensures view { draft.new.view ≡ draft.old.view }
    ensures within { (room : List ℕ) → IfOk result (λ done. Follows (V.seen draft.old.view) inode room draft.old.fates draft.new.fates) }
{
    let block_size = u64::from(draft.block_size());
    set_size_and_count(draft, inode, dinode, size, blocks)?;
    let sized = Dinode {
        size,
        blocks,
        ..*dinode
    };
    if size == 0 {
        set_height(draft, inode, &sized, 0)?;
        return Ok(true);
    }
    if size % block_size == 0 {
        return Ok(true);
    }
    clear_last(draft, inode, &sized)
}

// Cuts a file in blocks, of which those on the way are seen, and gives the blocks that it freed. None where the draft isn't that of such a file.
fn cut_blocks<V: View>(
    alloc: Global,
    draft: &mut Draft<'_, V>,
    inode: u64,
    dinode: &Dinode,
    size: u64,
) -> Result<Option<Vec<u64>>, NoMemory>
    ensures cut { (h : Holding) → IsShown (seen_in V.seen draft.old) inode h → dinode.now ≡ dinode_in h → CanCut h size → height_in h ≢ 0
        → ((i : ℕ) → end_of h size ≤ i → (i ≡ end_of h size) ⊎ (i < content_count h) → IsSeenOver (seen_in V.seen draft.old) h i)
        → ((i : ℕ) → i + 1 ≡ end_of h size → IsCutAt h size i → IsSeenWay (seen_in V.seen draft.old) h i)
        → IfOk result (λ done. IsSomeAnd done (λ freed. HasCut (seen_in V.seen draft.new) draft.old.fates draft.new.fates h size freed.items)) }
    ensures view { draft.new.view ≡ draft.old.view }
    ensures within { (room : List ℕ) → IfOk result (λ done. Follows (V.seen draft.old.view) inode room draft.old.fates draft.new.fates) }
    ensures led { IfOk result (λ done. IfSome done (λ freed. (b : ℕ) → Contains freed.items b → WasLedTo (V.seen draft.old.view) inode draft.old.fates draft.new.fates b)) }
{
    let block_size = u64::from(draft.block_size());
    let count = count_blocks(block_size as usize, dinode);
    let end = size.div_ceil(block_size);
    let Some(freed) = free_past(alloc, draft, inode, dinode.height, count, end)? else {
        return Ok(None);
    };
    if !sees(&*draft, inode) {
        return Ok(None);
    }
    let blocks = dinode.blocks.saturating_sub(freed.len() as u64);
    if !set_end(draft, inode, dinode, size, blocks)? {
        return Ok(None);
    }
    Ok(Some(freed))
}

// Cuts a file of which the blocks on the way are seen, and gives the blocks that it freed. None where the draft isn't that of such a file.
fn cut_seen<V: View>(
    alloc: Global,
    draft: &mut Draft<'_, V>,
    inode: u64,
    dinode: &Dinode,
    size: u64,
) -> Result<Option<Vec<u64>>, NoMemory>
    requires there { HasBlock (seen_in V.seen draft.old) inode }
    requires stuffed { dinode.now.height ≡ 0 → dinode_length + dinode.now.size ≤ (V.seen draft.old.view).size }
    requires larger { size ≤ dinode.now.size }
    ensures cut { (h : Holding) → IsShown (seen_in V.seen draft.old) inode h → dinode.now ≡ dinode_in h → CanCut h size
        → ((i : ℕ) → end_of h size ≤ i → (i ≡ end_of h size) ⊎ (i < content_count h) → IsSeenOver (seen_in V.seen draft.old) h i)
        → ((i : ℕ) → i + 1 ≡ end_of h size → IsCutAt h size i → IsSeenWay (seen_in V.seen draft.old) h i)
        → IfOk result (λ done. IsSomeAnd done (λ freed. HasCut (seen_in V.seen draft.new) draft.old.fates draft.new.fates h size freed.items)) }
    ensures view { draft.new.view ≡ draft.old.view }
    ensures within { (room : List ℕ) → IfOk result (λ done. Follows (V.seen draft.old.view) inode room draft.old.fates draft.new.fates) }
    ensures led { IfOk result (λ done. IfSome done (λ freed. (b : ℕ) → Contains freed.items b → WasLedTo (V.seen draft.old.view) inode draft.old.fates draft.new.fates b)) }
{
    if dinode.height == 0 {
        resize_stuffed(draft, inode, dinode, size as usize)?;
        return Ok(Some(Vec::new(alloc)));
    }
    cut_blocks(alloc, draft, inode, dinode, size)
}

/// Cuts a file to so many bytes, and answers the blocks that it freed, deepest first: each block of content past the end, and each indirect
/// block that leads past it alone. What stands behind the end in the last block that stays becomes zeros; the height stays, but becomes 0 at
/// size 0; content in the dinode's block is cut there. Before it changes anything it looks at all of the file's blocks on the way to
/// content past the end, and asks for those that the draft doesn't see. None where the draft isn't that of a sound file of this size at
/// least; then the draft may be half done, as it may after want of memory, and whoever gets one of these drops it.
pub fn cut<V: View>(
    alloc: Global,
    draft: &mut Draft<'_, V>,
    inode: u64,
    size: u64,
) -> Result<Step<Option<Vec<u64>>>, CallFault>
    ensures cut { (h : Holding) → IsShown (seen_in V.seen draft.old) inode h → CanCut h size
        → IfIs result (λ done. IsSomeAnd done (λ freed. HasCut (seen_in V.seen draft.new) draft.old.fates draft.new.fates h size freed.items)) }
    ensures within { (room : List ℕ) → IfIs result (λ done. Follows (V.seen draft.old.view) inode room draft.old.fates draft.new.fates) }
    ensures led { IfIs result (λ done. IfSome done (λ freed. (b : ℕ) → Contains freed.items b → WasLedTo (V.seen draft.old.view) inode draft.old.fates draft.new.fates b)) }
    ensures view { draft.new.view ≡ draft.old.view }
    ensures there { IfIs result (λ done. HasBlock (seen_in V.seen draft.old) inode) }
    ensures needed { (h : Holding) → IsShown (seen_in V.seen draft.old) inode h → IfNeedBlock result (IsNeeded (seen_in V.seen draft.old) h (IsCutAt h size) 0) }
    ensures unchanged { IfNeedBlock result (λ missing. draft.new ≡ draft.old) }
    ensures damaged { (h : Holding) → IsShown (seen_in V.seen draft.old) inode h → IfDamaged result (IsBroken h) }
    ensures kept { IfDamaged result (IsOfView (seen_in V.seen draft.old)) }
{
    let dinode = match read_dinode(&*draft, inode)? {
        Step::Is(dinode) => dinode,
        Step::NeedBlock(missing) => return Ok(Step::NeedBlock(missing)),
    };
    match look_for_cut(&*draft, inode, &dinode, size)? {
        Step::Is(()) => {}
        Step::NeedBlock(missing) => return Ok(Step::NeedBlock(missing)),
    }
    if !dinode.is_regular() || size > dinode.size {
        return Ok(Step::Is(None));
    }
    let freed = cut_seen(alloc, draft, inode, &dinode, size)?;
    Ok(Step::Is(freed))
}
