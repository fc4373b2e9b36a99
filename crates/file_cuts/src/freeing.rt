// The blocks past an end, freed level by level from content up.
ghost use Rattle.std.specs.Prelude.{ℕ, List, [], ◌∷◌, ◌++◌, Contains, ◌≡◌, ◌⊎◌, ◌↔◌, ◌+◌, ◌-◌, ◌*◌, ◌/◌, ◌^◌, ◌<◌, ◌≤◌, ◌≢◌, true, Some, IfOk, OnOk, IfSome, IsSomeAnd};
ghost use Rattle.std.specs.FinMap.{FinMap};
ghost use Rattle.std.specs.Ordering.{nat_cmp};
ghost use Rattle.drafts.specs.Fates.{seen_in};
ghost use Rattle.drafts.specs.declared.fate.Fate.{Fate};
ghost use Rattle.gfs2_layout.specs.Holding.{Holding};
ghost use Rattle.gfs2_layout.specs.Inode.{Leads, content_count, height_in, span as span_of};
ghost use Rattle.glock_names.specs.Views.{HasBlock};
ghost use Rattle.dinode_tree.specs.Shown.{IsShown};
ghost use Rattle.growth_laws.specs.Files.{IsFile, with_cells};
ghost use Rattle.growth_drafts.specs.Touched.{Follows, IsReached};
ghost use Rattle.file_walks.specs.Walks.{IsOfInode, IsPlace, IsStop, IsUnder, LeadsNowhere, LeadsOn};
ghost use Rattle.file_cuts.specs.Cut.{WasLedTo};
ghost use Rattle.file_cuts.specs.Progress.{CanFree, HasCutTo, IsSeenOver};

use crate::places::behind_hole;
use drafts::Draft;
use file_walks::{Stop, begins_before, find_place, leads_nowhere, place_over};
use glock_names::{Step, View};
use growth_steps::free_block;
use no_memory::NoMemory;
use std::alloc::Global;

// Where the walk to a place stops; None where the view lacks a block on the way, something there breaks a rule, or there is no such place.
fn stop_at<V: View>(view: &V, inode: u64, level: u16, place: u64) -> Option<Stop>
    ensures found { (h : Holding) (i : ℕ) → IsFile h → IsShown (V.seen view.now) inode h → IsPlace h level place → IsUnder h level place i → IsSeenOver (V.seen view.now) h i → IsSomeAnd result (IsStop h level place) }
    ensures there { IfSome result (λ stop. HasBlock (V.seen view.now) stop.pointer.from) }
    ensures fits { IfSome result (λ stop. stop.pointer.start + 8 * stop.pointer.index + 8 ≤ (V.seen view.now).size) }
    ensures leads { (h : Holding) → IsShown (V.seen view.now) inode h → IfSome result (LeadsOn h level place) }
    ensures from { (h : Holding) → IsShown (V.seen view.now) inode h → IfSome result (λ stop. IsOfInode h stop.pointer.from) }
    ensures ended { IfSome result (λ stop. (stop.level ≡ level) ⊎ (stop.block ≡ 0)) }
{
    match find_place(view, inode, level, place) {
        Ok(Step::Is(found)) => found,
        Ok(Step::NeedBlock(_)) => None,
        Err(_) => None,
    }
}

// Whether a block may go that is past the end and to which the pointer of a stop leads: content may, and an indirect block that leads nowhere.
// None where the view lacks it, or it breaks a rule.
fn is_idle<V: View>(view: &V, inode: u64, stop: &Stop) -> Option<bool>
    ensures content { (stop.now.level ≡ 0) → result ≡ Some true }
    ensures found { (h : Holding) (first : ℕ) → IsFile h → IsShown (V.seen view.now) inode h → Leads h stop.now.pointer.from stop.now.pointer.index stop.now.level first stop.now.block → (1 ≤ stop.now.level → HasBlock (V.seen view.now) stop.now.block)
        → IsSomeAnd result (λ idle. 1 ≤ stop.now.level → (idle ≡ true) ↔ LeadsNowhere h stop.now.block) }
{
    if stop.level == 0 {
        return Some(true);
    }
    match leads_nowhere(view, inode, stop) {
        Ok(Step::Is(nowhere)) => Some(nowhere),
        Ok(Step::NeedBlock(_)) => None,
        Err(_) => None,
    }
}

// Frees the block to which the pointer of a stop leads, and tells of it.
fn free_one<V: View>(
    draft: &mut Draft<'_, V>,
    inode: u64,
    stop: Stop,
    freed: &mut Vec<u64>,
) -> Result<(), NoMemory>
    requires there { HasBlock (seen_in V.seen draft.old) stop.pointer.from }
    requires fits { stop.pointer.start + 8 * stop.pointer.index + 8 ≤ (V.seen draft.old.view).size }
    ensures gone { (h : Holding) (old : FinMap nat_cmp Fate) (end level place : ℕ) (a : HasCutTo (V.seen draft.old.view) old draft.old.fates h end level place freed.old.items) → CanFree h inode → end < (place + 1) * span_of h.size level
        → IsStop (with_cells h a.cell) level place stop → stop.level ≡ level → stop.block ≢ 0 → LeadsOn (with_cells h a.cell) level place stop → ((low : ℕ) → level ≡ low + 1 → LeadsNowhere (with_cells h a.cell) stop.block)
        → OnOk result (HasCutTo (V.seen draft.new.view) old draft.new.fates h end level (place + 1) freed.new.items) }
    ensures view { draft.new.view ≡ draft.old.view }
    ensures within { (room : List ℕ) → IsReached (seen_in V.seen draft.old) inode room stop.pointer.from → IsReached (seen_in V.seen draft.old) inode room stop.block → OnOk result (Follows (V.seen draft.old.view) inode room draft.old.fates draft.new.fates) }
    ensures freed { OnOk result (freed.new.items ≡ freed.old.items ++ stop.block ∷ []) }
{
    free_block(draft, inode, stop.pointer, stop.block)?;
    freed.push(stop.block)?;
    Ok(())
}

// Goes over a place of a level: a block there that is past the end is freed, where it leads nowhere. The next place that may have one; None
// where the draft isn't that of a file whose blocks are seen.
fn free_at<V: View>(
    draft: &mut Draft<'_, V>,
    inode: u64,
    level: u16,
    place: u64,
    freed: &mut Vec<u64>,
) -> Result<Option<u64>, NoMemory>
    requires low { place < 2 ^ 64 - 1 }
    ensures gone { (h : Holding) (old : FinMap nat_cmp Fate) (end : ℕ) → CanFree h inode → end < (place + 1) * span_of h.size level → place * span_of h.size level < content_count h → level < height_in h
        → HasCutTo (V.seen draft.old.view) old draft.old.fates h end level place freed.old.items
        → IfOk result (λ next. IsSomeAnd next (λ n. HasCutTo (V.seen draft.new.view) old draft.new.fates h end level n freed.new.items)) }
    ensures later { IfOk result (λ next. IfSome next (λ n. place < n)) }
    ensures view { draft.new.view ≡ draft.old.view }
    ensures within { (room : List ℕ) → IfOk result (λ next. Follows (V.seen draft.old.view) inode room draft.old.fates draft.new.fates) }
    ensures led { (b : ℕ) → IfOk result (λ next. Contains freed.new.items b → Contains freed.old.items b ⊎ WasLedTo (V.seen draft.old.view) inode draft.old.fates draft.new.fates b) }
{
    let size = draft.block_size() as usize;
    let Some(stop) = stop_at(&*draft, inode, level, place) else {
        return Ok(None);
    };
    if stop.block == 0 {
        return Ok(Some(behind_hole(size, stop.level.saturating_sub(level), place)));
    }
    let Some(idle) = is_idle(&*draft, inode, &stop) else {
        return Ok(None);
    };
    if !idle {
        return Ok(Some(place + 1));
    }
    free_one(draft, inode, stop, freed)?;
    Ok(Some(place + 1))
}

// Goes over the places of a level from the one that has the end on. False where the draft isn't that of a file whose blocks are seen.
fn free_on<V: View>(
    draft: &mut Draft<'_, V>,
    inode: u64,
    level: u16,
    count: u64,
    end: u64,
    freed: &mut Vec<u64>,
) -> Result<bool, NoMemory>
    ensures gone { (h : Holding) (old : FinMap nat_cmp Fate) → CanFree h inode → count ≡ content_count h → level < height_in h
        → HasCutTo (V.seen draft.old.view) old draft.old.fates h end level (end / span_of h.size level) freed.old.items
        → IfOk result (λ done. (done ≡ true) × HasCutTo (V.seen draft.new.view) old draft.new.fates h end (level + 1) (end / span_of h.size (level + 1)) freed.new.items) }
    ensures view { draft.new.view ≡ draft.old.view }
    ensures within { (room : List ℕ) → IfOk result (λ done. Follows (V.seen draft.old.view) inode room draft.old.fates draft.new.fates) }
    ensures led { (b : ℕ) → IfOk result (λ done. Contains freed.new.items b → Contains freed.old.items b ⊎ WasLedTo (V.seen draft.old.view) inode draft.old.fates draft.new.fates b) }
{
    let size = draft.block_size() as usize;
    let mut place = place_over(size, level, end);
    'places: while begins_before(size, level, place, count) {
        match free_at(draft, inode, level, place, freed)? {
            Some(next) => place = next,
            None => return Ok(false),
        }
    }
    Ok(true)
}

/// Frees the blocks of a file so high, with so many blocks of content, that stand past an end or lead past it alone: level by level from content
/// up. None where the draft isn't that of a file whose indirect blocks are seen on the way there.
pub(crate) fn free_past<V: View>(
    alloc: Global,
    draft: &mut Draft<'_, V>,
    inode: u64,
    height: u16,
    count: u64,
    end: u64,
) -> Result<Option<Vec<u64>>, NoMemory>
    ensures gone { (h : Holding) → CanFree h inode → height ≡ height_in h → count ≡ content_count h → IsShown (seen_in V.seen draft.old) inode h
        → ((i : ℕ) → end ≤ i → (i ≡ end) ⊎ (i < content_count h) → IsSeenOver (seen_in V.seen draft.old) h i)
        → IfOk result (λ done. IsSomeAnd done (λ freed. HasCutTo (V.seen draft.new.view) draft.old.fates draft.new.fates h end height (end / span_of h.size height) freed.items)) }
    ensures view { draft.new.view ≡ draft.old.view }
    ensures within { (room : List ℕ) → IfOk result (λ done. Follows (V.seen draft.old.view) inode room draft.old.fates draft.new.fates) }
    ensures led { IfOk result (λ done. IfSome done (λ freed. (b : ℕ) → Contains freed.items b → WasLedTo (V.seen draft.old.view) inode draft.old.fates draft.new.fates b)) }
{
    let mut freed = Vec::new(alloc);
    for level in 0..height {
        if !free_on(draft, inode, level, count, end, &mut freed)? {
            return Ok(None);
        }
    }
    Ok(Some(freed))
}
