// A leaf added behind a chain of a hashed directory in a draft.
ghost use Rattle.std.specs.Prelude.{ℕ, ◌≡◌, ◌≢◌, ◌^◌, ◌<◌, ◌≤◌, true, IfOk, length};
ghost use Rattle.drafts.specs.Fates.{seen_in};
ghost use Rattle.gfs2_layout.specs.Holding.{Holding};
ghost use Rattle.gfs2_layout.specs.Inode.{leaf_in};
ghost use Rattle.glock_names.specs.Views.{HasBlock};
ghost use Rattle.hash_steps.specs.Shown.{IsInChain, IsShown, IsSound, index_for};
ghost use Rattle.hash_steps.specs.Leaves.{IsFull};
ghost use Rattle.hash_inserts.specs.Inserting.{CanCountOne};
ghost use Rattle.hash_inserts.specs.Drafting.{IsFree, Lengthens, PutsBehind};

use crate::drafting::{count_in, depth_in, link_in, put_empty};
use crate::records::put_in_leaf;
use dinode_tree::sound_inodes_are_shown;
use drafts::Draft;
use glock_names::{Entry, View};
use hash_steps::added_leaves_stay;
use no_memory::NoMemory;
use std::alloc::Global;

/// Adds a leaf without records behind the last one of a chain, and counts its block in the dinode; and tells whether that was done.
pub(crate) fn lengthen<V: View>(
    alloc: Global,
    draft: &mut Draft<'_, V>,
    dir: u64,
    last: u64,
    leaf: u64,
) -> Result<bool, NoMemory>
    ensures put { (h : Holding) (i place : ℕ) → IsShown (seen_in V.seen draft.old) dir h → IsSound h → h.count < 2 ^ 64 → IsInChain h i place last → (leaf_in h last).next ≡ 0
        → HasBlock (seen_in V.seen draft.old) last → HasBlock (seen_in V.seen draft.old) dir → IsFree h leaf
        → IfOk result (λ done. (done ≡ true) × ((g : Holding) × Lengthens (V.seen draft.old.view) draft.old.fates draft.new.fates h g i leaf)) }
    ensures view { draft.new.view ≡ draft.old.view }
{
    let _size = draft.block_size();
    let Some(depth) = depth_in(&*draft, last) else {
        return Ok(false);
    };
    put_empty(alloc, draft, dir, leaf, depth)?;
    if !link_in(draft, dir, last, leaf)? {
        return Ok(false);
    }
    count_in(draft, dir, 0, 0, 1)
}

/// Adds a leaf behind the chain of a name, of which no leaf has room for it, and puts its record there; and tells whether that was done.
pub(crate) fn put_behind<V: View>(
    alloc: Global,
    draft: &mut Draft<'_, V>,
    dir: u64,
    last: u64,
    leaf: u64,
    name: &[u8],
    entry: Entry,
) -> Result<bool, NoMemory>
    requires some { 1 ≤ length name.now }
    requires short { length name.now ≤ 255 }
    requires number { entry.number ≢ 0 }
    requires address { entry.addr ≢ 0 }
    ensures put { (h : Holding) (place : ℕ) → IsShown (seen_in V.seen draft.old) dir h → IsSound h → CanCountOne h → h.count < 2 ^ 64 → IsInChain h (index_for h name.now) place last → (leaf_in h last).next ≡ 0
        → IsFull h (index_for h name.now) (length name.now) → HasBlock (seen_in V.seen draft.old) last → HasBlock (seen_in V.seen draft.old) dir → IsFree h leaf
        → IfOk result (λ done. (done ≡ true) × ((g : Holding) × PutsBehind (V.seen draft.old.view) draft.old.fates draft.new.fates h g name.now entry leaf)) }
    ensures view { draft.new.view ≡ draft.old.view }
{
    added_leaves_stay();
    sound_inodes_are_shown();
    if !lengthen(alloc, draft, dir, last, leaf)? {
        return Ok(false);
    }
    put_in_leaf(draft, dir, leaf, name, entry)
}
