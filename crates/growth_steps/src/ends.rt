// What stands past a file's end in its last block of content, and what its dinode counts.
ghost use Rattle.std.specs.Prelude.{ℕ, List, ◌≡◌, ◌≢◌, ◌+◌, ◌-◌, ◌*◌, ◌≤◌, true, false, length, drop, replicate, Some, IsTrue, EachIndex, slice_index, OnOk, ◌↔◌};
ghost use Rattle.std.specs.FinMap.{insert};
ghost use Rattle.drafts.specs.Fates.{seen_in};
ghost use Rattle.drafts.specs.declared.fate.Fate.TheVariants.{Put};
ghost use Rattle.gfs2_layout.specs.Holding.{Holding, bytes_at};
ghost use Rattle.gfs2_layout.specs.Inode.{dinode_in, height_in, content_block, content_count, content_of};
ghost use Rattle.gfs2_layout.specs.Structures.{dinode_length};
ghost use Rattle.gfs2_layout.specs.Writing.{dinode_put, zeros_from};
ghost use Rattle.glock_names.specs.Views.{HasBlock};
ghost use Rattle.dinode_tree.specs.Reading.{inode_lock};
ghost use Rattle.dinode_tree.specs.Shown.{IsShown};
ghost use Rattle.growth_laws.specs.Blocks.{rewritten_cells};
ghost use Rattle.growth_laws.specs.Files.{IsFile, with_cells};
ghost use Rattle.growth_laws.specs.Growing.{IsTold};
ghost use Rattle.growth_laws.specs.Steps.{IsClearFrom, IsContentPut};
ghost use Rattle.growth_steps.specs.Becoming.{Becomes};

use crate::heights::clear_from;
use crate::pointers::lock_of;
use crate::sizes::put_dinode;
use drafts::Draft;
use gfs2_layout::Dinode;
use glock_names::{View, block_of};
use no_memory::NoMemory;

// Whether these are nothing but zeros.
fn are_zeros(bytes: &[u8]) -> bool
    ensures { IsTrue result ↔ EachIndex bytes.now (λ k. slice_index bytes.now k ≡ 0) }
{
    bytes.iter().all(|byte| *byte == 0)
}

// Whether nothing but zeros stands from a place on.
fn is_clear(bytes: &[u8], at: usize) -> bool
    requires { at ≤ length bytes.now }
    ensures { IsTrue result ↔ (bytes.now ≡ zeros_from at bytes.now) }
{
    are_zeros(&bytes[at..])
}

// The same of a block that the draft sees.
fn ends_clear<V: View>(draft: &Draft<'_, V>, block: u64, at: usize) -> bool
    requires there { HasBlock (seen_in V.seen draft.now) block }
    requires within { at ≤ (V.seen draft.now.view).size }
    ensures { (bytes : List ℕ) → (seen_in V.seen draft.now).block_at block ≡ Some bytes → IsTrue result ↔ (bytes ≡ zeros_from at bytes) }
{
    let Some(bytes) = block_of(draft, block) else {
        unreachable!()
    };
    is_clear(bytes, at)
}

// Puts a block of content with zeros from a place on, which the draft sees.
fn put_clear<V: View>(
    draft: &mut Draft<'_, V>,
    inode: u64,
    block: u64,
    at: usize,
) -> Result<(), NoMemory>
    requires there { HasBlock (seen_in V.seen draft.old) block }
    requires within { at ≤ (V.seen draft.old.view).size }
    ensures put { (bytes : List ℕ) → (seen_in V.seen draft.old).block_at block ≡ Some bytes
        → OnOk result (draft.new ≡ record draft.old { fates = insert draft.old.fates block (Put (inode_lock inode) true (zeros_from at bytes)) }) }
    ensures view { draft.new.view ≡ draft.old.view }
{
    let Some(mut bytes) = draft.copy(block)? else {
        unreachable!()
    };
    clear_from(&mut bytes, at);
    draft.put(lock_of(inode), block, true, &bytes)
}

/// Puts zeros into a file's last block of content from the file's end on, which is byte `at` of the block; where they are zeros it does
/// nothing. Of each file that the draft showed and that ends there, it then shows the file with that block so: the content stays, and
/// nothing but zeros stands past it. It costs a look at the bytes, and two copies of the block where it puts it.
pub fn clear_end<V: View>(
    draft: &mut Draft<'_, V>,
    inode: u64,
    block: u64,
    at: usize,
) -> Result<(), NoMemory>
    requires there { HasBlock (seen_in V.seen draft.old) block }
    requires within { at ≤ (V.seen draft.old.view).size }
    ensures put { (bytes : List ℕ) → (seen_in V.seen draft.old).block_at block ≡ Some bytes → bytes ≢ zeros_from at bytes
        → OnOk result (draft.new ≡ record draft.old { fates = insert draft.old.fates block (Put (inode_lock inode) true (zeros_from at bytes)) }) }
    ensures clear { (bytes : List ℕ) → (seen_in V.seen draft.old).block_at block ≡ Some bytes → bytes ≡ zeros_from at bytes → draft.new ≡ draft.old }
    ensures cleared { (h : Holding) (i : ℕ) → IsFile h → IsShown (seen_in V.seen draft.old) inode h → height_in h ≢ 0 → i + 1 ≡ content_count h → content_block h i ≡ block → block ≢ 0
        → i * h.size + at ≡ (dinode_in h).size
        → OnOk result (IsContentPut h (rewritten_cells h block (zeros_from at (bytes_at h block))) i (zeros_from at (bytes_at h block))
        × (content_of (with_cells h (rewritten_cells h block (zeros_from at (bytes_at h block)))) ≡ content_of h)
        × IsClearFrom (with_cells h (rewritten_cells h block (zeros_from at (bytes_at h block)))) (dinode_in h).size
        × Becomes (seen_in V.seen draft.new) draft.old.fates draft.new.fates inode h (with_cells h (rewritten_cells h block (zeros_from at (bytes_at h block))))) }
    ensures view { draft.new.view ≡ draft.old.view }
    ensures still { (b : ℕ) → HasBlock (seen_in V.seen draft.old) b → OnOk result (HasBlock (seen_in V.seen draft.new) b) }
{
    if ends_clear(draft, block, at) {
        return Ok(());
    }
    put_clear(draft, inode, block, at)
}

/// Puts another count of blocks into a file's dinode, which is passed as it is read. Of each file that the draft showed it then shows the
/// one that says this count. It costs two copies of the dinode's block.
pub fn count_blocks<V: View>(
    draft: &mut Draft<'_, V>,
    inode: u64,
    dinode: &Dinode,
    blocks: u64,
) -> Result<(), NoMemory>
    requires there { HasBlock (seen_in V.seen draft.old) inode }
    requires room { dinode_length ≤ (V.seen draft.old.view).size }
    ensures put { (bytes : List ℕ) → (seen_in V.seen draft.old).block_at inode ≡ Some bytes
        → OnOk result (draft.new ≡ record draft.old { fates = insert draft.old.fates inode (Put (inode_lock inode) false (dinode_put (record dinode.now { blocks = blocks }) bytes)) }) }
    ensures view { draft.new.view ≡ draft.old.view }
    ensures told { (h : Holding) (bytes : List ℕ) → IsFile h → IsShown (seen_in V.seen draft.old) inode h → dinode.now ≡ dinode_in h
        → (seen_in V.seen draft.old).block_at inode ≡ Some bytes
        → OnOk result (IsTold h (rewritten_cells h h.own (dinode_put (record dinode.now { blocks = blocks }) bytes)) blocks
        × Becomes (seen_in V.seen draft.new) draft.old.fates draft.new.fates inode h (with_cells h (rewritten_cells h h.own (dinode_put (record dinode.now { blocks = blocks }) bytes)))) }
{
    let told = Dinode { blocks, ..*dinode };
    put_dinode(draft, inode, &told)
}
