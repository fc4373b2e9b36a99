// Pointers that are put into blocks of a file.
ghost use Rattle.std.specs.Prelude.{ℕ, List, ◌≡◌, ◌≢◌, ◌+◌, ◌*◌, ◌<◌, ◌≤◌, ◌==◌, Bool, false, length, None, Some, IfOk, OnOk, OnErr};
ghost use Rattle.std.specs.FinMap.{insert};
ghost use Rattle.drafts.specs.Fates.{seen_in};
ghost use Rattle.drafts.specs.declared.fate.Fate.TheVariants.{Put, Freed};
ghost use Rattle.gfs2_layout.specs.Holding.{Holding, Pointed, part_at};
ghost use Rattle.gfs2_layout.specs.Inode.{content_count, fan, header_length, pointer as pointer_at, IsPointed};
ghost use Rattle.glock_names.specs.Views.{HasBlock};
ghost use Rattle.dinode_tree.specs.Reading.{inode_lock};
ghost use Rattle.dinode_tree.specs.Shown.{IsShown};
ghost use Rattle.growth_laws.specs.Blocks.{start_in, with_pointer, filled_cells, freed_cells};
ghost use Rattle.growth_laws.specs.Files.{IsFile, with_cells};
ghost use Rattle.growth_steps.specs.New.{headed, new_bytes};

use drafts::Draft;
use gfs2_layout::MetaHeader;
use glock_names::{LockName, View};
use no_memory::NoMemory;
use std::alloc::Global;

/// A pointer of a block: the block, the byte at which its pointers begin, and which of them it is.
#[derive(Clone, Copy, Debug, PartialEq, Eq)]
pub struct Pointer {
    pub from: u64,
    pub start: usize,
    pub index: usize,
}

/// The lock that covers the blocks of the inode with its dinode in this block.
pub(crate) fn lock_of(inode: u64) -> LockName
    ensures { result ≡ inode_lock inode }
{
    LockName {
        kind: 2,
        number: inode,
    }
}

// A pointer over another one in a block's bytes.
#[tactic(auto, unfolding(gfs2_layout::specs::Bytes::with_number))]
pub(crate) fn point(bytes: &mut [u8], start: usize, index: usize, to: u64)
    requires { start + 8 * index + 8 ≤ length bytes.old }
    ensures { bytes.new ≡ with_pointer start index to bytes.old }
{
    let at = start + 8 * index;
    bytes[at..at + 8].copy_from_slice(&to.to_be_bytes());
}

// The header of an indirect block, above the level of content.
fn write_header(block: &mut [u8], level: u16)
    requires { 24 ≤ length block.old }
    ensures { block.new ≡ headed level block.old }
{
    if level > 0 {
        let header = MetaHeader {
            kind: 5,
            format: 500,
            jid: 0,
        };
        header.write(block);
    }
}

// A new block on a level.
pub(crate) fn new_block(alloc: Global, size: usize, level: u16) -> Result<Vec<u8>, NoMemory>
    requires { 24 ≤ size }
    ensures { IfOk result (λ block. block.items ≡ new_bytes size level) }
{
    let mut block = vec![in alloc; 0u8; size]?;
    write_header(&mut block, level);
    Ok(block)
}

// Puts a block with another pointer, which the draft sees.
fn put_pointer<V: View>(
    draft: &mut Draft<'_, V>,
    inode: u64,
    pointer: Pointer,
    to: u64,
) -> Result<(), NoMemory>
    requires there { HasBlock (seen_in V.seen draft.old) pointer.from }
    requires fits { pointer.start + 8 * pointer.index + 8 ≤ (V.seen draft.old.view).size }
    ensures put { (bytes : List ℕ) → (seen_in V.seen draft.old).block_at pointer.from ≡ Some bytes
        → OnOk result (draft.new ≡ record draft.old { fates = insert draft.old.fates pointer.from (Put (inode_lock inode) false (with_pointer pointer.start pointer.index to bytes)) }) }
    ensures err { OnErr result (draft.new ≡ draft.old) }
{
    let Some(mut bytes) = draft.copy(pointer.from)? else {
        unreachable!()
    };
    point(&mut bytes, pointer.start, pointer.index, to);
    draft.put(lock_of(inode), pointer.from, false, &bytes)
}

/// Fills the hole that a pointer is, which leads nowhere, with a new block, so many levels above content: of zeros, or an indirect block
/// that leads nowhere. It costs two copies of each of the two blocks.
pub fn fill_hole<V: View>(
    alloc: Global,
    draft: &mut Draft<'_, V>,
    inode: u64,
    pointer: Pointer,
    level: u16,
    block: u64,
) -> Result<(), NoMemory>
    requires there { HasBlock (seen_in V.seen draft.old) pointer.from }
    requires fits { pointer.start + 8 * pointer.index + 8 ≤ (V.seen draft.old.view).size }
    ensures put { (bytes : List ℕ) → (seen_in V.seen draft.old).block_at pointer.from ≡ Some bytes
        → OnOk result (draft.new ≡ record draft.old { fates = insert (insert draft.old.fates pointer.from (Put (inode_lock inode) false (with_pointer pointer.start pointer.index block bytes))) block (Put (inode_lock inode) (level == 0) (new_bytes (V.seen draft.old.view).size level)) }) }
    ensures view { draft.new.view ≡ draft.old.view }
    ensures filled { (h : Holding) (first : ℕ) → IsFile h → IsShown (seen_in V.seen draft.old) inode h → start_in h pointer.from ≡ pointer.start
        → IsPointed h 0 pointer.from pointer.index level first → first < content_count h → h.cell block ≡ None → block ≢ 0 → block < h.count
        → OnOk result (IsShown (seen_in V.seen draft.new) inode (with_cells h (filled_cells h pointer.from pointer.index level first block (new_bytes h.size level)))) }
{
    let size = draft.block_size() as usize;
    put_pointer(draft, inode, pointer, block)?;
    let bytes = new_block(alloc, size, level)?;
    draft.put(lock_of(inode), block, level == 0, &bytes)
}

/// Frees a block, which leads nowhere, and puts 0 over the pointer that leads to it. It costs two copies of the block with the pointer.
pub fn free_block<V: View>(
    draft: &mut Draft<'_, V>,
    inode: u64,
    pointer: Pointer,
    block: u64,
) -> Result<(), NoMemory>
    requires there { HasBlock (seen_in V.seen draft.old) pointer.from }
    requires fits { pointer.start + 8 * pointer.index + 8 ≤ (V.seen draft.old.view).size }
    ensures put { (bytes : List ℕ) → (seen_in V.seen draft.old).block_at pointer.from ≡ Some bytes
        → OnOk result (draft.new ≡ record draft.old { fates = insert (insert draft.old.fates pointer.from (Put (inode_lock inode) false (with_pointer pointer.start pointer.index 0 bytes))) block Freed }) }
    ensures view { draft.new.view ≡ draft.old.view }
    ensures freed { (h : Holding) (level first : ℕ) → IsFile h → IsShown (seen_in V.seen draft.old) inode h → start_in h pointer.from ≡ pointer.start
        → part_at h block ≡ Some (Pointed pointer.from pointer.index level first) → block < h.count
        → ((below j : ℕ) → level ≡ below + 1 → j < fan h.size header_length → pointer_at h header_length block j ≡ 0)
        → OnOk result (IsShown (seen_in V.seen draft.new) inode (with_cells h (freed_cells h pointer.from pointer.index block))) }
{
    put_pointer(draft, inode, pointer, 0)?;
    draft.free(block)
}
