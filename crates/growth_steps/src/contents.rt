// Bytes that are put into blocks of content.
ghost use Rattle.std.specs.Prelude.{ℕ, List, ◌≡◌, ◌≢◌, ◌+◌, ◌*◌, ◌<◌, ◌≤◌, true, length, Some, OnOk, OnErr};
ghost use Rattle.std.specs.FinMap.{insert};
ghost use Rattle.drafts.specs.Fates.{seen_in};
ghost use Rattle.drafts.specs.declared.fate.Fate.TheVariants.{Put};
ghost use Rattle.file_tree.specs.Apply.{overwritten};
ghost use Rattle.gfs2_layout.specs.Bytes.{put_at};
ghost use Rattle.gfs2_layout.specs.Holding.{Holding, bytes_at};
ghost use Rattle.gfs2_layout.specs.Inode.{dinode_in, height_in, content_block, content_count, content_of};
ghost use Rattle.glock_names.specs.Views.{HasBlock};
ghost use Rattle.dinode_tree.specs.Reading.{inode_lock};
ghost use Rattle.dinode_tree.specs.Shown.{IsShown};
ghost use Rattle.growth_laws.specs.Blocks.{rewritten_cells};
ghost use Rattle.growth_laws.specs.Files.{IsFile, with_cells};

use crate::pointers::lock_of;
use drafts::Draft;
use glock_names::View;
use no_memory::NoMemory;

// Bytes over others from a place on.
pub(crate) fn overwrite(bytes: &mut [u8], at: usize, new: &[u8])
    requires { at + length new.now ≤ length bytes.old }
    ensures { bytes.new ≡ put_at at new.now bytes.old }
{
    bytes[at..at + new.len()].copy_from_slice(new);
}

// Puts a block of content with bytes over those that the draft sees.
fn put_over<V: View>(
    draft: &mut Draft<'_, V>,
    inode: u64,
    block: u64,
    at: usize,
    new: &[u8],
) -> Result<(), NoMemory>
    requires there { HasBlock (seen_in V.seen draft.old) block }
    requires fits { at + length new.now ≤ (V.seen draft.old.view).size }
    ensures put { (bytes : List ℕ) → (seen_in V.seen draft.old).block_at block ≡ Some bytes
        → OnOk result (draft.new ≡ record draft.old { fates = insert draft.old.fates block (Put (inode_lock inode) true (put_at at new.now bytes)) }) }
    ensures err { OnErr result (draft.new ≡ draft.old) }
{
    let Some(mut bytes) = draft.copy(block)? else {
        unreachable!()
    };
    overwrite(&mut bytes, at, new);
    draft.put(lock_of(inode), block, true, &bytes)
}

/// Puts bytes over those of a file's block of content, from a place in it on. Of each file that the draft showed and that has this block
/// at an index of its content, it then shows the file with these bytes over its content. It costs two copies of the block.
pub fn put_content<V: View>(
    draft: &mut Draft<'_, V>,
    inode: u64,
    block: u64,
    at: usize,
    new: &[u8],
) -> Result<(), NoMemory>
    requires there { HasBlock (seen_in V.seen draft.old) block }
    requires fits { at + length new.now ≤ (V.seen draft.old.view).size }
    ensures put { (bytes : List ℕ) → (seen_in V.seen draft.old).block_at block ≡ Some bytes
        → OnOk result (draft.new ≡ record draft.old { fates = insert draft.old.fates block (Put (inode_lock inode) true (put_at at new.now bytes)) }) }
    ensures written { (h : Holding) (i : ℕ) → IsFile h → IsShown (seen_in V.seen draft.old) inode h → height_in h ≢ 0 → i < content_count h → content_block h i ≡ block → block ≢ 0
        → i * h.size + at + length new.now ≤ (dinode_in h).size
        → OnOk result (IsShown (seen_in V.seen draft.new) inode (with_cells h (rewritten_cells h block (put_at at new.now (bytes_at h block))))
        × IsFile (with_cells h (rewritten_cells h block (put_at at new.now (bytes_at h block))))
        × (content_of (with_cells h (rewritten_cells h block (put_at at new.now (bytes_at h block)))) ≡ overwritten (i * h.size + at) new.now (content_of h))) }
    ensures err { OnErr result (draft.new ≡ draft.old) }
{
    put_over(draft, inode, block, at, new)
}
