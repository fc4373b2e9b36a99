// The end of a file in blocks.
ghost use Rattle.std.specs.Prelude.{ℕ, List, ◌≡◌, ◌≢◌, ◌⊎◌, ◌+◌, true, IfOk, OnOk};
ghost use Rattle.drafts.specs.Fates.{seen_in};
ghost use Rattle.gfs2_layout.specs.Holding.{Holding};
ghost use Rattle.gfs2_layout.specs.Inode.{content_count, dinode_in, height_in};
ghost use Rattle.glock_names.specs.Views.{HasBlock};
ghost use Rattle.dinode_tree.specs.Shown.{IsShown};
ghost use Rattle.growth_laws.specs.Files.{IsFile};
ghost use Rattle.growth_drafts.specs.Touched.{Follows};
ghost use Rattle.file_fills.specs.Filling.{IsSeenWay};
ghost use Rattle.file_heights.specs.Grown.{HasCleared};

use drafts::Draft;
use file_fills::way_to;
use gfs2_layout::Dinode;
use glock_names::View;
use growth_steps::clear_end;
use no_memory::NoMemory;

/// Puts zeros into the last block of content of a file in blocks from the file's end on, where that block is there and they aren't zeros
/// yet. The dinode is passed as it is read. False where that block's way isn't seen; that is never so of a file whose way there is. It
/// costs a walk to that block, a look at its bytes, and two copies of it where it is put.
pub fn clear_last<V: View>(
    draft: &mut Draft<'_, V>,
    inode: u64,
    dinode: &Dinode,
) -> Result<bool, NoMemory>
    ensures cleared { (h : Holding) → IsFile h → IsShown (seen_in V.seen draft.old) inode h → dinode.now ≡ dinode_in h → height_in h ≢ 0
        → ((i : ℕ) → i + 1 ≡ content_count h → IsSeenWay (seen_in V.seen draft.old) h i)
        → IfOk result (λ done. (done ≡ true) × HasCleared (seen_in V.seen draft.new) draft.old.fates draft.new.fates h) }
    ensures view { draft.new.view ≡ draft.old.view }
    ensures still { (b : ℕ) → HasBlock (seen_in V.seen draft.old) b → OnOk result (HasBlock (seen_in V.seen draft.new) b) }
    ensures within { (room : List ℕ) → OnOk result (Follows (V.seen draft.old.view) inode room draft.old.fates draft.new.fates) }
{
    if dinode.size == 0 {
        return Ok(true);
    }
    let size = u64::from(draft.block_size());
    let last = dinode.size - 1;
    let Some(stop) = way_to(&*draft, inode, last / size) else {
        return Ok(false);
    };
    if stop.block != 0 {
        clear_end(draft, inode, stop.block, (last % size) as usize + 1)?;
    }
    Ok(true)
}
