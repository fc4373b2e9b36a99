// A file that gets long and high enough for a write.
ghost use Rattle.std.specs.Prelude.{ℕ, List, ◌≡◌, ◌+◌, ◌<◌, ◌≤◌, true, IfOk, OnOk, Contains};
ghost use Rattle.drafts.specs.Fates.{seen_in};
ghost use Rattle.gfs2_layout.specs.Holding.{Holding};
ghost use Rattle.gfs2_layout.specs.Inode.{content_count, dinode_in};
ghost use Rattle.gfs2_layout.specs.Structures.{dinode_length};
ghost use Rattle.glock_names.specs.Views.{HasBlock};
ghost use Rattle.dinode_tree.specs.Shown.{IsShown};
ghost use Rattle.growth_laws.specs.Files.{IsFile};
ghost use Rattle.growth_drafts.specs.Touched.{Follows};
ghost use Rattle.file_heights.specs.Filling.{IsSeenWay};
ghost use Rattle.file_growth.specs.Stretched.{CanStretch, HasEnd, HasStretched};

use drafts::Draft;
use file_heights::{clear_last, grow, set_size_and_count};
use gfs2_layout::Dinode;
use glock_names::View;
use no_memory::NoMemory;
use std::alloc::Global;
use std::collections::VecDeque;

// Clears the end of a file in blocks, where it moves on. False where its last block isn't seen.
fn clear_moved<V: View>(
    draft: &mut Draft<'_, V>,
    inode: u64,
    dinode: &Dinode,
    end: u64,
) -> Result<bool, NoMemory>
    requires there { HasBlock (seen_in V.seen draft.old) inode }
    ensures cleared { (h : Holding) → IsFile h → IsShown (seen_in V.seen draft.old) inode h → dinode.now ≡ dinode_in h
        → ((i : ℕ) → (dinode_in h).size < end → i + 1 ≡ content_count h → IsSeenWay (seen_in V.seen draft.old) h i)
        → IfOk result (λ done. (done ≡ true) × HasEnd (seen_in V.seen draft.new) draft.old.fates draft.new.fates h end) }
    ensures view { draft.new.view ≡ draft.old.view }
    ensures still { IfOk result (λ done. HasBlock (seen_in V.seen draft.new) inode) }
    ensures within { (room : List ℕ) → IfOk result (λ done. Follows (V.seen draft.old.view) inode room draft.old.fates draft.new.fates) }
{
    if dinode.height == 0 || dinode.size >= end {
        return Ok(true);
    }
    clear_last(draft, inode, dinode)
}

/// Makes a file, which is to have its content in blocks, long and high enough for content up to an end, and tells in its dinode that it
/// has so many blocks more, as a write up to there is to take. The dinode is passed as it is read. False where the room isn't enough, or
/// the last block of content isn't seen.
pub(crate) fn stretch<V: View>(
    alloc: Global,
    draft: &mut Draft<'_, V>,
    inode: u64,
    dinode: &Dinode,
    end: u64,
    need: u64,
    room: &mut VecDeque<u64>,
) -> Result<bool, NoMemory>
    requires there { HasBlock (seen_in V.seen draft.old) inode }
    requires room { dinode_length ≤ (V.seen draft.old.view).size }
    requires low { dinode.now.height ≤ 10 }
    requires stuffed { dinode.now.height ≡ 0 → dinode_length + dinode.now.size ≤ (V.seen draft.old.view).size }
    ensures stretched { (h : Holding) (at : ℕ) → IsShown (seen_in V.seen draft.old) inode h → dinode.now ≡ dinode_in h → CanStretch h at end room.old.items
        → ((i : ℕ) → (dinode_in h).size < end → i + 1 ≡ content_count h → IsSeenWay (seen_in V.seen draft.old) h i)
        → IfOk result (λ done. (done ≡ true) × HasStretched (seen_in V.seen draft.new) draft.old.fates draft.new.fates room.old.items room.new.items h at end need) }
    ensures view { draft.new.view ≡ draft.old.view }
    ensures within { IfOk result (λ done. Follows (V.seen draft.old.view) inode room.old.items draft.old.fates draft.new.fates) }
    ensures room { (b : ℕ) → Contains room.new.items b → Contains room.old.items b }
{
    if !clear_moved(draft, inode, dinode, end)? {
        return Ok(false);
    }
    let size = dinode.size.max(end);
    let Some(high) = grow(alloc, draft, inode, dinode, size, room)? else {
        return Ok(false);
    };
    // the count of a file, and of what it takes, doesn't wrap: an image has fewer blocks than that
    set_size_and_count(draft, inode, &high, size, high.blocks.wrapping_add(need))?;
    Ok(true)
}
