// A file that gets as high as its size takes.
ghost use Rattle.std.specs.Prelude.{ℕ, List, ◌≡◌, ◌≢◌, ◌+◌, ◌-◌, ◌<◌, ◌≤◌, ◌∷◌, true, length, IfOk, OnOk, IsSomeAnd, Contains};
ghost use Rattle.drafts.specs.Fates.{seen_in};
ghost use Rattle.gfs2_layout.specs.Holding.{Holding};
ghost use Rattle.gfs2_layout.specs.Inode.{dinode_in, height_in};
ghost use Rattle.gfs2_layout.specs.Structures.{dinode_length};
ghost use Rattle.glock_names.specs.Views.{HasBlock};
ghost use Rattle.dinode_tree.specs.Shown.{IsShown};
ghost use Rattle.growth_laws.specs.Files.{IsFile};
ghost use Rattle.growth_laws.specs.Need.{has_content, height_for as height_for_size, raised_to};
ghost use Rattle.growth_drafts.specs.Taken.{AreFreeFor};
ghost use Rattle.growth_drafts.specs.Touched.{Follows};
ghost use Rattle.growth_steps.specs.Heights.{IsNewTo};
ghost use Rattle.file_heights.specs.Grown.{CanGrow, HasRisen};

use drafts::Draft;
use file_fills::{goes_along, height_for};
use gfs2_layout::Dinode;
use glock_names::{View, block_of};
use growth_steps::{move_content, raise_height, set_height};
use no_memory::NoMemory;
use std::alloc::Global;
use std::collections::VecDeque;

// Raises a file with content by one level, with a block that is new to it.
fn raise_once<V: View>(
    alloc: Global,
    draft: &mut Draft<'_, V>,
    inode: u64,
    dinode: &Dinode,
    block: u64,
) -> Result<(), NoMemory>
    requires there { HasBlock (seen_in V.seen draft.old) inode }
    requires room { dinode_length + 8 ≤ (V.seen draft.old.view).size }
    requires low { dinode.now.height < 10 }
    requires stuffed { dinode.now.height ≡ 0 → dinode_length + dinode.now.size ≤ (V.seen draft.old.view).size }
    ensures risen { (h : Holding) (left : List ℕ) → IsFile h → IsShown (seen_in V.seen draft.old) inode h → dinode.now ≡ dinode_in h → has_content h ≡ true → IsNewTo h block
        → OnOk result (HasRisen (seen_in V.seen draft.new) draft.old.fates draft.new.fates (block ∷ left) left h (dinode.now.height + 1) (record dinode.now { height = dinode.now.height + 1 })) }
    ensures view { draft.new.view ≡ draft.old.view }
    ensures still { OnOk result (HasBlock (seen_in V.seen draft.new) inode) }
    ensures within { (left : List ℕ) → OnOk result (Follows (V.seen draft.old.view) inode (block ∷ left) draft.old.fates draft.new.fates) }
{
    if dinode.height == 0 {
        return move_content(alloc, draft, inode, dinode, block);
    }
    raise_height(alloc, draft, inode, dinode, block)
}

// Raises a file with content to a height, with blocks from the front of the room. None where it hasn't enough.
fn raise_to<V: View>(
    alloc: Global,
    draft: &mut Draft<'_, V>,
    inode: u64,
    dinode: &Dinode,
    height: u16,
    room: &mut VecDeque<u64>,
) -> Result<Option<Dinode>, NoMemory>
    requires there { HasBlock (seen_in V.seen draft.old) inode }
    requires room { dinode_length + 8 ≤ (V.seen draft.old.view).size }
    requires low { height ≤ 10 }
    requires higher { dinode.now.height ≤ height }
    requires stuffed { dinode.now.height ≡ 0 → dinode_length + dinode.now.size ≤ (V.seen draft.old.view).size }
    ensures risen { (h : Holding) → IsFile h → IsShown (seen_in V.seen draft.old) inode h → dinode.now ≡ dinode_in h → has_content h ≡ true → AreFreeFor h room.old.items
        → height ≤ height_in h + length room.old.items
        → IfOk result (λ risen. IsSomeAnd risen (HasRisen (seen_in V.seen draft.new) draft.old.fates draft.new.fates room.old.items room.new.items h height)) }
    ensures view { draft.new.view ≡ draft.old.view }
    ensures still { OnOk result (HasBlock (seen_in V.seen draft.new) inode) }
    ensures within { OnOk result (Follows (V.seen draft.old.view) inode room.old.items draft.old.fates draft.new.fates) }
    ensures room { (b : ℕ) → Contains room.new.items b → Contains room.old.items b }
{
    let mut high = *dinode;
    while high.height < height {
        let Some(block) = room.pop_front() else {
            return Ok(None);
        };
        raise_once(alloc, draft, inode, &high, block)?;
        high.height += 1;
    }
    Ok(Some(high))
}

// Whether a file has content that goes along, by its dinode's block, which the draft sees.
fn carries<V: View>(draft: &Draft<'_, V>, inode: u64, dinode: &Dinode) -> bool
    requires there { HasBlock (seen_in V.seen draft.now) inode }
    ensures { (h : Holding) → IsShown (seen_in V.seen draft.now) inode h → dinode.now ≡ dinode_in h → result ≡ has_content h }
{
    let Some(bytes) = block_of(draft, inode) else {
        unreachable!()
    };
    goes_along(bytes, dinode)
}

/// Gives a file the height that so many bytes of content take, if that is more than it has. The dinode is passed as it is read, and the
/// answer is what it says then. Where the file has content, each new level takes a block from the front of `room`: what stands behind the
/// dinode moves to it, or the dinode's pointers do. Where it has none, the height alone changes. None where the room isn't enough; then,
/// and after want of memory, the draft may be half done, and whoever gets one of these drops it. It costs a look at the dinode's pointers,
/// and for each new level two copies of the dinode's block and of the new one.
pub fn grow<V: View>(
    alloc: Global,
    draft: &mut Draft<'_, V>,
    inode: u64,
    dinode: &Dinode,
    size: u64,
    room: &mut VecDeque<u64>,
) -> Result<Option<Dinode>, NoMemory>
    requires there { HasBlock (seen_in V.seen draft.old) inode }
    requires low { dinode.now.height ≤ 10 }
    requires stuffed { dinode.now.height ≡ 0 → dinode_length + dinode.now.size ≤ (V.seen draft.old.view).size }
    ensures grown { (h : Holding) → IsShown (seen_in V.seen draft.old) inode h → dinode.now ≡ dinode_in h → CanGrow h size room.old.items
        → IfOk result (λ grown. IsSomeAnd grown (HasRisen (seen_in V.seen draft.new) draft.old.fates draft.new.fates room.old.items room.new.items h (height_for_size h size))) }
    ensures view { draft.new.view ≡ draft.old.view }
    ensures still { OnOk result (HasBlock (seen_in V.seen draft.new) inode) }
    ensures within { OnOk result (Follows (V.seen draft.old.view) inode room.old.items draft.old.fates draft.new.fates) }
    ensures room { (b : ℕ) → Contains room.new.items b → Contains room.old.items b }
{
    let height = height_for(draft.block_size() as usize, dinode.height, size);
    if height == dinode.height {
        return Ok(Some(*dinode));
    }
    if carries(draft, inode, dinode) {
        return raise_to(alloc, draft, inode, dinode, height, room);
    }
    set_height(draft, inode, dinode, height)?;
    Ok(Some(Dinode { height, ..*dinode }))
}
