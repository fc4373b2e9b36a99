// The draft of a write.
ghost use Rattle.std.specs.Prelude.{ℕ, List, ◌≡◌, ◌+◌, false, length, Some, IfOk, OnOk, OnErr};
ghost use Rattle.std.specs.FinMap.{insert};
ghost use Rattle.drafts.specs.Fates.{seen_in};
ghost use Rattle.drafts.specs.declared.fate.Fate.TheVariants.{Put};
ghost use Rattle.gfs2_layout.specs.Holding.{Holding};
ghost use Rattle.gfs2_layout.specs.Inode.{dinode_in};
ghost use Rattle.glock_names.specs.Views.{HasBlock};
ghost use Rattle.dinode_tree.specs.Reading.{inode_lock};
ghost use Rattle.dinode_tree.specs.Shown.{IsShown};
ghost use Rattle.writing_calls.specs.Contents.{IsBlockWritten, StaysStuffed};
ghost use Rattle.writing_calls.specs.Drafting.{IsWrite};

use crate::stuffed::write_block;
use drafts::{Change, Draft};
use glock_names::View;
use linear_dirs::lock_of;
use no_memory::NoMemory;
use path_walks::Place;
use std::alloc::Global;

// Writes bytes into the file at a place in a draft, which sees its dinode's block.
fn put_stuffed<V: View>(
    draft: &mut Draft<'_, V>,
    place: &Place,
    at: u64,
    new: &[u8],
    time: u64,
) -> Result<(), NoMemory>
    requires there { HasBlock (seen_in V.seen draft.old) place.now.inode }
    requires stuffed { StaysStuffed (V.seen draft.old.view).size place.now.dinode (at + length new.now) }
    ensures put { (bytes : List ℕ) → (seen_in V.seen draft.old).block_at place.now.inode ≡ Some bytes
        → OnOk result ((written : List ℕ) × (draft.new ≡ record draft.old { fates = insert draft.old.fates place.now.inode (Put (inode_lock place.now.inode) false written) })
        × IsBlockWritten (V.seen draft.old.view).size place.now.dinode at new.now time bytes written) }
    ensures err { OnErr result (draft.new ≡ draft.old) }
{
    let Some(mut block) = draft.copy(place.inode)? else {
        unreachable!()
    };
    write_block(&mut block, &place.dinode, at as usize, new, time);
    draft.put(lock_of(place.inode), place.inode, false, &block)
}

/// What a draft changes in which bytes are written into the file at a place, whose content stands in its dinode's block and has room
/// there. It costs two copies of the block.
pub(crate) fn write_stuffed<V: View>(
    alloc: Global,
    view: &V,
    place: &Place,
    at: u64,
    new: &[u8],
    time: u64,
) -> Result<Change, NoMemory>
    requires there { HasBlock (V.seen view.now) place.now.inode }
    requires dinode { (h : Holding) → IsShown (V.seen view.now) place.now.inode h → place.now.dinode ≡ dinode_in h }
    requires stuffed { StaysStuffed (V.seen view.now).size place.now.dinode (at + length new.now) }
    ensures { IfOk result (IsWrite (V.seen view.now) place.now.inode at new.now time) }
{
    let mut draft = Draft::new(alloc, view);
    put_stuffed(&mut draft, place, at, new, time)?;
    draft.finish()
}
