// The times of an inode that a draft has changed.
ghost use Rattle.std.specs.Prelude.{List, ℕ, ◌≡◌, false, Ok, OnOk, Some, drop};
ghost use Rattle.std.specs.FinMap.{insert as with_fate};
ghost use Rattle.drafts.specs.declared.fate.Fate.TheVariants.{Put};
ghost use Rattle.drafts.specs.Fates.{seen_in};
ghost use Rattle.gfs2_layout.specs.Holding.{Holding};
ghost use Rattle.gfs2_layout.specs.Structures.{dinode_length, dinode_of, dinode_read};
ghost use Rattle.gfs2_layout.specs.Writing.{dinode_put};
ghost use Rattle.gfs2_layout.specs.declared.dinode.Dinode.{Dinode as DinodeValue};
ghost use Rattle.glock_names.specs.Views.{HasBlock};
ghost use Rattle.dinode_tree.specs.Reading.{inode_lock};
ghost use Rattle.dinode_tree.specs.Shown.{IsShown};
ghost use Rattle.linear_dirs.specs.Shown.{holding_over};
ghost use Rattle.new_inodes.specs.Touched.{IsTouched, with_times};

use crate::touching::put_dinode;
use drafts::Draft;
use gfs2_layout::Dinode;
use glock_names::View;
use no_memory::NoMemory;

/// Puts a time, in seconds, as that of the last change of its content and of itself into the dinode in this block, which the draft sees and which has its
/// header: so the draft may have changed it already. It costs two copies of the block.
pub fn stamp<V: View>(draft: &mut Draft<'_, V>, inode: u64, time: u64) -> Result<(), NoMemory>
    requires there { HasBlock (seen_in V.seen draft.old) inode }
    requires headed { (bytes : List ℕ) → (seen_in V.seen draft.old).block_at inode ≡ Some bytes → (d : DinodeValue) × (dinode_read bytes ≡ Ok d) }
    ensures touched { (h : Holding) → IsShown (seen_in V.seen draft.old) inode h → OnOk result (IsTouched h (holding_over (seen_in V.seen draft.new) h) time) }
    ensures put { (bytes : List ℕ) → (seen_in V.seen draft.old).block_at inode ≡ Some bytes → OnOk result (draft.new ≡ record draft.old { fates = with_fate draft.old.fates inode (Put (inode_lock inode) false (dinode_put (with_times (dinode_of bytes) time) bytes)) }) }
    ensures read { (bytes : List ℕ) → (seen_in V.seen draft.old).block_at inode ≡ Some bytes → OnOk result (dinode_read (dinode_put (with_times (dinode_of bytes) time) bytes) ≡ Ok (with_times (dinode_of bytes) time)) }
    ensures behind { (bytes : List ℕ) → (seen_in V.seen draft.old).block_at inode ≡ Some bytes → OnOk result (drop dinode_length (dinode_put (with_times (dinode_of bytes) time) bytes) ≡ drop dinode_length bytes) }
{
    let _size = draft.block_size();
    let Some(bytes) = draft.copy(inode)? else {
        unreachable!()
    };
    let Ok(dinode) = Dinode::read(&bytes) else {
        unreachable!()
    };
    let stamped = Dinode {
        mtime: time,
        ctime: time,
        ..dinode
    };
    put_dinode(draft, inode, &stamped)
}
