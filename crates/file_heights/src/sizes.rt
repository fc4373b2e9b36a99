// The size of a file in blocks, and how many blocks its dinode tells of.
ghost use Rattle.std.specs.Prelude.{ℕ, List, ◌≡◌, ◌≤◌, OnOk};
ghost use Rattle.drafts.specs.Fates.{seen_in};
ghost use Rattle.gfs2_layout.specs.Holding.{Holding};
ghost use Rattle.gfs2_layout.specs.Inode.{dinode_in};
ghost use Rattle.gfs2_layout.specs.Structures.{dinode_length};
ghost use Rattle.glock_names.specs.Views.{HasBlock};
ghost use Rattle.dinode_tree.specs.Shown.{IsShown};
ghost use Rattle.growth_laws.specs.Files.{IsFile};
ghost use Rattle.growth_drafts.specs.Touched.{Follows};
ghost use Rattle.growth_steps.specs.Sizes.{CanHaveSize};
ghost use Rattle.file_heights.specs.Sized.{HasSize};

use drafts::Draft;
use gfs2_layout::Dinode;
use glock_names::View;
use growth_steps::{count_blocks, set_size};
use no_memory::NoMemory;

/// Puts another size and another count of blocks into the dinode of a file in blocks, which is passed as it is read. Of each file that the
/// draft showed and that can have this size (`growth_steps`, *CanHaveSize*) it then shows the one that has it and tells of so many blocks.
/// It costs four copies of the dinode's block.
pub fn set_size_and_count<V: View>(
    draft: &mut Draft<'_, V>,
    inode: u64,
    dinode: &Dinode,
    size: u64,
    blocks: u64,
) -> Result<(), NoMemory>
    requires there { HasBlock (seen_in V.seen draft.old) inode }
    requires room { dinode_length ≤ (V.seen draft.old.view).size }
    ensures sized { (h : Holding) → IsFile h → IsShown (seen_in V.seen draft.old) inode h → dinode.now ≡ dinode_in h → CanHaveSize h size
        → OnOk result (HasSize (seen_in V.seen draft.new) draft.old.fates draft.new.fates h size blocks) }
    ensures view { draft.new.view ≡ draft.old.view }
    ensures still { OnOk result (HasBlock (seen_in V.seen draft.new) inode) }
    ensures within { (room : List ℕ) → OnOk result (Follows (V.seen draft.old.view) inode room draft.old.fates draft.new.fates) }
{
    set_size(draft, inode, dinode, size)?;
    let sized = Dinode { size, ..*dinode };
    count_blocks(draft, inode, &sized, blocks)
}
