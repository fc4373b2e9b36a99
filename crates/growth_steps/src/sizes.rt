// A file's dinode with another size.
ghost use Rattle.std.specs.Prelude.{ℕ, List, ◌≡◌, ◌≤◌, false, length, drop, Some, Ok, OnOk, OnErr};
ghost use Rattle.std.specs.FinMap.{insert};
ghost use Rattle.drafts.specs.Fates.{seen_in};
ghost use Rattle.drafts.specs.declared.fate.Fate.TheVariants.{Put};
ghost use Rattle.file_tree.specs.Apply.{resized};
ghost use Rattle.gfs2_layout.specs.Holding.{Holding};
ghost use Rattle.gfs2_layout.specs.Inode.{dinode_in, content_of};
ghost use Rattle.gfs2_layout.specs.Structures.{dinode_length, dinode_read};
ghost use Rattle.gfs2_layout.specs.Writing.{dinode_put};
ghost use Rattle.glock_names.specs.Views.{HasBlock};
ghost use Rattle.dinode_tree.specs.Reading.{inode_lock};
ghost use Rattle.dinode_tree.specs.Shown.{IsShown};
ghost use Rattle.growth_laws.specs.Blocks.{rewritten_cells};
ghost use Rattle.growth_laws.specs.Files.{IsFile, with_cells};
ghost use Rattle.growth_laws.specs.Steps.{IsSized};
ghost use Rattle.growth_steps.specs.Becoming.{Becomes};
ghost use Rattle.growth_steps.specs.Sizes.{CanHaveSize};

use crate::pointers::lock_of;
use drafts::Draft;
use gfs2_layout::Dinode;
use glock_names::View;
use no_memory::NoMemory;

// Puts a dinode into its block, which the draft sees.
pub(crate) fn put_dinode<V: View>(
    draft: &mut Draft<'_, V>,
    inode: u64,
    dinode: &Dinode,
) -> Result<(), NoMemory>
    requires there { HasBlock (seen_in V.seen draft.old) inode }
    requires room { dinode_length ≤ (V.seen draft.old.view).size }
    ensures put { (bytes : List ℕ) → (seen_in V.seen draft.old).block_at inode ≡ Some bytes
        → OnOk result (draft.new ≡ record draft.old { fates = insert draft.old.fates inode (Put (inode_lock inode) false (dinode_put dinode.now bytes)) }) }
    ensures read { (bytes : List ℕ) → (seen_in V.seen draft.old).block_at inode ≡ Some bytes → OnOk result (dinode_read (dinode_put dinode.now bytes) ≡ Ok dinode.now) }
    ensures behind { (bytes : List ℕ) → (seen_in V.seen draft.old).block_at inode ≡ Some bytes → OnOk result (drop dinode_length (dinode_put dinode.now bytes) ≡ drop dinode_length bytes) }
    ensures whole { (bytes : List ℕ) → (seen_in V.seen draft.old).block_at inode ≡ Some bytes → OnOk result (length (dinode_put dinode.now bytes) ≡ (V.seen draft.old.view).size) }
    ensures view { draft.new.view ≡ draft.old.view }
    ensures err { OnErr result (draft.new ≡ draft.old) }
{
    let Some(mut bytes) = draft.copy(inode)? else {
        unreachable!()
    };
    dinode.write(&mut bytes);
    draft.put(lock_of(inode), inode, false, &bytes)
}

/// Puts another size into a file's dinode, which is passed as it is read. Of each file that the draft showed and that can have the size,
/// it then shows the file cut to it, or going on with zeros. It costs two copies of the dinode's block.
pub fn set_size<V: View>(
    draft: &mut Draft<'_, V>,
    inode: u64,
    dinode: &Dinode,
    size: u64,
) -> Result<(), NoMemory>
    requires there { HasBlock (seen_in V.seen draft.old) inode }
    requires room { dinode_length ≤ (V.seen draft.old.view).size }
    ensures put { (bytes : List ℕ) → (seen_in V.seen draft.old).block_at inode ≡ Some bytes
        → OnOk result (draft.new ≡ record draft.old { fates = insert draft.old.fates inode (Put (inode_lock inode) false (dinode_put (record dinode.now { size = size }) bytes)) }) }
    ensures sized { (h : Holding) (bytes : List ℕ) → IsFile h → IsShown (seen_in V.seen draft.old) inode h → dinode.now ≡ dinode_in h → CanHaveSize h size
        → (seen_in V.seen draft.old).block_at inode ≡ Some bytes
        → OnOk result (IsShown (seen_in V.seen draft.new) inode (with_cells h (rewritten_cells h h.own (dinode_put (record dinode.now { size = size }) bytes)))
        × IsFile (with_cells h (rewritten_cells h h.own (dinode_put (record dinode.now { size = size }) bytes)))
        × (content_of (with_cells h (rewritten_cells h h.own (dinode_put (record dinode.now { size = size }) bytes))) ≡ resized size (content_of h))) }
    ensures becomes { (h : Holding) (bytes : List ℕ) → IsFile h → IsShown (seen_in V.seen draft.old) inode h → dinode.now ≡ dinode_in h → CanHaveSize h size
        → (seen_in V.seen draft.old).block_at inode ≡ Some bytes
        → OnOk result (IsSized h (rewritten_cells h h.own (dinode_put (record dinode.now { size = size }) bytes)) size
        × Becomes (seen_in V.seen draft.new) draft.old.fates draft.new.fates inode h (with_cells h (rewritten_cells h h.own (dinode_put (record dinode.now { size = size }) bytes)))) }
    ensures view { draft.new.view ≡ draft.old.view }
    ensures err { OnErr result (draft.new ≡ draft.old) }
{
    let sized = Dinode { size, ..*dinode };
    put_dinode(draft, inode, &sized)
}
