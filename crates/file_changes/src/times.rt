// The time of a change, put into a file's dinode in a draft.
ghost use Rattle.std.specs.Prelude.{ℕ, ◌≡◌, true, IfOk};
ghost use Rattle.drafts.specs.Fates.{seen_in};
ghost use Rattle.gfs2_layout.specs.Holding.{Holding};
ghost use Rattle.gfs2_layout.specs.Inode.{IsInode};
ghost use Rattle.glock_names.specs.Views.{HasBlock};
ghost use Rattle.dinode_tree.specs.Shown.{IsShown};
ghost use Rattle.file_changes.specs.Drafting.{GetsTime};

use drafts::Draft;
use glock_names::{CallFault, Step, View};
use new_inodes::touch;
use no_memory::NoMemory;

/// Puts a time into the dinode of a file, in a draft that sees it, as that of the last change of its content and of its own. False where the
/// draft's dinode is damaged; then the draft is dropped. It costs what `touch` costs.
pub(crate) fn put_time<V: View>(
    draft: &mut Draft<'_, V>,
    inode: u64,
    time: u64,
) -> Result<bool, NoMemory>
    requires there { HasBlock (seen_in V.seen draft.old) inode }
    ensures timed { IfOk result (λ done. done ≡ true → GetsTime (V.seen draft.old.view) draft.old.fates inode time draft.new.fates) }
    ensures view { IfOk result (λ done. done ≡ true → draft.new.view ≡ draft.old.view) }
    ensures sound { (h : Holding) → IsShown (seen_in V.seen draft.old) inode h → IsInode h → IfOk result (λ done. done ≡ true) }
{
    match touch(draft, inode, time) {
        Ok(Step::Is(())) => Ok(true),
        Ok(Step::NeedBlock(_)) => Ok(false),
        Err(CallFault::NoMemory) => Err(NoMemory),
        Err(CallFault::Damaged { .. }) => Ok(false),
    }
}
