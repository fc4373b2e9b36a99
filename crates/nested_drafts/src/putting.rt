// Blocks that were put in one draft, put into another.
ghost use Rattle.std.specs.Prelude.{◌≡◌, ◌↔◌, Contains, IsTrue, OnOk, length};
ghost use Rattle.drafts.specs.declared.change.Written.{Written};
ghost use Rattle.nested_drafts.specs.Nested.{with_blocks};

use drafts::{Draft, Written};
use glock_names::{LockName, View};
use no_memory::NoMemory;

/// Whether each of these blocks has so many bytes.
pub fn are_whole(blocks: &[Written], size: usize) -> bool
    ensures { IsTrue result ↔ ((w : Written) → Contains blocks.now w → length w.bytes ≡ size) }
{
    for one in blocks {
        if one.bytes.bytes().len() != size {
            return false;
        }
    }
    true
}

/// Puts these blocks under a lock, none of them as content of a file. It costs a copy of each.
pub fn put_blocks<V: View>(
    draft: &mut Draft<'_, V>,
    lock: LockName,
    blocks: &[Written],
) -> Result<(), NoMemory>
    requires { (w : Written) → Contains blocks.now w → length w.bytes ≡ (V.seen draft.old.view).size }
    ensures put { OnOk result (draft.new ≡ record draft.old { fates = with_blocks lock blocks.now draft.old.fates }) }
    ensures view { draft.new.view ≡ draft.old.view }
{
    for one in blocks {
        draft.put(lock, one.block, false, one.bytes.bytes())?;
    }
    Ok(())
}
