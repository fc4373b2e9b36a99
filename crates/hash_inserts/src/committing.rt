// Blocks of an insertion that are put into a draft, where each is one that may change.
ghost use Rattle.std.specs.Prelude.{ℕ, List, ◌≡◌, ◌↔◌, ◌++◌, ◌≤◌, true, false, Contains, IfOk, IsTrue, OnOk, length};
ghost use Rattle.drafts.specs.Fates.{seen_in};
ghost use Rattle.drafts.specs.declared.change.Written.{Written};
ghost use Rattle.dinode_tree.specs.Reading.{inode_lock};
ghost use Rattle.nested_drafts.specs.Nested.{with_blocks};
ghost use Rattle.hash_inserts.specs.Inserting.{MayChange, StaysInside};

use drafts::{Draft, Written};
use glock_names::View;
use linear_dirs::lock_of;
use nested_drafts::{put_blocks, puts_are_seen_alike};
use no_memory::NoMemory;
use resource_groups::group_of;
use std::alloc::Global;
use std::collections::VecDeque;

// Whether an insertion may do something to a block, whatever the directory is.
fn may_change<V: View>(view: &V, dir: u64, taken: &[u64], block: u64) -> bool
    ensures { IsTrue result ↔ MayChange (V.seen view.now) dir taken.now block }
{
    if block == dir {
        return true;
    }
    if taken.contains(&block) {
        return true;
    }
    group_of(view, block).is_some()
}

// Whether it may, to each of these.
fn are_inside<V: View>(view: &V, dir: u64, taken: &[u64], blocks: &[Written]) -> bool
    ensures { IsTrue result ↔ ((w : Written) → Contains blocks.now w → MayChange (V.seen view.now) dir taken.now w.block) }
{
    for one in blocks {
        if !may_change(view, dir, taken, one.block) {
            return false;
        }
    }
    true
}

// Takes blocks from the front of the room until so many are left.
fn take_front(alloc: Global, room: &mut VecDeque<u64>, left: usize) -> Result<Vec<u64>, NoMemory>
    ensures front { IfOk result (λ taken. room.old.items ≡ taken.items ++ room.new.items) }
    ensures left { left ≤ length room.old.items → OnOk result (length room.new.items ≡ left) }
{
    let mut taken = Vec::new(alloc);
    while room.len() > left {
        let Some(block) = room.pop_front() else {
            unreachable!()
        };
        taken.push(block)?;
    }
    Ok(taken)
}

/// Takes blocks from the front of the room until so many are left, and puts the blocks of a directory into a draft, where each is the
/// dinode's, one that was taken or a data block of a group; and tells whether that was done. It costs a copy of each, and for each a look at
/// what was taken and at the groups.
pub(crate) fn commit<V: View>(
    alloc: Global,
    draft: &mut Draft<'_, V>,
    dir: u64,
    blocks: &[Written],
    room: &mut VecDeque<u64>,
    left: usize,
) -> Result<bool, NoMemory>
    requires { (w : Written) → Contains blocks.now w → length w.bytes ≡ (V.seen draft.old.view).size }
    ensures put { IfOk result (λ done. done ≡ true → draft.new ≡ record draft.old { fates = with_blocks (inode_lock dir) blocks.now draft.old.fates }) }
    ensures inside { IfOk result (λ done. done ≡ true → StaysInside (seen_in V.seen draft.old) draft.old.fates draft.new.fates room.old.items room.new.items dir) }
    ensures all { (taken rest : List ℕ) → room.old.items ≡ taken ++ rest → length rest ≡ left → ((w : Written) → Contains blocks.now w → MayChange (seen_in V.seen draft.old) dir taken w.block)
        → IfOk result (λ done. (done ≡ true) × (room.new.items ≡ rest)) }
    ensures undone { IfOk result (λ done. done ≡ false → draft.new ≡ draft.old) }
    ensures view { draft.new.view ≡ draft.old.view }
{
    puts_are_seen_alike();
    let taken = take_front(alloc, room, left)?;
    if !are_inside(&*draft, dir, &taken, blocks) {
        return Ok(false);
    }
    put_blocks(draft, lock_of(dir), blocks)?;
    Ok(true)
}
