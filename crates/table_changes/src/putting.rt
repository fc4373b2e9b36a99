// What is put into a draft: pointers of one block, a dinode, and blocks that were put into another draft.
ghost use Rattle.std.specs.Prelude.{ℕ, List, ◌≡◌, ◌↔◌, ◌+◌, ◌*◌, ◌≤◌, false, true, Some, Contains, IfOk, IsTrue, Ok, OnOk, OnErr, length, drop};
ghost use Rattle.std.specs.FinMap.{insert as with_fate};
ghost use Rattle.drafts.specs.declared.fate.Fate.TheVariants.{Put};
ghost use Rattle.drafts.specs.Fates.{seen_in};
ghost use Rattle.drafts.specs.declared.change.Written.{Written};
ghost use Rattle.gfs2_layout.specs.Structures.{dinode_length, dinode_read};
ghost use Rattle.gfs2_layout.specs.Writing.{dinode_put};
ghost use Rattle.glock_names.specs.Views.{HasBlock};
ghost use Rattle.dinode_tree.specs.Below.{TellsOfBlock};
ghost use Rattle.dinode_tree.specs.Reading.{inode_lock};
ghost use Rattle.table_changes.specs.Doubling.{IsOfTable};
ghost use Rattle.table_changes.specs.Setting.{HasNumbersSet};

use crate::numbers::set_numbers;
use dinode_tree::PointedBlock;
use drafts::{Draft, Written};
use gfs2_layout::Dinode;
use glock_names::View;
use linear_dirs::lock_of;
use no_memory::NoMemory;
use std::collections::VecDeque;

/// Makes so many neighbouring pointers of a block, from a place in it on, lead to a leaf, and puts the block under its directory's lock.
/// It costs two copies of the block.
pub(crate) fn put_pointers<V: View>(
    draft: &mut Draft<'_, V>,
    directory: u64,
    block: u64,
    start: usize,
    count: usize,
    leaf: u64,
) -> Result<(), NoMemory>
    requires there { HasBlock (seen_in V.seen draft.old) block }
    requires fits { start + 8 * count ≤ (V.seen draft.old.view).size }
    ensures put { (bytes : List ℕ) → (seen_in V.seen draft.old).block_at block ≡ Some bytes
        → OnOk result ((new : List ℕ) × HasNumbersSet bytes new start count leaf × (draft.new ≡ record draft.old { fates = with_fate draft.old.fates block (Put (inode_lock directory) false new) })) }
    ensures err { OnErr result (draft.new ≡ draft.old) }
{
    let Some(mut bytes) = draft.copy(block)? else {
        unreachable!()
    };
    set_numbers(&mut bytes, start, count, leaf);
    draft.put(lock_of(directory), block, false, &bytes)
}

/// Puts a dinode into its block; false where the draft doesn't see that. It costs two copies of the block.
pub(crate) fn put_dinode<V: View>(
    draft: &mut Draft<'_, V>,
    inode: u64,
    dinode: &Dinode,
) -> Result<bool, NoMemory>
    requires { dinode_length ≤ (V.seen draft.old.view).size }
    ensures put { (bytes : List ℕ) → (seen_in V.seen draft.old).block_at inode ≡ Some bytes
        → IfOk result (λ done. (done ≡ true) × (draft.new ≡ record draft.old { fates = with_fate draft.old.fates inode (Put (inode_lock inode) false (dinode_put dinode.now bytes)) })) }
    ensures read { (bytes : List ℕ) → (seen_in V.seen draft.old).block_at inode ≡ Some bytes → IfOk result (λ done. dinode_read (dinode_put dinode.now bytes) ≡ Ok dinode.now) }
    ensures behind { (bytes : List ℕ) → (seen_in V.seen draft.old).block_at inode ≡ Some bytes → IfOk result (λ done. drop dinode_length (dinode_put dinode.now bytes) ≡ drop dinode_length bytes) }
    ensures whole { (bytes : List ℕ) → (seen_in V.seen draft.old).block_at inode ≡ Some bytes → IfOk result (λ done. length (dinode_put dinode.now bytes) ≡ (V.seen draft.old.view).size) }
    ensures view { draft.new.view ≡ draft.old.view }
{
    let Some(mut bytes) = draft.copy(inode)? else {
        return Ok(false);
    };
    dinode.write(&mut bytes);
    draft.put(lock_of(inode), inode, false, &bytes)?;
    Ok(true)
}

// Whether the list tells of a block.
fn is_told(below: &[PointedBlock], block: u64) -> bool
    ensures { IsTrue result ↔ TellsOfBlock below.now block }
{
    for pointed in below {
        if pointed.block == block {
            return true;
        }
    }
    false
}

// Whether a block is the directory's own, one of those below it, or one that was taken.
fn is_of_table(block: u64, directory: u64, below: &[PointedBlock], taken: &VecDeque<u64>) -> bool
    ensures { IsTrue result ↔ IsOfTable directory below.now taken.now.items block }
{
    if block == directory {
        return true;
    }
    if is_told(below, block) {
        return true;
    }
    taken.contains(&block)
}

/// Whether each of these blocks is the directory's own, one of those below it, or one that was taken. It costs a step for each of those
/// for each block.
pub(crate) fn are_of_table(
    blocks: &[Written],
    directory: u64,
    below: &[PointedBlock],
    taken: &VecDeque<u64>,
) -> bool
    ensures { IsTrue result ↔ ((w : Written) → Contains blocks.now w → IsOfTable directory below.now taken.now.items w.block) }
{
    for one in blocks {
        if !is_of_table(one.block, directory, below, taken) {
            return false;
        }
    }
    true
}
