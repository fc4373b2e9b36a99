// Content behind a file's dinode.
ghost use Rattle.std.specs.Prelude.{ℕ, List, ◌≡◌, ◌+◌, ◌-◌, ◌≤◌, false, max, length, drop, replicate, Some, OnOk};
ghost use Rattle.std.specs.FinMap.{insert};
ghost use Rattle.drafts.specs.Fates.{seen_in};
ghost use Rattle.drafts.specs.declared.fate.Fate.TheVariants.{Put};
ghost use Rattle.file_tree.specs.Apply.{overwritten, resized};
ghost use Rattle.gfs2_layout.specs.Bytes.{put_at};
ghost use Rattle.gfs2_layout.specs.Holding.{Holding};
ghost use Rattle.gfs2_layout.specs.Inode.{dinode_in, height_in, content_of};
ghost use Rattle.gfs2_layout.specs.Structures.{dinode_length};
ghost use Rattle.glock_names.specs.Views.{HasBlock};
ghost use Rattle.dinode_tree.specs.Reading.{inode_lock};
ghost use Rattle.dinode_tree.specs.Shown.{IsShown};
ghost use Rattle.growth_laws.specs.Blocks.{rewritten_cells};
ghost use Rattle.growth_laws.specs.Files.{IsFile, with_cells};
ghost use Rattle.growth_laws.specs.Steps.{IsStuffedAs};
ghost use Rattle.growth_steps.specs.Becoming.{Becomes};
ghost use Rattle.growth_steps.specs.Stuffed.{IsStuffedBlock, resized_bytes, stuffed_bytes, stuffed_in};

use crate::contents::overwrite;
use crate::heights::clear_from;
use crate::pointers::lock_of;
use drafts::Draft;
use gfs2_layout::{DINODE_LENGTH, Dinode};
use glock_names::View;
use no_memory::NoMemory;

// Zeros from a place up to another.
fn clear_between(block: &mut [u8], from: usize, until: usize)
    requires order { from ≤ until }
    requires within { until ≤ length block.old }
    ensures { block.new ≡ put_at from (replicate (until - from) 0) block.old }
{
    block[from..until].fill(0);
}

// Bytes over the content behind a dinode, and the dinode with the size that it has then.
fn write_stuffed(block: &mut [u8], dinode: &Dinode, at: usize, new: &[u8])
    requires content { dinode_length + dinode.now.size ≤ length block.old }
    requires room { dinode_length + at + length new.now ≤ length block.old }
    ensures bytes { block.new ≡ stuffed_bytes dinode.now at new.now block.old }
    ensures stuffed { IsStuffedBlock (length block.old) (record dinode.now { size = max dinode.now.size (at + length new.now) }) (overwritten at new.now (stuffed_in dinode.now block.old)) block.new }
    ensures behind { drop (dinode_length + max dinode.now.size (at + length new.now)) block.new ≡ drop (dinode_length + max dinode.now.size (at + length new.now)) block.old }
{
    let end = DINODE_LENGTH + dinode.size as usize;
    clear_between(block, end, end.max(DINODE_LENGTH + at));
    overwrite(block, DINODE_LENGTH + at, new);
    let written = Dinode {
        size: dinode.size.max((at + new.len()) as u64),
        ..*dinode
    };
    written.write(block);
}

// Another size of the content behind a dinode, and the dinode that says it.
fn resize_area(block: &mut [u8], dinode: &Dinode, size: usize)
    requires content { dinode_length + dinode.now.size ≤ length block.old }
    requires room { dinode_length + size ≤ length block.old }
    ensures bytes { block.new ≡ resized_bytes dinode.now size block.old }
    ensures stuffed { IsStuffedBlock (length block.old) (record dinode.now { size = size }) (resized size (stuffed_in dinode.now block.old)) block.new }
{
    clear_from(block, DINODE_LENGTH + size.min(dinode.size as usize));
    let sized = Dinode {
        size: size as u64,
        ..*dinode
    };
    sized.write(block);
}

// Puts the block of a dinode with bytes over the content behind it, which the draft sees.
fn put_written<V: View>(
    draft: &mut Draft<'_, V>,
    inode: u64,
    dinode: &Dinode,
    at: usize,
    new: &[u8],
) -> Result<(), NoMemory>
    requires there { HasBlock (seen_in V.seen draft.old) inode }
    requires content { dinode_length + dinode.now.size ≤ (V.seen draft.old.view).size }
    requires room { dinode_length + at + length new.now ≤ (V.seen draft.old.view).size }
    ensures put { (bytes : List ℕ) → (seen_in V.seen draft.old).block_at inode ≡ Some bytes
        → OnOk result (draft.new ≡ record draft.old { fates = insert draft.old.fates inode (Put (inode_lock inode) false (stuffed_bytes dinode.now at new.now bytes)) }) }
    ensures behind { (bytes : List ℕ) → (seen_in V.seen draft.old).block_at inode ≡ Some bytes
        → OnOk result (drop (dinode_length + max dinode.now.size (at + length new.now)) (stuffed_bytes dinode.now at new.now bytes) ≡ drop (dinode_length + max dinode.now.size (at + length new.now)) bytes) }
    ensures view { draft.new.view ≡ draft.old.view }
    ensures stuffed { (bytes : List ℕ) → (seen_in V.seen draft.old).block_at inode ≡ Some bytes
        → OnOk result (IsStuffedBlock (V.seen draft.old.view).size (record dinode.now { size = max dinode.now.size (at + length new.now) }) (overwritten at new.now (stuffed_in dinode.now bytes)) (stuffed_bytes dinode.now at new.now bytes)) }
{
    let Some(mut bytes) = draft.copy(inode)? else {
        unreachable!()
    };
    write_stuffed(&mut bytes, dinode, at, new);
    draft.put(lock_of(inode), inode, false, &bytes)
}

// Puts the block of a dinode with another size of the content behind it, which the draft sees.
fn put_resized<V: View>(
    draft: &mut Draft<'_, V>,
    inode: u64,
    dinode: &Dinode,
    size: usize,
) -> Result<(), NoMemory>
    requires there { HasBlock (seen_in V.seen draft.old) inode }
    requires content { dinode_length + dinode.now.size ≤ (V.seen draft.old.view).size }
    requires room { dinode_length + size ≤ (V.seen draft.old.view).size }
    ensures put { (bytes : List ℕ) → (seen_in V.seen draft.old).block_at inode ≡ Some bytes
        → OnOk result (draft.new ≡ record draft.old { fates = insert draft.old.fates inode (Put (inode_lock inode) false (resized_bytes dinode.now size bytes)) }) }
    ensures view { draft.new.view ≡ draft.old.view }
    ensures stuffed { (bytes : List ℕ) → (seen_in V.seen draft.old).block_at inode ≡ Some bytes
        → OnOk result (IsStuffedBlock (V.seen draft.old.view).size (record dinode.now { size = size }) (resized size (stuffed_in dinode.now bytes)) (resized_bytes dinode.now size bytes)) }
{
    let Some(mut bytes) = draft.copy(inode)? else {
        unreachable!()
    };
    resize_area(&mut bytes, dinode, size);
    draft.put(lock_of(inode), inode, false, &bytes)
}

/// Puts bytes over the content that stands behind a file's dinode, from a place on, with zeros between its end and that place; the
/// dinode, which is passed as it is read, gets the size that it has then, and what stands behind the content stays. Of each file that
/// the draft showed and that has its content there, it then shows the file with these bytes over it. It costs two copies of the block.
pub fn put_stuffed<V: View>(
    draft: &mut Draft<'_, V>,
    inode: u64,
    dinode: &Dinode,
    at: usize,
    new: &[u8],
) -> Result<(), NoMemory>
    requires there { HasBlock (seen_in V.seen draft.old) inode }
    requires content { dinode_length + dinode.now.size ≤ (V.seen draft.old.view).size }
    requires room { dinode_length + at + length new.now ≤ (V.seen draft.old.view).size }
    ensures put { (bytes : List ℕ) → (seen_in V.seen draft.old).block_at inode ≡ Some bytes
        → OnOk result (draft.new ≡ record draft.old { fates = insert draft.old.fates inode (Put (inode_lock inode) false (stuffed_bytes dinode.now at new.now bytes)) }) }
    ensures behind { (bytes : List ℕ) → (seen_in V.seen draft.old).block_at inode ≡ Some bytes
        → OnOk result (drop (dinode_length + max dinode.now.size (at + length new.now)) (stuffed_bytes dinode.now at new.now bytes) ≡ drop (dinode_length + max dinode.now.size (at + length new.now)) bytes) }
    ensures view { draft.new.view ≡ draft.old.view }
    ensures written { (h : Holding) (bytes : List ℕ) → IsFile h → IsShown (seen_in V.seen draft.old) inode h → dinode.now ≡ dinode_in h → height_in h ≡ 0
        → (seen_in V.seen draft.old).block_at inode ≡ Some bytes
        → OnOk result (IsStuffedAs h (rewritten_cells h h.own (stuffed_bytes dinode.now at new.now bytes)) (overwritten at new.now (content_of h))
        × Becomes (seen_in V.seen draft.new) draft.old.fates draft.new.fates inode h (with_cells h (rewritten_cells h h.own (stuffed_bytes dinode.now at new.now bytes)))) }
{
    put_written(draft, inode, dinode, at, new)
}

/// Gives content that stands behind a file's dinode another size, with which it still fits there: a cut, or zeros behind it. Behind the
/// lesser of the two ends zeros stand then. It costs two copies of the block.
pub fn resize_stuffed<V: View>(
    draft: &mut Draft<'_, V>,
    inode: u64,
    dinode: &Dinode,
    size: usize,
) -> Result<(), NoMemory>
    requires there { HasBlock (seen_in V.seen draft.old) inode }
    requires content { dinode_length + dinode.now.size ≤ (V.seen draft.old.view).size }
    requires room { dinode_length + size ≤ (V.seen draft.old.view).size }
    ensures put { (bytes : List ℕ) → (seen_in V.seen draft.old).block_at inode ≡ Some bytes
        → OnOk result (draft.new ≡ record draft.old { fates = insert draft.old.fates inode (Put (inode_lock inode) false (resized_bytes dinode.now size bytes)) }) }
    ensures view { draft.new.view ≡ draft.old.view }
    ensures resized { (h : Holding) (bytes : List ℕ) → IsFile h → IsShown (seen_in V.seen draft.old) inode h → dinode.now ≡ dinode_in h → height_in h ≡ 0
        → (seen_in V.seen draft.old).block_at inode ≡ Some bytes
        → OnOk result (IsStuffedAs h (rewritten_cells h h.own (resized_bytes dinode.now size bytes)) (resized size (content_of h))
        × Becomes (seen_in V.seen draft.new) draft.old.fates draft.new.fates inode h (with_cells h (rewritten_cells h h.own (resized_bytes dinode.now size bytes)))) }
{
    put_resized(draft, inode, dinode, size)
}
