// A file's dinode at another height.
ghost use Rattle.std.specs.Prelude.{ℕ, List, ◌≡◌, ◌≢◌, ◌+◌, ◌<◌, ◌≤◌, true, false, length, Some, IfOk, OnOk};
ghost use Rattle.std.specs.FinMap.{insert};
ghost use Rattle.drafts.specs.Fates.{seen_in};
ghost use Rattle.drafts.specs.declared.fate.Fate.TheVariants.{Put};
ghost use Rattle.gfs2_layout.specs.Holding.{Holding};
ghost use Rattle.gfs2_layout.specs.Inode.{dinode_in};
ghost use Rattle.gfs2_layout.specs.Structures.{dinode_length};
ghost use Rattle.gfs2_layout.specs.Writing.{zeros_from};
ghost use Rattle.glock_names.specs.Views.{HasBlock};
ghost use Rattle.dinode_tree.specs.Reading.{inode_lock};
ghost use Rattle.dinode_tree.specs.Shown.{IsShown};
ghost use Rattle.growth_laws.specs.Blocks.{rewritten_cells};
ghost use Rattle.growth_laws.specs.Files.{IsFile, with_cells};
ghost use Rattle.growth_laws.specs.Steps.{IsBareTo, IsRaised, IsUnstuffed};
ghost use Rattle.growth_steps.specs.Becoming.{Becomes};
ghost use Rattle.growth_steps.specs.Heights.{CanBeBare, CanRise, HasStuffed, IsLedBlock, IsNewTo, bare_bytes, led_bytes, moved_bytes, raised_bytes, raised_cells, unstuffed_cells};

use crate::contents::overwrite;
use crate::pointers::{lock_of, new_block, point};
use drafts::Draft;
use gfs2_layout::{DINODE_LENGTH, Dinode};
use glock_names::View;
use no_memory::NoMemory;
use std::alloc::Global;

// Where the pointers of an indirect block begin.
const HEADER_LENGTH: usize = 24;

// Zeros from a place on.
pub(crate) fn clear_from(block: &mut [u8], at: usize)
    requires { at ≤ length block.old }
    ensures { block.new ≡ zeros_from at block.old }
{
    block[at..].fill(0);
}

// A dinode, and behind it one pointer, the first.
fn write_led(block: &mut [u8], dinode: &Dinode, to: u64)
    requires { dinode_length + 8 ≤ length block.old }
    ensures bytes { block.new ≡ led_bytes dinode.now to block.old }
    ensures led { IsLedBlock (length block.old) dinode.now to block.new }
{
    clear_from(block, DINODE_LENGTH);
    point(block, DINODE_LENGTH, 0, to);
    dinode.write(block);
}

// A dinode with no pointer behind it.
fn write_bare(block: &mut [u8], dinode: &Dinode)
    requires { dinode_length ≤ length block.old }
    ensures bytes { block.new ≡ bare_bytes dinode.now block.old }
    ensures bare { IsLedBlock (length block.old) dinode.now 0 block.new }
{
    clear_from(block, DINODE_LENGTH);
    dinode.write(block);
}

// An indirect block with the pointers that stand behind a dinode.
fn indirect_with(alloc: Global, block: &[u8]) -> Result<Vec<u8>, NoMemory>
    requires { dinode_length ≤ length block.now }
    ensures { IfOk result (λ made. made.items ≡ raised_bytes block.now) }
{
    let mut made = new_block(alloc, block.len(), 1)?;
    overwrite(&mut made, HEADER_LENGTH, &block[DINODE_LENGTH..]);
    Ok(made)
}

// A block of content with the first bytes that stand behind a dinode.
fn content_with(alloc: Global, block: &[u8], size: usize) -> Result<Vec<u8>, NoMemory>
    requires { dinode_length + size ≤ length block.now }
    ensures { IfOk result (λ made. made.items ≡ moved_bytes size block.now) }
{
    let mut made = vec![in alloc; 0u8; block.len()]?;
    overwrite(&mut made, 0, &block[DINODE_LENGTH..DINODE_LENGTH + size]);
    Ok(made)
}

// Puts a dinode with one pointer behind it into its block, which the draft sees.
fn put_led<V: View>(
    draft: &mut Draft<'_, V>,
    inode: u64,
    dinode: &Dinode,
    to: u64,
) -> Result<(), NoMemory>
    requires there { HasBlock (seen_in V.seen draft.old) inode }
    requires room { dinode_length + 8 ≤ (V.seen draft.old.view).size }
    ensures put { (bytes : List ℕ) → (seen_in V.seen draft.old).block_at inode ≡ Some bytes
        → OnOk result (draft.new ≡ record draft.old { fates = insert draft.old.fates inode (Put (inode_lock inode) false (led_bytes dinode.now to bytes)) }) }
    ensures led { (bytes : List ℕ) → (seen_in V.seen draft.old).block_at inode ≡ Some bytes → OnOk result (IsLedBlock (V.seen draft.old.view).size dinode.now to (led_bytes dinode.now to bytes)) }
    ensures view { draft.new.view ≡ draft.old.view }
{
    let Some(mut bytes) = draft.copy(inode)? else {
        unreachable!()
    };
    write_led(&mut bytes, dinode, to);
    draft.put(lock_of(inode), inode, false, &bytes)
}

// Puts a dinode with no pointer behind it into its block, which the draft sees.
fn put_bare<V: View>(draft: &mut Draft<'_, V>, inode: u64, dinode: &Dinode) -> Result<(), NoMemory>
    requires there { HasBlock (seen_in V.seen draft.old) inode }
    requires room { dinode_length ≤ (V.seen draft.old.view).size }
    ensures put { (bytes : List ℕ) → (seen_in V.seen draft.old).block_at inode ≡ Some bytes
        → OnOk result (draft.new ≡ record draft.old { fates = insert draft.old.fates inode (Put (inode_lock inode) false (bare_bytes dinode.now bytes)) }) }
    ensures view { draft.new.view ≡ draft.old.view }
    ensures bare { (bytes : List ℕ) → (seen_in V.seen draft.old).block_at inode ≡ Some bytes → OnOk result (IsLedBlock (V.seen draft.old.view).size dinode.now 0 (bare_bytes dinode.now bytes)) }
{
    let Some(mut bytes) = draft.copy(inode)? else {
        unreachable!()
    };
    write_bare(&mut bytes, dinode);
    draft.put(lock_of(inode), inode, false, &bytes)
}

/// Raises a file's height by one: the pointers behind its dinode, which is passed as it is read, move to a new indirect block, to which
/// the dinode's first pointer then leads. Of each file that the draft showed and that can rise it then shows the risen one. It costs
/// two copies of each of the two blocks.
pub fn raise_height<V: View>(
    alloc: Global,
    draft: &mut Draft<'_, V>,
    inode: u64,
    dinode: &Dinode,
    block: u64,
) -> Result<(), NoMemory>
    requires there { HasBlock (seen_in V.seen draft.old) inode }
    requires room { dinode_length + 8 ≤ (V.seen draft.old.view).size }
    requires low { dinode.now.height < 10 }
    ensures put { (bytes : List ℕ) → (seen_in V.seen draft.old).block_at inode ≡ Some bytes
        → OnOk result (draft.new ≡ record draft.old { fates = insert (insert draft.old.fates inode (Put (inode_lock inode) false (led_bytes (record dinode.now { height = dinode.now.height + 1 }) block bytes))) block (Put (inode_lock inode) false (raised_bytes bytes)) }) }
    ensures view { draft.new.view ≡ draft.old.view }
    ensures raised { (h : Holding) (level : ℕ) (bytes : List ℕ) → IsFile h → IsShown (seen_in V.seen draft.old) inode h → dinode.now ≡ dinode_in h → CanRise h level → IsNewTo h block
        → (seen_in V.seen draft.old).block_at inode ≡ Some bytes
        → OnOk result (IsRaised h (raised_cells h level block (led_bytes (record dinode.now { height = dinode.now.height + 1 }) block bytes) (raised_bytes bytes)) level block
        × Becomes (seen_in V.seen draft.new) draft.old.fates draft.new.fates inode h (with_cells h (raised_cells h level block (led_bytes (record dinode.now { height = dinode.now.height + 1 }) block bytes) (raised_bytes bytes)))) }
{
    let Some(bytes) = draft.copy(inode)? else {
        unreachable!()
    };
    let indirect = indirect_with(alloc, &bytes)?;
    let raised = Dinode {
        height: dinode.height + 1,
        ..*dinode
    };
    put_led(draft, inode, &raised, block)?;
    draft.put(lock_of(inode), block, false, &indirect)
}

/// Moves the content that stands behind a file's dinode to a new block, the first of height 1. Of each file that the draft showed and
/// that has such content it then shows the one with the block. It costs two copies of each of the two blocks.
pub fn move_content<V: View>(
    alloc: Global,
    draft: &mut Draft<'_, V>,
    inode: u64,
    dinode: &Dinode,
    block: u64,
) -> Result<(), NoMemory>
    requires there { HasBlock (seen_in V.seen draft.old) inode }
    requires room { dinode_length + 8 ≤ (V.seen draft.old.view).size }
    requires fits { dinode_length + dinode.now.size ≤ (V.seen draft.old.view).size }
    ensures put { (bytes : List ℕ) → (seen_in V.seen draft.old).block_at inode ≡ Some bytes
        → OnOk result (draft.new ≡ record draft.old { fates = insert (insert draft.old.fates inode (Put (inode_lock inode) false (led_bytes (record dinode.now { height = 1 }) block bytes))) block (Put (inode_lock inode) true (moved_bytes dinode.now.size bytes)) }) }
    ensures view { draft.new.view ≡ draft.old.view }
    ensures moved { (h : Holding) (bytes : List ℕ) → IsFile h → IsShown (seen_in V.seen draft.old) inode h → dinode.now ≡ dinode_in h → HasStuffed h → IsNewTo h block
        → (seen_in V.seen draft.old).block_at inode ≡ Some bytes
        → OnOk result (IsUnstuffed h (unstuffed_cells h block (led_bytes (record dinode.now { height = 1 }) block bytes) (moved_bytes dinode.now.size bytes)) block
        × Becomes (seen_in V.seen draft.new) draft.old.fates draft.new.fates inode h (with_cells h (unstuffed_cells h block (led_bytes (record dinode.now { height = 1 }) block bytes) (moved_bytes dinode.now.size bytes)))) }
{
    let Some(bytes) = draft.copy(inode)? else {
        unreachable!()
    };
    let content = content_with(alloc, &bytes, dinode.size as usize)?;
    let led = Dinode {
        height: 1,
        ..*dinode
    };
    put_led(draft, inode, &led, block)?;
    draft.put(lock_of(inode), block, true, &content)
}

/// Gives a file without other blocks another height; behind the dinode zeros stand then, pointers that lead nowhere. Of each file that
/// the draft showed and that can have this height without a block it then shows the one that has it. It costs two copies of the
/// dinode's block.
pub fn set_height<V: View>(
    draft: &mut Draft<'_, V>,
    inode: u64,
    dinode: &Dinode,
    height: u16,
) -> Result<(), NoMemory>
    requires there { HasBlock (seen_in V.seen draft.old) inode }
    requires room { dinode_length ≤ (V.seen draft.old.view).size }
    ensures put { (bytes : List ℕ) → (seen_in V.seen draft.old).block_at inode ≡ Some bytes
        → OnOk result (draft.new ≡ record draft.old { fates = insert draft.old.fates inode (Put (inode_lock inode) false (bare_bytes (record dinode.now { height = height }) bytes)) }) }
    ensures view { draft.new.view ≡ draft.old.view }
    ensures bare { (h : Holding) (bytes : List ℕ) → IsFile h → IsShown (seen_in V.seen draft.old) inode h → dinode.now ≡ dinode_in h → CanBeBare h height
        → (seen_in V.seen draft.old).block_at inode ≡ Some bytes
        → OnOk result (IsBareTo h (rewritten_cells h h.own (bare_bytes (record dinode.now { height = height }) bytes)) height
        × Becomes (seen_in V.seen draft.new) draft.old.fates draft.new.fates inode h (with_cells h (rewritten_cells h h.own (bare_bytes (record dinode.now { height = height }) bytes)))) }
{
    let bare = Dinode { height, ..*dinode };
    put_bare(draft, inode, &bare)
}
