// A table that grows as a file does, in a draft of its own.
ghost use Rattle.std.specs.Prelude.{ℕ, List, ◌≡◌, ◌+◌, ◌-◌, ◌*◌, ◌/◌, ◌^◌, ◌<◌, ◌≤◌, ◌==◌, if◌then◌else◌, true, Contains, IfOk, IfSome, IsSomeAnd, length};
ghost use Rattle.file_tree.specs.Apply.{file_limit};
ghost use Rattle.gfs2_layout.specs.Holding.{Holding};
ghost use Rattle.gfs2_layout.specs.Inode.{dinode_in, height_in, table_count};
ghost use Rattle.gfs2_layout.specs.Structures.{dinode_length};
ghost use Rattle.glock_names.specs.Views.{HasBlock};
ghost use Rattle.drafts.specs.Fates.{seen_in};
ghost use Rattle.drafts.specs.declared.change.Written.{Written};
ghost use Rattle.dinode_tree.specs.Below.{IsBelow};
ghost use Rattle.dinode_tree.specs.Shown.{IsShown};
ghost use Rattle.table_files.specs.Written.{CanWrite, HasWritten};
ghost use Rattle.table_files.specs.Tables.{CanDouble, doubling_need as need_of, table_blocks as blocks_of, table_height, tree_blocks as all_blocks_of};
ghost use Rattle.table_files.specs.Files.{doubled_dinode, file_dinode};
ghost use Rattle.table_changes.specs.Doubling.{AreDoubledBlocks, IsDoubledTable};
ghost use Rattle.table_files.specs.TreePointers.{IsTableOf};

use crate::putting::put_dinode;
use drafts::{Draft, Written};
use gfs2_layout::Dinode;
use glock_names::{CallFault, Step, View};
use growth_laws::files_are_inodes;
use nested_drafts::are_whole;
use no_memory::NoMemory;
use std::alloc::Global;
use std::collections::VecDeque;
use table_files::{TreeTable, doubling_need, height_for, table_blocks, tree_blocks, write_range};

// The dinode of the file that a table is.
fn file_of(dinode: &Dinode, size: usize, depth: u16) -> Dinode
    requires large { 512 ≤ size }
    requires small { size ≤ 4096 }
    requires low { depth ≤ 15 }
    ensures { result ≡ record dinode.now {
      mode = 33188;
      nlink = 1;
      depth = 0;
      size = (if dinode.now.height == 0 then 0 else blocks_of size (2 ^ depth) * size);
      blocks = 1 + all_blocks_of size dinode.now.height (blocks_of size (2 ^ depth));
    } }
{
    let count = table_blocks(size, 1 << depth);
    let long = if dinode.height == 0 {
        0
    } else {
        count * size as u64
    };
    Dinode {
        mode: 33188,
        nlink: 1,
        depth: 0,
        size: long,
        blocks: 1 + tree_blocks(size, dinode.height, count),
        ..*dinode
    }
}

// The dinode of the directory with its table doubled, so far as this doesn't run over.
fn doubled_of(dinode: &Dinode, size: usize, depth: u16) -> Dinode
    requires large { 512 ≤ size }
    requires small { size ≤ 4096 }
    requires low { depth < 15 }
    ensures { dinode.now.blocks + need_of size dinode.now.height (2 ^ depth) < 2 ^ 64 → result ≡ record dinode.now {
      depth = depth + 1;
      size = 2 * (8 * 2 ^ depth);
      height = table_height size dinode.now.height (2 * 2 ^ depth);
      blocks = dinode.now.blocks + need_of size dinode.now.height (2 ^ depth);
    } }
{
    let count = 2u64 << depth;
    let need = doubling_need(size, dinode.height, depth);
    Dinode {
        depth: depth + 1,
        size: 8 * count,
        height: height_for(size, dinode.height, table_blocks(size, count) * size as u64),
        blocks: dinode.blocks.wrapping_add(need),
        ..*dinode
    }
}

// Writes the blocks of a table as content of the file that it is. False where that isn't done.
fn write_table<V: View>(
    alloc: Global,
    draft: &mut Draft<'_, V>,
    directory: u64,
    bytes: &[u8],
    room: &mut VecDeque<u64>,
) -> Result<bool, NoMemory>
    requires { length bytes.now ≤ file_limit }
    ensures view { draft.new.view ≡ draft.old.view }
    ensures written { (h : Holding) → IsShown (seen_in V.seen draft.old) directory h → CanWrite h 0 (length bytes.now) room.old.items → ((b : ℕ) → IsBelow h b → HasBlock (seen_in V.seen draft.old) b) → HasBlock (seen_in V.seen draft.old) directory
        → IfOk result (λ done. (done ≡ true) × HasWritten (seen_in V.seen draft.new) draft.old.fates draft.new.fates room.old.items room.new.items h 0 bytes.now) }
{
    files_are_inodes();
    match write_range(alloc, draft, directory, 0, bytes, room) {
        Ok(Step::Is(done)) => Ok(done),
        Ok(Step::NeedBlock(_)) => Ok(false),
        Err(CallFault::Damaged { .. }) => Ok(false),
        Err(CallFault::NoMemory) => Err(NoMemory),
    }
}

/// The blocks that make of a directory one whose table is doubled, with these bytes in its blocks; none where the room isn't enough, or the
/// view doesn't show a sound directory. It takes what it needs from the front of the room, and changes the room in part where there is no
/// answer. For the time of the change the table is a regular file of whole blocks, in a draft of its own.
pub(crate) fn doubled_blocks<V: View>(
    alloc: Global,
    view: &V,
    table: TreeTable,
    dinode: &Dinode,
    bytes: &[u8],
    room: &mut VecDeque<u64>,
) -> Result<Option<Vec<Written>>, NoMemory>
    requires short { length bytes.now ≤ file_limit }
    requires there { HasBlock (V.seen view.now) table.directory }
    requires low { table.depth < 15 }
    ensures doubled { (h : Holding) → IsTableOf table (V.seen view.now) h → dinode.now ≡ dinode_in h → IsDoubledTable h bytes.now → ((b : ℕ) → IsBelow h b → HasBlock (V.seen view.now) b) → CanDouble h room.old.items
        → IfOk result (λ blocks. IsSomeAnd blocks (λ ws. AreDoubledBlocks h room.old.items room.new.items ws.items)) }
    ensures whole { IfOk result (λ blocks. IfSome blocks (λ ws. (w : Written) → Contains ws.items w → length w.bytes ≡ (V.seen view.now).size)) }
{
    let size = view.block_size() as usize;
    let mut draft = Draft::new(alloc, view);
    let file = file_of(dinode, size, table.depth);
    let as_file = put_dinode(&mut draft, table.directory, &file)?;
    if !as_file {
        return Ok(None);
    }
    let written = write_table(alloc, &mut draft, table.directory, bytes, room)?;
    if !written {
        return Ok(None);
    }
    let doubled = doubled_of(dinode, size, table.depth);
    let as_directory = put_dinode(&mut draft, table.directory, &doubled)?;
    if !as_directory {
        return Ok(None);
    }
    let change = draft.finish()?;
    if !are_whole(&change.blocks, size) {
        return Ok(None);
    }
    Ok(Some(change.blocks))
}
