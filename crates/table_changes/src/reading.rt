// What is read of a table before it is doubled.
ghost use Rattle.std.specs.Prelude.{ℕ, List, ◌≡◌, ◌≢◌, ◌↔◌, ◌+◌, ◌-◌, ◌*◌, ◌/◌, ◌%◌, ◌^◌, ◌<◌, ◌≤◌, false, None, Contains, length, take, IfNone, IfSome, Some};
ghost use Rattle.gfs2_layout.specs.Bytes.{slice};
ghost use Rattle.gfs2_layout.specs.Holding.{Holding, bytes_at};
ghost use Rattle.gfs2_layout.specs.Inode.{content_block, content_count, dinode_in, height_in};
ghost use Rattle.gfs2_layout.specs.Structures.{is_regular};
ghost use Rattle.glock_names.specs.Steps.{IfDamaged, IfIs, IfNeedBlock};
ghost use Rattle.glock_names.specs.Views.{HasBlock, IsOfView};
ghost use Rattle.dinode_tree.specs.Below.{AnyIndex, IsBelow, TellsOfBlock};
ghost use Rattle.dinode_tree.specs.Broken as inode;
ghost use Rattle.dinode_tree.specs.Reading.{IsNeeded, inode_lock};
ghost use Rattle.dinode_tree.specs.declared.below.PointedBlock.{PointedBlock};
ghost use Rattle.dinode_tree.specs.Shown.{IsShown};
ghost use Rattle.file_tree.specs.Apply.{file_limit};
ghost use Rattle.pointer_tables.specs.Directories.{IsTreeSound};
ghost use Rattle.table_files.specs.Pointers.{IsTableBroken};
ghost use Rattle.table_files.specs.Files.{AreHeadersOf};
ghost use Rattle.table_files.specs.TreePointers.{IsTableOf};
ghost use Rattle.table_changes.specs.Doubling.{IsDoubledTable};

use crate::doubling::{each_twice, table_bytes};
use crate::finding::find_run;
use dinode_tree::{PointedBlock, all_blocks_are_shown, blocks_below, read_range};
use glock_names::{CallFault, Missing, Step, View, block_of};
use linear_dirs::lock_of;
use std::alloc::Global;
use table_files::{IN_TABLE, TreeTable, pointers_of, table_blocks};

// The first of these blocks that the view hasn't.
fn first_missing<V: View>(view: &V, directory: u64, blocks: &[PointedBlock]) -> Option<Missing>
    ensures seen { IfNone result ((p : PointedBlock) → Contains blocks.now p → HasBlock (V.seen view.now) p.block) }
    ensures missing { IfSome result (λ missing. (p : PointedBlock) × Contains blocks.now p × (missing ≡ record { lock = inode_lock directory; block = p.block; plain = false; from = p.from }) × ((V.seen view.now).block_at p.block ≡ None)) }
{
    for pointed in blocks {
        let Some(_bytes) = block_of(view, pointed.block) else {
            return Some(Missing {
                lock: lock_of(directory),
                block: pointed.block,
                plain: false,
                from: pointed.from,
            });
        };
    }
    None
}

/// The blocks below an inode that is no regular file, each of which it looks at.
pub(crate) fn see_below<V: View>(
    alloc: Global,
    view: &V,
    directory: u64,
) -> Result<Step<Vec<PointedBlock>>, CallFault>
    ensures below { (h : Holding) → IsShown (V.seen view.now) directory h → IfIs result (λ blocks. (b : ℕ) → TellsOfBlock blocks.items b ↔ IsBelow h b) }
    ensures seen { (h : Holding) → IsShown (V.seen view.now) directory h → IfIs result (λ blocks. (b : ℕ) → IsBelow h b → HasBlock (V.seen view.now) b) }
    ensures needed { (h : Holding) → IsShown (V.seen view.now) directory h → is_regular (dinode_in h) ≡ false → IfNeedBlock result (IsNeeded (V.seen view.now) h AnyIndex 0) }
    ensures absent { IfNeedBlock result (λ missing. (V.seen view.now).block_at missing.block ≡ None) }
    ensures damaged { (h : Holding) → IsShown (V.seen view.now) directory h → IfDamaged result (inode.IsBroken h) }
    ensures kept { IfDamaged result (IsOfView (V.seen view.now)) }
{
    all_blocks_are_shown();
    let _size = view.block_size();
    let blocks = match blocks_below(alloc, view, directory)? {
        Step::Is(blocks) => blocks,
        Step::NeedBlock(missing) => return Ok(Step::NeedBlock(missing)),
    };
    match first_missing(view, directory, &blocks) {
        Some(missing) => Ok(Step::NeedBlock(missing)),
        None => Ok(Step::Is(blocks)),
    }
}

// The headers of so many table blocks, one behind another.
fn read_headers<V: View>(
    alloc: Global,
    view: &V,
    table: TreeTable,
    words: usize,
    count: usize,
) -> Result<Step<Vec<u8>>, CallFault>
    requires few { (j : ℕ) → j < count → j * words < 2 ^ table.depth }
    requires words { (V.seen view.now).size - 24 ≡ 8 * words }
    ensures long { IfIs result (λ headers. length headers.items ≡ count * 24) }
    ensures each { (h : Holding) → IsTableOf table (V.seen view.now) h → IsTreeSound h → height_in h ≢ 0 → IfIs result (λ headers. (j : ℕ) → j < count → slice (j * 24) 24 headers.items ≡ take 24 (bytes_at h (content_block h j))) }
    ensures needed { (h : Holding) → IsTableOf table (V.seen view.now) h → IfNeedBlock result (IsNeeded (V.seen view.now) h AnyIndex 0) }
    ensures absent { IfNeedBlock result (λ missing. (V.seen view.now).block_at missing.block ≡ None) }
    ensures damaged { (h : Holding) → IsTableOf table (V.seen view.now) h → IfDamaged result (IsTableBroken h) }
    ensures kept { IfDamaged result (IsOfView (V.seen view.now)) }
{
    let mut headers = Vec::new(alloc);
    for index in 0..count {
        let run = match find_run(view, table, index * words, 1)? {
            Step::Is(run) => run,
            Step::NeedBlock(missing) => return Ok(Step::NeedBlock(missing)),
        };
        let Some(bytes) = block_of(view, run.block) else {
            unreachable!()
        };
        headers.extend_from_slice(&bytes[0..IN_TABLE])?;
    }
    Ok(Step::Is(headers))
}

// The headers of a table's blocks; none of one that stands behind its dinode.
fn headers_of<V: View>(
    alloc: Global,
    view: &V,
    table: TreeTable,
    height: u16,
) -> Result<Step<Vec<u8>>, CallFault>
    ensures whole { IfIs result (λ headers. length headers.items % 24 ≡ 0) }
    ensures are { (h : Holding) → IsTableOf table (V.seen view.now) h → IsTreeSound h → height ≡ height_in h → IfIs result (λ headers. AreHeadersOf h headers.items) }
    ensures needed { (h : Holding) → IsTableOf table (V.seen view.now) h → IfNeedBlock result (IsNeeded (V.seen view.now) h AnyIndex 0) }
    ensures absent { IfNeedBlock result (λ missing. (V.seen view.now).block_at missing.block ≡ None) }
    ensures damaged { (h : Holding) → IsTableOf table (V.seen view.now) h → IfDamaged result (IsTableBroken h) }
    ensures kept { IfDamaged result (IsOfView (V.seen view.now)) }
{
    if height == 0 {
        return Ok(Step::Is(Vec::new(alloc)));
    }
    let size = view.block_size() as usize;
    let count = table_blocks(size, pointers_of(table.depth));
    read_headers(alloc, view, table, (size - IN_TABLE) / 8, count as usize)
}

/// The blocks of a directory's table that is twice as long, one behind another. It asks for the dinode's block and those below it. It costs
/// a walk to each table block, and memory for the table three times.
pub(crate) fn doubled_table<V: View>(
    alloc: Global,
    view: &V,
    table: TreeTable,
    height: u16,
) -> Result<Step<Vec<u8>>, CallFault>
    requires { table.depth < 15 }
    ensures doubled { (h : Holding) → IsTableOf table (V.seen view.now) h → IsTreeSound h → height ≡ height_in h → IfIs result (λ bytes. IsDoubledTable h bytes.items) }
    ensures short { IfIs result (λ bytes. length bytes.items ≤ file_limit) }
    ensures needed { (h : Holding) → IsTableOf table (V.seen view.now) h → IfNeedBlock result (IsNeeded (V.seen view.now) h AnyIndex 0) }
    ensures absent { IfNeedBlock result (λ missing. (V.seen view.now).block_at missing.block ≡ None) }
    ensures damaged { (h : Holding) → IsTableOf table (V.seen view.now) h → IfDamaged result (IsTableBroken h) }
    ensures kept { IfDamaged result (IsOfView (V.seen view.now)) }
{
    all_blocks_are_shown();
    let long = 8 * pointers_of(table.depth);
    let content = match read_range(alloc, view, table.directory, 0, long as u32)? {
        Step::Is(content) => content,
        Step::NeedBlock(missing) => return Ok(Step::NeedBlock(missing)),
    };
    let headers = match headers_of(alloc, view, table, height)? {
        Step::Is(headers) => headers,
        Step::NeedBlock(missing) => return Ok(Step::NeedBlock(missing)),
    };
    let size = view.block_size() as usize;
    let pointers = each_twice(alloc, &content)?;
    let bytes = table_bytes(alloc, size, &headers, &pointers)?;
    Ok(Step::Is(bytes))
}
