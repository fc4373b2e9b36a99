// Where neighbouring pointers of a table stand.
ghost use Rattle.std.specs.Prelude.{ℕ, List, ◌≡◌, ◌+◌, ◌-◌, ◌*◌, ◌/◌, ◌%◌, ◌^◌, ◌<◌, ◌≤◌, false, None, Some, Contains, IfOk};
ghost use Rattle.gfs2_layout.specs.Device.{IsBlockSize};
ghost use Rattle.gfs2_layout.specs.Headers.{HasHeader};
ghost use Rattle.gfs2_layout.specs.Holding.{Holding};
ghost use Rattle.gfs2_layout.specs.Inode.{header_length, unit};
ghost use Rattle.gfs2_layout.specs.Structures.{dinode_length};
ghost use Rattle.glock_names.specs.Steps.{IfDamaged, IfIs, IfNeedBlock, OnlyDamaged};
ghost use Rattle.glock_names.specs.Views.{HasBlock, IsOfView};
ghost use Rattle.dinode_tree.specs.Reading.{IsNeeded, inode_lock};
ghost use Rattle.table_files.specs.Pointers.{IsOfPointers, IsTableBroken};
ghost use Rattle.table_files.specs.TreePointers.{IsTableOf};
ghost use Rattle.table_changes.specs.Setting.{AreRuns, IsRun, IsSeenRun, counted};

use dinode_tree::{Located, all_blocks_are_shown, locate, read_dinode};
use gfs2_layout::{DINODE_LENGTH, has_header};
use glock_names::{CallFault, Missing, Step, View, block_of};
use linear_dirs::lock_of;
use std::alloc::Global;
use table_files::{IN_TABLE, TreeTable, damaged};

/// Neighbouring pointers of a table that stand in one block: from which byte of it on, and how many.
#[derive(Clone, Copy)]
pub(crate) struct Run {
    pub block: u64,
    pub start: usize,
    pub count: usize,
}

// The pointers behind a dinode from an index on, so many.
fn stuffed_run(size: usize, directory: u64, index: usize, count: usize) -> Result<Run, CallFault>
    requires few { index + count ≤ 2 ^ 32 }
    ensures block { IfOk result (λ run. run.block ≡ directory) }
    ensures start { IfOk result (λ run. run.start ≡ dinode_length + 8 * index) }
    ensures count { IfOk result (λ run. run.count ≡ count) }
    ensures fits { IfOk result (λ run. run.start + 8 * run.count ≤ size) }
    ensures damaged { OnlyDamaged result (λ rule block. (rule ≡ 8) × (block ≡ directory) × (size < dinode_length + 8 * (index + count))) }
{
    if size < DINODE_LENGTH + 8 * (index + count) {
        return Err(damaged(directory, 8));
    }
    Ok(Run {
        block: directory,
        start: DINODE_LENGTH + 8 * index,
        count,
    })
}

// The pointers in a table block, so far behind its header, and at most so many.
fn table_run<V: View>(
    view: &V,
    directory: u64,
    located: &Located,
    offset: usize,
    most: usize,
) -> Result<Step<Run>, CallFault>
    requires room { IsBlockSize (V.seen view.now).size → offset + 8 ≤ (V.seen view.now).size - header_length }
    requires some { 1 ≤ most }
    ensures block { IfIs result (λ run. run.block ≡ located.now.block) }
    ensures start { IfIs result (λ run. run.start ≡ header_length + offset) }
    ensures some { IfIs result (λ run. 1 ≤ run.count) }
    ensures most { IfIs result (λ run. run.count ≤ most) }
    ensures fits { IfIs result (λ run. run.start + 8 * run.count ≤ (V.seen view.now).size) }
    ensures within { IfIs result (λ run. offset + 8 * run.count ≤ (V.seen view.now).size - header_length) }
    ensures there { IfIs result (λ run. HasBlock (V.seen view.now) located.now.block) }
    ensures headed { (bytes : List ℕ) → (V.seen view.now).block_at located.now.block ≡ Some bytes → IfIs result (λ run. HasHeader 7 700 bytes) }
    ensures needed { IfNeedBlock result (λ missing. missing ≡ record { lock = inode_lock directory; block = located.now.block; plain = false; from = located.now.from }) }
    ensures absent { IfNeedBlock result (λ missing. (V.seen view.now).block_at located.now.block ≡ None) }
    ensures damaged { OnlyDamaged result (λ rule block. (rule ≡ 1) × (block ≡ located.now.block) × ((bytes : List ℕ) × ((V.seen view.now).block_at located.now.block ≡ Some bytes) × ¬ (HasHeader 7 700 bytes))) }
{
    let Some(bytes) = block_of(view, located.block) else {
        return Ok(Step::NeedBlock(Missing {
            lock: lock_of(directory),
            block: located.block,
            plain: false,
            from: located.from,
        }));
    };
    if !has_header(bytes, 7, 700) {
        return Err(damaged(located.block, 1));
    }
    let start = IN_TABLE + offset;
    Ok(Step::Is(Run {
        block: located.block,
        start,
        count: most.min((bytes.len() - start) / 8),
    }))
}

/// The pointers of a table from an index on that stand in one block, and at most so many. It asks for blocks of the inode on the way there.
/// It costs a look at each of them, and no memory.
pub(crate) fn find_run<V: View>(
    view: &V,
    table: TreeTable,
    index: usize,
    most: usize,
) -> Result<Step<Run>, CallFault>
    requires some { 1 ≤ most }
    requires few { index + most ≤ 2 ^ table.depth }
    ensures found { (h : Holding) → IsTableOf table (V.seen view.now) h → IfIs result (IsRun h index most) }
    ensures some { IfIs result (λ run. 1 ≤ run.count) }
    ensures most { IfIs result (λ run. run.count ≤ most) }
    ensures seen { IfIs result (IsSeenRun (V.seen view.now)) }
    ensures needed { (h : Holding) → IsTableOf table (V.seen view.now) h → IfNeedBlock result (IsNeeded (V.seen view.now) h (λ k. k ≡ 8 * index / unit h) 0) }
    ensures absent { IfNeedBlock result (λ missing. (V.seen view.now).block_at missing.block ≡ None) }
    ensures damaged { (h : Holding) → IsTableOf table (V.seen view.now) h → OnlyDamaged result (IsTableBroken h) }
    ensures kept { OnlyDamaged result (IsOfView (V.seen view.now)) }
{
    all_blocks_are_shown();
    let dinode = match read_dinode(view, table.directory)? {
        Step::Is(dinode) => dinode,
        Step::NeedBlock(missing) => return Ok(Step::NeedBlock(missing)),
    };
    let size = view.block_size() as usize;
    if dinode.height == 0 {
        let run = stuffed_run(size, table.directory, index, most)?;
        return Ok(Step::Is(run));
    }
    let at = 8 * index as u64;
    let carries = (size - IN_TABLE) as u64;
    match locate(view, table.directory, at / carries)? {
        Step::Is(Some(located)) => table_run(
            view,
            table.directory,
            &located,
            (at % carries) as usize,
            most,
        ),
        Step::Is(None) => Err(damaged(table.directory, 14)),
        Step::NeedBlock(missing) => Ok(Step::NeedBlock(missing)),
    }
}

/// So many neighbouring pointers of a table from an index on, run by run. A pointer in a hole of the table is damage. It asks for blocks of
/// the inode on the way to them. It costs a walk to each block that has some of them, and memory for what it tells.
pub(crate) fn find_runs<V: View>(
    alloc: Global,
    view: &V,
    table: TreeTable,
    from: usize,
    count: usize,
) -> Result<Step<Vec<Run>>, CallFault>
    requires few { from + count ≤ 2 ^ table.depth }
    ensures found { (h : Holding) → IsTableOf table (V.seen view.now) h → IfIs result (λ runs. AreRuns h from runs.items) }
    ensures all { IfIs result (λ runs. counted runs.items ≡ count) }
    ensures seen { IfIs result (λ runs. (run : Run) → Contains runs.items run → IsSeenRun (V.seen view.now) run) }
    ensures needed { (h : Holding) → IsTableOf table (V.seen view.now) h → IfNeedBlock result (IsNeeded (V.seen view.now) h (IsOfPointers h from count) 0) }
    ensures absent { IfNeedBlock result (λ missing. (V.seen view.now).block_at missing.block ≡ None) }
    ensures damaged { (h : Holding) → IsTableOf table (V.seen view.now) h → IfDamaged result (IsTableBroken h) }
    ensures kept { IfDamaged result (IsOfView (V.seen view.now)) }
{
    let mut runs = Vec::new(alloc);
    let mut done = 0;
    while done < count {
        match find_run(view, table, from + done, count - done)? {
            Step::Is(run) => {
                done += run.count;
                runs.push(run)?;
            }
            Step::NeedBlock(missing) => return Ok(Step::NeedBlock(missing)),
        }
    }
    Ok(Step::Is(runs))
}
