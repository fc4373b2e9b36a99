// How many blocks a doubling takes.
ghost use Rattle.std.specs.Prelude.{ℕ, ◌≡◌, ◌+◌, ◌-◌, ◌*◌, ◌^◌, ◌<◌, ◌≤◌};
ghost use Rattle.gfs2_layout.specs.Inode.{pieces, span as span_of};
ghost use Rattle.table_growth.specs.Tables.{doubling_need as need_of, table_blocks as blocks_of, tree_blocks as all_blocks_of};

use file_growth::{height_for, span};

// Where the pointers of a table block begin.
const IN_TABLE: usize = 24;

// How many blocks of a level stand below a dinode whose content takes so many blocks.
fn level_blocks(size: usize, level: u16, count: u64) -> u64
    requires large { 512 ≤ size }
    requires few { count < 2 ^ 32 }
    ensures value { result ≡ pieces count (span_of size level) }
    ensures most { result ≤ count }
{
    match span(size, level) {
        Some(span) => count.div_ceil(span),
        None => count.min(1),
    }
}

/// How many blocks stand below a dinode of this height whose content takes so many blocks of `size` bytes, none of them a hole.
pub fn tree_blocks(size: usize, height: u16, count: u64) -> u64
    requires large { 512 ≤ size }
    requires few { count < 2 ^ 32 }
    ensures value { result ≡ all_blocks_of size height count }
    ensures most { result ≤ height * count }
{
    let mut all = 0;
    for level in 0..height {
        all += level_blocks(size, level, count);
    }
    all
}

/// How many table blocks of `size` bytes a table of so many pointers takes.
pub fn table_blocks(size: usize, count: u64) -> u64
    requires large { 512 ≤ size }
    requires small { size ≤ 4096 }
    requires few { count ≤ 2 ^ 16 }
    ensures value { result ≡ blocks_of size count }
    ensures most { result ≤ 2 ^ 19 }
{
    (8 * count).div_ceil((size - IN_TABLE) as u64)
}

/// How many blocks a table takes to be doubled that has this depth and stands below a dinode of this height, or behind it at height 0, in
/// blocks of `size` bytes. It costs a few steps for each level.
pub fn doubling_need(size: usize, height: u16, depth: u16) -> u64
    requires large { 512 ≤ size }
    requires small { size ≤ 4096 }
    requires shallow { depth < 15 }
    ensures value { result ≡ need_of size height (2 ^ depth) }
    ensures most { result ≤ 2 ^ 35 }
{
    let count = 1u64 << depth;
    let old = table_blocks(size, count);
    let new = table_blocks(size, 2 * count);
    let to = height_for(size, height, new * size as u64);
    tree_blocks(size, to, new).saturating_sub(tree_blocks(size, height, old))
}
