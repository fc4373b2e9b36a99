// How many blocks a name takes whose chain has one leaf: the steps of an insertion, on a copy of the records of that leaf.
ghost use Rattle.std.specs.Prelude.{◌≡◌, ◌+◌, ◌-◌, ◌*◌, ◌^◌, ◌<◌, ◌≤◌, ◌==◌, if◌then◌else◌, true, IsTrue, ◌↔◌, length, IfOk};
ghost use Rattle.gfs2_layout.specs.Area.{IsArea, slots_of};
ghost use Rattle.gfs2_layout.specs.Inode.{leaf_length};
ghost use Rattle.leaf_areas.specs.Splitting.{bit_at, lower_half, upper_half};
ghost use Rattle.table_changes.specs.Tables.{table_height};
ghost use Rattle.hash_inserts.specs.Needing.{Needs};
ghost use Rattle.hash_inserts.specs.Counting.{chain_with};

use crate::walking::area_has_room;
use hash_steps::IN_LEAF;
use leaf_areas::split_area;
use no_memory::NoMemory;
use std::alloc::Global;
use table_changes::{doubling_need, height_for, table_blocks};

/// What an insertion finds of a chain with one leaf: how high the dinode is, and how deep the table and the leaf are.
#[derive(Clone, Copy)]
pub(crate) struct OneLeaf {
    pub height: u16,
    pub table: u16,
    pub depth: u16,
}

// Whether a hash belongs to the lower half of a leaf of this depth.
fn is_low(hash: u32, depth: u16) -> bool
    ensures { result ≡ (bit_at depth hash == 0) }
{
    let place = 31u16.saturating_sub(depth);
    (hash >> u32::from(place)) % 2 == 0
}

// The records of the half of a leaf to which a hash belongs.
fn half_for(alloc: Global, mut area: Vec<u8>, depth: u16, hash: u32) -> Result<Vec<u8>, NoMemory>
    requires filled { IsArea area.items }
    requires some { 40 ≤ length area.items }
    requires short { length area.items < 2 ^ 16 }
    requires low { depth ≤ 31 }
    ensures slots { IfOk result (λ half. slots_of half.items ≡ (if bit_at depth hash == 0 then lower_half (length area.items) depth (slots_of area.items) else upper_half depth (slots_of area.items))) }
    ensures filled { IfOk result (λ half. IsArea half.items) }
    ensures size { IfOk result (λ half. length half.items ≡ length area.items) }
{
    let mut lower = vec![in alloc; 0u8; area.len()]?;
    split_area(&mut area, &mut lower, depth);
    if is_low(hash, depth) {
        Ok(lower)
    } else {
        Ok(area)
    }
}

// The same once the table is doubled.
fn doubled(size: usize, one: &OneLeaf) -> OneLeaf
    requires large { 512 ≤ size }
    requires small { size ≤ 4096 }
    requires shallow { one.now.table < 15 }
    ensures { result ≡ record one.now { table = one.now.table + 1; height = table_height size one.now.height (2 * 2 ^ one.now.table) } }
{
    let blocks = table_blocks(size, 2 << one.table);
    OneLeaf {
        height: height_for(size, one.height, blocks * size as u64),
        table: one.table + 1,
        depth: one.depth,
    }
}

/// Whether a table of this depth may be doubled.
pub(crate) fn may_double(size: usize, table: u16) -> bool
    requires small { size ≤ 4096 }
    requires shallow { table ≤ 15 }
    ensures { IsTrue result ↔ (2 * 2 ^ table ≤ 8 * size) }
{
    (2u64 << table) <= 8 * size as u64
}

// The blocks that are counted from here on.
fn count_from(
    alloc: Global,
    one: OneLeaf,
    area: Vec<u8>,
    len: u16,
    hash: u32,
) -> Result<u64, NoMemory>
    requires filled { IsArea area.items }
    requires large { 408 ≤ length area.items }
    requires small { length area.items ≤ 3992 }
    requires shallow { one.table ≤ 15 }
    requires within { one.depth ≤ one.table }
    requires len { len ≤ 255 }
    ensures needs { IfOk result (Needs len hash (chain_with (length area.items + leaf_length) one (slots_of area.items))) }
    ensures most { IfOk result (λ n. n + (one.depth + one.table) * 2 ^ 36 ≤ 31 * 2 ^ 36) }
{
    let size = area.len() + IN_LEAF;
    if area_has_room(&area, len) {
        return Ok(0);
    }
    if one.depth < one.table {
        let half = half_for(alloc, area, one.depth, hash)?;
        let split = OneLeaf {
            depth: one.depth + 1,
            ..one
        };
        let rest = count_from(alloc, split, half, len, hash)?;
        return Ok(rest + 1);
    }
    if may_double(size, one.table) {
        let need = doubling_need(size, one.height, one.table);
        let rest = count_from(alloc, doubled(size, &one), area, len, hash)?;
        return Ok(rest + need);
    }
    Ok(1)
}

/// How many blocks a name of this length and hash takes, whose chain has one leaf with these records: none where that has room; else one for
/// each split, what each doubling of the table takes, and one for an overflow leaf. It costs a copy of the records, and a split of such a copy
/// for each split of the leaf.
pub(crate) fn count_needs(
    alloc: Global,
    one: OneLeaf,
    area: &[u8],
    len: u16,
    hash: u32,
) -> Result<u64, NoMemory>
    requires filled { IsArea area.now }
    requires large { 408 ≤ length area.now }
    requires small { length area.now ≤ 3992 }
    requires shallow { one.table ≤ 15 }
    requires within { one.depth ≤ one.table }
    requires len { len ≤ 255 }
    ensures needs { IfOk result (Needs len hash (chain_with (length area.now + leaf_length) one (slots_of area.now))) }
    ensures most { IfOk result (λ n. n ≤ 2 ^ 41) }
{
    let copy = Vec::from_slice(alloc, area)?;
    count_from(alloc, one, copy, len, hash)
}
