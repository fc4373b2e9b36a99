// The names of a hashed directory.
ghost use Rattle.std.specs.Prelude.{ℕ, ◌≡◌, ◌≢◌, ◌+◌, ◌-◌, ◌*◌, ◌/◌, ◌^◌, ◌<◌, ◌≤◌, ◌++◌, true, None, [], ◌∷◌, Contains, OnOk};
ghost use Rattle.std.specs.List.Sorted.{IsPermutation};
ghost use Rattle.gfs2_layout.specs.Area.{IsArea, Slot, IsShown as IsRecord};
ghost use Rattle.gfs2_layout.specs.Holding.{Holding};
ghost use Rattle.gfs2_layout.specs.Inode.{depth_in, leaf_area, records_of, table_count};
ghost use Rattle.gfs2_layout.specs.Records.{names_of, record_of, records_in};
ghost use Rattle.gfs2_layout.specs.Structures.{is_in_use};
ghost use Rattle.glock_names.specs.Steps.{IfIs, IfNeedBlock, IfDamaged};
ghost use Rattle.glock_names.specs.Views.{HasBlock, IsOfView};
ghost use Rattle.dinode_tree.specs.Shown.{IsAtBlock};
ghost use Rattle.linear_dirs.specs.Reading.{told_in};
ghost use Rattle.hash_dirs.specs.Shown.{IsNeededFor, IsShown, IsSound, LeadsToLeaf};
ghost use Rattle.hash_dirs.specs.Walking.{IsChainListed, OfEach};
ghost use Rattle.hash_dirs.specs.Broken.{IsBroken, IsWrongIn};

use crate::chains::{damaged, leaf_at};
use file_tree::{Name, is_dots, is_name};
use gfs2_layout::{Record, next_record};
use glock_names::{CallFault, Step, View};
use pointer_tables::{Pointer, PointerTable};
use profile_limits::MOST_BLOCKS;
use std::alloc::Global;

// Adds the name of a record in use, unless it is `.` or `..`, of the leaf in this block.
fn add_name(
    alloc: Global,
    names: &mut Vec<Name>,
    held: &Record<'_>,
    block: u64,
) -> Result<(), CallFault>
    ensures added { (s : Slot) → IsRecord held.now.head held.now.name.now s → OnOk result (names.new.items ≡ names.old.items ++ names_of (told_in (s ∷ []))) }
    ensures damaged { (h : Holding) (i from : ℕ) (s : Slot) → IsRecord held.now.head held.now.name.now s → LeadsToLeaf h i from block → block ≢ 0
        → (is_in_use s.head ≡ true → Contains (records_in (leaf_area h block)) (record_of s)) → IfDamaged result (IsBroken h) }
    ensures own { IfDamaged result (IsAtBlock block) }
{
    if !held.head.is_in_use() || is_dots(held.name) {
        return Ok(());
    }
    if !is_name(held.name) {
        return Err(damaged(block, 9));
    }
    let bytes = Vec::from_slice(alloc, held.name)?;
    names.push(Name::new(bytes))?;
    Ok(())
}

// Adds the names of the records of the leaf in this block.
fn add_names(alloc: Global, names: &mut Vec<Name>, area: &[u8], block: u64) -> Result<(), CallFault>
    requires { IsArea area.now }
    ensures added { OnOk result (names.new.items ≡ names.old.items ++ names_of (records_in area.now)) }
    ensures damaged { (h : Holding) (i from : ℕ) → records_in (leaf_area h block) ≡ records_in area.now → LeadsToLeaf h i from block → block ≢ 0 → IfDamaged result (IsBroken h) }
    ensures own { IfDamaged result (IsAtBlock block) }
{
    let mut rest = area;
    while let Some((record, behind)) = next_record(rest) {
        add_name(alloc, names, &record, block)?;
        rest = behind;
    }
    Ok(())
}

// Adds the names of a chain, which begins where a pointer leads, and tells how deep its last leaf is.
fn add_chain<V: View>(
    alloc: Global,
    names: &mut Vec<Name>,
    view: &V,
    dir: u64,
    depth: u16,
    head: &Pointer,
) -> Result<Step<u16>, CallFault>
    requires from { HasBlock (V.seen view.now) head.now.from }
    ensures listed { OfEach (V.seen view.now) dir head.now (λ h i. IfIs result (IsChainListed h i names.old.items names.new.items)) }
    ensures low { IfIs result (λ deep. deep ≤ depth) }
    ensures needed { OfEach (V.seen view.now) dir head.now (λ h i. IfNeedBlock result (IsNeededFor (V.seen view.now) h (λ k. k ≡ i))) }
    ensures absent { IfNeedBlock result (λ missing. (V.seen view.now).block_at missing.block ≡ None) }
    ensures damaged { OfEach (V.seen view.now) dir head.now (λ h i. depth ≡ depth_in h → IfDamaged result (IsWrongIn (V.seen view.now) h)) }
    ensures kept { IfDamaged result (IsOfView (V.seen view.now)) }
{
    let mut link = *head;
    for _place in 0..MOST_BLOCKS {
        let leaf = match leaf_at(view, dir, depth, &link)? {
            Step::Is(leaf) => leaf,
            Step::NeedBlock(missing) => return Ok(Step::NeedBlock(missing)),
        };
        add_names(alloc, names, leaf.area, link.leaf)?;
        if leaf.head.next == 0 {
            return Ok(Step::Is(leaf.head.depth));
        }
        link = Pointer {
            leaf: leaf.head.next,
            from: link.leaf,
        };
    }
    // a chain with more leaves than a device has blocks comes to one of them again
    Err(damaged(link.from, 15))
}

/// How many pointers a table of this depth has.
pub(crate) fn pointers_in(depth: u16) -> u32
    requires { depth ≤ 15 }
    ensures { result ≡ 2 ^ depth }
{
    1 << depth
}

// The first index behind those that share the chain of a leaf of this depth with this one.
fn behind_run(index: u32, table: u16, depth: u16) -> u32
    requires table { table ≤ 15 }
    requires depth { depth ≤ table }
    requires low { index < 2 ^ table }
    ensures value { result ≡ (index / 2 ^ (table - depth) + 1) * 2 ^ (table - depth) }
    ensures more { index < result }
    ensures within { result ≤ 2 ^ table }
{
    let shift = table - depth;
    ((index >> shift) + 1) << shift
}

/// The names of the hashed directory with its dinode in this block but `.` and `..`, by its table: chain after chain in the order of
/// the table, and in each the records in their order. It looks at what `look` looks at, along each chain, and that each name is one. It
/// costs what the table takes for a pointer of each chain, and a step for each record, and takes memory for the names.
pub fn names<V: View, T: PointerTable>(
    alloc: Global,
    view: &V,
    dir: u64,
    table: &T,
) -> Result<Step<Vec<Name>>, CallFault>
    ensures found { (h : Holding) → IsShown (V.seen view.now) dir h → T.shows table.now (V.seen view.now) h → IsSound h
        → IfIs result (λ names. IsPermutation names.items (names_of (records_of h))) }
    ensures needed { (h : Holding) → IsShown (V.seen view.now) dir h → T.shows table.now (V.seen view.now) h → IfNeedBlock result (IsNeededFor (V.seen view.now) h (λ i. i < table_count h)) }
    ensures absent { IfNeedBlock result (λ missing. (V.seen view.now).block_at missing.block ≡ None) }
    ensures damaged { (h : Holding) → IsShown (V.seen view.now) dir h → T.shows table.now (V.seen view.now) h → IfDamaged result (IsWrongIn (V.seen view.now) h) }
    ensures kept { IfDamaged result (IsOfView (V.seen view.now)) }
{
    let depth = table.depth();
    let count = pointers_in(depth);
    let mut names = Vec::new(alloc);
    let mut index = 0;
    while index < count {
        let head = match table.get(view, index)? {
            Step::Is(head) => head,
            Step::NeedBlock(missing) => return Ok(Step::NeedBlock(missing)),
        };
        let deep = match add_chain(alloc, &mut names, view, dir, depth, &head)? {
            Step::Is(deep) => deep,
            Step::NeedBlock(missing) => return Ok(Step::NeedBlock(missing)),
        };
        index = behind_run(index, depth, deep);
    }
    Ok(Step::Is(names))
}
