// How many blocks a name takes that comes into a directory.
ghost use Rattle.std.specs.Prelude.{ℕ, List, ◌≡◌, ◌^◌, ◌<◌, ◌≤◌, false, true, None, length, IfOk};
ghost use Rattle.gfs2_layout.specs.Holding.{Holding};
ghost use Rattle.gfs2_layout.specs.Inode.{is_directory_in, is_hashed_in};
ghost use Rattle.glock_names.specs.Steps.{IfIs, IfNeedBlock, IfDamaged, OnlyDamaged};
ghost use Rattle.glock_names.specs.Views.{HasBlock, IsOfView};
ghost use Rattle.linear_dirs.specs.Broken as linear;
ghost use Rattle.linear_dirs.specs.Shown.{IsLinearIn};
ghost use Rattle.dinode_tree.specs.Walking.{missing_dinode};
ghost use Rattle.dinode_tree.specs.Shown as inode;
ghost use Rattle.directories.specs.Shown.{IsDirectoryIn, IsShown};
ghost use Rattle.hash_inserts.specs.Shown.{IsSound};
ghost use Rattle.hash_inserts.specs.Needing.{SeesToInsert, TakesBlocks};
ghost use Rattle.name_inserts.specs.Need.{has_linear_room, need_in_hashed, need_in_linear, name_need};
ghost use Rattle.name_inserts.specs.Inserting.{IsNeededForName, IsWrongForName, SeesForName};

use crc_words::checksums_have_32_bits;
use dinode_tree::read_dinode;
use directories::{TreeTable, is_hashed};
use gfs2_layout::{DINODE_LENGTH, is_area};
use glock_names::{CallFault, Step, View, block_of};
use hash_inserts::{area_has_room, need_first, need_insert};
use std::alloc::Global;

// Whether some record behind the dinode of a linear directory, which the view has, has room for a name of so many bytes.
fn has_room<V: View>(view: &V, dir: u64, len: u16) -> Result<bool, CallFault>
    requires there { HasBlock (V.seen view.now) dir }
    ensures room { (h : Holding) (name : List ℕ) → inode.IsShown (V.seen view.now) dir h → length name ≡ len → IfOk result (λ fits. fits ≡ has_linear_room h name) }
    ensures damaged { (h : Holding) → inode.IsShown (V.seen view.now) dir h → OnlyDamaged result (linear.IsBroken h) }
    ensures kept { OnlyDamaged result (IsOfView (V.seen view.now)) }
{
    let Some(bytes) = block_of(view, dir) else {
        unreachable!()
    };
    let area = &bytes[DINODE_LENGTH..];
    if !is_area(area) {
        return Err(CallFault::Damaged {
            block: dir,
            rule: 9,
        });
    }
    Ok(area_has_room(area, len))
}

// The same of a linear directory, which the view has.
fn need_in_linear<V: View>(
    alloc: Global,
    view: &V,
    dir: u64,
    name: &[u8],
) -> Result<Step<u64>, CallFault>
    requires there { HasBlock (V.seen view.now) dir }
    requires linear { IsLinearIn (V.seen view.now) dir }
    requires some { 1 ≤ length name.now }
    requires short { length name.now ≤ 255 }
    ensures need { (h : Holding) → inode.IsShown (V.seen view.now) dir h → IfIs result (λ need. need ≡ need_in_linear h name.now) }
    ensures most { IfIs result (λ n. n < 2 ^ 42) }
    ensures needed { IfNeedBlock result (λ missing. missing ≡ missing_dinode dir) }
    ensures absent { IfNeedBlock result (λ missing. (V.seen view.now).block_at dir ≡ None) }
    ensures damaged { (h : Holding) → inode.IsShown (V.seen view.now) dir h → IfDamaged result (linear.IsBroken h) }
    ensures kept { IfDamaged result (IsOfView (V.seen view.now)) }
{
    let _size = view.block_size();
    let fits = has_room(view, dir, name.len() as u16)?;
    if fits {
        return Ok(Step::Is(0));
    }
    need_first(alloc, view, dir, name)
}

// The same of a hashed directory.
fn need_in_hashed<V: View>(
    alloc: Global,
    view: &V,
    dir: u64,
    name: &[u8],
) -> Result<Step<u64>, CallFault>
    requires some { 1 ≤ length name.now }
    requires short { length name.now ≤ 255 }
    ensures need { (h : Holding) → IsShown (V.seen view.now) dir h → is_hashed_in h ≡ true → IsSound h → IfIs result (λ need. need ≡ need_in_hashed h name.now) }
    ensures takes { (h : Holding) → IsShown (V.seen view.now) dir h → is_hashed_in h ≡ true → IfIs result (TakesBlocks h name.now) }
    ensures most { IfIs result (λ n. n < 2 ^ 42) }
    ensures seen { (h : Holding) → IsShown (V.seen view.now) dir h → is_hashed_in h ≡ true → IfIs result (λ need. SeesToInsert (V.seen view.now) h name.now) }
    ensures needed { (h : Holding) → IsShown (V.seen view.now) dir h → is_hashed_in h ≡ true → IfNeedBlock result (IsNeededForName (V.seen view.now) h name.now) }
    ensures absent { IfNeedBlock result (λ missing. (V.seen view.now).block_at missing.block ≡ None) }
    ensures damaged { (h : Holding) → IsShown (V.seen view.now) dir h → is_hashed_in h ≡ true → IfDamaged result (IsWrongForName (V.seen view.now) h) }
    ensures kept { IfDamaged result (IsOfView (V.seen view.now)) }
{
    checksums_have_32_bits();
    let table = match TreeTable::of(view, dir)? {
        Step::Is(table) => table,
        Step::NeedBlock(missing) => return Ok(Step::NeedBlock(missing)),
    };
    need_insert(alloc, view, dir, name, &table)
}

/// How many blocks a name takes that isn't in the directory with its dinode in this block, by what stands there, be it right or wrong: none where
/// a record has room for it, of a hashed one in a leaf of its chain; else what `put_name` takes from its room. Of a linear directory it goes over the records twice, and where none has
/// room it changes a copy of them; of a hashed one it looks along the whole chain of the name, and where its one leaf has no room at every
/// block of the table, and changes a copy of that leaf's records.
pub fn need_name<V: View>(
    alloc: Global,
    view: &V,
    dir: u64,
    name: &[u8],
) -> Result<Step<u64>, CallFault>
    requires directory { IsDirectoryIn (V.seen view.now) dir }
    requires some { 1 ≤ length name.now }
    requires short { length name.now ≤ 255 }
    ensures need { (h : Holding) → IsShown (V.seen view.now) dir h → IsSound h → is_directory_in h ≡ true → IfIs result (λ need. need ≡ name_need h name.now) }
    ensures linear { (h : Holding) → IsShown (V.seen view.now) dir h → is_hashed_in h ≡ false → IfIs result (λ need. need ≡ need_in_linear h name.now) }
    ensures hashed { (h : Holding) → IsShown (V.seen view.now) dir h → is_hashed_in h ≡ true → IfIs result (TakesBlocks h name.now) }
    ensures most { IfIs result (λ n. n < 2 ^ 42) }
    ensures seen { (h : Holding) → IsShown (V.seen view.now) dir h → IfIs result (λ need. SeesForName (V.seen view.now) h name.now) }
    ensures needed { (h : Holding) → IsShown (V.seen view.now) dir h → IfNeedBlock result (IsNeededForName (V.seen view.now) h name.now) }
    ensures absent { IfNeedBlock result (λ missing. (V.seen view.now).block_at missing.block ≡ None) }
    ensures damaged { (h : Holding) → IsShown (V.seen view.now) dir h → IfDamaged result (IsWrongForName (V.seen view.now) h) }
    ensures kept { IfDamaged result (IsOfView (V.seen view.now)) }
{
    let dinode = match read_dinode(view, dir)? {
        Step::Is(dinode) => dinode,
        Step::NeedBlock(missing) => return Ok(Step::NeedBlock(missing)),
    };
    if is_hashed(&dinode) {
        return need_in_hashed(alloc, view, dir, name);
    }
    need_in_linear(alloc, view, dir, name)
}
