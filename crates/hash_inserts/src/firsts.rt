// How many blocks a name takes for which a linear directory has no room.
ghost use Rattle.std.specs.Prelude.{◌≡◌, ◌^◌, ◌<◌, ◌≤◌, None, length};
ghost use Rattle.gfs2_layout.specs.Holding.{Holding};
ghost use Rattle.glock_names.specs.Steps.{IfDamaged, IfIs, IfNeedBlock};
ghost use Rattle.glock_names.specs.Views.{HasBlock, IsOfView};
ghost use Rattle.dinode_tree.specs.Shown as inode;
ghost use Rattle.dinode_tree.specs.Walking.{missing_dinode};
ghost use Rattle.linear_dirs.specs.Broken as linear;
ghost use Rattle.linear_dirs.specs.Shown.{IsLinearIn};
ghost use Rattle.hash_inserts.specs.Needing.{TakesBlocksFirst};

use crate::converting::{first_depth, write_first};
use crate::counting::{OneLeaf, count_needs};
use crc_words::crc32;
use gfs2_layout::{DINODE_LENGTH, is_area};
use glock_names::{CallFault, Step, View, block_of};
use hash_steps::{IN_LEAF, damaged};
use linear_dirs::look;
use std::alloc::Global;

/// How many blocks a name takes that isn't in the linear directory with its dinode in this block, and for which it has no room: a leaf, and
/// what `insert` takes once the directory is a hashed one. It looks at what a linear directory's `look` looks at, and changes a copy of the
/// records as `to_hashed` and splits would. It takes memory for three blocks, and costs a few steps for each record and each split.
pub fn need_first<V: View>(
    alloc: Global,
    view: &V,
    dir: u64,
    name: &[u8],
) -> Result<Step<u64>, CallFault>
    requires linear { IsLinearIn (V.seen view.now) dir }
    requires some { 1 ≤ length name.now }
    requires short { length name.now ≤ 255 }
    ensures need { (h : Holding) → inode.IsShown (V.seen view.now) dir h → IfIs result (TakesBlocksFirst h name.now) }
    ensures most { IfIs result (λ n. n < 2 ^ 42) }
    ensures there { IfIs result (λ n. HasBlock (V.seen view.now) dir) }
    ensures needed { IfNeedBlock result (λ missing. missing ≡ missing_dinode dir) }
    ensures absent { IfNeedBlock result (λ missing. (V.seen view.now).block_at dir ≡ None) }
    ensures damaged { (h : Holding) → inode.IsShown (V.seen view.now) dir h → IfDamaged result (linear.IsBroken h) }
    ensures kept { IfDamaged result (IsOfView (V.seen view.now)) }
{
    if let Step::NeedBlock(missing) = look(view, dir, name)? {
        return Ok(Step::NeedBlock(missing));
    }
    let Some(bytes) = block_of(view, dir) else {
        unreachable!()
    };
    let area = &bytes[DINODE_LENGTH..];
    if !is_area(area) {
        return Err(damaged(dir, 9));
    }
    let mut first = vec![in alloc; 0u8; bytes.len()]?;
    write_first(area, &mut first);
    let one = OneLeaf {
        height: 0,
        table: first_depth(bytes.len()),
        depth: 0,
    };
    let more = count_needs(
        alloc,
        one,
        &first[IN_LEAF..],
        name.len() as u16,
        crc32(name),
    )?;
    Ok(Step::Is(more + 1))
}
