// Leaves of a chain, as a view has them.
ghost use Rattle.std.specs.Prelude.{ℕ, ◌≡◌, ◌≢◌, ◌≤◌, None, IfOk, OnOk, length, drop};
ghost use Rattle.gfs2_layout.specs.Bytes.{u32_at};
ghost use Rattle.gfs2_layout.specs.Headers.{HasHeader};
ghost use Rattle.gfs2_layout.specs.Holding.{Holding, bytes_at};
ghost use Rattle.gfs2_layout.specs.Inode.{depth_in, leaf_length};
ghost use Rattle.gfs2_layout.specs.Structures.{leaf_of};
ghost use Rattle.glock_names.specs.Steps.{IfIs, IfNeedBlock, OnlyDamaged};
ghost use Rattle.glock_names.specs.Views.{HasBlock, IsOfView};
ghost use Rattle.dinode_tree.specs.Shown.{IsAtBlock};
ghost use Rattle.hash_dirs.specs.Finding.{IsLeafHead};
ghost use Rattle.hash_dirs.specs.Shown.{IsNeededFor, IsShown, LeadsToLeaf};
ghost use Rattle.hash_dirs.specs.Walking.{IsAreaOfBlock, IsLeafIn, IsLeafOf, IsSmall};
ghost use Rattle.resource_groups.specs.Putting.{HasDataBlock};
ghost use Rattle.hash_dirs.specs.Broken.{IsBroken, IsWrongIn};

use gfs2_layout::{Leaf, has_header, is_area};
use glock_names::{CallFault, Missing, Step, View, block_of};
use linear_dirs::lock_of;
use pointer_tables::Pointer;
use resource_groups::group_of;

/// Where the records of a leaf begin.
pub const IN_LEAF: usize = 104;

/// A leaf: what its head says, and the records behind it.
#[derive(Clone, Copy)]
pub struct LeafAt<'a> {
    pub head: Leaf,
    pub area: &'a [u8],
}

/// The fault of a block that breaks a rule.
pub fn damaged(block: u64, rule: u16) -> CallFault
    ensures { result ≡ CallFault.Damaged block rule }
{
    CallFault::Damaged { block, rule }
}

// The leaf in a block with these bytes, of a directory whose table is so deep.
fn read_leaf(bytes: &[u8], block: u64, depth: u16) -> Result<LeafAt<'_>, CallFault>
    requires least { 512 ≤ length bytes.now }
    requires most { length bytes.now ≤ 4096 }
    ensures head { IfOk result (λ leaf. leaf.head ≡ leaf_of bytes.now) }
    ensures area { IfOk result (λ leaf. leaf.area.now ≡ drop leaf_length bytes.now) }
    ensures filled { IfOk result (λ leaf. IsAreaOfBlock leaf.area.now) }
    ensures low { IfOk result (λ leaf. leaf.head.depth ≤ depth) }
    ensures header { OnOk result (HasHeader 6 600 bytes.now) }
    ensures format { OnOk result (u32_at 28 bytes.now ≡ 1200) }
    ensures damaged { (h : Holding) (i from : ℕ) → bytes_at h block ≡ bytes.now → LeadsToLeaf h i from block → block ≢ 0 → depth ≡ depth_in h → OnlyDamaged result (IsBroken h) }
    ensures own { OnlyDamaged result (IsAtBlock block) }
{
    if !has_header(bytes, 6, 600) {
        return Err(damaged(block, 1));
    }
    let Ok(head) = Leaf::read(bytes) else {
        return Err(damaged(block, 14));
    };
    if head.depth > depth {
        return Err(damaged(block, 14));
    }
    let area = &bytes[IN_LEAF..];
    if !is_area(area) {
        return Err(damaged(block, 9));
    }
    Ok(LeafAt { head, area })
}

/// The leaf to which a pointer or the leaf before it leads, of a directory whose table is so deep. It looks that there is one, and
/// a data block of a group; at its header, the format of its records and its depth; and that the records fill it, in this order.
pub fn leaf_at<'a, V: View>(
    view: &'a V,
    dir: u64,
    depth: u16,
    link: &Pointer,
) -> Result<Step<LeafAt<'a>>, CallFault>
    requires from { HasBlock (V.seen view.now) link.now.from }
    ensures read { (h : Holding) (i : ℕ) → IsShown (V.seen view.now) dir h → LeadsToLeaf h i link.now.from link.now.leaf → IfIs result (IsLeafOf h link.now.leaf) }
    ensures headed { (h : Holding) (i : ℕ) → IsShown (V.seen view.now) dir h → LeadsToLeaf h i link.now.from link.now.leaf → depth ≡ depth_in h → IfIs result (λ leaf. IsLeafHead h link.now.leaf) }
    ensures area { IfIs result (λ leaf. IsAreaOfBlock leaf.area.now) }
    ensures seen { IfIs result (IsLeafIn (V.seen view.now) link.now.leaf) }
    ensures low { IfIs result (λ leaf. leaf.head.depth ≤ depth) }
    ensures small { IfIs result (λ leaf. IsSmall link.now.leaf) }
    ensures inside { IfIs result (λ leaf. HasDataBlock (V.seen view.now) link.now.leaf) }
    ensures there { IfIs result (λ leaf. HasBlock (V.seen view.now) link.now.leaf) }
    ensures needed { (h : Holding) (i : ℕ) → IsShown (V.seen view.now) dir h → LeadsToLeaf h i link.now.from link.now.leaf → IfNeedBlock result (IsNeededFor (V.seen view.now) h (λ k. k ≡ i)) }
    ensures absent { IfNeedBlock result (λ missing. (V.seen view.now).block_at missing.block ≡ None) }
    ensures damaged { (h : Holding) (i : ℕ) → IsShown (V.seen view.now) dir h → LeadsToLeaf h i link.now.from link.now.leaf → depth ≡ depth_in h
        → OnlyDamaged result (IsWrongIn (V.seen view.now) h) }
    ensures kept { OnlyDamaged result (IsOfView (V.seen view.now)) }
{
    let _size = view.block_size();
    if link.leaf == 0 {
        return Err(damaged(link.from, 14));
    }
    if group_of(view, link.leaf).is_none() {
        return Err(damaged(link.from, 2));
    }
    let Some(bytes) = block_of(view, link.leaf) else {
        return Ok(Step::NeedBlock(Missing {
            lock: lock_of(dir),
            block: link.leaf,
            plain: false,
            from: link.from,
        }));
    };
    let leaf = read_leaf(bytes, link.leaf, depth)?;
    Ok(Step::Is(leaf))
}
