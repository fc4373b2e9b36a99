ghost use Rattle.std.specs.Prelude.{◌≡◌, ◌+◌, ◌-◌, min, length};
ghost use Rattle.gfs2_layout.specs.Holding.{Holding};
ghost use Rattle.gfs2_layout.specs.Inode.{dinode_in, Fits};
ghost use Rattle.glock_names.specs.Steps.{IfIs, IfNeedBlock, IfDamaged, OnlyDamaged};
ghost use Rattle.dinode_tree.specs.Shown.{IsShown};
ghost use Rattle.glock_names.specs.Views.{IsOfView};
ghost use Rattle.dinode_tree.specs.Broken.{IsBroken};
ghost use Rattle.dinode_tree.specs.Walking.{held, IsIn};
ghost use Rattle.dinode_tree.specs.Reading.{AreHeaded, block_at, content_range, IsInRange, AreWholeBefore, IsNeeded};

use crate::content::{blocks_range, stuffed_range};
use crate::inode::Inode;
use crate::links::find;
use crate::looks::look;
use glock_names::{CallFault, Step, View};
use std::alloc::Global;

// The block of content with this index.
fn place_in<V: View>(
    view: &V,
    inode: &Inode<'_>,
    index: u64,
) -> Result<Step<Option<u64>>, CallFault>
    requires { IsIn (V.seen view.now) inode.now }
    ensures found { (h : Holding) → IsShown (V.seen view.now) inode.now.block h → IfIs result (λ found. found ≡ block_at h index) }
    ensures needed { (h : Holding) → IsShown (V.seen view.now) inode.now.block h → IfNeedBlock result (IsNeeded (V.seen view.now) h (λ i. i ≡ index) 1) }
    ensures damaged { (h : Holding) → IsShown (V.seen view.now) inode.now.block h → OnlyDamaged result (IsBroken h) }
    ensures kept { OnlyDamaged result (IsOfView (V.seen view.now)) }
{
    match find(view, inode, index)? {
        Step::Is(Some(link)) => Ok(Step::Is(Some(link.block))),
        Step::Is(None) => Ok(Step::Is(None)),
        Step::NeedBlock(missing) => Ok(Step::NeedBlock(missing)),
    }
}

/// The block of content with this index, from 0; None is a hole, or an index past what the pointers reach. Content that
/// stands behind its dinode is in no block. It looks at no content: at the dinode's header, its address and number, its
/// mode, whether its size fits it or its height, in this order, and then, from the dinode down, at the header of each
/// indirect block on the way and whether a pointer on it leads wholly past the size. It costs a look into the view for
/// each level.
pub fn place<V: View>(view: &V, dinode: u64, index: u64) -> Result<Step<Option<u64>>, CallFault>
    ensures found { (h : Holding) → IsShown (V.seen view.now) dinode h → IfIs result (λ found. found ≡ block_at h index) }
    ensures needed { (h : Holding) → IsShown (V.seen view.now) dinode h → IfNeedBlock result (IsNeeded (V.seen view.now) h (λ i. i ≡ index) 1) }
    ensures damaged { (h : Holding) → IsShown (V.seen view.now) dinode h → OnlyDamaged result (IsBroken h) }
    ensures kept { OnlyDamaged result (IsOfView (V.seen view.now)) }
{
    match look(view, dinode)? {
        Step::Is(inode) => place_in(view, &inode, index),
        Step::NeedBlock(missing) => Ok(Step::NeedBlock(missing)),
    }
}

// Where so many bytes of the content from `at` on end.
fn end_of(inode: &Inode<'_>, at: u64, len: u32) -> u64
    ensures { result ≡ min (at + len) inode.now.dinode.size }
{
    at.saturating_add(u64::from(len)).min(inode.dinode.size)
}

// The bytes of the content in a range, up to its end.
fn range_in<V: View>(
    alloc: Global,
    view: &V,
    inode: &Inode<'_>,
    at: u64,
    len: u32,
) -> Result<Step<Vec<u8>>, CallFault>
    requires seen { IsIn (V.seen view.now) inode.now }
    requires fits { Fits (held inode.now) }
    ensures found { (h : Holding) → IsShown (V.seen view.now) inode.now.block h → AreWholeBefore h at → IfIs result (λ bytes. bytes.items ≡ content_range h at len) }
    ensures length { IfIs result (λ bytes. length bytes.items ≡ min len (inode.now.dinode.size - at)) }
    ensures headed { (h : Holding) → IsShown (V.seen view.now) inode.now.block h → IfIs result (λ bytes. AreHeaded h at (min (at + len) inode.now.dinode.size)) }
    ensures needed { (h : Holding) → IsShown (V.seen view.now) inode.now.block h → IfNeedBlock result (IsNeeded (V.seen view.now) h (IsInRange h at len) 0) }
    ensures damaged { (h : Holding) → IsShown (V.seen view.now) inode.now.block h → IfDamaged result (IsBroken h) }
    ensures kept { IfDamaged result (IsOfView (V.seen view.now)) }
{
    let end = end_of(inode, at, len);
    if at >= end {
        return Ok(Step::Is(Vec::new(alloc)));
    }
    if inode.dinode.height == 0 {
        let bytes = stuffed_range(alloc, inode, at, end)?;
        return Ok(Step::Is(bytes));
    }
    blocks_range(alloc, view, inode, at, end)
}

/// The bytes of the content from byte `at` on, `len` of them or up to the content's end. It looks at what `place` looks
/// at, and at the header of each table block of a directory. It costs a look into the view for each level and each block
/// of content in the range, and takes memory for what it answers.
pub fn read_range<V: View>(
    alloc: Global,
    view: &V,
    dinode: u64,
    at: u64,
    len: u32,
) -> Result<Step<Vec<u8>>, CallFault>
    ensures found { (h : Holding) → IsShown (V.seen view.now) dinode h → AreWholeBefore h at → IfIs result (λ bytes. bytes.items ≡ content_range h at len) }
    ensures length { (h : Holding) → IsShown (V.seen view.now) dinode h → IfIs result (λ bytes. length bytes.items ≡ min len ((dinode_in h).size - at)) }
    ensures headed { (h : Holding) → IsShown (V.seen view.now) dinode h → IfIs result (λ bytes. AreHeaded h at (min (at + len) (dinode_in h).size)) }
    ensures needed { (h : Holding) → IsShown (V.seen view.now) dinode h → IfNeedBlock result (IsNeeded (V.seen view.now) h (IsInRange h at len) 0) }
    ensures damaged { (h : Holding) → IsShown (V.seen view.now) dinode h → IfDamaged result (IsBroken h) }
    ensures kept { IfDamaged result (IsOfView (V.seen view.now)) }
{
    match look(view, dinode)? {
        Step::Is(inode) => range_in(alloc, view, &inode, at, len),
        Step::NeedBlock(missing) => Ok(Step::NeedBlock(missing)),
    }
}
