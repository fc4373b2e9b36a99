ghost use Rattle.std.specs.Prelude.{ℕ, ◌≡◌, ◌+◌, ◌-◌, ◌*◌, ◌/◌, ◌<◌, ◌≤◌, true, length, replicate, IfOk};
ghost use Rattle.gfs2_layout.specs.Headers.{HasHeader};
ghost use Rattle.gfs2_layout.specs.Holding.{Holding, bytes_at};
ghost use Rattle.gfs2_layout.specs.Inode.{is_directory_in, unit, carried, content_block, content_count, Fits};
ghost use Rattle.glock_names.specs.Steps.{IfIs, IfNeedBlock, IfDamaged, OnlyDamaged};
ghost use Rattle.dinode_tree.specs.Shown.{IsShown};
ghost use Rattle.glock_names.specs.Views.{IsOfView};
ghost use Rattle.dinode_tree.specs.Broken.{IsBroken};
ghost use Rattle.dinode_tree.specs.Reading.{AreHeaded, IsHeadedAt, IsInRange, AreWholeBefore, IsNeeded};
ghost use Rattle.dinode_tree.specs.Walking.{held, IsIn, IsOf, IsLink, laid_range, ArePieces};
ghost use Rattle.gfs2_layout.specs.Structures.{dinode_length};

use crate::blocks::damaged;
use crate::inode::Inode;
use crate::links::{find, missing_block};
use crate::ways::Link;
use gfs2_layout::{DINODE_LENGTH, has_header};
use glock_names::{CallFault, Step, View, block_of};
use no_memory::NoMemory;
use std::alloc::Global;

static ZEROS: [u8; 4096] = [0; 4096];

// What a hole stands for.
fn zeros(count: usize) -> &'static [u8]
    requires { count ≤ 4096 }
    ensures { result.now ≡ replicate count 0 }
{
    &ZEROS[..count]
}

// What the block of content to which a link leads carries.
fn carried_by<'a, V: View>(
    view: &'a V,
    inode: &Inode<'_>,
    link: &Link,
) -> Result<Step<&'a [u8]>, CallFault>
    requires seen { IsIn (V.seen view.now) inode.now }
    requires content { link.now.way.level ≡ 0 }
    ensures length { IfIs result (λ piece. length piece.now ≡ unit (held inode.now)) }
    ensures carried { (h : Holding) (index : ℕ) → IsShown (V.seen view.now) inode.now.block h → IsLink h index link.now → IfIs result (λ piece. piece.now ≡ carried h (content_block h index)) }
    ensures table { (h : Holding) (index : ℕ) → IsShown (V.seen view.now) inode.now.block h → IsLink h index link.now → IfIs result (λ piece. is_directory_in h ≡ true → HasHeader 7 700 (bytes_at h link.now.block)) }
    ensures needed { (h : Holding) (index : ℕ) → IsShown (V.seen view.now) inode.now.block h → IsLink h index link.now → IfNeedBlock result (IsNeeded (V.seen view.now) h (λ i. i ≡ index) 0) }
    ensures damaged { (h : Holding) (index : ℕ) → IsShown (V.seen view.now) inode.now.block h → IsLink h index link.now → OnlyDamaged result (IsBroken h) }
    ensures kept { OnlyDamaged result (IsOfView (V.seen view.now)) }
{
    let Some(bytes) = block_of(view, link.block) else {
        return Ok(Step::NeedBlock(missing_block(inode, link)));
    };
    if inode.dinode.is_directory() && !has_header(bytes, 7, 700) {
        return Err(damaged(link.block, 1));
    }
    Ok(Step::Is(&bytes[bytes.len() - inode.unit()..]))
}

/// What the block of content with an index carries; a hole stands for zeros.
pub(crate) fn piece<'a, V: View>(
    view: &'a V,
    inode: &Inode<'_>,
    index: u64,
) -> Result<Step<&'a [u8]>, CallFault>
    requires seen { IsIn (V.seen view.now) inode.now }
    requires fits { Fits (held inode.now) }
    requires below { 1 ≤ inode.now.dinode.height }
    requires within { index < content_count (held inode.now) }
    ensures length { IfIs result (λ piece. length piece.now ≡ unit (held inode.now)) }
    ensures carried { (h : Holding) → IsShown (V.seen view.now) inode.now.block h → IfIs result (λ piece. piece.now ≡ carried h (content_block h index)) }
    ensures headed { (h : Holding) → IsShown (V.seen view.now) inode.now.block h → IfIs result (λ piece. IsHeadedAt h index) }
    ensures needed { (h : Holding) → IsShown (V.seen view.now) inode.now.block h → IfNeedBlock result (IsNeeded (V.seen view.now) h (λ i. i ≡ index) 0) }
    ensures damaged { (h : Holding) → IsShown (V.seen view.now) inode.now.block h → OnlyDamaged result (IsBroken h) }
    ensures kept { OnlyDamaged result (IsOfView (V.seen view.now)) }
{
    match find(view, inode, index)? {
        Step::Is(Some(link)) => carried_by(view, inode, &link),
        Step::Is(None) => Ok(Step::Is(zeros(inode.unit()))),
        Step::NeedBlock(missing) => Ok(Step::NeedBlock(missing)),
    }
}

// The content from `at` to the end of its block of content, or to `end`.
fn part<'a, V: View>(
    view: &'a V,
    inode: &Inode<'_>,
    at: u64,
    end: u64,
) -> Result<Step<&'a [u8]>, CallFault>
    requires seen { IsIn (V.seen view.now) inode.now }
    requires fits { Fits (held inode.now) }
    requires below { 1 ≤ inode.now.dinode.height }
    requires some { at < end }
    requires within { end ≤ inode.now.dinode.size }
    ensures further { IfIs result (λ part. 0 < length part.now) }
    ensures least { IfIs result (λ part. at + length part.now ≤ end) }
    ensures read { (h : Holding) → IsShown (V.seen view.now) inode.now.block h → ArePieces h (at / unit h) → IfIs result (λ part. part.now ≡ laid_range h at (at + length part.now)) }
    ensures pieces { (h : Holding) → IsShown (V.seen view.now) inode.now.block h → ArePieces h (at / unit h) → IfIs result (λ part. ArePieces h ((at + length part.now) / unit h)) }
    ensures headed { (h : Holding) → IsShown (V.seen view.now) inode.now.block h → IfIs result (λ part. IsHeadedAt h (at / unit h)) }
    ensures short { (h : Holding) → IsShown (V.seen view.now) inode.now.block h → IfIs result (λ part. at + length part.now ≤ (at / unit h + 1) * unit h) }
    ensures needed { (h : Holding) → IsShown (V.seen view.now) inode.now.block h → IfNeedBlock result (IsNeeded (V.seen view.now) h (λ i. i ≡ at / unit h) 0) }
    ensures damaged { (h : Holding) → IsShown (V.seen view.now) inode.now.block h → OnlyDamaged result (IsBroken h) }
    ensures kept { OnlyDamaged result (IsOfView (V.seen view.now)) }
{
    let unit = inode.unit() as u64;
    match piece(view, inode, at / unit)? {
        Step::Is(piece) => {
            let from = at % unit;
            let to = unit.min(from + (end - at));
            Ok(Step::Is(&piece[from as usize..to as usize]))
        }
        Step::NeedBlock(missing) => Ok(Step::NeedBlock(missing)),
    }
}

/// The content from `at` to `end`, of an inode that has it in blocks below its dinode.
pub(crate) fn blocks_range<V: View>(
    alloc: Global,
    view: &V,
    inode: &Inode<'_>,
    at: u64,
    end: u64,
) -> Result<Step<Vec<u8>>, CallFault>
    requires seen { IsIn (V.seen view.now) inode.now }
    requires fits { Fits (held inode.now) }
    requires below { 1 ≤ inode.now.dinode.height }
    requires order { at ≤ end }
    requires within { end ≤ inode.now.dinode.size }
    ensures found { (h : Holding) → IsShown (V.seen view.now) inode.now.block h → AreWholeBefore h at → IfIs result (λ bytes. bytes.items ≡ laid_range h at end) }
    ensures length { IfIs result (λ bytes. length bytes.items ≡ end - at) }
    ensures headed { (h : Holding) → IsShown (V.seen view.now) inode.now.block h → IfIs result (λ bytes. AreHeaded h at end) }
    ensures needed { (h : Holding) → IsShown (V.seen view.now) inode.now.block h → IfNeedBlock result (IsNeeded (V.seen view.now) h (IsInRange h at (end - at)) 0) }
    ensures damaged { (h : Holding) → IsShown (V.seen view.now) inode.now.block h → IfDamaged result (IsBroken h) }
    ensures kept { IfDamaged result (IsOfView (V.seen view.now)) }
{
    let mut bytes = Vec::with_capacity(alloc, (end - at) as usize)?;
    let mut next = at;
    while next < end {
        match part(view, inode, next, end)? {
            Step::Is(part) => {
                bytes.extend_from_slice(part)?;
                next += part.len() as u64;
            }
            Step::NeedBlock(missing) => return Ok(Step::NeedBlock(missing)),
        }
    }
    Ok(Step::Is(bytes))
}

/// The content from `at` to `end`, of an inode that has it behind its dinode.
pub(crate) fn stuffed_range(
    alloc: Global,
    inode: &Inode<'_>,
    at: u64,
    end: u64,
) -> Result<Vec<u8>, NoMemory>
    requires stuffed { inode.now.dinode.height ≡ 0 }
    requires order { at ≤ end }
    requires within { dinode_length + end ≤ length inode.now.bytes.now }
    ensures found { (h : Holding) → IsOf h inode.now → IfOk result (λ bytes. bytes.items ≡ laid_range h at end) }
    ensures length { IfOk result (λ bytes. length bytes.items ≡ end - at) }
{
    let behind = &inode.bytes[DINODE_LENGTH + at as usize..DINODE_LENGTH + end as usize];
    Ok(Vec::from_slice(alloc, behind)?)
}
