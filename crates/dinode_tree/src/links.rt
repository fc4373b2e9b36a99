ghost use Rattle.std.specs.Prelude.{ℕ, ◌≡◌, ◌≢◌, ◌-◌, ◌<◌, ◌≤◌, ◌==◌, ◌&&◌, IfOk, IfErr, OnErr, IfSome, IfNone, length};
ghost use Rattle.gfs2_layout.specs.Headers.{HasHeader};
ghost use Rattle.gfs2_layout.specs.Holding.{Holding, bytes_at};
ghost use Rattle.gfs2_layout.specs.Structures.{is_regular};
ghost use Rattle.gfs2_layout.specs.Inode.{content_count};
ghost use Rattle.glock_names.specs.Steps.{IfIs, IfNeedBlock, OnlyDamaged};
ghost use Rattle.dinode_tree.specs.Shown.{IsShown, IsAtBlock};
ghost use Rattle.glock_names.specs.Views.{IsOfView};
ghost use Rattle.dinode_tree.specs.Broken.{IsBroken};
ghost use Rattle.dinode_tree.specs.Reading.{IsHeadedWay, IsNeeded, inode_lock};
ghost use Rattle.dinode_tree.specs.Walking.{held, IsIn, IsOf, IsLink, IsStep};

use crate::blocks::damaged;
use crate::inode::{IN_BLOCK, Inode};
use crate::numbers::{fan, number_at, split};
use crate::ways::{Link, Way};
use gfs2_layout::{DINODE_LENGTH, has_header};
use glock_names::{CallFault, Missing, Step, View, block_of};

// The link of a pointer; None where it leads nowhere. What it leads to is to begin before the inode's end.
fn follow(inode: &Inode<'_>, pointer: u64, way: Way) -> Result<Option<Link>, CallFault>
    requires { way.left ≤ way.index }
    ensures none { IfOk result (λ found. IfNone found (pointer ≡ 0)) }
    ensures some { IfOk result (λ found. IfSome found (λ link. link ≡ record { way = way; block = pointer })) }
    ensures leads { IfOk result (λ found. IfSome found (λ link. pointer ≢ 0)) }
    ensures fault { IfErr result (λ fault. fault ≡ CallFault.Damaged inode.now.block 8) }
    ensures past { OnErr result (content_count (held inode.now) ≤ way.index - way.left) }
    ensures astray { OnErr result (pointer ≢ 0) }
{
    if pointer == 0 {
        return Ok(None);
    }
    if way.index - way.left >= inode.content_count() {
        return Err(damaged(inode.block, 8));
    }
    Ok(Some(Link {
        way,
        block: pointer,
    }))
}

// The dinode's pointer on the way to a block of content.
fn first_link(inode: &Inode<'_>, index: u64) -> Result<Option<Link>, CallFault>
    ensures least { IfOk result (λ found. IfSome found (λ link. link.way.left ≤ link.way.index)) }
    ensures step { (h : Holding) → IsOf h inode.now → IfOk result (IsStep h index) }
    ensures damaged { (h : Holding) → IsOf h inode.now → OnlyDamaged result (IsBroken h) }
    ensures own { OnlyDamaged result (IsAtBlock inode.now.block) }
{
    if inode.dinode.height == 0 {
        return Ok(None);
    }
    let level = inode.dinode.height - 1;
    let (k, left) = split(inode.bytes.len(), level, index);
    if k >= fan(inode.bytes.len(), DINODE_LENGTH) {
        return Ok(None);
    }
    let way = Way {
        from: inode.block,
        level,
        index,
        left,
    };
    follow(
        inode,
        number_at(inode.bytes, DINODE_LENGTH + 8 * k as usize),
        way,
    )
}

/// What a call needs where the view hasn't the block to which a pointer leads.
pub(crate) fn missing_block(inode: &Inode<'_>, link: &Link) -> Missing
    ensures { result ≡ record {
      lock = inode_lock inode.now.block;
      block = link.now.block;
      plain = (link.now.way.level == 0 && is_regular inode.now.dinode);
      from = link.now.way.from;
    } }
{
    Missing {
        lock: inode.lock(),
        block: link.block,
        plain: link.way.level == 0 && inode.dinode.is_regular(),
        from: link.way.from,
    }
}

// The pointer on the way to a block of content, of the indirect block to which a link leads.
fn link_below(inode: &Inode<'_>, bytes: &[u8], link: &Link) -> Result<Option<Link>, CallFault>
    requires above { 1 ≤ link.now.way.level }
    requires least { link.now.way.left ≤ link.now.way.index }
    requires size { length bytes.now ≡ length inode.now.bytes.now }
    ensures lower { IfOk result (λ found. IfSome found (λ next. next.way.level < link.now.way.level)) }
    ensures least { IfOk result (λ found. IfSome found (λ next. next.way.left ≤ next.way.index)) }
    ensures step { (h : Holding) (index : ℕ) → IsOf h inode.now → bytes_at h link.now.block ≡ bytes.now → HasHeader 5 500 bytes.now → IsLink h index link.now → IfOk result (IsStep h index) }
    ensures damaged { (h : Holding) (index : ℕ) → IsOf h inode.now → bytes_at h link.now.block ≡ bytes.now → IsLink h index link.now → OnlyDamaged result (IsBroken h) }
    ensures own { OnlyDamaged result (IsAtBlock inode.now.block) }
{
    let level = link.way.level - 1;
    let (k, left) = split(bytes.len(), level, link.way.left);
    if k >= fan(bytes.len(), IN_BLOCK) {
        return Ok(None);
    }
    let way = Way {
        from: link.block,
        level,
        index: link.way.index,
        left,
    };
    follow(inode, number_at(bytes, IN_BLOCK + 8 * k as usize), way)
}

// One step down: the pointer of an indirect block on the way to a block of content.
fn next_link<V: View>(
    view: &V,
    inode: &Inode<'_>,
    link: &Link,
) -> Result<Step<Option<Link>>, CallFault>
    requires seen { IsIn (V.seen view.now) inode.now }
    requires above { 1 ≤ link.now.way.level }
    requires least { link.now.way.left ≤ link.now.way.index }
    ensures lower { IfIs result (λ found. IfSome found (λ next. next.way.level < link.now.way.level)) }
    ensures least { IfIs result (λ found. IfSome found (λ next. next.way.left ≤ next.way.index)) }
    ensures step { (h : Holding) (index : ℕ) → IsShown (V.seen view.now) inode.now.block h → IsLink h index link.now → IfIs result (IsStep h index) }
    ensures needed { (h : Holding) (index : ℕ) → IsShown (V.seen view.now) inode.now.block h → IsLink h index link.now → IfNeedBlock result (IsNeeded (V.seen view.now) h (λ i. i ≡ index) 1) }
    ensures damaged { (h : Holding) (index : ℕ) → IsShown (V.seen view.now) inode.now.block h → IsLink h index link.now → OnlyDamaged result (IsBroken h) }
    ensures kept { OnlyDamaged result (IsOfView (V.seen view.now)) }
{
    let Some(bytes) = block_of(view, link.block) else {
        return Ok(Step::NeedBlock(missing_block(inode, link)));
    };
    if !has_header(bytes, 5, 500) {
        return Err(damaged(link.block, 1));
    }
    let found = link_below(inode, bytes, link)?;
    Ok(Step::Is(found))
}

/// The pointer to the block of content with an index; None where there is no such block. It walks down at most as many
/// steps as the inode is high.
pub(crate) fn find<V: View>(
    view: &V,
    inode: &Inode<'_>,
    index: u64,
) -> Result<Step<Option<Link>>, CallFault>
    requires { IsIn (V.seen view.now) inode.now }
    ensures level { IfIs result (λ found. IfSome found (λ link. link.way.level ≡ 0)) }
    ensures headed { (h : Holding) → IsShown (V.seen view.now) inode.now.block h → IfIs result (λ found. IfSome found (λ link. IsHeadedWay h index)) }
    ensures step { (h : Holding) → IsShown (V.seen view.now) inode.now.block h → IfIs result (IsStep h index) }
    ensures needed { (h : Holding) → IsShown (V.seen view.now) inode.now.block h → IfNeedBlock result (IsNeeded (V.seen view.now) h (λ i. i ≡ index) 1) }
    ensures damaged { (h : Holding) → IsShown (V.seen view.now) inode.now.block h → OnlyDamaged result (IsBroken h) }
    ensures kept { OnlyDamaged result (IsOfView (V.seen view.now)) }
{
    let mut link = match first_link(inode, index)? {
        Some(link) => link,
        None => return Ok(Step::Is(None)),
    };
    while link.way.level > 0 {
        match next_link(view, inode, &link)? {
            Step::Is(Some(next)) => link = next,
            Step::Is(None) => return Ok(Step::Is(None)),
            Step::NeedBlock(missing) => return Ok(Step::NeedBlock(missing)),
        }
    }
    Ok(Step::Is(Some(link)))
}
