// The blocks to which the pointers of an inode lead, a row of levels after another.
ghost use Rattle.std.specs.Prelude.{ℕ, ◌≡◌, ◌≢◌, ◌+◌, ◌*◌, ◌<◌, ◌≤◌, IfOk, OnOk, IfSome, IfNone, Contains, List, length, map};
ghost use Rattle.std.specs.List.Sorted.{IsStrictlyIncreasing};
ghost use Rattle.gfs2_layout.specs.Bytes.{u64_at};
ghost use Rattle.gfs2_layout.specs.Holding.{Holding};
ghost use Rattle.gfs2_layout.specs.Inode.{Leads, content_count, fan as fan_of, span as span_of};
ghost use Rattle.glock_names.specs.Steps.{IfIs, IfNeedBlock, IfDamaged, OnlyDamaged};
ghost use Rattle.glock_names.specs.Views.{HasBlock, IsOfView};
ghost use Rattle.dinode_tree.specs.Shown.{IsShown, IsAtBlock};
ghost use Rattle.dinode_tree.specs.Broken.{IsBroken};
ghost use Rattle.dinode_tree.specs.Reading.{IsNeeded};
ghost use Rattle.dinode_tree.specs.Walking.{held, IsIn, IsOf};
ghost use Rattle.dinode_tree.specs.Below.{IsBelow, IsLedFrom, TellsOfBlock, AnyIndex, IsPointing, AreAdded, IsUnder, IsUnderRow, IsLed};
ghost use Rattle.dinode_tree.specs.declared.below.PointedBlock.{PointedBlock};

use crate::blocks::damaged;
use crate::inode::{IN_BLOCK, Inode};
use crate::links::missing_block;
use crate::looks::look;
use crate::numbers::{fan, index_of, number_at};
use crate::ways::{Link, Way};
use gfs2_layout::{DINODE_LENGTH, has_header};
use glock_names::{CallFault, Step, View, block_of};
use no_memory::NoMemory;
use std::alloc::Global;
use std::mem;

/// A block to which a pointer of an inode leads, and the block in which that pointer stands: the dinode's, or an indirect block.
#[derive(Clone, Copy)]
pub struct PointedBlock {
    pub block: u64,
    pub from: u64,
}

/// Blocks that were found below a dinode, and the links to those of the lowest row that have pointers of their own.
#[derive(Drop)]
pub(crate) struct Below {
    pub found: Vec<PointedBlock>,
    pub row: Vec<Link>,
}

impl Below {
    ghost use Rattle.std.specs.Prelude.{◌≡◌, OnOk};
    ghost use Rattle.dinode_tree.specs.Below.{AreAdded};

    /// One more block that was found.
    pub fn add(&mut self, link: Link) -> Result<(), NoMemory>
        ensures { OnOk result (AreAdded self.old self.new (λ l. l ≡ link)) }
    {
        self.found.push(PointedBlock {
            block: link.block,
            from: link.way.from,
        })?;
        if link.way.level > 0 {
            self.row.push(link)?;
        }
        Ok(())
    }
}

// The index of the first block of content below pointer k, whose first pointer has this way; None where the inode ends before
// that.
fn begin_of(inode: &Inode<'_>, way: &Way, k: u64) -> Option<u64>
    ensures some { IfSome result (λ i. i ≡ way.now.index + k * span_of (length inode.now.bytes.now) way.now.level) }
    ensures none { IfNone result (content_count (held inode.now) ≤ way.now.index + k * span_of (length inode.now.bytes.now) way.now.level) }
{
    let count = inode.content_count();
    let index = index_of(inode.bytes.len(), way.level, way.index, k)?;
    if index < count { Some(index) } else { None }
}

// The link of pointer k of a block whose pointers begin at `start`; None where it leads nowhere.
fn link_at(
    inode: &Inode<'_>,
    bytes: &[u8],
    start: usize,
    way: &Way,
    k: u64,
) -> Result<Option<Link>, CallFault>
    requires size { length bytes.now ≡ length inode.now.bytes.now }
    requires start { start ≤ length bytes.now }
    requires pointer { k < fan_of (length bytes.now) start }
    ensures some { IfOk result (λ found. IfSome found (IsPointing bytes.now start way.now k)) }
    ensures none { IfOk result (λ found. IfNone found (u64_at (start + 8 * k) bytes.now ≡ 0)) }
    ensures damaged { (h : Holding) → IsOf h inode.now
        → (u64_at (start + 8 * k) bytes.now ≢ 0 → Leads h way.now.from k way.now.level (way.now.index + k * span_of h.size way.now.level) (u64_at (start + 8 * k) bytes.now))
        → OnlyDamaged result (IsBroken h) }
    ensures own { OnlyDamaged result (IsAtBlock inode.now.block) }
{
    let block = number_at(bytes, start + 8 * k as usize);
    if block == 0 {
        return Ok(None);
    }
    let Some(index) = begin_of(inode, way, k) else {
        return Err(damaged(inode.block, 8));
    };
    Ok(Some(Link {
        way: Way { index, ..*way },
        block,
    }))
}

// The block to which pointer k of a block leads, where it leads somewhere.
fn add_pointer(
    below: &mut Below,
    inode: &Inode<'_>,
    bytes: &[u8],
    start: usize,
    way: &Way,
    k: u64,
) -> Result<(), CallFault>
    requires size { length bytes.now ≡ length inode.now.bytes.now }
    requires start { start ≤ length bytes.now }
    requires pointer { k < fan_of (length bytes.now) start }
    ensures added { OnOk result (AreAdded below.old below.new (IsPointing bytes.now start way.now k)) }
    ensures damaged { (h : Holding) → IsOf h inode.now
        → (u64_at (start + 8 * k) bytes.now ≢ 0 → Leads h way.now.from k way.now.level (way.now.index + k * span_of h.size way.now.level) (u64_at (start + 8 * k) bytes.now))
        → IfDamaged result (IsBroken h) }
    ensures own { IfDamaged result (IsAtBlock inode.now.block) }
{
    match link_at(inode, bytes, start, way, k)? {
        Some(link) => {
            below.add(link)?;
            Ok(())
        }
        None => Ok(()),
    }
}

// The blocks to which the pointers of a block lead that begin at `start`, the first of which has this way.
fn add_pointers(
    below: &mut Below,
    inode: &Inode<'_>,
    bytes: &[u8],
    start: usize,
    way: &Way,
) -> Result<(), CallFault>
    requires size { length bytes.now ≡ length inode.now.bytes.now }
    requires start { start ≤ length bytes.now }
    ensures added { OnOk result (AreAdded below.old below.new (λ l. (k : ℕ) × (k < fan_of (length bytes.now) start) × IsPointing bytes.now start way.now k l)) }
    ensures damaged { (h : Holding) → IsOf h inode.now
        → ((k : ℕ) → k < fan_of (length bytes.now) start → u64_at (start + 8 * k) bytes.now ≢ 0
        → Leads h way.now.from k way.now.level (way.now.index + k * span_of h.size way.now.level) (u64_at (start + 8 * k) bytes.now))
        → IfDamaged result (IsBroken h) }
    ensures own { IfDamaged result (IsAtBlock inode.now.block) }
{
    for k in 0..fan(bytes.len(), start) {
        add_pointer(below, inode, bytes, start, way, k)?;
    }
    Ok(())
}

// The blocks to which the pointers of an indirect block lead.
fn add_block<V: View>(
    below: &mut Below,
    view: &V,
    inode: &Inode<'_>,
    link: &Link,
) -> Result<Step<()>, CallFault>
    requires seen { IsIn (V.seen view.now) inode.now }
    requires above { 1 ≤ link.now.way.level }
    ensures added { IfIs result (λ done. AreAdded below.old below.new (IsUnder (V.seen view.now) link.now)) }
    ensures there { IfIs result (λ done. HasBlock (V.seen view.now) link.now.block) }
    ensures needed { (h : Holding) → IsShown (V.seen view.now) inode.now.block h → IsLed h link.now → IfNeedBlock result (IsNeeded (V.seen view.now) h AnyIndex 1) }
    ensures damaged { (h : Holding) → IsShown (V.seen view.now) inode.now.block h → IsLed h link.now → IfDamaged result (IsBroken h) }
    ensures kept { IfDamaged result (IsOfView (V.seen view.now)) }
{
    let Some(bytes) = block_of(view, link.block) else {
        return Ok(Step::NeedBlock(missing_block(inode, link)));
    };
    if !has_header(bytes, 5, 500) {
        return Err(damaged(link.block, 1));
    }
    let way = Way {
        from: link.block,
        level: link.way.level - 1,
        index: link.way.index,
        left: 0,
    };
    add_pointers(below, inode, bytes, IN_BLOCK, &way)?;
    Ok(Step::Is(()))
}

// The same of each indirect block of a row.
fn add_row<V: View>(
    below: &mut Below,
    view: &V,
    inode: &Inode<'_>,
    row: &[Link],
) -> Result<Step<()>, CallFault>
    requires seen { IsIn (V.seen view.now) inode.now }
    requires above { (l : Link) → Contains row.now l → 1 ≤ l.way.level }
    ensures added { IfIs result (λ done. AreAdded below.old below.new (IsUnderRow (V.seen view.now) row.now)) }
    ensures there { IfIs result (λ done. (l : Link) → Contains row.now l → HasBlock (V.seen view.now) l.block) }
    ensures needed { (h : Holding) → IsShown (V.seen view.now) inode.now.block h → ((l : Link) → Contains row.now l → IsLed h l) → IfNeedBlock result (IsNeeded (V.seen view.now) h AnyIndex 1) }
    ensures damaged { (h : Holding) → IsShown (V.seen view.now) inode.now.block h → ((l : Link) → Contains row.now l → IsLed h l) → IfDamaged result (IsBroken h) }
    ensures kept { IfDamaged result (IsOfView (V.seen view.now)) }
{
    for link in row {
        match add_block(below, view, inode, link)? {
            Step::Is(()) => {}
            Step::NeedBlock(missing) => return Ok(Step::NeedBlock(missing)),
        }
    }
    Ok(Step::Is(()))
}

// The row with one link to each of its blocks.
fn distinct(mut row: Vec<Link>) -> Result<Vec<Link>, NoMemory>
    ensures only { IfOk result (λ kept. (l : Link) → Contains kept.items l → Contains row.items l) }
    ensures each { IfOk result (λ kept. (l : Link) → Contains row.items l → (m : Link) × Contains kept.items m × (m.block ≡ l.block)) }
{
    row.sort_by_key(|link| link.block)?;
    row.dedup_by_key(|link| link.block);
    Ok(row)
}

// The blocks below the dinode, a row of them after another.
fn below_in<V: View>(
    alloc: Global,
    view: &V,
    inode: &Inode<'_>,
) -> Result<Step<Vec<PointedBlock>>, CallFault>
    requires seen { IsIn (V.seen view.now) inode.now }
    ensures led { (h : Holding) → IsShown (V.seen view.now) inode.now.block h → IfIs result (λ blocks. (p : PointedBlock) → Contains blocks.items p → IsLedFrom h p.from p.block) }
    ensures all { (h : Holding) → IsShown (V.seen view.now) inode.now.block h → IfIs result (λ blocks. (b : ℕ) → IsBelow h b → TellsOfBlock blocks.items b) }
    ensures there { IfIs result (λ blocks. (p : PointedBlock) → Contains blocks.items p → HasBlock (V.seen view.now) p.from) }
    ensures needed { (h : Holding) → IsShown (V.seen view.now) inode.now.block h → IfNeedBlock result (IsNeeded (V.seen view.now) h AnyIndex 1) }
    ensures damaged { (h : Holding) → IsShown (V.seen view.now) inode.now.block h → IfDamaged result (IsBroken h) }
    ensures kept { IfDamaged result (IsOfView (V.seen view.now)) }
{
    let _size = view.block_size();
    let mut below = Below {
        found: Vec::new(alloc),
        row: Vec::new(alloc),
    };
    if inode.dinode.height == 0 {
        return Ok(Step::Is(below.found));
    }
    let mut level = inode.dinode.height - 1;
    let way = Way {
        from: inode.block,
        level,
        index: 0,
        left: 0,
    };
    add_pointers(&mut below, inode, inode.bytes, DINODE_LENGTH, &way)?;
    while level > 0 {
        let row = distinct(mem::replace(&mut below.row, Vec::new(alloc)))?;
        match add_row(&mut below, view, inode, &row)? {
            Step::Is(()) => level -= 1,
            Step::NeedBlock(missing) => return Ok(Step::NeedBlock(missing)),
        }
    }
    Ok(Step::Is(below.found))
}

// The blocks by rising number, each once.
fn rising(mut blocks: Vec<PointedBlock>) -> Result<Vec<PointedBlock>, NoMemory>
    ensures only { IfOk result (λ sorted. (p : PointedBlock) → Contains sorted.items p → Contains blocks.items p) }
    ensures each { IfOk result (λ sorted. (p : PointedBlock) → Contains blocks.items p → TellsOfBlock sorted.items p.block) }
    ensures rising { IfOk result (λ sorted. IsStrictlyIncreasing (map (λ (p : PointedBlock). p.block) sorted.items)) }
{
    blocks.sort_by_key(|pointed| pointed.block)?;
    blocks.dedup_by_key(|pointed| pointed.block);
    Ok(blocks)
}

/// The blocks of an inode beside its dinode's to which its pointers lead, indirect blocks and blocks of content, by rising number
/// and each once, and of each a block in which a pointer to it stands; of an inode whose content is in its dinode there are none. It
/// looks at the dinode and the indirect blocks alone, and that each pointer leads to content before the inode's end. It costs a look
/// into the view for each indirect block, a step for each pointer of these, memory for the list, and a sort of it. In an inode that is
/// broken an indirect block may stand at several levels, and is gone over once for each; and several pointers may lead to one block, of
/// which any is told.
pub fn blocks_below<V: View>(
    alloc: Global,
    view: &V,
    dinode: u64,
) -> Result<Step<Vec<PointedBlock>>, CallFault>
    ensures led { (h : Holding) → IsShown (V.seen view.now) dinode h → IfIs result (λ blocks. (p : PointedBlock) → Contains blocks.items p → IsLedFrom h p.from p.block) }
    ensures all { (h : Holding) → IsShown (V.seen view.now) dinode h → IfIs result (λ blocks. (b : ℕ) → IsBelow h b → TellsOfBlock blocks.items b) }
    ensures there { IfIs result (λ blocks. (p : PointedBlock) → Contains blocks.items p → HasBlock (V.seen view.now) p.from) }
    ensures rising { IfIs result (λ blocks. IsStrictlyIncreasing (map (λ (p : PointedBlock). p.block) blocks.items)) }
    ensures needed { (h : Holding) → IsShown (V.seen view.now) dinode h → IfNeedBlock result (IsNeeded (V.seen view.now) h AnyIndex 1) }
    ensures damaged { (h : Holding) → IsShown (V.seen view.now) dinode h → IfDamaged result (IsBroken h) }
    ensures kept { IfDamaged result (IsOfView (V.seen view.now)) }
{
    let inode = match look(view, dinode)? {
        Step::Is(inode) => inode,
        Step::NeedBlock(missing) => return Ok(Step::NeedBlock(missing)),
    };
    match below_in(alloc, view, &inode)? {
        Step::Is(found) => Ok(Step::Is(rising(found)?)),
        Step::NeedBlock(missing) => Ok(Step::NeedBlock(missing)),
    }
}
