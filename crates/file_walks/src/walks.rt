// The walk down a file's tree.
ghost use Rattle.std.specs.Prelude.{ℕ, ◌≡◌, ◌≢◌, ◌⊎◌, ◌+◌, ◌*◌, ◌-◌, ◌<◌, ◌≤◌, false, length, IfSome, IfOk};
ghost use Rattle.gfs2_layout.specs.Bytes.{u64_at};
ghost use Rattle.gfs2_layout.specs.Holding.{Holding};
ghost use Rattle.gfs2_layout.specs.Inode.{Leads, span};
ghost use Rattle.glock_names.specs.Steps.{IfIs, IfNeedBlock, OnlyDamaged};
ghost use Rattle.glock_names.specs.Views.{HasBlock, IsOfView};
ghost use Rattle.dinode_tree.specs.Broken.{IsBroken};
ghost use Rattle.dinode_tree.specs.Reading.{IsNeeded, inode_lock};
ghost use Rattle.dinode_tree.specs.Shown.{IsAtBlock, IsShown};
ghost use Rattle.growth_laws.specs.Files.{IsFile, block_on};
ghost use Rattle.file_walks.specs.Walks.{AreSeenAbove, IsOfInode, IsPassed, IsPlace, IsStop, IsUnder, IsWalk, LeadsOn, place_above};
ghost use Rattle.file_walks.specs.Going.{AreBytesOf, IsBegun, IsWayIn, count_in, stop_at, unit_in};

use crate::numbers::{IN_BLOCK, begins_before, fan, number_at, place_over};
use dinode_tree::read_dinode;
use gfs2_layout::{DINODE_LENGTH, Dinode, has_header};
use glock_names::{CallFault, LockName, Missing, Step, View, block_of};
use growth_steps::Pointer;

/// Where a walk to a place of a file's tree stopped: the pointer that it read last, how many levels above content that stands to which
/// the pointer leads, and its block, 0 where the pointer leads nowhere.
#[derive(Clone, Copy, Debug, PartialEq, Eq)]
pub struct Stop {
    pub pointer: Pointer,
    pub level: u16,
    pub block: u64,
}

// Where a walk begins, and where it goes to: the block of a dinode, its height, how many blocks of content its size asks for, and place
// `index` of a level.
#[derive(Clone, Copy)]
pub(crate) struct Way {
    pub inode: u64,
    pub height: u16,
    pub count: u64,
    pub level: u16,
    pub index: u64,
}

/// The fault of a block that breaks a rule.
pub(crate) fn damaged(block: u64, rule: u16) -> CallFault
    ensures { result ≡ CallFault.Damaged block rule }
{
    CallFault::Damaged { block, rule }
}

/// What a call needs where the view hasn't the indirect block to which the pointer of a stop leads.
pub(crate) fn missing_block(inode: u64, stop: &Stop) -> Missing
    ensures { result ≡ record { lock = inode_lock inode; block = stop.now.block; plain = false; from = stop.now.pointer.from } }
{
    Missing {
        lock: LockName {
            kind: 2,
            number: inode,
        },
        block: stop.block,
        plain: false,
        from: stop.pointer.from,
    }
}

// How much of its content a block of an inode carries: a table block of a directory has a header.
fn unit(size: usize, dinode: &Dinode) -> usize
    requires { 512 ≤ size }
    ensures value { result ≡ unit_in size dinode.now }
    ensures some { 0 < result }
{
    if dinode.is_directory() {
        size - IN_BLOCK
    } else {
        size
    }
}

/// How many blocks of content the size asks for that a dinode says, in blocks of so many bytes.
pub fn count_blocks(size: usize, dinode: &Dinode) -> u64
    requires { 512 ≤ size }
    ensures { result ≡ count_in size dinode.now }
{
    dinode.size.div_ceil(unit(size, dinode) as u64)
}

// Reads a pointer of a place. What it leads to is to begin before the inode's end.
fn read_pointer(
    way: &Way,
    bytes: &[u8],
    pointer: Pointer,
    level: u16,
    place: u64,
) -> Result<Stop, CallFault>
    requires large { 512 ≤ length bytes.now }
    requires fits { pointer.start + 8 * pointer.index + 8 ≤ length bytes.now }
    ensures is { IfOk result (λ stop. stop ≡ stop_at pointer.from pointer.start pointer.index level bytes.now) }
    ensures damaged { (h : Holding) → IsWayIn h way.now
        → (u64_at (pointer.start + 8 * pointer.index) bytes.now ≢ 0 → (k : ℕ) × Leads h pointer.from k level (place * span (length bytes.now) level) (u64_at (pointer.start + 8 * pointer.index) bytes.now))
        → OnlyDamaged result (IsBroken h) }
    ensures own { OnlyDamaged result (IsAtBlock way.now.inode) }
{
    let block = number_at(bytes, pointer.start + 8 * pointer.index);
    if block != 0 && !begins_before(bytes.len(), level, place, way.count) {
        return Err(damaged(way.inode, 8));
    }
    Ok(Stop {
        pointer,
        level,
        block,
    })
}

// The dinode's pointer on the way; None where the tree has no such place.
fn first_stop(way: &Way, bytes: &[u8]) -> Result<Option<Stop>, CallFault>
    requires large { 512 ≤ length bytes.now }
    requires small { length bytes.now ≤ 4096 }
    ensures above { IfOk result (λ found. IfSome found (λ stop. way.now.level ≤ stop.level)) }
    ensures top { IfOk result (λ found. IfSome found (λ stop. stop.level + 1 ≡ way.now.height)) }
    ensures from { IfOk result (λ found. IfSome found (λ stop. stop.pointer.from ≡ way.now.inode)) }
    ensures fits { IfOk result (λ found. IfSome found (λ stop. stop.pointer.start + 8 * stop.pointer.index + 8 ≤ length bytes.now)) }
    ensures leads { (h : Holding) → IsWayIn h way.now → AreBytesOf h h.own bytes.now → IfOk result (λ found. IfSome found (LeadsOn h way.now.level way.now.index)) }
    ensures begun { (h : Holding) → IsFile h → IsWayIn h way.now → AreBytesOf h h.own bytes.now → IfOk result (IsBegun h way.now.level way.now.index) }
    ensures damaged { (h : Holding) → IsWayIn h way.now → AreBytesOf h h.own bytes.now → OnlyDamaged result (IsBroken h) }
    ensures own { OnlyDamaged result (IsAtBlock way.now.inode) }
{
    if way.level >= way.height {
        return Ok(None);
    }
    let level = way.height - 1;
    let place = place_over(bytes.len(), level - way.level, way.index);
    if place >= fan(bytes.len(), DINODE_LENGTH) {
        return Ok(None);
    }
    let pointer = Pointer {
        from: way.inode,
        start: DINODE_LENGTH,
        index: place as usize,
    };
    let stop = read_pointer(way, bytes, pointer, level, place)?;
    Ok(Some(stop))
}

// The pointer on the way of the indirect block to which the pointer of a stop leads.
fn stop_below(way: &Way, bytes: &[u8], stop: &Stop) -> Result<Stop, CallFault>
    requires large { 512 ≤ length bytes.now }
    requires small { length bytes.now ≤ 4096 }
    requires above { way.now.level < stop.now.level }
    ensures lower { IfOk result (λ next. next.level + 1 ≡ stop.now.level) }
    ensures from { IfOk result (λ next. next.pointer.from ≡ stop.now.block) }
    ensures fits { IfOk result (λ next. next.pointer.start + 8 * next.pointer.index + 8 ≤ length bytes.now) }
    ensures leads { (h : Holding) → stop.now.block ≢ 0 → LeadsOn h way.now.level way.now.index stop.now → AreBytesOf h stop.now.block bytes.now → IfOk result (LeadsOn h way.now.level way.now.index) }
    ensures passed { (h : Holding) → IsFile h → stop.now.block ≢ 0 → IsPassed h way.now.level way.now.index stop.now → AreBytesOf h stop.now.block bytes.now → IfOk result (IsPassed h way.now.level way.now.index) }
    ensures damaged { (h : Holding) → IsWayIn h way.now → stop.now.block ≢ 0 → LeadsOn h way.now.level way.now.index stop.now → AreBytesOf h stop.now.block bytes.now → OnlyDamaged result (IsBroken h) }
    ensures own { OnlyDamaged result (IsAtBlock way.now.inode) }
{
    let level = stop.level - 1;
    let place = place_over(bytes.len(), level - way.level, way.index);
    let pointer = Pointer {
        from: stop.block,
        start: IN_BLOCK,
        index: (place % fan(bytes.len(), IN_BLOCK)) as usize,
    };
    read_pointer(way, bytes, pointer, level, place)
}

// One step down.
fn next_stop<V: View>(view: &V, way: &Way, stop: &Stop) -> Result<Step<Stop>, CallFault>
    requires dinode { HasBlock (V.seen view.now) way.now.inode }
    requires above { way.now.level < stop.now.level }
    requires some { stop.now.block ≢ 0 }
    ensures lower { IfIs result (λ next. next.level + 1 ≡ stop.now.level) }
    ensures from { IfIs result (λ next. next.pointer.from ≡ stop.now.block) }
    ensures there { IfIs result (λ next. HasBlock (V.seen view.now) next.pointer.from) }
    ensures fits { IfIs result (λ next. next.pointer.start + 8 * next.pointer.index + 8 ≤ (V.seen view.now).size) }
    ensures leads { (h : Holding) → IsShown (V.seen view.now) way.now.inode h → LeadsOn h way.now.level way.now.index stop.now → IfIs result (LeadsOn h way.now.level way.now.index) }
    ensures passed { (h : Holding) → IsFile h → IsShown (V.seen view.now) way.now.inode h → IsPassed h way.now.level way.now.index stop.now → LeadsOn h way.now.level way.now.index stop.now → IfIs result (IsPassed h way.now.level way.now.index) }
    ensures seen { IfIs result (λ next. HasBlock (V.seen view.now) stop.now.block) }
    ensures needed { (h : Holding) (i : ℕ) → IsShown (V.seen view.now) way.now.inode h → LeadsOn h way.now.level way.now.index stop.now → IsUnder h way.now.level way.now.index i → IfNeedBlock result (IsNeeded (V.seen view.now) h (λ x. x ≡ i) (way.now.level + 1)) }
    ensures damaged { (h : Holding) → IsShown (V.seen view.now) way.now.inode h → IsWayIn h way.now → LeadsOn h way.now.level way.now.index stop.now → OnlyDamaged result (IsBroken h) }
    ensures kept { OnlyDamaged result (IsOfView (V.seen view.now)) }
{
    let Some(bytes) = block_of(view, stop.block) else {
        return Ok(Step::NeedBlock(missing_block(way.inode, stop)));
    };
    if !has_header(bytes, 5, 500) {
        return Err(damaged(stop.block, 1));
    }
    let next = stop_below(way, bytes, stop)?;
    Ok(Step::Is(next))
}

// The walk from a stop on.
fn walk_down<V: View>(view: &V, way: &Way, first: Stop) -> Result<Step<Stop>, CallFault>
    requires dinode { HasBlock (V.seen view.now) way.now.inode }
    requires above { way.now.level ≤ first.level }
    requires there { HasBlock (V.seen view.now) first.pointer.from }
    requires fits { first.pointer.start + 8 * first.pointer.index + 8 ≤ (V.seen view.now).size }
    ensures stopped { (h : Holding) → IsFile h → IsShown (V.seen view.now) way.now.inode h → IsPlace h way.now.level way.now.index → IsPassed h way.now.level way.now.index first → LeadsOn h way.now.level way.now.index first → IfIs result (IsStop h way.now.level way.now.index) }
    ensures leads { (h : Holding) → IsShown (V.seen view.now) way.now.inode h → LeadsOn h way.now.level way.now.index first → IfIs result (LeadsOn h way.now.level way.now.index) }
    ensures from { (h : Holding) → IsShown (V.seen view.now) way.now.inode h → LeadsOn h way.now.level way.now.index first → IsOfInode h first.pointer.from → IfIs result (λ stop. IsOfInode h stop.pointer.from) }
    ensures there { IfIs result (λ stop. HasBlock (V.seen view.now) stop.pointer.from) }
    ensures fits { IfIs result (λ stop. stop.pointer.start + 8 * stop.pointer.index + 8 ≤ (V.seen view.now).size) }
    ensures ended { IfIs result (λ stop. (stop.level ≡ way.now.level) ⊎ (stop.block ≡ 0)) }
    ensures seen { (h : Holding) → IsFile h → IsShown (V.seen view.now) way.now.inode h → IsPassed h way.now.level way.now.index first → LeadsOn h way.now.level way.now.index first
        → IfIs result (λ stop. (l : ℕ) → stop.level < l → l ≤ first.level → HasBlock (V.seen view.now) (block_on h l (place_above h.size way.now.level way.now.index l))) }
    ensures needed { (h : Holding) (i : ℕ) → IsShown (V.seen view.now) way.now.inode h → LeadsOn h way.now.level way.now.index first → IsUnder h way.now.level way.now.index i → IfNeedBlock result (IsNeeded (V.seen view.now) h (λ x. x ≡ i) (way.now.level + 1)) }
    ensures damaged { (h : Holding) → IsShown (V.seen view.now) way.now.inode h → IsWayIn h way.now → LeadsOn h way.now.level way.now.index first → OnlyDamaged result (IsBroken h) }
    ensures kept { OnlyDamaged result (IsOfView (V.seen view.now)) }
{
    let mut stop = first;
    while stop.level > way.level && stop.block != 0 {
        match next_stop(view, way, &stop)? {
            Step::Is(next) => stop = next,
            Step::NeedBlock(missing) => return Ok(Step::NeedBlock(missing)),
        }
    }
    Ok(Step::Is(stop))
}

/// Walks from the dinode of a file down to place `index` of a level, counted from content as 0, and stops at the pointer of that place,
/// or before it at the first pointer on the way that leads nowhere. None where the tree has no such place. It costs a look at the
/// dinode and at each indirect block on the way, and no memory.
pub fn find_place<V: View>(
    view: &V,
    inode: u64,
    level: u16,
    index: u64,
) -> Result<Step<Option<Stop>>, CallFault>
    ensures found { (h : Holding) → IsFile h → IsShown (V.seen view.now) inode h → IfIs result (IsWalk h level index) }
    ensures leads { (h : Holding) → IsShown (V.seen view.now) inode h → IfIs result (λ found. IfSome found (LeadsOn h level index)) }
    ensures from { (h : Holding) → IsShown (V.seen view.now) inode h → IfIs result (λ found. IfSome found (λ stop. IsOfInode h stop.pointer.from)) }
    ensures there { IfIs result (λ found. IfSome found (λ stop. HasBlock (V.seen view.now) stop.pointer.from)) }
    ensures fits { IfIs result (λ found. IfSome found (λ stop. stop.pointer.start + 8 * stop.pointer.index + 8 ≤ (V.seen view.now).size)) }
    ensures ended { IfIs result (λ found. IfSome found (λ stop. (stop.level ≡ level) ⊎ (stop.block ≡ 0))) }
    ensures dinode { IfIs result (λ found. HasBlock (V.seen view.now) inode) }
    ensures seen { (h : Holding) → IsFile h → IsShown (V.seen view.now) inode h → IfIs result (λ found. IfSome found (AreSeenAbove (V.seen view.now) h level index)) }
    ensures needed { (h : Holding) (i : ℕ) → IsShown (V.seen view.now) inode h → IsUnder h level index i → IfNeedBlock result (IsNeeded (V.seen view.now) h (λ x. x ≡ i) (level + 1)) }
    ensures damaged { (h : Holding) → IsShown (V.seen view.now) inode h → OnlyDamaged result (IsBroken h) }
    ensures kept { OnlyDamaged result (IsOfView (V.seen view.now)) }
{
    let dinode = match read_dinode(view, inode)? {
        Step::Is(dinode) => dinode,
        Step::NeedBlock(missing) => return Ok(Step::NeedBlock(missing)),
    };
    let Some(bytes) = block_of(view, inode) else {
        unreachable!()
    };
    let way = Way {
        inode,
        height: dinode.height,
        count: count_blocks(bytes.len(), &dinode),
        level,
        index,
    };
    let Some(first) = first_stop(&way, bytes)? else {
        return Ok(Step::Is(None));
    };
    match walk_down(view, &way, first)? {
        Step::Is(stop) => Ok(Step::Is(Some(stop))),
        Step::NeedBlock(missing) => Ok(Step::NeedBlock(missing)),
    }
}
