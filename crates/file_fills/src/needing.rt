// How many blocks a write takes.
ghost use Rattle.std.specs.Prelude.{ℕ, ◌≡◌, ◌⊎◌, ◌+◌, ◌-◌, ◌^◌, ◌<◌, ◌≤◌, max, true, false, length, not, if◌then◌else◌, count_by};
ghost use Rattle.std.specs.List.{range_with_len};
ghost use Rattle.file_tree.specs.Apply.{file_limit};
ghost use Rattle.gfs2_layout.specs.Holding.{Holding};
ghost use Rattle.gfs2_layout.specs.Inode.{content_count, dinode_in, height_in};
ghost use Rattle.glock_names.specs.Steps.{IfIs, IfNeedBlock, OnlyDamaged};
ghost use Rattle.glock_names.specs.Views.{HasBlock, IsOfView};
ghost use Rattle.dinode_tree.specs.Broken.{IsBroken};
ghost use Rattle.dinode_tree.specs.Reading.{IsNeeded};
ghost use Rattle.dinode_tree.specs.Shown.{IsShown};
ghost use Rattle.growth_laws.specs.Files.{IsFile};
ghost use Rattle.growth_laws.specs.Need.{has_content, height_for, is_over, is_there, needed, needed_below, needed_on};
ghost use Rattle.growth_drafts.specs.Taken.{HasBytes, IsLookedAt};
ghost use Rattle.file_walks.specs.Going.{AreBytesOf};
ghost use Rattle.file_fills.specs.Filling.{IsSeenWay};
ghost use Rattle.file_fills.specs.Counting.{IsWriteTo};

use crate::looking::{look_at, look_between};
use crate::numbers::{has_pointer, height_for, places_over};
use dinode_tree::read_dinode;
use file_walks::{count_blocks, find_place};
use gfs2_layout::Dinode;
use glock_names::{CallFault, Step, View, block_of};

// A write of the bytes from `at` up to `end`, to a file with its dinode in this block, of this height, with blocks of so many bytes; and
// whether it has content that goes along when it grows.
#[derive(Clone, Copy)]
pub(crate) struct Write {
    pub inode: u64,
    pub size: usize,
    pub height: u16,
    pub content: bool,
    pub at: u64,
    pub end: u64,
}

/// Whether a file has content that goes along when it gets higher, by the bytes of its dinode's block: a pointer that leads somewhere, and
/// at height 0 a size. It costs a look at the dinode's pointers.
pub fn goes_along(bytes: &[u8], dinode: &Dinode) -> bool
    requires large { 512 ≤ length bytes.now }
    requires small { length bytes.now ≤ 4096 }
    ensures { (h : Holding) → AreBytesOf h h.own bytes.now → dinode.now ≡ dinode_in h → result ≡ has_content h }
{
    if dinode.height == 0 {
        dinode.size != 0
    } else {
        has_pointer(bytes)
    }
}

// Whether no block stands at a place of a level that the file has.
fn is_lacking<V: View>(
    view: &V,
    write: &Write,
    level: u16,
    place: u64,
) -> Result<Step<bool>, CallFault>
    requires large { 512 ≤ write.now.size }
    requires over { is_over write.now.size write.now.at write.now.end level place ≡ true }
    ensures found { (h : Holding) → IsFile h → IsShown (V.seen view.now) write.now.inode h → IfIs result (λ lacking. lacking ≡ not (is_there h level place)) }
    ensures needed { (h : Holding) → IsShown (V.seen view.now) write.now.inode h → write.now.size ≡ h.size → IfNeedBlock result (IsNeeded (V.seen view.now) h (HasBytes h.size write.now.at write.now.end) 0) }
    ensures damaged { (h : Holding) → IsShown (V.seen view.now) write.now.inode h → OnlyDamaged result (IsBroken h) }
    ensures kept { OnlyDamaged result (IsOfView (V.seen view.now)) }
{
    match find_place(view, write.inode, level, place)? {
        Step::Is(Some(stop)) => Ok(Step::Is(stop.level != level || stop.block == 0)),
        Step::Is(None) => Ok(Step::Is(true)),
        Step::NeedBlock(missing) => Ok(Step::NeedBlock(missing)),
    }
}

// One more, where it is counted.
fn counted(count: u64, is_counted: bool) -> u64
    requires { count < 2 ^ 64 - 1 }
    ensures { result ≡ count + (if is_counted then 1 else 0) }
{
    if is_counted { count + 1 } else { count }
}

// How many of these places of a level have no block.
fn count_lacking<V: View>(
    view: &V,
    write: &Write,
    level: u16,
    first: u64,
    until: u64,
) -> Result<Step<u64>, CallFault>
    requires large { 512 ≤ write.now.size }
    requires order { first ≤ until }
    requires over { (j : ℕ) → first ≤ j → j < until → is_over write.now.size write.now.at write.now.end level j ≡ true }
    ensures found { (h : Holding) → IsFile h → IsShown (V.seen view.now) write.now.inode h → IfIs result (λ need. need ≡ count_by (λ j. not (is_there h level j)) (range_with_len first (until - first))) }
    ensures few { IfIs result (λ need. need ≤ until) }
    ensures needed { (h : Holding) → IsShown (V.seen view.now) write.now.inode h → write.now.size ≡ h.size → IfNeedBlock result (IsNeeded (V.seen view.now) h (HasBytes h.size write.now.at write.now.end) 0) }
    ensures damaged { (h : Holding) → IsShown (V.seen view.now) write.now.inode h → OnlyDamaged result (IsBroken h) }
    ensures kept { OnlyDamaged result (IsOfView (V.seen view.now)) }
{
    let mut lacking: u64 = 0;
    for place in first..until {
        match is_lacking(view, write, level, place)? {
            Step::Is(lacks) => lacking = counted(lacking, lacks),
            Step::NeedBlock(missing) => return Ok(Step::NeedBlock(missing)),
        }
    }
    Ok(Step::Is(lacking))
}

// Whether content goes along to the first place of a level that is new, and the write's places, from the first to the one behind the last,
// don't have that place among them.
fn adds_first(content: bool, first: u64, until: u64) -> bool
    ensures yes { result ≡ true → (content ≡ true) × ((until ≡ 0) ⊎ (0 < first)) }
    ensures no { result ≡ false → (content ≡ false) ⊎ ((first ≡ 0) × (0 < until)) }
{
    content && (first > 0 || until == 0)
}

// How many blocks the write needs on a level that is new.
fn need_on_new(write: &Write, level: u16) -> u64
    requires large { 512 ≤ write.now.size }
    requires small { write.now.size ≤ 4096 }
    requires short { write.now.end < 2 ^ 32 }
    ensures found { (h : Holding) → IsFile h → IsWriteTo h write.now → height_in h ≤ level → result ≡ needed_on h write.now.at write.now.end level }
    ensures few { result ≤ write.now.end + 1 }
{
    let (first, until) = places_over(write.size, level, write.at, write.end);
    if adds_first(write.content, first, until) {
        until - first + 1
    } else {
        until - first
    }
}

// How many blocks the write needs on a level.
fn need_on<V: View>(view: &V, write: &Write, level: u16) -> Result<Step<u64>, CallFault>
    requires large { 512 ≤ write.now.size }
    requires small { write.now.size ≤ 4096 }
    requires short { write.now.end < 2 ^ 32 }
    ensures found { (h : Holding) → IsFile h → IsShown (V.seen view.now) write.now.inode h → IsWriteTo h write.now → IfIs result (λ need. need ≡ needed_on h write.now.at write.now.end level) }
    ensures few { IfIs result (λ need. need ≤ write.now.end + 1) }
    ensures needed { (h : Holding) → IsShown (V.seen view.now) write.now.inode h → write.now.size ≡ h.size → IfNeedBlock result (IsNeeded (V.seen view.now) h (HasBytes h.size write.now.at write.now.end) 0) }
    ensures damaged { (h : Holding) → IsShown (V.seen view.now) write.now.inode h → OnlyDamaged result (IsBroken h) }
    ensures kept { OnlyDamaged result (IsOfView (V.seen view.now)) }
{
    if level >= write.height {
        return Ok(Step::Is(need_on_new(write, level)));
    }
    let (first, until) = places_over(write.size, level, write.at, write.end);
    count_lacking(view, write, level, first, until)
}

// How many blocks the write needs on the levels below a height.
fn need_below<V: View>(view: &V, write: &Write, height: u16) -> Result<Step<u64>, CallFault>
    requires large { 512 ≤ write.now.size }
    requires small { write.now.size ≤ 4096 }
    requires short { write.now.end < 2 ^ 32 }
    ensures found { (h : Holding) → IsFile h → IsShown (V.seen view.now) write.now.inode h → IsWriteTo h write.now → IfIs result (λ need. need ≡ needed_below h write.now.at write.now.end height) }
    ensures needed { (h : Holding) → IsShown (V.seen view.now) write.now.inode h → write.now.size ≡ h.size → IfNeedBlock result (IsNeeded (V.seen view.now) h (HasBytes h.size write.now.at write.now.end) 0) }
    ensures damaged { (h : Holding) → IsShown (V.seen view.now) write.now.inode h → OnlyDamaged result (IsBroken h) }
    ensures kept { OnlyDamaged result (IsOfView (V.seen view.now)) }
{
    let mut need: u64 = 0;
    for level in 0..height {
        match need_on(view, write, level)? {
            Step::Is(more) => need += more,
            Step::NeedBlock(missing) => return Ok(Step::NeedBlock(missing)),
        }
    }
    Ok(Step::Is(need))
}

// Looks at the last block of content, where the file's end moves on.
fn look_at_end<V: View>(
    view: &V,
    inode: u64,
    dinode: &Dinode,
    end: u64,
) -> Result<Step<()>, CallFault>
    ensures seen { (h : Holding) (i : ℕ) → IsFile h → IsShown (V.seen view.now) inode h → dinode.now ≡ dinode_in h → (dinode_in h).size < end → i + 1 ≡ content_count h → IfIs result (λ done. IsSeenWay (V.seen view.now) h i) }
    ensures needed { (h : Holding) → IsShown (V.seen view.now) inode h → dinode.now ≡ dinode_in h → IfNeedBlock result (IsNeeded (V.seen view.now) h (λ i. ((dinode_in h).size < end) × (i + 1 ≡ content_count h)) 0) }
    ensures damaged { (h : Holding) → IsShown (V.seen view.now) inode h → OnlyDamaged result (IsBroken h) }
    ensures kept { OnlyDamaged result (IsOfView (V.seen view.now)) }
{
    let count = count_blocks(view.block_size() as usize, dinode);
    if dinode.size < end && count > 0 {
        return look_at(view, inode, dinode.is_regular(), count - 1);
    }
    Ok(Step::Is(()))
}

// Looks at the blocks of content at which the write will look.
fn look_for_write<V: View>(
    view: &V,
    inode: u64,
    dinode: &Dinode,
    at: u64,
    end: u64,
) -> Result<Step<()>, CallFault>
    ensures seen { (h : Holding) (i : ℕ) → IsFile h → IsShown (V.seen view.now) inode h → dinode.now ≡ dinode_in h → IsLookedAt h at end i → IfIs result (λ done. IsSeenWay (V.seen view.now) h i) }
    ensures needed { (h : Holding) → IsShown (V.seen view.now) inode h → dinode.now ≡ dinode_in h → IfNeedBlock result (IsNeeded (V.seen view.now) h (IsLookedAt h at end) 0) }
    ensures damaged { (h : Holding) → IsShown (V.seen view.now) inode h → OnlyDamaged result (IsBroken h) }
    ensures kept { OnlyDamaged result (IsOfView (V.seen view.now)) }
{
    match look_at_end(view, inode, dinode, end)? {
        Step::Is(()) => {}
        Step::NeedBlock(missing) => return Ok(Step::NeedBlock(missing)),
    }
    let (first, until) = places_over(view.block_size() as usize, 0, at, end);
    look_between(view, inode, dinode.is_regular(), first, until)
}

// The write, by the dinode's block.
fn write_to(inode: u64, bytes: &[u8], dinode: &Dinode, at: u64, end: u64) -> Write
    requires large { 512 ≤ length bytes.now }
    requires small { length bytes.now ≤ 4096 }
    ensures is { (h : Holding) → h.own ≡ inode → AreBytesOf h h.own bytes.now → dinode.now ≡ dinode_in h → IsWriteTo h result }
    ensures at { result.at ≡ at }
    ensures end { result.end ≡ end }
    ensures inode { result.inode ≡ inode }
    ensures size { result.size ≡ length bytes.now }
    ensures height { result.height ≡ dinode.now.height }
{
    Write {
        inode,
        size: bytes.len(),
        height: dinode.height,
        content: goes_along(bytes, dinode),
        at,
        end,
    }
}

// How many blocks the write needs, of a file that was looked at.
fn count_need<V: View>(
    view: &V,
    inode: u64,
    dinode: &Dinode,
    at: u64,
    end: u64,
) -> Result<Step<u64>, CallFault>
    requires there { HasBlock (V.seen view.now) inode }
    requires short { end < 2 ^ 32 }
    ensures found { (h : Holding) → IsFile h → IsShown (V.seen view.now) inode h → dinode.now ≡ dinode_in h → IfIs result (λ need. need ≡ needed_below h at end (height_for h (max (dinode_in h).size end))) }
    ensures needed { (h : Holding) → IsShown (V.seen view.now) inode h → IfNeedBlock result (IsNeeded (V.seen view.now) h (HasBytes h.size at end) 0) }
    ensures damaged { (h : Holding) → IsShown (V.seen view.now) inode h → OnlyDamaged result (IsBroken h) }
    ensures kept { OnlyDamaged result (IsOfView (V.seen view.now)) }
{
    let Some(bytes) = block_of(view, inode) else {
        unreachable!()
    };
    let write = write_to(inode, bytes, dinode, at, end);
    let height = height_for(bytes.len(), dinode.height, dinode.size.max(end));
    need_below(view, &write, height)
}

/// How many blocks a write of `len` bytes from byte `at` of a file's content takes, and with `len` 0 a file that grows to `at` bytes. It
/// asks for the blocks of content at which such a write looks, and for all on the way there, so that the write finds them. It costs a look
/// at each of these for each block of content or place between, and no memory.
pub fn need_write<V: View>(view: &V, inode: u64, at: u64, len: u32) -> Result<Step<u64>, CallFault>
    requires short { at + len ≤ file_limit }
    ensures found { (h : Holding) → IsFile h → IsShown (V.seen view.now) inode h → IfIs result (λ need. need ≡ needed h at len) }
    ensures looked { (h : Holding) (i : ℕ) → IsFile h → IsShown (V.seen view.now) inode h → IsLookedAt h at (at + len) i → IfIs result (λ need. IsSeenWay (V.seen view.now) h i) }
    ensures there { IfIs result (λ need. HasBlock (V.seen view.now) inode) }
    ensures needed { (h : Holding) → IsShown (V.seen view.now) inode h → IfNeedBlock result (IsNeeded (V.seen view.now) h (IsLookedAt h at (at + len)) 0) }
    ensures damaged { (h : Holding) → IsShown (V.seen view.now) inode h → OnlyDamaged result (IsBroken h) }
    ensures kept { OnlyDamaged result (IsOfView (V.seen view.now)) }
{
    let dinode = match read_dinode(view, inode)? {
        Step::Is(dinode) => dinode,
        Step::NeedBlock(missing) => return Ok(Step::NeedBlock(missing)),
    };
    let end = at + u64::from(len);
    match look_for_write(view, inode, &dinode, at, end)? {
        Step::Is(()) => {}
        Step::NeedBlock(missing) => return Ok(Step::NeedBlock(missing)),
    }
    count_need(view, inode, &dinode, at, end)
}
