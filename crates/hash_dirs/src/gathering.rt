// The leaves of a hashed directory, and how many records they have.
ghost use Rattle.std.specs.Prelude.{ℕ, List, ◌≡◌, ◌<◌, ◌==◌, Contains, None, Some, length, drop};
ghost use Rattle.gfs2_layout.specs.Area.{IsArea};
ghost use Rattle.gfs2_layout.specs.Holding.{Holding};
ghost use Rattle.gfs2_layout.specs.Inode.{depth_in, leaf_length, table_count};
ghost use Rattle.gfs2_layout.specs.Records.{records_in};
ghost use Rattle.glock_names.specs.Steps.{IfIs, IfNeedBlock, IfDamaged};
ghost use Rattle.glock_names.specs.Views.{HasBlock, IsOfView};
ghost use Rattle.hash_dirs.specs.Shown.{IsNeededFor, IsShown};
ghost use Rattle.hash_dirs.specs.Leaves.{AreLeaves, AreNew, AreNewIn, IsLeaf, IsRead, records_among};
ghost use Rattle.hash_dirs.specs.Walking.{OfEach};
ghost use Rattle.hash_dirs.specs.Broken.{IsWrongIn};

use crate::chains::{IN_LEAF, damaged, leaf_at};
use crate::listing::pointers_in;
use gfs2_layout::next_record;
use glock_names::{CallFault, Step, View, block_of};
use pointer_tables::{Pointer, PointerTable};
use profile_limits::MOST_BLOCKS;
use std::alloc::Global;

// The leaves of a chain, which begins where a pointer leads, up to the first of these known ones, if it comes to one; else the chain ends.
fn chain_of<V: View>(
    alloc: Global,
    view: &V,
    dir: u64,
    depth: u16,
    head: &Pointer,
    known: &[u64],
) -> Result<Step<Vec<u64>>, CallFault>
    requires from { HasBlock (V.seen view.now) head.now.from }
    ensures listed { OfEach (V.seen view.now) dir head.now (λ h i. IfIs result (λ chain. AreNewIn h i known.now chain.items)) }
    ensures new { IfIs result (λ chain. AreNew known.now chain.items) }
    ensures read { IfIs result (λ chain. (x : ℕ) → Contains chain.items x → IsRead (V.seen view.now) x) }
    ensures needed { OfEach (V.seen view.now) dir head.now (λ h i. IfNeedBlock result (IsNeededFor (V.seen view.now) h (λ k. k ≡ i))) }
    ensures absent { IfNeedBlock result (λ missing. (V.seen view.now).block_at missing.block ≡ None) }
    ensures damaged { OfEach (V.seen view.now) dir head.now (λ h i. depth ≡ depth_in h → IfDamaged result (IsWrongIn (V.seen view.now) h)) }
    ensures kept { IfDamaged result (IsOfView (V.seen view.now)) }
{
    let mut chain = Vec::new(alloc);
    let mut link = *head;
    for _place in 0..MOST_BLOCKS {
        if known.contains(&link.leaf) {
            return Ok(Step::Is(chain));
        }
        if chain.contains(&link.leaf) {
            return Err(damaged(link.leaf, 15));
        }
        let leaf = match leaf_at(view, dir, depth, &link)? {
            Step::Is(leaf) => leaf,
            Step::NeedBlock(missing) => return Ok(Step::NeedBlock(missing)),
        };
        chain.push(link.leaf)?;
        if leaf.head.next == 0 {
            return Ok(Step::Is(chain));
        }
        link = Pointer {
            leaf: leaf.head.next,
            from: link.leaf,
        };
    }
    // a chain with more leaves than a device has blocks comes to one of them again
    Err(damaged(link.from, 15))
}

/// The blocks of the leaves of the hashed directory with its dinode in this block, by its table, each once: pointer after pointer, and along each
/// chain up to a leaf that was found before. It looks at what `look` looks at, along each chain, and that each ends. It costs what the table takes for each pointer, a
/// step for each record to see that they fill the leaves, and for each pointer and each leaf one for each leaf that was found before. It takes memory
/// for the list.
pub fn all_leaves<V: View, T: PointerTable>(
    alloc: Global,
    view: &V,
    dir: u64,
    table: &T,
) -> Result<Step<Vec<u64>>, CallFault>
    ensures found { (h : Holding) → IsShown (V.seen view.now) dir h → T.shows table.now (V.seen view.now) h → IfIs result (λ leaves. AreLeaves h leaves.items) }
    ensures read { IfIs result (λ leaves. (x : ℕ) → Contains leaves.items x → IsRead (V.seen view.now) x) }
    ensures needed { (h : Holding) → IsShown (V.seen view.now) dir h → T.shows table.now (V.seen view.now) h → IfNeedBlock result (IsNeededFor (V.seen view.now) h (λ i. i < table_count h)) }
    ensures absent { IfNeedBlock result (λ missing. (V.seen view.now).block_at missing.block ≡ None) }
    ensures damaged { (h : Holding) → IsShown (V.seen view.now) dir h → T.shows table.now (V.seen view.now) h → IfDamaged result (IsWrongIn (V.seen view.now) h) }
    ensures kept { IfDamaged result (IsOfView (V.seen view.now)) }
{
    let depth = table.depth();
    let count = pointers_in(depth);
    let mut leaves = Vec::new(alloc);
    for index in 0..count {
        let head = match table.get(view, index)? {
            Step::Is(head) => head,
            Step::NeedBlock(missing) => return Ok(Step::NeedBlock(missing)),
        };
        let chain = match chain_of(alloc, view, dir, depth, &head, &leaves)? {
            Step::Is(chain) => chain,
            Step::NeedBlock(missing) => return Ok(Step::NeedBlock(missing)),
        };
        leaves.extend_from_slice(&chain)?;
    }
    Ok(Step::Is(leaves))
}

/// How many records of an area are in use.
pub fn count_records(area: &[u8]) -> usize
    requires { IsArea area.now }
    ensures { result ≡ length (records_in area.now) }
{
    let mut count = 0;
    let mut rest = area;
    while let Some((record, behind)) = next_record(rest) {
        if record.head.is_in_use() {
            count += 1;
        }
        rest = behind;
    }
    count
}

// How many records a leaf has, which the view has.
fn records_at<V: View>(view: &V, leaf: u64) -> usize
    requires { IsRead (V.seen view.now) leaf }
    ensures { (bytes : List ℕ) → (V.seen view.now).block_at leaf ≡ Some bytes → result ≡ length (records_in (drop leaf_length bytes)) }
{
    let Some(bytes) = block_of(view, leaf) else {
        unreachable!()
    };
    count_records(&bytes[IN_LEAF..])
}

/// Whether these leaves of a hashed directory, each of which was read, have so many records in all. It goes over the records of each.
pub fn have_records<V: View>(view: &V, dir: u64, leaves: &[u64], count: u32) -> bool
    requires read { (x : ℕ) → Contains leaves.now x → IsRead (V.seen view.now) x }
    ensures { (h : Holding) → IsShown (V.seen view.now) dir h → ((x : ℕ) → Contains leaves.now x → IsLeaf h x) → result ≡ (count == length (records_among h leaves.now)) }
{
    let mut left = count as usize;
    for leaf in leaves {
        let records = records_at(view, *leaf);
        if records > left {
            return false;
        }
        left -= records;
    }
    left == 0
}
