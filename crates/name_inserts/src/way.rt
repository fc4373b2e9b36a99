// The blocks on the way to a name in a directory.
ghost use Rattle.std.specs.Prelude.{ℕ, List, ◌≡◌, ◌∷◌, ◌↔◌, ◌≤◌, true, None, IsTrue, Contains, IfNone, IfSome, length};
ghost use Rattle.gfs2_layout.specs.Holding.{Holding};
ghost use Rattle.gfs2_layout.specs.Inode.{Fits, depth_in, is_hashed_in};
ghost use Rattle.glock_names.specs.Steps.{IfIs, IfNeedBlock, IfDamaged, OnlyDamaged};
ghost use Rattle.glock_names.specs.Views.{HasBlock, IsOfView};
ghost use Rattle.directories.specs.Shown.{IsDirectoryIn, IsShown};
ghost use Rattle.hash_inserts.specs.Broken.{IsWrongIn};
ghost use Rattle.hash_inserts.specs.Shown as hashed;
ghost use Rattle.hash_inserts.specs.Shown.{IsInChain, IsNeededFor};
ghost use Rattle.hash_inserts.specs.ChainWalking.{OfEach};
ghost use Rattle.name_inserts.specs.Inserting.{IsNeededForName, IsWrongForName};
ghost use Rattle.name_inserts.specs.Way.{AreOfLeaf, AreRightAlong, BreaksLeaf, IsOnWay, IsRightBehind, IsRightWay};

use crc_words::crc32;
use dinode_tree::read_dinode;
use directories::{TreeTable, is_hashed};
use gfs2_layout::{Leaf, has_header, is_area};
use glock_names::{CallFault, Step, View, block_of};
use hash_inserts::{IN_LEAF, count_records, damaged, index_of, leaf_at};
use pointer_tables::{Pointer, PointerTable};
use profile_limits::MOST_BLOCKS;

// Whether a block is one of these.
fn is_one_of(block: u64, first: u64, rest: &[u64]) -> bool
    ensures { IsTrue result ↔ Contains (first ∷ rest.now) block }
{
    first == block || rest.contains(&block)
}

// The rule that a leaf's bytes break, if they do.
fn broken_rule(bytes: &[u8]) -> Option<u16>
    requires least { 512 ≤ length bytes.now }
    requires most { length bytes.now ≤ 4096 }
    ensures none { IfNone result (AreOfLeaf bytes.now) }
    ensures some { IfSome result (BreaksLeaf bytes.now) }
{
    if !has_header(bytes, 6, 600) {
        return Some(1);
    }
    let Ok(head) = Leaf::read(bytes) else {
        return Some(14);
    };
    let area = &bytes[IN_LEAF..];
    if !is_area(area) {
        return Some(9);
    }
    if usize::from(head.entries) != count_records(area) {
        return Some(14);
    }
    None
}

// Goes along a chain to its last leaf: the first leaf of it that is one of these blocks. Each leaf is looked at as it is read, and once more by
// its bytes alone.
fn leaf_among<V: View>(
    view: &V,
    dir: u64,
    depth: u16,
    head: &Pointer,
    first: u64,
    rest: &[u64],
) -> Result<Step<Option<u64>>, CallFault>
    requires from { HasBlock (V.seen view.now) head.now.from }
    ensures some { OfEach (V.seen view.now) dir head.now (λ h i. IfIs result (λ found. IfSome found (λ x. Contains (first ∷ rest.now) x × ((place : ℕ) × IsInChain h i place x)))) }
    ensures there { IfIs result (λ found. IfSome found (HasBlock (V.seen view.now))) }
    ensures none { OfEach (V.seen view.now) dir head.now (λ h i. depth ≡ depth_in h → IfIs result (λ found. IfNone found (AreRightAlong (V.seen view.now) h i (first ∷ rest.now)))) }
    ensures needed { OfEach (V.seen view.now) dir head.now (λ h i. IfNeedBlock result (IsNeededFor (V.seen view.now) h (λ k. k ≡ i))) }
    ensures absent { IfNeedBlock result (λ missing. (V.seen view.now).block_at missing.block ≡ None) }
    ensures damaged { OfEach (V.seen view.now) dir head.now (λ h i. depth ≡ depth_in h → OnlyDamaged result (IsWrongIn (V.seen view.now) h)) }
    ensures kept { OnlyDamaged result (IsOfView (V.seen view.now)) }
{
    let _size = view.block_size();
    let mut link = *head;
    for _place in 0..MOST_BLOCKS {
        let leaf = match leaf_at(view, dir, depth, &link)? {
            Step::Is(leaf) => leaf,
            Step::NeedBlock(missing) => return Ok(Step::NeedBlock(missing)),
        };
        let Some(bytes) = block_of(view, link.leaf) else {
            unreachable!()
        };
        if let Some(rule) = broken_rule(bytes) {
            return Err(damaged(link.leaf, rule));
        }
        if is_one_of(link.leaf, first, rest) {
            return Ok(Step::Is(Some(link.leaf)));
        }
        if leaf.head.next == 0 {
            return Ok(Step::Is(None));
        }
        link = Pointer {
            leaf: leaf.head.next,
            from: link.leaf,
        };
    }
    // a chain with more leaves than a device has blocks comes to one of them again
    Err(damaged(link.from, 15))
}

// The first block on the way to a name of a hashed directory, behind its dinode, that is one of these blocks.
fn block_of_hashed<V: View>(
    view: &V,
    dir: u64,
    name: &[u8],
    first: u64,
    rest: &[u64],
) -> Result<Step<Option<u64>>, CallFault>
    requires short { length name.now ≤ 255 }
    ensures some { (h : Holding) → IsShown (V.seen view.now) dir h → is_hashed_in h ≡ true → Fits h → IfIs result (λ found. IfSome found (λ b. Contains (first ∷ rest.now) b × IsOnWay h name.now b)) }
    ensures there { IfIs result (λ found. IfSome found (HasBlock (V.seen view.now))) }
    ensures none { (h : Holding) → IsShown (V.seen view.now) dir h → is_hashed_in h ≡ true → IfIs result (λ found. IfNone found (IsRightBehind (V.seen view.now) h name.now (first ∷ rest.now))) }
    ensures needed { (h : Holding) → IsShown (V.seen view.now) dir h → is_hashed_in h ≡ true → IfNeedBlock result (IsNeededForName (V.seen view.now) h name.now) }
    ensures absent { IfNeedBlock result (λ missing. (V.seen view.now).block_at missing.block ≡ None) }
    ensures damaged { (h : Holding) → IsShown (V.seen view.now) dir h → is_hashed_in h ≡ true → OnlyDamaged result (IsWrongForName (V.seen view.now) h) }
    ensures kept { OnlyDamaged result (IsOfView (V.seen view.now)) }
{
    let _size = view.block_size();
    let table = match TreeTable::of(view, dir)? {
        Step::Is(table) => table,
        Step::NeedBlock(missing) => return Ok(Step::NeedBlock(missing)),
    };
    let depth = table.depth();
    let head = match table.get(view, index_of(crc32(name), depth))? {
        Step::Is(head) => head,
        Step::NeedBlock(missing) => return Ok(Step::NeedBlock(missing)),
    };
    if is_one_of(head.from, first, rest) {
        return Ok(Step::Is(Some(head.from)));
    }
    leaf_among(view, dir, depth, &head, first, rest)
}

/// The first block on the way to a name that isn't in the directory with its dinode in this block, which is one of these blocks: the dinode's; of a
/// hashed one that with the pointer to the name's chain, or a leaf of this. Where none is, each was looked at and is right by itself. It looks at
/// what a look-up of the name looks at, and counts the records of each leaf of the chain.
pub fn block_on_way<V: View>(
    view: &V,
    dir: u64,
    name: &[u8],
    first: u64,
    rest: &[u64],
) -> Result<Step<Option<u64>>, CallFault>
    requires directory { IsDirectoryIn (V.seen view.now) dir }
    requires short { length name.now ≤ 255 }
    ensures some { (h : Holding) → IsShown (V.seen view.now) dir h → IfIs result (λ found. IfSome found (λ b. Contains (first ∷ rest.now) b × IsOnWay h name.now b)) }
    ensures there { IfIs result (λ found. IfSome found (HasBlock (V.seen view.now))) }
    ensures none { (h : Holding) → IsShown (V.seen view.now) dir h → IfIs result (λ found. IfNone found (IsRightWay (V.seen view.now) h name.now (first ∷ rest.now))) }
    ensures needed { (h : Holding) → IsShown (V.seen view.now) dir h → IfNeedBlock result (IsNeededForName (V.seen view.now) h name.now) }
    ensures absent { IfNeedBlock result (λ missing. (V.seen view.now).block_at missing.block ≡ None) }
    ensures damaged { (h : Holding) → IsShown (V.seen view.now) dir h → OnlyDamaged result (IsWrongForName (V.seen view.now) h) }
    ensures kept { OnlyDamaged result (IsOfView (V.seen view.now)) }
{
    let dinode = match read_dinode(view, dir)? {
        Step::Is(dinode) => dinode,
        Step::NeedBlock(missing) => return Ok(Step::NeedBlock(missing)),
    };
    if is_one_of(dir, first, rest) {
        return Ok(Step::Is(Some(dir)));
    }
    if !is_hashed(&dinode) {
        return Ok(Step::Is(None));
    }
    block_of_hashed(view, dir, name, first, rest)
}
