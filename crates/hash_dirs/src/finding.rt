// The first record of a name, leaf by leaf along a chain.
ghost use Rattle.std.specs.Prelude.{ℕ, ◌≡◌, ◌^◌, ◌<◌, ◌≤◌, None, IfSome};
ghost use Rattle.std.specs.Option.{option_map};
ghost use Rattle.gfs2_layout.specs.Holding.{Holding};
ghost use Rattle.gfs2_layout.specs.Inode.{depth_in, top_bits};
ghost use Rattle.gfs2_layout.specs.Records.{record_named, records_in};
ghost use Rattle.glock_names.specs.Steps.{IfIs, IfNeedBlock, OnlyDamaged};
ghost use Rattle.glock_names.specs.Views.{HasBlock, IsOfView};
ghost use Rattle.linear_dirs.specs.Shown.{entry_of};
ghost use Rattle.hash_dirs.specs.Shown.{IsNeededFor};
ghost use Rattle.hash_dirs.specs.Finding.{IsFoundAlong};
ghost use Rattle.hash_dirs.specs.Walking.{IsAreaOfBlock, OfEach};
ghost use Rattle.hash_dirs.specs.Spots.{IsInPlace, IsSpotIn, IsSpotOf, entry_at};
ghost use Rattle.hash_dirs.specs.Broken.{IsWrongIn};

use crate::chains::{damaged, leaf_at};
use gfs2_layout::{Dirent, Leaf, find_record, records_are_found_by_name};
use glock_names::{CallFault, Entry, Step, View};
use pointer_tables::Pointer;
use profile_limits::MOST_BLOCKS;

/// A record of an area: its place in it, in bytes, and where it leads.
#[derive(Clone, Copy)]
pub(crate) struct Spot {
    pub at: u32,
    pub entry: Entry,
}

/// A record of a leaf: the leaf's block and what its head says, and the record in it.
#[derive(Clone, Copy)]
pub(crate) struct Found {
    pub block: u64,
    pub head: Leaf,
    pub spot: Spot,
}

/// The index of a hash in a table of this depth: so many of its top bits.
pub fn index_of(hash: u32, depth: u16) -> u32
    requires { depth ≤ 15 }
    ensures value { result ≡ top_bits depth hash }
    ensures low { result < 2 ^ depth }
{
    (u64::from(hash) >> (32 - depth)) as u32
}

// The first record of this name in an area.
fn spot_in(area: &[u8], name: &[u8]) -> Option<Spot>
    requires { IsAreaOfBlock area.now }
    ensures leads { option_map (λ (s : Spot). s.entry) result ≡ option_map entry_of (record_named (records_in area.now) name.now) }
    ensures spot { IfSome result (IsSpotOf area.now name.now) }
{
    records_are_found_by_name();
    let at = find_record(area, name)?;
    let head = Dirent::head(&area[at as usize..]);
    let entry = Entry {
        number: head.inum.number,
        addr: head.inum.address,
        kind: head.kind,
    };
    Some(Spot { at, entry })
}

/// The first record of this name in a chain, of the directory with its dinode in this block, whose table is so deep. The chain
/// begins where a pointer leads.
pub(crate) fn find_along<V: View>(
    view: &V,
    dir: u64,
    depth: u16,
    head: &Pointer,
    name: &[u8],
) -> Result<Step<Option<Found>>, CallFault>
    requires from { HasBlock (V.seen view.now) head.now.from }
    ensures found { OfEach (V.seen view.now) dir head.now (λ h i. depth ≡ depth_in h → IfIs result (λ found. IsFoundAlong h i name.now (entry_at found))) }
    ensures place { OfEach (V.seen view.now) dir head.now (λ h i. depth ≡ depth_in h → IfIs result (λ found. IfSome found (IsInPlace h i name.now))) }
    ensures spot { IfIs result (λ found. IfSome found (IsSpotIn (V.seen view.now) name.now)) }
    ensures needed { OfEach (V.seen view.now) dir head.now (λ h i. IfNeedBlock result (IsNeededFor (V.seen view.now) h (λ k. k ≡ i))) }
    ensures absent { IfNeedBlock result (λ missing. (V.seen view.now).block_at missing.block ≡ None) }
    ensures damaged { OfEach (V.seen view.now) dir head.now (λ h i. depth ≡ depth_in h → OnlyDamaged result (IsWrongIn (V.seen view.now) h)) }
    ensures kept { OnlyDamaged result (IsOfView (V.seen view.now)) }
{
    let mut link = *head;
    for _place in 0..MOST_BLOCKS {
        let leaf = match leaf_at(view, dir, depth, &link)? {
            Step::Is(leaf) => leaf,
            Step::NeedBlock(missing) => return Ok(Step::NeedBlock(missing)),
        };
        if let Some(spot) = spot_in(leaf.area, name) {
            return Ok(Step::Is(Some(Found {
                block: link.leaf,
                head: leaf.head,
                spot,
            })));
        }
        if leaf.head.next == 0 {
            return Ok(Step::Is(None));
        }
        link = Pointer {
            leaf: leaf.head.next,
            from: link.leaf,
        };
    }
    // a chain with more leaves than a device has blocks comes to one of them again
    Err(damaged(link.from, 15))
}
