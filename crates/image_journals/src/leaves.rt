// Names in the leaves of a chain.
ghost use Rattle.std.specs.Prelude.{ℕ, ◌≡◌, ◌<◌, ◌^◌, ◌≤◌, true, length, IfOk, Some};
ghost use Rattle.std.specs.Option.{option_map};
ghost use Rattle.gfs2_layout.specs.Area.{IsArea};
ghost use Rattle.gfs2_layout.specs.Holding.{Holding, bytes_at};
ghost use Rattle.gfs2_layout.specs.Inode.{IsLeaf, entry, is_hashed_in, leaf_area, leaf_in, table_count};
ghost use Rattle.gfs2_layout.specs.Records.{record_named, records_in};
ghost use Rattle.linear_dirs.specs.Shown.{entry_of};
ghost use Rattle.hash_dirs.specs.Finding.{IsFoundAlong};
ghost use Rattle.image_journals.specs.Blocks.{seen_of};
ghost use Rattle.image_journals.specs.Shown.{IfMemory};
ghost use Rattle.image_journals.specs.Sound.{IsDirectoryIn};

use crate::Unfound;
use crate::blocks::ImageBlocks;
use gfs2_layout::{Dirent, Leaf, find_record, is_area, records_are_found_by_name};
use glock_names::{Entry, block_of};

// Where the records of a leaf begin.
const IN_LEAF: usize = 104;

/// Where the first record of this name leads.
pub(crate) fn entry_in(area: &[u8], name: &[u8]) -> Option<Entry>
    requires area { IsArea area.now }
    requires short { length area.now ≤ 4096 }
    ensures { result ≡ option_map entry_of (record_named (records_in area.now) name.now) }
{
    records_are_found_by_name();
    let at = find_record(area, name)?;
    let head = Dirent::head(&area[at as usize..]);
    Some(Entry {
        number: head.inum.number,
        addr: head.inum.address,
        kind: head.kind,
    })
}

/// A leaf: its records, and the number of the next one.
#[derive(Clone, Copy)]
pub(crate) struct LeafPart<'a> {
    pub area: &'a [u8],
    pub next: u64,
}

/// The leaf in a block.
pub(crate) fn read_leaf<'a>(blocks: &'a ImageBlocks<'_>, leaf: u64) -> Result<LeafPart<'a>, Unfound>
    ensures read { (h : Holding) (hash : ℕ) → (seen_of blocks.now).block_at leaf ≡ Some (bytes_at h leaf) → IsLeaf h hash leaf → IfMemory result (λ part. (part.area.now ≡ leaf_area h leaf) × (part.next ≡ (leaf_in h leaf).next)) }
    ensures area { IfOk result (λ part. IsArea part.area.now) }
    ensures short { IfOk result (λ part. length part.area.now ≤ 4096) }
{
    let Some(bytes) = block_of(blocks, leaf) else {
        return Err(Unfound::Broken);
    };
    let Ok(head) = Leaf::read(bytes) else {
        return Err(Unfound::Broken);
    };
    let area = &bytes[IN_LEAF..];
    if !is_area(area) {
        return Err(Unfound::Broken);
    }
    Ok(LeafPart {
        area,
        next: head.next,
    })
}

/// Where the first record of this name leads in a chain, which begins with this leaf. It goes over the records of the leaves up to that one.
pub(crate) fn find_along(
    blocks: &ImageBlocks<'_>,
    first: u64,
    name: &[u8],
) -> Result<Option<Entry>, Unfound>
    ensures { (h : Holding) (i : ℕ) → IsDirectoryIn (seen_of blocks.now) h → is_hashed_in h ≡ true → i < table_count h → first ≡ entry h i → IfMemory result (IsFoundAlong h i name.now) }
{
    let mut leaf = first;
    for _place in 0..blocks.count {
        let part = read_leaf(blocks, leaf)?;
        if let Some(entry) = entry_in(part.area, name) {
            return Ok(Some(entry));
        }
        if part.next == 0 {
            return Ok(None);
        }
        leaf = part.next;
    }
    // a chain with more leaves than there are blocks comes to one of them again
    Err(Unfound::Broken)
}
