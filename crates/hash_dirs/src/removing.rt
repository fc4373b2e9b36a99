// A name taken from a hashed directory in a draft.
ghost use Rattle.std.specs.Prelude.{ℕ, List, ◌≡◌, ◌≢◌, ◌⊎◌, ◌<◌, ◌≤◌, [], ◌∷◌, false, length, drop, Ok, None, Some, OnOk, OnErr, IfSome, IfNone, IsSome};
ghost use Rattle.std.specs.FinMap.{insert as with_fate};
ghost use Rattle.drafts.specs.declared.fate.Fate.TheVariants.{Put};
ghost use Rattle.drafts.specs.Fates.{seen_in};
ghost use Rattle.gfs2_layout.specs.Area.{IsArea, IsRecordAt};
ghost use Rattle.gfs2_layout.specs.Exchanges.{directory_count};
ghost use Rattle.gfs2_layout.specs.Holding.{Holding, bytes_at};
ghost use Rattle.gfs2_layout.specs.Inode.{leaf_length, records_of};
ghost use Rattle.gfs2_layout.specs.Records.{Record, record_named};
ghost use Rattle.gfs2_layout.specs.Structures.{dinode_length, dinode_read, leaf_of};
ghost use Rattle.gfs2_layout.specs.Writing.{dinode_put};
ghost use Rattle.gfs2_layout.specs.declared.dinode.Dinode.{Dinode as DinodeValue};
ghost use Rattle.glock_names.specs.Steps.{IfIs, IfNeedBlock, IfDamaged};
ghost use Rattle.glock_names.specs.Views.{HasBlock, IsOfView};
ghost use Rattle.dinode_tree.specs.Pads.{KeepsPads};
ghost use Rattle.dinode_tree.specs.Reading.{inode_lock};
ghost use Rattle.linear_dirs.specs.Exchanges.{HasExchanged};
ghost use Rattle.linear_dirs.specs.Reading.{IsFewer};
ghost use Rattle.linear_dirs.specs.Shown.{holding_over};
ghost use Rattle.hash_dirs.specs.Shown.{IsNeededFor, IsShown, IsSound, index_for};
ghost use Rattle.hash_dirs.specs.Exchanging.{ArePut, IsCountedLess, IsCutFrom, IsCutPut, IsLeafCut};
ghost use Rattle.hash_dirs.specs.Finding.{IsLeafOfName};
ghost use Rattle.hash_dirs.specs.Spots.{IsSpotIn};
ghost use Rattle.hash_dirs.specs.Broken.{IsWrongIn};

use crate::chains::{IN_LEAF, damaged};
use crate::finding::{Found, find_along, index_of};
use crate::laws::chains_tell_names;
use crc_words::crc32;
use dinode_tree::{read_dinode, sound_inodes_are_shown};
use drafts::Draft;
use file_tree::is_dots;
use gfs2_layout::{
    DINODE_LENGTH, Dinode, Leaf, areas_exchange_records, cut_record, records_are_found_by_name,
};
use glock_names::{CallFault, Step, View};
use linear_dirs::lock_of;
use no_memory::NoMemory;
use pointer_tables::PointerTable;

// How many of a directory's links a record of this name and kind is: one where it leads to a directory below.
fn links_of(name: &[u8], kind: u16) -> u32
    ensures value { (r : Record) → r.name ≡ name.now → r.kind ≡ kind → result ≡ directory_count (r ∷ []) }
    ensures most { result ≤ 1 }
{
    u32::from(!is_dots(name) && kind == 4)
}

// The dinode that counts a record less, and so many links less; None where it counts too few.
fn with_fewer(dinode: &Dinode, links: u32) -> Option<Dinode>
    ensures some { IfSome result (λ fewer. IsFewer dinode.now fewer links) }
    ensures none { IfNone result ((dinode.now.entries < 1) ⊎ (dinode.now.nlink < links)) }
{
    let entries = dinode.entries.checked_sub(1)?;
    let nlink = dinode.nlink.checked_sub(links)?;
    Some(Dinode {
        entries,
        nlink,
        ..*dinode
    })
}

// Cuts the record at a place of a leaf's block, and counts it no more.
fn cut_in_leaf(bytes: &mut [u8], head: &Leaf, at: u32)
    requires long { leaf_length ≤ length bytes.old }
    requires short { length (drop leaf_length bytes.old) ≤ 4096 }
    requires area { IsArea (drop leaf_length bytes.old) }
    requires place { IsRecordAt (drop leaf_length bytes.old) at }
    requires head { head.now ≡ leaf_of bytes.old }
    requires some { head.now.entries ≢ 0 }
    ensures cut { IsLeafCut bytes.old bytes.new at }
{
    let fewer = Leaf {
        entries: head.entries - 1,
        ..*head
    };
    cut_record(&mut bytes[IN_LEAF..], at);
    fewer.write(bytes);
}

// Cuts the record that was found, in the draft.
fn cut_found<V: View>(
    draft: &mut Draft<'_, V>,
    dir: u64,
    name: &[u8],
    found: &Found,
) -> Result<(), NoMemory>
    requires seen { IsSpotIn (seen_in V.seen draft.old) name.now found.now }
    requires some { found.now.head.entries ≢ 0 }
    ensures cut { (bytes : List ℕ) → (seen_in V.seen draft.old).block_at found.now.block ≡ Some bytes → OnOk result ((leaf : List ℕ)
        × (length leaf ≡ (V.seen draft.old.view).size) × IsLeafCut bytes leaf found.now.spot.at × (draft.new ≡ record draft.old { fates = with_fate draft.old.fates found.now.block (Put (inode_lock dir) false leaf) })) }
    ensures err { OnErr result (draft.new ≡ draft.old) }
{
    let Some(mut bytes) = draft.copy(found.block)? else {
        unreachable!()
    };
    cut_in_leaf(&mut bytes, &found.head, found.spot.at);
    draft.put(lock_of(dir), found.block, false, &bytes)?;
    Ok(())
}

// Writes a directory's dinode over the old one, in the draft.
fn put_dinode<V: View>(draft: &mut Draft<'_, V>, dir: u64, dinode: &Dinode) -> Result<(), NoMemory>
    requires there { HasBlock (seen_in V.seen draft.old) dir }
    requires large { dinode_length ≤ (V.seen draft.old.view).size }
    ensures put { (bytes : List ℕ) → (seen_in V.seen draft.old).block_at dir ≡ Some bytes
        → OnOk result (draft.new ≡ record draft.old { fates = with_fate draft.old.fates dir (Put (inode_lock dir) false (dinode_put dinode.now bytes)) }) }
    ensures read { (bytes : List ℕ) → (seen_in V.seen draft.old).block_at dir ≡ Some bytes → OnOk result (dinode_read (dinode_put dinode.now bytes) ≡ Ok dinode.now) }
    ensures long { (bytes : List ℕ) → (seen_in V.seen draft.old).block_at dir ≡ Some bytes → OnOk result (length (dinode_put dinode.now bytes) ≡ (V.seen draft.old.view).size) }
    ensures behind { (bytes : List ℕ) → (seen_in V.seen draft.old).block_at dir ≡ Some bytes → OnOk result (drop dinode_length (dinode_put dinode.now bytes) ≡ drop dinode_length bytes) }
{
    let Some(mut bytes) = draft.copy(dir)? else {
        unreachable!()
    };
    dinode.write(&mut bytes);
    draft.put(lock_of(dir), dir, false, &bytes)?;
    Ok(())
}

// Cuts the record that was found, and counts it no more in its leaf and in the dinode, which is passed as it was read.
fn cut_and_count<V: View>(
    draft: &mut Draft<'_, V>,
    dir: u64,
    name: &[u8],
    found: &Found,
    dinode: &Dinode,
) -> Result<(), CallFault>
    requires seen { IsSpotIn (seen_in V.seen draft.old) name.now found.now }
    requires there { HasBlock (seen_in V.seen draft.old) dir }
    requires large { dinode_length ≤ (V.seen draft.old.view).size }
    ensures cut { OnOk result ((d : DinodeValue) × IsCountedLess name.now found.now dinode.now d × IsCutPut V.seen draft.old draft.new dir found.now d) }
    ensures few { IfDamaged result (λ rule block. ((block ≡ found.now.block) × (rule ≡ 14) × (found.now.head.entries ≡ 0)) ⊎ ((block ≡ dir) × (rule ≡ 12) × ((dinode.now.entries ≡ 0) ⊎ (dinode.now.nlink ≡ 0)))) }
    ensures stays { IfDamaged result (λ rule block. draft.new ≡ draft.old) }
{
    if found.head.entries == 0 {
        return Err(damaged(found.block, 14));
    }
    let Some(fewer) = with_fewer(dinode, links_of(name, found.spot.entry.kind)) else {
        return Err(damaged(dir, 12));
    };
    cut_found(draft, dir, name, found)?;
    put_dinode(draft, dir, &fewer)?;
    Ok(())
}

/// Takes a name from the hashed directory with its dinode in this block, by its table: the first record of it in its chain is cut, and
/// the leaf and the dinode count it no more; a leaf that gets empty stays. It answers the leaf; none, and changes nothing, where the name isn't
/// there. It looks at what `look` looks at, and at the dinode, and that the counts have a number below them. It costs what `look` costs,
/// and two copies of two blocks.
pub fn remove<V: View, T: PointerTable>(
    draft: &mut Draft<'_, V>,
    dir: u64,
    name: &[u8],
    table: &T,
) -> Result<Step<Option<u64>>, CallFault>
    ensures found { (h : Holding) → IsShown (seen_in V.seen draft.old) dir h → T.shows table.now (seen_in V.seen draft.old) h → IfIs result (IsLeafOfName h name.now) }
    ensures removed { (h : Holding) (r : Record) → IsShown (seen_in V.seen draft.old) dir h → T.shows table.now (seen_in V.seen draft.old) h → IsSound h → record_named (records_of h) name.now ≡ Some r
        → IfIs result (λ leaf. IsSome leaf × HasExchanged h (holding_over (seen_in V.seen draft.new) h) (r ∷ []) []) }
    ensures nothing { (h : Holding) → IsShown (seen_in V.seen draft.old) dir h → T.shows table.now (seen_in V.seen draft.old) h → IsSound h → record_named (records_of h) name.now ≡ None
        → IfIs result (λ leaf. leaf ≡ None) }
    ensures unchanged { IfIs result (λ leaf. leaf ≡ None → draft.new ≡ draft.old) }
    ensures slots { (h : Holding) → IsShown (seen_in V.seen draft.old) dir h → T.shows table.now (seen_in V.seen draft.old) h → IsSound h
        → IfIs result (λ leaf. IfSome leaf (λ x. (cut : IsCutFrom h (holding_over (seen_in V.seen draft.new) h) name.now) × (cut.leaf ≡ x))) }
    ensures laid { (h : Holding) → IsShown (seen_in V.seen draft.old) dir h → T.shows table.now (seen_in V.seen draft.old) h → IsSound h
        → IfIs result (λ leaf. IsSome leaf → KeepsPads (bytes_at h h.own) (bytes_at (holding_over (seen_in V.seen draft.new) h) h.own)) }
    ensures two { IfIs result (λ leaf. IfSome leaf (ArePut V.seen draft.old draft.new dir)) }
    ensures still { (h : Holding) → IsShown (seen_in V.seen draft.old) dir h → T.shows table.now (seen_in V.seen draft.old) h → IsSound h
        → IfIs result (λ leaf. IsSome leaf → IsShown (seen_in V.seen draft.new) dir (holding_over (seen_in V.seen draft.new) h) × T.shows table.now (seen_in V.seen draft.new) (holding_over (seen_in V.seen draft.new) h) × IsSound (holding_over (seen_in V.seen draft.new) h)) }
    ensures needed { (h : Holding) → IsShown (seen_in V.seen draft.old) dir h → T.shows table.now (seen_in V.seen draft.old) h
        → IfNeedBlock result (IsNeededFor (seen_in V.seen draft.old) h (λ i. i ≡ index_for h name.now)) }
    ensures absent { IfNeedBlock result (λ missing. (seen_in V.seen draft.old).block_at missing.block ≡ None) }
    ensures waits { IfNeedBlock result (λ missing. draft.new ≡ draft.old) }
    ensures damaged { (h : Holding) → IsShown (seen_in V.seen draft.old) dir h → T.shows table.now (seen_in V.seen draft.old) h → IfDamaged result (IsWrongIn (seen_in V.seen draft.old) h) }
    ensures kept { IfDamaged result (IsOfView (seen_in V.seen draft.old)) }
    ensures stays { IfDamaged result (λ rule block. draft.new ≡ draft.old) }
{
    chains_tell_names();
    areas_exchange_records();
    records_are_found_by_name();
    sound_inodes_are_shown();
    let _size = draft.block_size();
    let depth = table.depth();
    let head = match table.get(&*draft, index_of(crc32(name), depth))? {
        Step::Is(head) => head,
        Step::NeedBlock(missing) => return Ok(Step::NeedBlock(missing)),
    };
    let found = match find_along(&*draft, dir, depth, &head, name)? {
        Step::Is(Some(found)) => found,
        Step::Is(None) => return Ok(Step::Is(None)),
        Step::NeedBlock(missing) => return Ok(Step::NeedBlock(missing)),
    };
    let dinode = match read_dinode(&*draft, dir)? {
        Step::Is(dinode) => dinode,
        Step::NeedBlock(missing) => return Ok(Step::NeedBlock(missing)),
    };
    cut_and_count(draft, dir, name, &found, &dinode)?;
    Ok(Step::Is(Some(found.block)))
}
