ghost use Rattle.std.specs.Prelude.{ℕ, ◌≡◌, ◌≢◌, ◌⊎◌, ◌+◌, ◌-◌, ◌*◌, ◌/◌, ◌^◌, ◌<◌, ◌≤◌, ◌++◌, ⊤, true, false, drop, length, map, vec_len, slice_get, is_some, None, Some, IfOk, OnOk, IfErr, IfSome, IfNone};
ghost use Rattle.std.specs.List.{All};
ghost use Rattle.gfs2_layout.specs.Bytes.{u64_at};
ghost use Rattle.gfs2_layout.specs.Inode.{depth_in, entry_block as block_of_entry, is_hashed_in, IsLeaf};
ghost use Rattle.gfs2_layout.specs.Records.{records_in};
ghost use Rattle.gfs2_layout.specs.Structures.{leaf_of};
ghost use Rattle.image_model.specs.Claims.{every, HasLeaf, master_of};
ghost use Rattle.image_model.specs.Image.{Image};
ghost use Rattle.image_model.specs.Rules.{HasRecordIn};
ghost use Rattle.gfs2_layout.specs.Records.{Record};
ghost use Rattle.image_mount.specs.Found.{HasFormat, is_other, first_other as first_other_in, IsReached};
ghost use Rattle.image_mount.specs.Kept.{Kept};
ghost use Rattle.image_mount.specs.Marked.{HasKeptContent, IsTaken};
ghost use Rattle.image_mount.specs.Leaves.{AreLeavesRead, HasHashOf, IsSystemDirectory, IsTableOf, IsTold, IsLeafHead, IsLeafIn, IsLinkOf, IsPointed, IsFirstTold, IsNextLeaf, IsWalked, ComesNext, HasEnded, steps_left};
ghost use Rattle.image_mount.specs.Listing.{said, standing, AreDistinct};
ghost use Rattle.image_mount.specs.Looks.{IsSoundArea};
ghost use Rattle.image_mount.specs.Refusals.{RefusesRightly};
ghost use Rattle.image_mount.specs.Searching.{IsRead, IsSteady, IsWanted, StopsRightly, LacksBlock};
ghost use Rattle.image_mount.specs.Sifting.{AreAdded};
ghost use Rattle.image_mount.specs.declared.inodes.Inode.{Inode as InodeValue};
ghost use Rattle.image_mount.specs.declared.leaf.LeafAt.{LeafAt as LeafAtValue};

use crate::fault::MountFault;
use crate::field::Field;
use crate::groups::read_whole;
use crate::inodes::Inode;
use crate::kept_blocks::KeptBlocks;
use crate::leaf::{LeafAt, LeafLink, LeafWalk, Names};
use crate::listing::{Named, check_names, check_twice, find, first_other, read_area};
use crate::sifting::sift;
use crate::stop::{Stop, damaged, outside, reads};
use crc_words::crc32;
use dinode_tree::locate;
use gfs2_layout::{Leaf, has_header};
use glock_names::{Step, View};
use image_reader::{Claim, HashTable, Owners};
use std::alloc::Global;

// Where the records of a leaf begin.
const IN_LEAF: usize = 104;

/// The table of a directory of the system, which is a hashed one.
pub(crate) fn read_pointers(
    alloc: Global,
    table: &KeptBlocks,
    inode: &Inode,
) -> Result<HashTable, Stop>
    ensures found { (im : Image) → IsRead im table.now → IsSystemDirectory im inode.now → is_hashed_in (every im inode.now.block) ≡ true → IfOk result (IsTableOf im inode.now) }
    ensures kept { (im : Image) → IsRead im table.now → IsSystemDirectory im inode.now → is_hashed_in (every im inode.now.block) ≡ true → OnOk result (HasKeptContent table.now (every im inode.now.block)) }
    ensures stops { (im : Image) → IsRead im table.now → IsSystemDirectory im inode.now → is_hashed_in (every im inode.now.block) ≡ true → IfErr result (StopsRightly im) }
    ensures lacks { IfErr result (LacksBlock table.now) }
{
    // Looked at once more, so that its size is that of what is kept.
    let kept = Inode::read(table, inode.from, inode.block)?;
    let depth = kept.table_depth(table.block_size())?;
    let bytes = read_whole(alloc, table, &kept, 8 << depth)?;
    Ok(HashTable { depth, bytes })
}

// The block that has pointer i of the table; the dinode's where the table has a hole there.
fn entry_block(table: &KeptBlocks, inode: &Inode, pointers: &HashTable, i: u64) -> Result<u64, Stop>
    requires { i < 2 ^ pointers.now.depth }
    ensures found { (im : Image) → IsRead im table.now → IsTableOf im inode.now pointers.now → IfOk result (λ block. block ≡ block_of_entry (every im inode.now.block) i) }
    ensures reached { (im : Image) → IsRead im table.now → IsTableOf im inode.now pointers.now → IfOk result (λ block. IsReached im block) }
    ensures stops { (im : Image) → IsRead im table.now → IsTableOf im inode.now pointers.now → IfErr result (StopsRightly im) }
    ensures lacks { IfErr result (LacksBlock table.now) }
{
    if inode.dinode.height == 0 {
        return Ok(inode.block);
    }
    // The dinode is kept, and what is missing is a block below it.
    table.get(inode.block, inode.from)?;
    let unit = u64::from(table.block_size()) - 24;
    match locate(table, inode.block, 8 * i / unit)? {
        Step::Is(Some(located)) => {
            // It is kept too, since the table was read.
            table.get(located.block, located.from)?;
            Ok(located.block)
        }
        Step::Is(None) => Ok(inode.block),
        Step::NeedBlock(missing) => Err(reads(&missing)),
    }
}

// The head of the leaf with this number, which has these bytes; it is no deeper than the table.
fn read_head(bytes: &[u8], number: u64, depth: u16) -> Result<Leaf, MountFault>
    requires { 104 ≤ length bytes.now }
    ensures found { (im : Image) → im.at number ≡ bytes.now → IfOk result (λ leaf. leaf ≡ leaf_of (im.at number)) }
    ensures low { IfOk result (λ leaf. leaf.depth ≤ depth) }
    ensures well { (im : Image) (a : ℕ) → im.at number ≡ bytes.now → depth ≡ depth_in (every im a) → OnOk result (IsLeafHead im a number) }
    ensures refused { (im : Image) (a : ℕ) → im.at number ≡ bytes.now → HasFormat im → IsReached im number → depth ≡ depth_in (every im a) → HasLeaf im a number → IfErr result (RefusesRightly im) }
    ensures steady { IfErr result IsSteady }
{
    if !has_header(bytes, 6, 600) {
        return Err(damaged(number, 1));
    }
    let Ok(leaf) = Leaf::read(bytes) else {
        return Err(damaged(number, 14));
    };
    if leaf.depth > depth {
        return Err(damaged(number, 14));
    }
    Ok(leaf)
}

// The leaf behind one of a chain, which has these bytes and is as deep.
fn leaf_behind(tail: &LeafAt, bytes: &[u8], depth: u16) -> Result<LeafAt, MountFault>
    requires depth { depth ≤ 15 }
    requires place { tail.now.place + 1 < 2 ^ 64 }
    requires whole { 104 ≤ length bytes.now }
    ensures behind { IfOk result (λ at. (at.block ≡ tail.now.head.next) × (at.hash ≡ tail.now.hash) × (at.place ≡ tail.now.place + 1) × (at.pointer ≡ tail.now.pointer) × (at.behind ≡ tail.now.behind) × (at.head.depth ≡ tail.now.head.depth)) }
    ensures found { (im : Image) (a : ℕ) → im.at tail.now.head.next ≡ bytes.now → IsReached im tail.now.head.next → depth ≡ depth_in (every im a) → IsLeafIn im a tail.now → tail.now.head.next ≢ 0 → IfOk result (IsLeafIn im a) }
    ensures refused { (im : Image) (a : ℕ) → im.at tail.now.head.next ≡ bytes.now → IsReached im tail.now.head.next → HasFormat im → depth ≡ depth_in (every im a) → IsLeafIn im a tail.now → tail.now.head.next ≢ 0 → IfErr result (RefusesRightly im) }
    ensures steady { IfErr result IsSteady }
{
    let number = tail.head.next;
    let head = read_head(bytes, number, depth)?;
    if head.depth != tail.head.depth {
        return Err(damaged(number, 14));
    }
    Ok(LeafAt {
        block: number,
        head,
        hash: tail.hash,
        place: tail.place + 1,
        pointer: tail.pointer,
        behind: tail.behind,
    })
}

// The first of the hashes that have these for their top bits, of which there are so many.
fn first_hash_of(bits: u64, depth: u16) -> u64
    requires bits { bits < 2 ^ 16 }
    requires depth { depth ≤ 15 }
    ensures { result ≡ bits * 2 ^ (32 - depth) }
{
    bits << (32 - depth)
}

// The leaf to which pointer i of the table leads, which has these bytes, and its run of pointers: the first of them stands at a
// multiple of their count.
fn leaf_of_pointer(pointers: &HashTable, i: u64, bytes: &[u8]) -> Result<LeafAt, MountFault>
    requires low { i < 2 ^ pointers.now.depth }
    requires whole { 104 ≤ length bytes.now }
    ensures first { IfOk result (λ at. (at.pointer ≡ i) × (at.place ≡ 0)) }
    ensures block { IfOk result (λ at. at.block ≡ u64_at (8 * i) pointers.now.bytes.items) }
    ensures run { IfOk result (λ at. (i < at.behind) × (at.behind ≤ 2 ^ pointers.now.depth)) }
    ensures found { (im : Image) (inode : InodeValue) → IsTableOf im inode pointers.now → IsPointed im pointers.now i bytes.now → IfOk result (IsLeafIn im inode.block) }
    ensures refused { (im : Image) (inode : InodeValue) → IsTableOf im inode pointers.now → IsPointed im pointers.now i bytes.now → IfErr result (RefusesRightly im) }
    ensures steady { IfErr result IsSteady }
{
    let number = pointers.pointer(i);
    let head = read_head(bytes, number, pointers.depth)?;
    let run = pointers.run(head.depth);
    let start = i - i % run;
    if !pointers.leads_to(start, run, number) {
        return Err(damaged(number, 14));
    }
    Ok(LeafAt {
        block: number,
        head,
        hash: first_hash_of(i / run, head.depth),
        place: 0,
        pointer: i,
        behind: start + run,
    })
}

// That a leaf's records are as many as its head says.
fn check_entries(records: &[Named<'_>], at: &LeafAt) -> Result<(), MountFault>
    ensures counted { OnOk result (length records.now ≡ at.now.head.entries) }
    ensures few { OnOk result (length records.now < 65536) }
    ensures refused { (im : Image) (a : ℕ) → HasFormat im → IsLeafIn im a at.now → map said records.now ≡ records_in (drop 104 (im.at at.now.block)) → IfErr result (RefusesRightly im) }
    ensures steady { IfErr result IsSteady }
{
    if records.len() as u64 != u64::from(at.head.entries) {
        return Err(damaged(at.block, 14));
    }
    Ok(())
}

// That a leaf's records have the hashes of its chain.
fn check_hashes(records: &[Named<'_>], at: &LeafAt) -> Result<(), MountFault>
    ensures hashed { OnOk result (All (HasHashOf at.now) records.now) }
    ensures refused { (im : Image) (a : ℕ) → HasFormat im → IsLeafIn im a at.now → map said records.now ≡ records_in (drop 104 (im.at at.now.block)) → IfErr result (RefusesRightly im) }
    ensures steady { IfErr result IsSteady }
{
    let shift = 32 - at.head.depth;
    for record in records {
        if u64::from(crc32(record.name)) >> shift != at.hash >> shift {
            return Err(damaged(at.block, 14));
        }
    }
    Ok(())
}

// The records of a leaf, which has these bytes.
fn leaf_records<'a>(
    alloc: Global,
    bytes: &'a [u8],
    at: &LeafAt,
) -> Result<Vec<Named<'a>>, MountFault>
    requires { 104 ≤ length bytes.now }
    ensures found { IfOk result (λ records. map said records.items ≡ records_in (drop 104 bytes.now)) }
    ensures here { IfOk result (λ records. All (λ n. n.block ≡ at.now.block) records.items) }
    ensures distinct { IfOk result (λ records. AreDistinct (map said records.items)) }
    ensures few { IfOk result (λ records. length records.items < 65536) }
    ensures sound { OnOk result (IsSoundArea (drop 104 bytes.now)) }
    ensures leaf { (im : Image) (a : ℕ) → IsLeafIn im a at.now → im.at at.now.block ≡ bytes.now → OnOk result (IsLeaf (every im a) at.now.hash at.now.block) }
    ensures refused { (im : Image) (a : ℕ) → HasFormat im → IsLeafIn im a at.now → im.at at.now.block ≡ bytes.now → IfErr result (RefusesRightly im) }
    ensures steady { IfErr result IsSteady }
{
    let records = read_area(alloc, &bytes[IN_LEAF..], at.block)?;
    check_names(&records, at.block)?;
    check_twice(&records, at.block)?;
    check_entries(&records, at)?;
    check_hashes(&records, at)?;
    Ok(records)
}

// In the master directory, that the records of a leaf are those of system files.
fn check_files(names: Names, records: &[Named<'_>]) -> Result<(), MountFault>
    ensures plain { OnOk result (names ≡ Names.Files → first_other_in (map said records.now) ≡ None) }
    ensures refused { (im : Image) (a : ℕ) (at : LeafAtValue) → IsTold im names a at → map said records.now ≡ records_in (drop 104 (im.at at.block)) → IfErr result (RefusesRightly im) }
    ensures steady { IfErr result IsSteady }
{
    match names {
        Names::Files => match first_other(records) {
            Some(other) => Err(outside(Field::Master, other)),
            None => Ok(()),
        },
        Names::Journals => Ok(()),
    }
}

// Adds the records of a leaf to those of others. No name comes twice.
fn add_records(
    found: &mut Vec<Named<'static>>,
    records: &[Named<'static>],
    block: u64,
) -> Result<(), MountFault>
    ensures added { OnOk result (map standing found.new.items ≡ map standing found.old.items ++ map standing records.now) }
    ensures distinct { AreDistinct (map said found.old.items) → OnOk result (AreDistinct (map said found.new.items)) }
    ensures refused { (im : Image) (a : ℕ) → HasFormat im → IsReached im block → All (λ n. HasRecordIn im a n.block (said n) × (n.block ≢ block)) found.old.items → All (λ n. HasRecordIn im a block (said n)) records.now
        → AreDistinct (map said records.now) → IfErr result (RefusesRightly im) }
    ensures steady { IfErr result IsSteady }
{
    for record in records {
        if find(found, record.name).is_some() {
            return Err(damaged(block, 10));
        }
        found.push(*record)?;
    }
    Ok(())
}

// Adds the records of a leaf, which has these bytes, to those of others: those of names that are looked for. How many have others.
fn add_leaf(
    alloc: Global,
    names: Names,
    found: &mut Vec<Named<'static>>,
    bytes: &[u8],
    at: &LeafAt,
) -> Result<u64, MountFault>
    requires { 104 ≤ length bytes.now }
    ensures added { IfOk result (AreAdded names found.old.items found.new.items at.now.block (records_in (drop 104 bytes.now))) }
    ensures few { IfOk result (λ others. others < 65536) }
    ensures plain { OnOk result (names ≡ Names.Files → first_other_in (records_in (drop 104 bytes.now)) ≡ None) }
    ensures files { IfOk result (λ others. names ≡ Names.Files → others ≡ 0) }
    ensures sound { OnOk result (IsSoundArea (drop 104 bytes.now)) }
    ensures leaf { (im : Image) (a : ℕ) → IsLeafIn im a at.now → im.at at.now.block ≡ bytes.now → OnOk result (IsLeaf (every im a) at.now.hash at.now.block) }
    ensures distinct { AreDistinct (map said found.old.items) → OnOk result (AreDistinct (map said found.new.items)) }
    ensures refused { (im : Image) (a : ℕ) → IsTold im names a at.now → im.at at.now.block ≡ bytes.now → All (λ n. HasRecordIn im a n.block (said n) × (n.block ≢ at.now.block)) found.old.items → IfErr result (RefusesRightly im) }
    ensures steady { IfErr result IsSteady }
{
    let records = leaf_records(alloc, bytes, at)?;
    check_files(names, &records)?;
    let sifted = sift(alloc, names, &records)?;
    add_records(found, &sifted.records, at.block)?;
    Ok(sifted.others)
}

impl LeafWalk {
    /// Nothing is come to on a device of so many blocks, in the directory with its dinode in this block.
    pub fn new(
        alloc: Global,
        count: u64,
        directory: u64,
        names: Names,
    ) -> Result<LeafWalk, MountFault>
        ensures walked { (im : Image) (a : ℕ) → IfOk result (IsWalked im a) }
        ensures directory { IfOk result (λ walk. walk.directory ≡ directory) }
        ensures names { IfOk result (λ walk. walk.names ≡ names) }
        ensures count { IfOk result (λ walk. vec_len walk.owners.entries ≡ count) }
        ensures index { IfOk result (λ walk. walk.index ≡ 0) }
        ensures none { (a : ℕ) (k : Kept) → IfOk result (λ walk. AreLeavesRead walk a k) }
        ensures memory { IfErr result (λ fault. fault ≡ MountFault.NoMemory) }
        ensures steady { IfErr result IsSteady }
    {
        let owners = Owners::new(alloc, count as usize)?;
        Ok(LeafWalk {
            directory,
            names,
            owners,
            records: Vec::new(alloc),
            others: 0,
            index: 0,
            tail: None,
        })
    }

    /// Which leaf comes next, if the walk isn't at its end.
    pub fn link(
        &self,
        table: &KeptBlocks,
        inode: &Inode,
        pointers: &HashTable,
    ) -> Result<Option<LeafLink>, Stop>
        requires within { self.now.index ≤ 2 ^ pointers.now.depth }
        ensures linked { IfOk result (λ next. IfSome next (IsLinkOf self.now pointers.now)) }
        ensures ended { IfOk result (λ next. IfNone next (HasEnded self.now (2 ^ pointers.now.depth))) }
        ensures wanted { (im : Image) → IsRead im table.now → IsTableOf im inode.now pointers.now → IsWalked im inode.now.block self.now → IfOk result (λ next. IfSome next (λ link. IsWanted im link.number link.by)) }
        ensures stops { (im : Image) → IsRead im table.now → IsTableOf im inode.now pointers.now → IsWalked im inode.now.block self.now → IfErr result (StopsRightly im) }
        ensures lacks { IfErr result (LacksBlock table.now) }
    {
        if let Some(tail) = &self.tail {
            if tail.head.next != 0 {
                return Ok(Some(LeafLink {
                    number: tail.head.next,
                    by: tail.block,
                    tail: Some(*tail),
                }));
            }
        }
        if self.index == pointers.count() {
            return Ok(None);
        }
        let by = entry_block(table, inode, pointers, self.index)?;
        let number = pointers.pointer(self.index);
        if number == 0 {
            return Err(Stop::Refused(damaged(by, 14)));
        }
        Ok(Some(LeafLink {
            number,
            by,
            tail: None,
        }))
    }

    /// The leaf that comes next, which has these bytes.
    pub fn leaf(
        &self,
        pointers: &HashTable,
        link: &LeafLink,
        bytes: &[u8],
    ) -> Result<LeafAt, MountFault>
        requires linked { IsLinkOf self.now pointers.now link.now }
        requires within { self.now.index ≤ 2 ^ pointers.now.depth }
        requires count { vec_len self.now.owners.entries ≤ 2 ^ 32 }
        requires whole { 104 ≤ length bytes.now }
        ensures next { IfOk result (ComesNext self.now) }
        ensures block { IfOk result (λ at. at.block ≡ link.now.number) }
        ensures run { IfOk result (λ at. at.behind ≤ 2 ^ pointers.now.depth) }
        ensures on { IfOk result (λ at. (is_some self.now.tail ≡ true × at.behind ≡ self.now.index) ⊎ (self.now.index < at.behind)) }
        ensures short { IfOk result (λ at. at.place + self.now.owners.free ≤ vec_len self.now.owners.entries + 1) }
        ensures found { (im : Image) (inode : InodeValue) → IsTableOf im inode pointers.now → IsWalked im inode.block self.now → im.at link.now.number ≡ bytes.now → IsReached im link.now.number → IfOk result (IsLeafIn im inode.block) }
        ensures refused { (im : Image) (inode : InodeValue) → IsTableOf im inode pointers.now → IsWalked im inode.block self.now → im.at link.now.number ≡ bytes.now → IsReached im link.now.number → IfErr result (RefusesRightly im) }
        ensures steady { IfErr result IsSteady }
    {
        match &link.tail {
            Some(tail) => leaf_behind(tail, bytes, pointers.depth),
            None => leaf_of_pointer(pointers, self.index, bytes),
        }
    }

    /// Comes to a leaf, which has these bytes: claims it for the directory and, where that is new, adds its records.
    pub fn enter(&mut self, alloc: Global, bytes: &[u8], at: &LeafAt) -> Result<(), MountFault>
        requires inside { at.now.block < vec_len self.old.owners.entries }
        requires count { vec_len self.old.owners.entries ≤ 2 ^ 32 }
        requires whole { 104 ≤ length bytes.now }
        requires short { at.now.place + self.old.owners.free ≤ vec_len self.old.owners.entries + 1 }
        requires on { ((is_some self.old.tail ≡ true) × (at.now.behind ≡ self.old.index)) ⊎ (self.old.index < at.now.behind) }
        ensures walked { (im : Image) → IsNextLeaf im self.old at.now → im.at at.now.block ≡ bytes.now → OnOk result (IsWalked im self.old.directory self.new) }
        ensures refused { (im : Image) → IsNextLeaf im self.old at.now → im.at at.now.block ≡ bytes.now → IfErr result (RefusesRightly im) }
        ensures directory { self.new.directory ≡ self.old.directory }
        ensures names { self.new.names ≡ self.old.names }
        ensures falls { (count : ℕ) → at.now.behind ≤ count → OnOk result (steps_left self.new count < steps_left self.old count) }
        ensures count { vec_len self.new.owners.entries ≡ vec_len self.old.owners.entries }
        ensures index { OnOk result (self.new.index ≡ at.now.behind) }
        ensures entered { (k : Kept) → AreLeavesRead self.old self.old.directory k → IsTaken k at.now.block → OnOk result (AreLeavesRead self.new self.old.directory k) }
        ensures steady { IfErr result IsSteady }
    {
        let claim = Claim::Chained {
            directory: self.directory,
            hash: at.hash,
            place: at.place,
        };
        if !self.owners.claim(at.block, claim)? {
            self.tail = None;
            self.index = at.behind;
            return Ok(());
        }
        let others = add_leaf(alloc, self.names, &mut self.records, bytes, at)?;
        self.others += others;
        self.tail = Some(*at);
        self.index = at.behind;
        Ok(())
    }
}
