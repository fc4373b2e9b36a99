ghost use Rattle.std.specs.Prelude.{ℕ, ◌≡◌, ◌≢◌, ◌+◌, ◌<◌, ◌≤◌, ◌++◌, false, [], ◌∷◌, List, not, length, map, Contains, slice_get, Some, IfOk, OnOk, IfErr, IfSome, IfNone};
ghost use Rattle.std.specs.List.{All};
ghost use Rattle.std.specs.Option.{option_map};
ghost use Rattle.gfs2_layout.specs.Records.{Record as RecordValue};
ghost use Rattle.gfs2_layout.specs.Area.{Slot, IsShown, slots_of};
ghost use Rattle.gfs2_layout.specs.Inode.{dinode_in};
ghost use Rattle.image_mount.specs.Listing.{is_hashed_by};
ghost use Rattle.gfs2_layout.specs.Records.{records_in, is_dots as has_dots, HasItsHash, IsRecordArea};
ghost use Rattle.gfs2_layout.specs.Exchanges.{directory_count};
ghost use Rattle.image_model.specs.Claims.{every, HasArea};
ghost use Rattle.image_model.specs.Image.{Image};
ghost use Rattle.image_model.specs.Rules.{Breaks, HasRecordIn};
ghost use Rattle.image_mount.specs.Found.{HasFormat, name_count, first_other as first_beside, IsReached};
ghost use Rattle.image_mount.specs.Looks.{IsSized, IsSoundDirectory};
ghost use Rattle.image_mount.specs.Refusals.{RefusesRightly};
ghost use Rattle.image_mount.specs.Searching.{IsRead, IsSteady, StopsRightly, LacksBlock};
ghost use Rattle.image_mount.specs.Listing.{said, said_by, said_in, link_of, AreCountedIn, AreRecordsOf, AreDistinct, AreRowsOf, HasItsOwnName, IsDirectoryIn, LeadsAmong};

use crate::fault::MountFault;
use crate::inodes::Inode;
use crate::kept_blocks::KeptBlocks;
use crate::stop::{Stop, damaged};
use crc_words::crc32;
use file_tree::{is_dots, is_name};
use gfs2_layout::{DINODE_LENGTH, Record, is_area, next_record};
use glock_names::{Entry, View};
use std::alloc::Global;

/// A record in use of a directory: its name, what it says of the inode to which that leads, and the block that it stands in.
#[derive(Clone, Copy)]
pub(crate) struct Named<'a> {
    pub name: &'a [u8],
    pub entry: Entry,
    pub block: u64,
}

/// What a record says of the inode to which it leads, and the block that it stands in.
#[derive(Clone, Copy)]
pub(crate) struct Link {
    pub entry: Entry,
    pub from: u64,
}

impl<'a> Named<'a> {
    fn of(record: &Record<'a>, block: u64) -> Named<'a>
        ensures said { said result ≡ said_by record.now.head record.now.name.now }
        ensures here { result.block ≡ block }
    {
        Named {
            name: record.name,
            entry: Entry {
                number: record.head.inum.number,
                addr: record.head.inum.address,
                kind: record.head.kind,
            },
            block,
        }
    }

    /// What it says, with its block.
    pub fn link(&self) -> Link
        ensures { result ≡ link_of self.now }
    {
        Link {
            entry: self.entry,
            from: self.block,
        }
    }

    /// Whether it leads neither to the directory itself nor to the one above.
    pub fn leads_on(&self) -> bool
        ensures { result ≡ not (has_dots self.now.name.now) }
    {
        !is_dots(self.name)
    }

    fn check_name(&self, block: u64) -> Result<(), MountFault>
        ensures named { OnOk result (HasItsOwnName self.now) }
        ensures refused { (im : Image) (a : ℕ) → HasFormat im → IsReached im block → HasRecordIn im a block (said self.now) → IfErr result (RefusesRightly im) }
        ensures steady { IfErr result IsSteady }
    {
        if is_dots(self.name) || is_name(self.name) {
            return Ok(());
        }
        Err(damaged(block, 9))
    }
}

// Adds a record, if it is in use; it is to have its name's hash.
fn add<'a>(records: &mut Vec<Named<'a>>, record: &Record<'a>, block: u64) -> Result<(), MountFault>
    ensures here { All (λ n. n.block ≡ block) records.old.items → OnOk result (All (λ n. n.block ≡ block) records.new.items) }
    ensures added { (s : Slot) → IsShown record.now.head record.now.name.now s → OnOk result (map said records.new.items ≡ map said records.old.items ++ said_in (s ∷ [])) }
    ensures hashed { (s : Slot) → IsShown record.now.head record.now.name.now s → OnOk result (HasItsHash s) }
    ensures refused { (im : Image) (a : ℕ) (area : List ℕ) (s : Slot) → IsShown record.now.head record.now.name.now s → HasFormat im → IsReached im block → HasArea im a block area → Contains (slots_of area) s → IfErr result (RefusesRightly im) }
    ensures steady { IfErr result IsSteady }
{
    if !record.head.is_in_use() {
        return Ok(());
    }
    if record.head.hash != crc32(record.name) {
        return Err(damaged(block, 9));
    }
    records.push(Named::of(record, block))?;
    Ok(())
}

/// The records in use of an area in a block, which they are to fill.
pub(crate) fn read_area<'a>(
    alloc: Global,
    area: &'a [u8],
    block: u64,
) -> Result<Vec<Named<'a>>, MountFault>
    ensures here { IfOk result (λ records. All (λ n. n.block ≡ block) records.items) }
    ensures found { IfOk result (λ records. map said records.items ≡ records_in area.now) }
    ensures filled { OnOk result (IsRecordArea area.now) }
    ensures refused { (im : Image) (a : ℕ) → HasFormat im → IsReached im block → HasArea im a block area.now → IfErr result (RefusesRightly im) }
    ensures steady { IfErr result IsSteady }
{
    if !is_area(area) {
        return Err(damaged(block, 9));
    }
    let mut records = Vec::new(alloc);
    let mut rest = area;
    while let Some((record, behind)) = next_record(rest) {
        add(&mut records, &record, block)?;
        rest = behind;
    }
    Ok(records)
}

/// That each record has a name, or is `.` or `..`.
pub(crate) fn check_names(records: &[Named<'_>], block: u64) -> Result<(), MountFault>
    ensures named { OnOk result (All HasItsOwnName records.now) }
    ensures refused { (im : Image) (a : ℕ) → HasFormat im → IsReached im block → All (λ n. HasRecordIn im a block (said n)) records.now → IfErr result (RefusesRightly im) }
    ensures steady { IfErr result IsSteady }
{
    for record in records {
        record.check_name(block)?;
    }
    Ok(())
}

/// The first record of this name.
pub(crate) fn find<'a>(records: &[Named<'a>], name: &[u8]) -> Option<Named<'a>>
    ensures named { IfSome result (λ found. found.name.now ≡ name.now) }
    ensures there { IfSome result (λ found. (i : ℕ) × (slice_get records.now i ≡ Some found)) }
    ensures none { IfNone result ((i : ℕ) (n : Named) → slice_get records.now i ≡ Some n → n.name.now ≢ name.now) }
{
    for record in records {
        if record.name == name {
            return Some(*record);
        }
    }
    None
}

/// The first record that has a name beside `.`, `..`, `rindex` and `jindex`.
pub(crate) fn first_other(records: &[Named<'_>]) -> Option<u64>
    ensures { result ≡ option_map (λ (r : RecordValue). r.address) (first_beside (map said records.now)) }
{
    for record in records {
        let known = record.name == b"jindex".as_slice() || record.name == b"rindex".as_slice();
        if record.leads_on() && !known {
            return Some(record.entry.addr);
        }
    }
    None
}

/// That no name comes twice.
pub(crate) fn check_twice(records: &[Named<'_>], block: u64) -> Result<(), MountFault>
    ensures distinct { OnOk result (AreDistinct (map said records.now)) }
    ensures refused { (im : Image) (a : ℕ) (area : List ℕ) → HasFormat im → IsReached im block → HasArea im a block area → map said records.now ≡ records_in area → IfErr result (RefusesRightly im) }
    ensures steady { IfErr result IsSteady }
{
    for i in 0..records.len() {
        if find(&records[i + 1..], records[i].name).is_some() {
            return Err(damaged(block, 10));
        }
    }
    Ok(())
}

/// That there is a record of this name, `.` or `..`, which leads to this block, in the directory with its dinode in block
/// `block`.
pub(crate) fn check_dot(
    records: &[Named<'_>],
    block: u64,
    name: &[u8],
    leads: u64,
) -> Result<(), MountFault>
    ensures there { OnOk result (LeadsAmong records.now name.now leads) }
    ensures refused { (im : Image) → HasFormat im → IsReached im block → (((i : ℕ) (n : Named) → slice_get records.now i ≡ Some n → n.name.now ≢ name.now) → Breaks im 10 block)
        → ((i : ℕ) (n : Named) → slice_get records.now i ≡ Some n → n.name.now ≡ name.now → n.entry.addr ≢ leads → Breaks im 10 block)
        → IfErr result (RefusesRightly im) }
    ensures steady { IfErr result IsSteady }
{
    let Some(dot) = find(records, name) else {
        return Err(damaged(block, 10));
    };
    if dot.entry.addr != leads {
        return Err(damaged(block, 10));
    }
    Ok(())
}

/// How many names these records have beside `.` and `..`.
pub(crate) fn count_names(records: &[Named<'_>]) -> u64
    ensures { result ≡ name_count (map said records.now) }
{
    let mut count = 0;
    for record in records {
        count += u64::from(record.leads_on());
    }
    count
}

// How many directories these records name.
fn count_directories(records: &[Named<'_>]) -> u64
    ensures value { result ≡ directory_count (map said records.now) }
    ensures most { result ≤ length records.now }
{
    let mut count = 0;
    for record in records {
        count += u64::from(record.leads_on() && record.entry.kind == 4);
    }
    count
}

/// That a directory's links and entries are the count of its records.
pub(crate) fn check_counts(inode: &Inode, records: &[Named<'_>]) -> Result<(), MountFault>
    ensures entries { OnOk result (inode.now.dinode.entries ≡ length records.now) }
    ensures links { OnOk result (inode.now.dinode.nlink ≡ 2 + directory_count (map said records.now)) }
    ensures refused { (im : Image) → HasFormat im → IsReached im inode.now.block → inode.now.dinode ≡ dinode_in (every im inode.now.block) → AreCountedIn im inode.now.block (map said records.now) → IfErr result (RefusesRightly im) }
    ensures steady { IfErr result IsSteady }
{
    if u64::from(inode.dinode.entries) != records.len() as u64 {
        return Err(damaged(inode.block, 12));
    }
    if u64::from(inode.dinode.nlink) != 2 + count_directories(records) {
        return Err(damaged(inode.block, 12));
    }
    Ok(())
}

// That the records are those of a directory below the one with this dinode.
fn check_records(inode: &Inode, parent: u64, records: &[Named<'_>]) -> Result<(), MountFault>
    ensures distinct { OnOk result (AreDistinct (map said records.now)) }
    ensures named { OnOk result (All HasItsOwnName records.now) }
    ensures rows { OnOk result (AreRowsOf inode.now parent records.now) }
    ensures refused { (im : Image) → IsDirectoryIn im inode.now parent → AreRecordsOf im inode.now.block (map said records.now) → All (λ n. n.block ≡ inode.now.block) records.now → IfErr result (RefusesRightly im) }
    ensures steady { IfErr result IsSteady }
{
    check_names(records, inode.block)?;
    check_twice(records, inode.block)?;
    check_dot(records, inode.block, b".", inode.block)?;
    check_dot(records, inode.block, b"..", parent)?;
    check_counts(inode, records)
}

/// The records of a linear directory below the one with its dinode in block `parent`. It looks at whether they fill the
/// rest of its block, at their hashes and names, at `.` and `..`, and at the counts of links and entries.
pub(crate) fn list_records<'a>(
    alloc: Global,
    table: &'a KeptBlocks,
    inode: &Inode,
    parent: u64,
) -> Result<Vec<Named<'a>>, Stop>
    requires linear { is_hashed_by inode.now.dinode ≡ false }
    ensures here { IfOk result (λ records. All (λ n. n.block ≡ inode.now.block) records.items) }
    ensures found { (im : Image) → IsRead im table.now → IsDirectoryIn im inode.now parent → IfOk result (λ records. AreRecordsOf im inode.now.block (map said records.items)) }
    ensures distinct { IfOk result (λ records. AreDistinct (map said records.items)) }
    ensures sized { (im : Image) → IsRead im table.now → IsDirectoryIn im inode.now parent → OnOk result (IsSized im inode.now.block) }
    ensures sound { (im : Image) → IsRead im table.now → IsDirectoryIn im inode.now parent → OnOk result (IsSoundDirectory im inode.now.block parent) }
    ensures stops { (im : Image) → IsRead im table.now → IsDirectoryIn im inode.now parent → IfErr result (StopsRightly im) }
    ensures lacks { IfErr result (LacksBlock table.now) }
{
    let bytes = table.get(inode.block, inode.from)?;
    inode.check_linear(table.block_size())?;
    let records = read_area(alloc, &bytes[DINODE_LENGTH..], inode.block)?;
    check_records(inode, parent, &records)?;
    Ok(records)
}
