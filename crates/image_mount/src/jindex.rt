ghost use Rattle.std.specs.Prelude.{ℕ, ◌≡◌, ◌≢◌, ◌<◌, ◌≤◌, ◌↔◌, [], true, false, length, map, IsTrue, IfOk, OnOk, IfErr, IfSome, IfNone};
ghost use Rattle.gfs2_layout.specs.Inode.{is_hashed_in};
ghost use Rattle.image_model.specs.Claims.{every};
ghost use Rattle.image_model.specs.Image.{Image};
ghost use Rattle.image_model.specs.Journals.{journal_name as name_of_journal};
ghost use Rattle.image_model.specs.Stands.{Layout};
ghost use Rattle.image_mount.specs.Looks.{IsLookedAt};
ghost use Rattle.image_mount.specs.Found.{HasGroups};
ghost use Rattle.image_mount.specs.Leaves.{HasReadDirectory};
ghost use Rattle.image_mount.specs.Listing.{said, is_hashed_by};
ghost use Rattle.image_mount.specs.Marked.{IsGrown};
ghost use Rattle.image_mount.specs.Refusals.{HasRisen, LiesWithin, RefusesRightly};
ghost use Rattle.image_mount.specs.Rings.{IsSearched};
ghost use Rattle.image_mount.specs.declared.fault.MountFault.TheVariants as fault_of;
ghost use Rattle.image_mount.specs.Searching.{IsRead, IsSteady, IsWorking, ShowsSystem, StopsRightly, LacksBlock};
ghost use Rattle.image_mount.specs.System.{AreAmong, LacksName, AreNamesOf, AreJournalsAmong, AreJournalsOf, AreRecordsAnew, IsJindexIn};
ghost use Rattle.profile_limits.specs.Limits.{most_blocks, most_journals};
ghost use Rattle.shared_disk.specs.Disk.{ReadsOnly};

use crate::fault::MountFault;
use crate::fetching::go_on;
use crate::field::Field;
use crate::inodes::Inode;
use crate::kept_blocks::KeptBlocks;
use crate::leaf::Names;
use crate::listing::{Link, Named, count_names, find, list_records};
use crate::stop::{Stop, outside};
use crate::walking::{check_hashed, search_leaves};
use shared_disk::SharedDisk;
use std::alloc::Global;

/// The name of a journal below the tenth.
fn journal_name(j: u8) -> [u8; 8]
    requires { j ≤ 9 }
    ensures { result ≡ name_of_journal j }
{
    let mut name = *b"journal0";
    name[7] += j;
    name
}

// Whether the name is that of one of so many journals.
fn is_journal_name(name: &[u8], count: u8) -> bool
    requires { count ≤ most_journals }
    ensures found { result ≡ true → (j : ℕ) × (j < count) × (name.now ≡ name_of_journal j) }
    ensures none { result ≡ false → (j : ℕ) → j < count → name.now ≢ name_of_journal j }
{
    for j in 0..count {
        if name == journal_name(j).as_slice() {
            return true;
        }
    }
    false
}

// Whether the records, but for `.` and `..`, have the names of so many journals.
fn are_journal_names(records: &[Named<'_>], count: u8) -> bool
    requires { count ≤ most_journals }
    ensures { IsTrue result ↔ AreNamesOf (map said records.now) count }
{
    for record in records {
        if record.leads_on() && !is_journal_name(record.name, count) {
            return false;
        }
    }
    true
}

// The records of so many journals, in order; None where one is missing.
fn journals_in(
    alloc: Global,
    records: &[Named<'_>],
    count: u8,
) -> Result<Option<Vec<Link>>, MountFault>
    requires { count ≤ most_journals }
    ensures found { IfOk result (λ journals. IfSome journals (λ entries. (length entries.items ≡ count) × AreAmong records.now entries.items)) }
    ensures none { IfOk result (λ journals. IfNone journals ((j : ℕ) × (j < count) × LacksName records.now (name_of_journal j))) }
    ensures memory { IfErr result (λ fault. fault ≡ fault_of.NoMemory) }
    ensures steady { IfErr result IsSteady }
{
    let mut journals = Vec::new(alloc);
    for j in 0..count {
        match find(records, &journal_name(j)) {
            Some(journal) => journals.push(journal.link())?,
            None => return Ok(None),
        }
    }
    Ok(Some(journals))
}

// The records of the journals, which are one to eight, and beside which there are no names.
fn check_journals(alloc: Global, records: &[Named<'_>]) -> Result<Vec<Link>, MountFault>
    ensures found { IfOk result (λ journals. AreJournalsAmong records.now journals.items) }
    ensures refused { (im : Image) (l : Layout) → HasGroups im l → IsLookedAt im l.jindex → AreRecordsAnew im l.jindex (map said records.now) → IfErr result (RefusesRightly im) }
    ensures steady { IfErr result IsSteady }
{
    let count = count_names(records);
    let other = outside(Field::Journals, count);
    if count == 0 || count > 8 || !are_journal_names(records, count as u8) {
        return Err(other);
    }
    match journals_in(alloc, records, count as u8)? {
        Some(journals) => Ok(journals),
        None => Err(other),
    }
}

// The journals of a directory that is a linear one.
fn list_linear(
    alloc: Global,
    table: &KeptBlocks,
    inode: &Inode,
    master: u64,
) -> Result<Vec<Link>, Stop>
    requires linear { is_hashed_by inode.now.dinode ≡ false }
    ensures found { (im : Image) → IsRead im table.now → IsJindexIn im master inode.now → IfOk result (λ journals. AreJournalsOf im inode.now.block journals.items) }
    ensures stops { (im : Image) → IsRead im table.now → IsJindexIn im master inode.now → IfErr result (StopsRightly im) }
    ensures lacks { IfErr result (LacksBlock table.now) }
{
    let records = list_records(alloc, table, inode, master)?;
    let journals = check_journals(alloc, &records)?;
    Ok(journals)
}

// The journals of a directory that is a linear one, whose block is kept.
fn search_linear<D: SharedDisk>(
    alloc: Global,
    disk: &mut D,
    table: &mut KeptBlocks,
    inode: &Inode,
    master: u64,
) -> Result<Vec<Link>, MountFault>
    requires work { IsWorking (D.state disk.old) table.old }
    requires linear { is_hashed_by inode.now.dinode ≡ false }
    ensures work { OnOk result (IsWorking (D.state disk.new) table.new) }
    ensures grown { OnOk result (IsGrown table.old table.new) }
    ensures found { IfOk result (λ journals. (im : Image) → ShowsSystem (D.state disk.old) im → IsJindexIn im master inode.now → IsSearched im [] 0 0 table.old → AreJournalsOf im inode.now.block journals.items) }
    ensures searched { OnOk result ((im : Image) → ShowsSystem (D.state disk.old) im → IsJindexIn im master inode.now → IsSearched im [] 0 0 table.old → IsSearched im [] 0 0 table.new) }
    ensures refused { (im : Image) → ShowsSystem (D.state disk.old) im → IsJindexIn im master inode.now → IsSearched im [] 0 0 table.old → IfErr result (RefusesRightly im) }
    ensures risen { IfErr result (HasRisen (D.faults disk.old) (D.faults disk.new)) }
    ensures within { IfErr result (LiesWithin (D.state disk.old).count) }
    ensures reads { ReadsOnly (D.state disk.old) (D.state disk.new) (D.list disk.old) (D.list disk.new) (D.faults disk.old) (D.faults disk.new) }
{
    loop {
        match list_linear(alloc, table, inode, master) {
            Ok(journals) => return Ok(journals),
            Err(stop) => go_on(alloc, disk, table, stop)?,
        }
    }
}

// The journals of a directory that is a hashed one; its leaves are read. Other names are told before `.` and `..` and the counts
// are looked at.
fn search_hashed<D: SharedDisk>(
    alloc: Global,
    disk: &mut D,
    table: &mut KeptBlocks,
    inode: &Inode,
    master: u64,
) -> Result<Vec<Link>, MountFault>
    requires work { IsWorking (D.state disk.old) table.old }
    requires few { (D.state disk.old).count ≤ most_blocks }
    requires hashed { is_hashed_by inode.now.dinode ≡ true }
    ensures work { OnOk result (IsWorking (D.state disk.new) table.new) }
    ensures grown { OnOk result (IsGrown table.old table.new) }
    ensures found { IfOk result (λ journals. (im : Image) → ShowsSystem (D.state disk.old) im → IsJindexIn im master inode.now → IsSearched im [] 0 0 table.old → AreJournalsOf im inode.now.block journals.items) }
    ensures read { OnOk result ((im : Image) → ShowsSystem (D.state disk.old) im → IsJindexIn im master inode.now → IsSearched im [] 0 0 table.old → is_hashed_in (every im inode.now.block) ≡ true → HasReadDirectory im table.new inode.now.block) }
    ensures searched { OnOk result ((im : Image) → ShowsSystem (D.state disk.old) im → IsJindexIn im master inode.now → IsSearched im [] 0 0 table.old → IsSearched im [] 0 0 table.new) }
    ensures refused { (im : Image) → ShowsSystem (D.state disk.old) im → IsJindexIn im master inode.now → IsSearched im [] 0 0 table.old → IfErr result (RefusesRightly im) }
    ensures risen { IfErr result (HasRisen (D.faults disk.old) (D.faults disk.new)) }
    ensures within { IfErr result (LiesWithin (D.state disk.old).count) }
    ensures reads { ReadsOnly (D.state disk.old) (D.state disk.new) (D.list disk.old) (D.list disk.new) (D.faults disk.old) (D.faults disk.new) }
{
    let walk = search_leaves(alloc, disk, table, inode, Names::Journals)?;
    if walk.others > 0 {
        return Err(outside(Field::Journals, count_names(&walk.records) + walk.others));
    }
    check_hashed(inode, master, &walk.records)?;
    let journals = check_journals(alloc, &walk.records)?;
    Ok(journals)
}

/// The journals by their records in the directory of journals, whose dinode is kept; where that is a hashed one its leaves are
/// read.
pub(crate) fn search_journals<D: SharedDisk>(
    alloc: Global,
    disk: &mut D,
    table: &mut KeptBlocks,
    inode: &Inode,
    master: u64,
) -> Result<Vec<Link>, MountFault>
    requires work { IsWorking (D.state disk.old) table.old }
    requires few { (D.state disk.old).count ≤ most_blocks }
    ensures work { OnOk result (IsWorking (D.state disk.new) table.new) }
    ensures grown { OnOk result (IsGrown table.old table.new) }
    ensures found { IfOk result (λ journals. (im : Image) → ShowsSystem (D.state disk.old) im → IsJindexIn im master inode.now → IsSearched im [] 0 0 table.old → AreJournalsOf im inode.now.block journals.items) }
    ensures read { OnOk result ((im : Image) → ShowsSystem (D.state disk.old) im → IsJindexIn im master inode.now → IsSearched im [] 0 0 table.old → is_hashed_in (every im inode.now.block) ≡ true → HasReadDirectory im table.new inode.now.block) }
    ensures searched { OnOk result ((im : Image) → ShowsSystem (D.state disk.old) im → IsJindexIn im master inode.now → IsSearched im [] 0 0 table.old → IsSearched im [] 0 0 table.new) }
    ensures refused { (im : Image) → ShowsSystem (D.state disk.old) im → IsJindexIn im master inode.now → IsSearched im [] 0 0 table.old → IfErr result (RefusesRightly im) }
    ensures risen { IfErr result (HasRisen (D.faults disk.old) (D.faults disk.new)) }
    ensures within { IfErr result (LiesWithin (D.state disk.old).count) }
    ensures reads { ReadsOnly (D.state disk.old) (D.state disk.new) (D.list disk.old) (D.list disk.new) (D.faults disk.old) (D.faults disk.new) }
{
    if inode.is_hashed() {
        return search_hashed(alloc, disk, table, inode, master);
    }
    search_linear(alloc, disk, table, inode, master)
}
