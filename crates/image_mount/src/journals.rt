ghost use Rattle.std.specs.Prelude.{ℕ, ◌≡◌, ◌≢◌, ◌+◌, ◌<◌, ◌≤◌, ◌↔◌, ◌++◌, [], ◌∷◌, List, Contains, length, map, take, slice_get, None, Some, IsTrue, OnOk, IfOk, IfErr};
ghost use Rattle.std.specs.List.{All};
ghost use Rattle.gfs2_layout.specs.Device.{superblock_place};
ghost use Rattle.gfs2_layout.specs.Inode.{Fits};
ghost use Rattle.log_layout.specs.Journal.{accepted as accepted_at, head_in};
ghost use Rattle.shared_disk.specs.Disk.{IsIdle};
ghost use Rattle.shared_disk.specs.Disk.{ReadsOnly};
ghost use Rattle.image_mount.specs.declared.listing.Link.{Link as LinkValue};
ghost use Rattle.image_model.specs.Claims.{every};
ghost use Rattle.image_model.specs.Image.{Image};
ghost use Rattle.image_model.specs.Stands.{Layout, IsJournalAt};
ghost use Rattle.image_model.specs.SystemFiles.{IsSystemBlock};
ghost use Rattle.image_mount.specs.Found.{HasNames, IsReached};
ghost use Rattle.image_mount.specs.Looks.{IsInGroups, IsTrueEntry};
ghost use Rattle.image_mount.specs.Marked.{AreMarked, IsGrown, IsKept, IsKeptWay, IsTaken, marks_of};
ghost use Rattle.image_mount.specs.Refusals.{HasLowHead, HasRisen, IsJournalSized, LiesWithin, RefusesRightly};
ghost use Rattle.image_mount.specs.Rings.{AreKeptWays, IsSearched, IsJournalIn, IsNext, HasPlaces, IsPlaceAt, AreBlocksOf, IsRingOf, AreRings, AreJournals, IsHeadOf, IsOwn, all_places, ring_at};
ghost use Rattle.image_mount.specs.Searching.{IsRead, IsSteady, IsWorking, LacksBlock, ShowsSystem, StopsRightly};
ghost use Rattle.image_mount.specs.System.{IsSystemOf};

use crate::fault::MountFault;
use crate::fetching::{go_on, read_into};
use crate::field::Field;
use crate::groups::is_data;
use crate::inodes::Inode;
use crate::kept_blocks::KeptBlocks;
use crate::listing::Link;
use crate::mounted::JournalMap;
use crate::stop::{Stop, damaged, outside, reads};
use crate::system::System;
use dinode_tree::{Located, locate};
use glock_names::{Step, View};
use log_layout::{LogHeader, better};
use profile_limits::{LEAST_JOURNAL_BLOCKS, MOST_JOURNAL_BLOCKS};
use shared_disk::SharedDisk;
use std::alloc::Global;

const LEAST_PLACES: u64 = LEAST_JOURNAL_BLOCKS as u64;

const MOST_PLACES: u64 = MOST_JOURNAL_BLOCKS as u64;

/// Where a journal lies: the block of its dinode, and the block at each of its places.
#[derive(Drop)]
pub(crate) struct Ring {
    pub dinode: u64,
    pub blocks: Vec<u64>,
}

// How many places a journal has, which is a file of whole blocks.
fn place_count(table: &KeptBlocks, journal: &Link) -> Result<u64, Stop>
    ensures found { (im : Image) → IsRead im table.now → IfOk result (HasPlaces im journal.now.entry.addr) }
    ensures repeats { (im : Image) → IsRead im table.now → OnOk result (IsTrueEntry im journal.now.entry) }
    ensures there { OnOk result (IsKept table.now journal.now.entry.addr) }
    ensures stops { (im : Image) → IsRead im table.now → IsJournalIn im journal.now → IfErr result (StopsRightly im) }
    ensures lacks { IfErr result (LacksBlock table.now) }
{
    let inode = Inode::read(table, journal.from, journal.entry.addr)?;
    inode.check_record(&journal.entry)?;
    let size = table.block_size();
    if inode.dinode.is_directory() {
        inode.check_directory(size)?;
    }
    if inode.dinode.size % u64::from(size) != 0 {
        return Err(Stop::Refused(damaged(inode.block, 8)));
    }
    let places = inode.dinode.size / u64::from(size);
    if places < LEAST_PLACES || places > MOST_PLACES {
        return Err(Stop::Refused(outside(Field::Journal, places)));
    }
    Ok(places)
}

fn count_places<D: SharedDisk>(
    alloc: Global,
    disk: &mut D,
    table: &mut KeptBlocks,
    journal: &Link,
) -> Result<u64, MountFault>
    requires work { IsWorking (D.state disk.old) table.old }
    ensures there { OnOk result (IsKept table.new journal.now.entry.addr) }
    ensures work { OnOk result (IsWorking (D.state disk.new) table.new) }
    ensures grown { OnOk result (IsGrown table.old table.new) }
    ensures places { table.new.places ≡ table.old.places }
    ensures found { IfOk result (λ places. (done : List ℕ) (d n : ℕ) → (im : Image) → ShowsSystem (D.state disk.old) im → IsJournalIn im journal.now → IsSearched im done d n table.old → HasPlaces im journal.now.entry.addr places) }
    ensures repeats { OnOk result ((done : List ℕ) (d n : ℕ) → (im : Image) → ShowsSystem (D.state disk.old) im → IsJournalIn im journal.now → IsSearched im done d n table.old → IsTrueEntry im journal.now.entry) }
    ensures searched { OnOk result ((done : List ℕ) (d n : ℕ) → (im : Image) → ShowsSystem (D.state disk.old) im → IsJournalIn im journal.now → IsSearched im done d n table.old
        → IsSearched im done d n table.new) }
    ensures refused { (done : List ℕ) (d n : ℕ) → (im : Image) → ShowsSystem (D.state disk.old) im → IsJournalIn im journal.now → IsSearched im done d n table.old
        → IfErr result (RefusesRightly im) }
    ensures risen { IfErr result (HasRisen (D.faults disk.old) (D.faults disk.new)) }
    ensures within { IfErr result (LiesWithin (D.state disk.old).count) }
    ensures reads { ReadsOnly (D.state disk.old) (D.state disk.new) (D.list disk.old) (D.list disk.new) (D.faults disk.old) (D.faults disk.new) }
{
    loop {
        match place_count(table, journal) {
            Ok(places) => return Ok(places),
            Err(stop) => go_on(alloc, disk, table, stop)?,
        }
    }
}

// The block at a place of a journal, which has no hole.
fn block_at(table: &KeptBlocks, journal: &Link, place: u64) -> Result<Located, Stop>
    ensures found { (im : Image) → IsRead im table.now → IfOk result (IsPlaceAt im journal.now.entry.addr place) }
    ensures ways { (im : Image) → IsRead im table.now → IsKept table.now journal.now.entry.addr → OnOk result (IsKeptWay table.now (every im journal.now.entry.addr) place) }
    ensures stops { (im : Image) (places : ℕ) → IsRead im table.now → IsJournalIn im journal.now → HasPlaces im journal.now.entry.addr places → place < places → IfErr result (StopsRightly im) }
    ensures lacks { IfErr result (LacksBlock table.now) }
{
    match locate(table, journal.entry.addr, place)? {
        Step::Is(Some(located)) => Ok(located),
        Step::Is(None) => Err(Stop::Refused(damaged(journal.entry.addr, 8))),
        Step::NeedBlock(missing) if missing.block == journal.entry.addr => Err(Stop::Reads {
            block: journal.entry.addr,
            from: journal.from,
        }),
        Step::NeedBlock(missing) => Err(reads(&missing)),
    }
}

fn find_block<D: SharedDisk>(
    alloc: Global,
    disk: &mut D,
    table: &mut KeptBlocks,
    journal: &Link,
    place: u64,
) -> Result<Located, MountFault>
    requires work { IsWorking (D.state disk.old) table.old }
    ensures work { OnOk result (IsWorking (D.state disk.new) table.new) }
    ensures grown { OnOk result (IsGrown table.old table.new) }
    ensures ways { OnOk result ((done : List ℕ) (d n places : ℕ) → (im : Image) → ShowsSystem (D.state disk.old) im → IsJournalIn im journal.now → HasPlaces im journal.now.entry.addr places → place < places → IsSearched im done d n table.old → IsKept table.old journal.now.entry.addr → IsKeptWay table.new (every im journal.now.entry.addr) place) }
    ensures places { table.new.places ≡ table.old.places }
    ensures found { IfOk result (λ located. (done : List ℕ) (d n places : ℕ) → (im : Image) → ShowsSystem (D.state disk.old) im → IsJournalIn im journal.now → HasPlaces im journal.now.entry.addr places → place < places → IsSearched im done d n table.old → IsPlaceAt im journal.now.entry.addr place located) }
    ensures searched { OnOk result ((done : List ℕ) (d n places : ℕ) → (im : Image) → ShowsSystem (D.state disk.old) im → IsJournalIn im journal.now → HasPlaces im journal.now.entry.addr places → place < places
        → IsSearched im done d n table.old → IsSearched im done d n table.new) }
    ensures refused { (done : List ℕ) (d n places : ℕ) → (im : Image) → ShowsSystem (D.state disk.old) im → IsJournalIn im journal.now → HasPlaces im journal.now.entry.addr places → place < places
        → IsSearched im done d n table.old → IfErr result (RefusesRightly im) }
    ensures risen { IfErr result (HasRisen (D.faults disk.old) (D.faults disk.new)) }
    ensures within { IfErr result (LiesWithin (D.state disk.old).count) }
    ensures reads { ReadsOnly (D.state disk.old) (D.state disk.new) (D.list disk.old) (D.list disk.new) (D.faults disk.old) (D.faults disk.new) }
{
    loop {
        match block_at(table, journal, place) {
            Ok(located) => return Ok(located),
            Err(stop) => go_on(alloc, disk, table, stop)?,
        }
    }
}

// That a place of a journal lies in a group's data blocks, and that its block was not read so far and is not another's place.
fn check_place(table: &KeptBlocks, system: &System, located: &Located) -> Result<(), MountFault>
    ensures inside { OnOk result (located.now.block < length table.now.entries) }
    ensures placed { OnOk result (IsInGroups system.now.groups.items located.now.block) }
    ensures unmarked { OnOk result (marks_of table.now located.now.block ≡ 0) }
    ensures free { OnOk result (¬ (IsTaken table.now located.now.block)) }
    ensures apart { OnOk result ((im : Image) → IsSystemOf im system.now → located.now.block ≢ superblock_place im.size) }
    ensures refused { (im : Image) (done : List ℕ) (journal : LinkValue) (place : ℕ) → IsRead im table.now → IsNext im done system.now journal → IsSearched im done journal.entry.addr place table.now
        → IsPlaceAt im journal.entry.addr place located.now → IfErr result (RefusesRightly im) }
    ensures steady { IfErr result IsSteady }
{
    if located.block >= table.count() || !is_data(&system.groups, located.block) {
        return Err(damaged(located.from, 2));
    }
    if table.is_taken(located.block) {
        return Err(damaged(located.block, 3));
    }
    Ok(())
}

// The blocks at so many places of a journal.
fn find_blocks<D: SharedDisk>(
    alloc: Global,
    disk: &mut D,
    table: &mut KeptBlocks,
    system: &System,
    journal: &Link,
    places: u64,
) -> Result<Vec<u64>, MountFault>
    requires work { IsWorking (D.state disk.old) table.old }
    ensures work { OnOk result (IsWorking (D.state disk.new) table.new) }
    ensures grown { OnOk result (IsGrown table.old table.new) }
    ensures ways { OnOk result ((done : List ℕ) → (im : Image) → ShowsSystem (D.state disk.old) im → IsNext im done system.now journal.now → HasPlaces im journal.now.entry.addr places → IsSearched im done journal.now.entry.addr 0 table.old
        → IsKept table.old journal.now.entry.addr → (p : ℕ) → p < places → IsKeptWay table.new (every im journal.now.entry.addr) p) }
    ensures found { IfOk result (λ blocks. (done : List ℕ) → (im : Image) → ShowsSystem (D.state disk.old) im → IsNext im done system.now journal.now → HasPlaces im journal.now.entry.addr places
        → IsSearched im done journal.now.entry.addr 0 table.old → AreBlocksOf im journal.now.entry.addr places blocks.items) }
    ensures searched { OnOk result ((done : List ℕ) → (im : Image) → ShowsSystem (D.state disk.old) im → IsNext im done system.now journal.now → HasPlaces im journal.now.entry.addr places
        → IsSearched im done journal.now.entry.addr 0 table.old → IsSearched im done journal.now.entry.addr places table.new) }
    ensures refused { (done : List ℕ) → (im : Image) → ShowsSystem (D.state disk.old) im → IsNext im done system.now journal.now → HasPlaces im journal.now.entry.addr places
        → IsSearched im done journal.now.entry.addr 0 table.old → IfErr result (RefusesRightly im) }
    ensures inside { IfOk result (λ blocks. All (λ b. b < (D.state disk.old).count) blocks.items) }
    ensures placed { IfOk result (λ blocks. All (IsInGroups system.now.groups.items) blocks.items) }
    ensures marked { IfOk result (λ blocks. AreMarked table.old table.new blocks.items) }
    ensures count { IfOk result (λ blocks. length blocks.items ≡ places) }
    ensures risen { IfErr result (HasRisen (D.faults disk.old) (D.faults disk.new)) }
    ensures within { IfErr result (LiesWithin (D.state disk.old).count) }
    ensures reads { ReadsOnly (D.state disk.old) (D.state disk.new) (D.list disk.old) (D.list disk.new) (D.faults disk.old) (D.faults disk.new) }
{
    let mut blocks = Vec::with_capacity(alloc, places as usize)?;
    for place in 0..places {
        let located = find_block(alloc, disk, table, journal, place)?;
        check_place(table, system, &located)?;
        table.mark(located.block);
        blocks.push(located.block)?;
    }
    Ok(blocks)
}

// Whether the block is that of the dinode of one of these journals.
fn has_dinode(rings: &[Ring], block: u64) -> bool
    ensures { IsTrue result ↔ Contains (map (λ (ring : Ring). ring.dinode) rings.now) block }
{
    for ring in rings {
        if ring.dinode == block {
            return true;
        }
    }
    false
}

// Where a journal lies. No other has its dinode.
fn find_ring<D: SharedDisk>(
    alloc: Global,
    disk: &mut D,
    table: &mut KeptBlocks,
    system: &System,
    journal: &Link,
) -> Result<Ring, MountFault>
    requires work { IsWorking (D.state disk.old) table.old }
    ensures there { OnOk result (IsKept table.new journal.now.entry.addr) }
    ensures work { OnOk result (IsWorking (D.state disk.new) table.new) }
    ensures grown { OnOk result (IsGrown table.old table.new) }
    ensures ways { IfOk result (λ ring. (done : List ℕ) → (im : Image) → ShowsSystem (D.state disk.old) im → IsNext im done system.now journal.now → IsSearched im done 0 0 table.old → AreKeptWays im table.new journal.now.entry.addr ring.blocks.items) }
    ensures dinode { IfOk result (λ ring. ring.dinode ≡ journal.now.entry.addr) }
    ensures repeats { OnOk result ((done : List ℕ) → (im : Image) → ShowsSystem (D.state disk.old) im → IsNext im done system.now journal.now → IsSearched im done 0 0 table.old → IsTrueEntry im journal.now.entry) }
    ensures found { IfOk result (λ ring. (done : List ℕ) → (im : Image) → ShowsSystem (D.state disk.old) im → IsNext im done system.now journal.now → IsSearched im done 0 0 table.old
        → IsRingOf im journal.now.entry.addr ring.blocks.items) }
    ensures searched { OnOk result ((done : List ℕ) → (im : Image) → ShowsSystem (D.state disk.old) im → IsNext im done system.now journal.now → IsSearched im done 0 0 table.old
        → IsSearched im (done ++ journal.now.entry.addr ∷ []) 0 0 table.new) }
    ensures refused { (done : List ℕ) → (im : Image) → ShowsSystem (D.state disk.old) im → IsNext im done system.now journal.now → IsSearched im done 0 0 table.old → IfErr result (RefusesRightly im) }
    ensures inside { IfOk result (λ ring. All (λ b. b < (D.state disk.old).count) ring.blocks.items) }
    ensures placed { IfOk result (λ ring. All (IsInGroups system.now.groups.items) ring.blocks.items) }
    ensures marked { IfOk result (λ ring. AreMarked table.old table.new ring.blocks.items) }
    ensures risen { IfErr result (HasRisen (D.faults disk.old) (D.faults disk.new)) }
    ensures within { IfErr result (LiesWithin (D.state disk.old).count) }
    ensures reads { ReadsOnly (D.state disk.old) (D.state disk.new) (D.list disk.old) (D.list disk.new) (D.faults disk.old) (D.faults disk.new) }
{
    let dinode = journal.entry.addr;
    let places = count_places(alloc, disk, table, journal)?;
    let blocks = find_blocks(alloc, disk, table, system, journal, places)?;
    Ok(Ring { dinode, blocks })
}

// That this block of a journal's dinode is none of another system file's, nor that of a journal before it.
fn check_dinode(system: &System, rings: &[Ring], addr: u64) -> Result<(), MountFault>
    ensures own { OnOk result (IsOwn system.now addr) }
    ensures new { OnOk result (¬ (Contains (map (λ (ring : Ring). ring.dinode) rings.now) addr)) }
    ensures refused { (im : Image) (j : ℕ) (journal : LinkValue) → IsSystemOf im system.now → AreRings im (take j system.now.journals.items) rings.now → slice_get system.now.journals.items j ≡ Some journal → journal.entry.addr ≡ addr
        → IfErr result (RefusesRightly im) }
    ensures steady { IfErr result IsSteady }
    ensures risen { (f g : ℕ → ℕ) → IfErr result (HasRisen f g) }
    ensures within { (count : ℕ) → IfErr result (LiesWithin count) }
{
    if addr == system.superblock.master.address {
        return Err(damaged(addr, 3));
    }
    if addr == system.rindex {
        return Err(damaged(addr, 3));
    }
    if addr == system.jindex {
        return Err(damaged(addr, 3));
    }
    if has_dinode(rings, addr) {
        return Err(damaged(addr, 3));
    }
    Ok(())
}

/// Where the journals lie, each in turn.
pub(crate) fn find_rings<D: SharedDisk>(
    alloc: Global,
    disk: &mut D,
    table: &mut KeptBlocks,
    system: &System,
) -> Result<Vec<Ring>, MountFault>
    requires work { IsWorking (D.state disk.old) table.old }
    ensures work { OnOk result (IsWorking (D.state disk.new) table.new) }
    ensures grown { OnOk result (IsGrown table.old table.new) }
    ensures ways { IfOk result (λ rings. (im : Image) → ShowsSystem (D.state disk.old) im → IsSystemOf im system.now → IsSearched im [] 0 0 table.old → All (λ (ring : Ring). AreKeptWays im table.new ring.dinode ring.blocks.items) rings.items) }
    ensures kept { IfOk result (λ rings. All (λ (ring : Ring). IsKept table.new ring.dinode) rings.items) }
    ensures found { IfOk result (λ rings. (im : Image) → ShowsSystem (D.state disk.old) im → IsSystemOf im system.now → IsSearched im [] 0 0 table.old → AreRings im system.now.journals.items rings.items) }
    ensures searched { IfOk result (λ rings. (im : Image) → ShowsSystem (D.state disk.old) im → IsSystemOf im system.now → IsSearched im [] 0 0 table.old → IsSearched im (map (λ (ring : Ring). ring.dinode) rings.items) 0 0 table.new) }
    ensures refused { (im : Image) → ShowsSystem (D.state disk.old) im → IsSystemOf im system.now → IsSearched im [] 0 0 table.old → IfErr result (RefusesRightly im) }
    ensures inside { IfOk result (λ rings. All (λ (ring : Ring). All (λ b. b < (D.state disk.old).count) ring.blocks.items) rings.items) }
    ensures placed { IfOk result (λ rings. All (λ (ring : Ring). All (IsInGroups system.now.groups.items) ring.blocks.items) rings.items) }
    ensures own { IfOk result (λ rings. All (λ (ring : Ring). IsOwn system.now ring.dinode) rings.items) }
    ensures marked { IfOk result (λ rings. AreMarked table.old table.new (all_places rings.items)) }
    ensures risen { IfErr result (HasRisen (D.faults disk.old) (D.faults disk.new)) }
    ensures within { IfErr result (LiesWithin (D.state disk.old).count) }
    ensures reads { ReadsOnly (D.state disk.old) (D.state disk.new) (D.list disk.old) (D.list disk.new) (D.faults disk.old) (D.faults disk.new) }
{
    let mut rings = Vec::new(alloc);
    for journal in &system.journals {
        check_dinode(system, &rings, journal.entry.addr)?;
        let ring = find_ring(alloc, disk, table, system, journal)?;
        rings.push(ring)?;
    }
    Ok(rings)
}

// The header that is accepted at a place, if one is.
fn accepted(place: u64, bytes: &[u8]) -> Option<LogHeader>
    ensures { result ≡ accepted_at place bytes.now }
{
    match LogHeader::read(bytes) {
        Ok(header) if u64::from(header.blkno) == place => Some(header),
        _ => None,
    }
}

// The best of the headers that are accepted in these blocks, each of which is read once.
fn best_header<D: SharedDisk>(
    disk: &mut D,
    bytes: &mut [u8],
    blocks: &[u64],
) -> Result<Option<LogHeader>, MountFault>
    requires idle { IsIdle (D.state disk.old) }
    requires size { length bytes.old ≡ (D.state disk.old).size }
    requires inside { All (λ b. b < (D.state disk.old).count) blocks.now }
    ensures found { IfOk result (λ best. (im : Image) → ShowsSystem (D.state disk.old) im → All (IsSystemBlock im) blocks.now → best ≡ head_in (ring_at im blocks.now)) }
    ensures refused { (im : Image) → All (IsReached im) blocks.now → IfErr result (RefusesRightly im) }
    ensures risen { IfErr result (HasRisen (D.faults disk.old) (D.faults disk.new)) }
    ensures within { IfErr result (LiesWithin (D.state disk.old).count) }
    ensures reads { ReadsOnly (D.state disk.old) (D.state disk.new) (D.list disk.old) (D.list disk.new) (D.faults disk.old) (D.faults disk.new) }
{
    let mut best = None;
    let mut place = 0;
    for block in blocks {
        read_into(disk, *block, bytes)?;
        best = better(best, accepted(place, bytes));
        place += 1;
    }
    Ok(best)
}

// The head of a journal, whose sequence is below 2^63.
fn find_head<D: SharedDisk>(
    disk: &mut D,
    bytes: &mut [u8],
    ring: &Ring,
) -> Result<LogHeader, MountFault>
    requires idle { IsIdle (D.state disk.old) }
    requires size { length bytes.old ≡ (D.state disk.old).size }
    requires inside { All (λ b. b < (D.state disk.old).count) ring.now.blocks.items }
    ensures found { IfOk result (λ head. (im : Image) → ShowsSystem (D.state disk.old) im → IsRingOf im ring.now.dinode ring.now.blocks.items → IsHeadOf im ring.now.dinode head) }
    ensures refused { (l : Layout) (j : ℕ) → (im : Image) → ShowsSystem (D.state disk.old) im → HasNames im l → ((i d : ℕ) → IsJournalAt l i d → IsJournalSized im d)
        → ((i d : ℕ) → i < j → IsJournalAt l i d → HasLowHead im d) → IsJournalAt l j ring.now.dinode → IsRingOf im ring.now.dinode ring.now.blocks.items
        → IfErr result (RefusesRightly im) }
    ensures risen { IfErr result (HasRisen (D.faults disk.old) (D.faults disk.new)) }
    ensures within { IfErr result (LiesWithin (D.state disk.old).count) }
    ensures reads { ReadsOnly (D.state disk.old) (D.state disk.new) (D.list disk.old) (D.list disk.new) (D.faults disk.old) (D.faults disk.new) }
{
    let Some(head) = best_header(disk, bytes, &ring.blocks)? else {
        return Err(damaged(ring.dinode, 16));
    };
    if head.sequence >= 1 << 63 {
        return Err(outside(Field::Sequence, head.sequence));
    }
    Ok(head)
}

/// The journals with their heads, each in turn. It reads the block at each place once.
pub(crate) fn find_journals<D: SharedDisk>(
    alloc: Global,
    disk: &mut D,
    rings: Vec<Ring>,
) -> Result<Vec<JournalMap>, MountFault>
    requires idle { IsIdle (D.state disk.old) }
    requires inside { All (λ (ring : Ring). All (λ b. b < (D.state disk.old).count) ring.blocks.items) rings.items }
    ensures found { IfOk result (λ journals. (im : Image) → ShowsSystem (D.state disk.old) im → All (λ (ring : Ring). IsRingOf im ring.dinode ring.blocks.items) rings.items → AreJournals im rings.items journals.items) }
    ensures refused { (l : Layout) → (im : Image) → ShowsSystem (D.state disk.old) im → HasNames im l → map (λ (ring : Ring). ring.dinode) rings.items ≡ l.journals
        → All (λ (ring : Ring). IsRingOf im ring.dinode ring.blocks.items) rings.items → IfErr result (RefusesRightly im) }
    ensures risen { IfErr result (HasRisen (D.faults disk.old) (D.faults disk.new)) }
    ensures within { IfErr result (LiesWithin (D.state disk.old).count) }
    ensures same { D.state disk.new ≡ (D.state disk.old) }
    ensures list { D.list disk.new ≡ D.list disk.old }
    ensures later { (j : ℕ) → D.faults disk.old j ≤ D.faults disk.new j }
{
    let size = disk.block_size() as usize;
    let mut bytes = vec![in alloc; 0u8; size]?;
    let mut journals = Vec::with_capacity(alloc, rings.len())?;
    for ring in rings {
        let head = find_head(disk, &mut bytes, &ring)?;
        journals.push(JournalMap {
            dinode: ring.dinode,
            blocks: ring.blocks,
            head,
        })?;
    }
    Ok(journals)
}
