ghost use Rattle.std.specs.Prelude.{◌≡◌, ◌+◌, ◌-◌, min, ◌*◌, ◌^◌, ◌<◌, ◌≤◌, ◌≢◌, ◌∷◌, [], true, false, codes, length, vec_len, IfErr, IfOk, OnOk};
ghost use Rattle.gfs2_layout.specs.Area.{IsArea};
ghost use Rattle.gfs2_layout.specs.Structures.{is_in_use};

use crate::image::{ImageFault, damaged};
use crate::inode::Inode;
use crate::owners::Claim;
use crate::walk::Walk;
use file_tree::{Name, is_name};
use gfs2_layout::{DINODE_LENGTH, Dirent, Record, find_record, is_area, next_record};

/// An inode to which names lead from a top directory.
#[derive(Drop)]
pub(crate) struct Found<'a> {
    pub inode: Inode<'a>,
    /// The name that leads to it, and the block in which its record stands.
    pub name: Name,
    pub by: u64,
    /// The place of the directory that names it, and the block of its dinode.
    pub up: usize,
    pub parent: u64,
}

/// An inode that is gone over, and the block of the dinode of the directory above it. Places are counted over
/// all that was found: a top directory has place 0, and is its own parent.
#[derive(Clone, Copy)]
pub(crate) struct Visit<'a> {
    pub inode: Inode<'a>,
    pub parent: u64,
    pub place: usize,
}

/// An area of records, and the block that it stands in.
#[derive(Clone, Copy)]
pub(crate) struct Area<'a> {
    pub block: u64,
    pub bytes: &'a [u8],
}

/// What was counted of a directory's records.
#[derive(Clone, Copy)]
pub(crate) struct Tally {
    pub entries: u64,
    pub directories: u64,
    pub dot: bool,
    pub dots: bool,
    ghost small: { (entries < 2 ^ 64) × (directories < 2 ^ 64) },
}

impl Tally {
    ghost use Rattle.image_reader.specs.Finding.{said_by};
    ghost use Rattle.image_reader.specs.Going.{AreCounted};

    pub fn none() -> Tally
        ensures entries { result.entries ≡ 0 }
        ensures directories { result.directories ≡ 0 }
        ensures dot { result.dot ≡ false }
        ensures dots { result.dots ≡ false }
    {
        Tally {
            entries: 0,
            directories: 0,
            dot: false,
            dots: false,
        }
    }

    /// Adds what was counted of one of the directory's areas.
    pub fn add(&mut self, more: &Tally)
        ensures entries { self.new.entries ≡ min (self.old.entries + more.now.entries) (2 ^ 64 - 1) }
        ensures directories { self.new.directories ≡ min (self.old.directories + more.now.directories) (2 ^ 64 - 1) }
        ensures dot { self.new.dot ≡ false → (self.old.dot ≡ false) × (more.now.dot ≡ false) }
        ensures dots { self.new.dots ≡ false → (self.old.dots ≡ false) × (more.now.dots ≡ false) }
    {
        self.entries = self.entries.saturating_add(more.entries);
        self.directories = self.directories.saturating_add(more.directories);
        self.dot = self.dot || more.dot;
        self.dots = self.dots || more.dots;
    }

    // Counts a record in use.
    fn count(&mut self, record: &Record<'_>)
        ensures { AreCounted self.old self.new (said_by record.now.head record.now.name.now ∷ []) }
    {
        self.entries = self.entries.saturating_add(1);
        if record.name == b".".as_slice() {
            self.dot = true;
            return;
        }
        if record.name == b"..".as_slice() {
            self.dots = true;
            return;
        }
        if record.head.kind == 4 {
            self.directories = self.directories.saturating_add(1);
        }
    }
}

impl<'a> Inode<'a> {
    ghost use Rattle.std.specs.Prelude.{ℕ, List};
    ghost use Rattle.image_reader.specs.Finding.{HasRecordAt};
    ghost use Rattle.image_reader.specs.Reading.{IsTrueOf, image_at};

    // That a record in block `by` repeats the kind and the formal number of this inode, which it names.
    fn check_record(&self, head: &Dirent, by: u64) -> Result<(), ImageFault>
        requires has { (a : ℕ) × ((name : List ℕ) × HasRecordAt self.now.block.image a by head.now name) }
        requires address { head.now.inum.address ≡ self.now.block.number }
        ensures damaged { IfErr result (IsTrueOf (image_at self.now.block.image)) }
    {
        if head.kind != self.kind() {
            return Err(damaged(by, 11));
        }
        if head.inum.number != self.dinode.num.number {
            return Err(damaged(by, 11));
        }
        Ok(())
    }
}

impl<'a> Inode<'a> {
    ghost use Rattle.gfs2_layout.specs.Inode.{is_hashed_in};
    ghost use Rattle.image_model.specs.Claims.{HasDirectory};
    ghost use Rattle.image_reader.specs.Complete.{IsWholeTally};
    ghost use Rattle.image_reader.specs.Reading.{held, IsTrueOf, image_at};

    // That the records of a linear directory are to fill its dinode's block.
    fn check_linear(&self) -> Result<(), ImageFault>
        requires directory { HasDirectory (image_at self.now.block.image) self.now.block.number }
        requires linear { is_hashed_in (held self.now) ≡ false }
        ensures damaged { IfErr result (IsTrueOf (image_at self.now.block.image)) }
    {
        if self.dinode.height != 0 {
            return Err(damaged(self.block.number, 8));
        }
        if self.dinode.size != self.room() {
            return Err(damaged(self.block.number, 8));
        }
        Ok(())
    }

    // That a directory has `.` and `..`, and that its links and entries are the count of its records.
    fn check_tally(&self, tally: &Tally) -> Result<(), ImageFault>
        requires directory { HasDirectory (image_at self.now.block.image) self.now.block.number }
        requires tally { IsWholeTally (image_at self.now.block.image) self.now.block.number tally.now }
        ensures damaged { IfErr result (IsTrueOf (image_at self.now.block.image)) }
    {
        if !tally.dot {
            return Err(damaged(self.block.number, 10));
        }
        if !tally.dots {
            return Err(damaged(self.block.number, 10));
        }
        if u64::from(self.dinode.nlink) != tally.directories.saturating_add(2) {
            return Err(damaged(self.block.number, 12));
        }
        if u64::from(self.dinode.entries) != tally.entries {
            return Err(damaged(self.block.number, 12));
        }
        Ok(())
    }
}

impl<'a> Found<'a> {
    ghost use Rattle.image_model.specs.Claims.{Claims};
    ghost use Rattle.image_reader.specs.Finding.{IsFoundIn};
    ghost use Rattle.file_tree.specs.Names.{IsName};
    ghost use Rattle.image_reader.specs.Going.{IsNamedBy, IsVisitIn};
    ghost use Rattle.image_model.specs.Owners.{Named};
    ghost use Rattle.image_reader.specs.Reading.{image_at};

    // What a record in block `by` of a directory names.
    fn new(visit: &Visit<'a>, inode: Inode<'a>, name: Name, by: u64) -> Found<'a>
        requires visit { IsVisitIn inode.block.image visit.now }
        requires named { IsName name }
        requires claimed { Claims (image_at inode.block.image) by inode.block.number (Named visit.now.inode.block.number name) }
        ensures found { IsFoundIn inode.entry.block.image result }
        ensures by { IsNamedBy visit.now result }
        ensures name { result.name ≡ name }
        ensures block { result.inode.block.number ≡ inode.entry.block.number }
    {
        Found {
            inode,
            name,
            by,
            up: visit.place,
            parent: visit.inode.block.number,
        }
    }
}

impl<'a> Found<'a> {
    ghost use Rattle.std.specs.Prelude.{IsTrue};

    // Whether it has the name of a record of this directory in block `by`, from a record in another block.
    fn is_twin(&self, parent: u64, by: u64, name: &[u8]) -> bool
        ensures parent { IsTrue result → self.now.parent ≡ parent }
        ensures by { IsTrue result → by ≢ self.now.by }
        ensures name { IsTrue result → self.now.name ≡ name.now }
    {
        self.parent == parent && self.by != by && self.name.bytes() == name
    }
}

ghost use Rattle.std.specs.Prelude.{ℕ};
ghost use Rattle.std.specs.List.{All};
ghost use Rattle.image_model.specs.Claims.{Claims};
ghost use Rattle.image_reader.specs.Finding.{IsFoundIn};
ghost use Rattle.image_model.specs.Owners.{Named};
ghost use Rattle.image_reader.specs.Reading.{IsTrueOf, image_at};
ghost use Rattle.image_reader.specs.declared.blocks.Blocks.{Blocks};

// That a name whose block was found already is that of no record in another block.
fn check_twins(parent: u64, by: u64, name: &[u8], found: &[Found<'_>]) -> Result<(), ImageFault>
    ensures damaged { (image : Blocks) (b : ℕ) → All (IsFoundIn image) found.now → Claims (image_at image) by b (Named parent name.now) → IfErr result (IsTrueOf (image_at image)) }
{
    for entry in found {
        if entry.is_twin(parent, by, name) {
            return Err(damaged(by, 10));
        }
    }
    Ok(())
}

impl<'a> Walk<'a> {
    ghost use Rattle.std.specs.Prelude.{ℕ, List};
    ghost use Rattle.std.specs.List.{All};
    ghost use Rattle.image_model.specs.Claims.{HasInode, HasArea, HasDirectory};
    ghost use Rattle.image_reader.specs.Finding.{HasRecordAt, HasSlotAt};
    ghost use Rattle.image_reader.specs.Going.{AreCounted, AreFound, GoesOn, HasSlotBefore, IsGoing, IsNameOf, IsOf, says};
    ghost use Rattle.image_reader.specs.Found.{HasEntry};
    ghost use Rattle.image_reader.specs.Reading.{IsTrueOf, held, image_at};
    ghost use Rattle.gfs2_layout.specs.Inode.{Fits, is_hashed_in, linear_area};
    ghost use Rattle.image_reader.specs.Complete.{AllAreFound, HasNoLeaf, IsWholeTally};
    ghost use Rattle.gfs2_layout.specs.Records.{is_dots, records_in};
    ghost use Rattle.image_model.specs.Rules.{IsBrokenBlock};

    // `.` or `..`, which leads to the directory with this address.
    fn check_dot(
        &self,
        visit: &Visit<'a>,
        by: u64,
        head: &Dirent,
        address: u64,
    ) -> Result<(), ImageFault>
        requires wrong { head.now.inum.address ≢ address → IsBrokenBlock (image_at self.now.image) 10 visit.now.inode.block.number }
        requires inode { HasInode (image_at self.now.image) address }
        requires inside { address < self.now.image.count }
        requires has { (a : ℕ) × ((name : List ℕ) × HasRecordAt self.now.image a by head.now name) }
        ensures damaged { IfErr result (IsTrueOf (image_at self.now.image)) }
    {
        if head.inum.address != address {
            return Err(damaged(visit.inode.block.number, 10));
        }
        let Some(block) = self.image.get(address) else {
            unreachable!()
        };
        let inode = Inode::read(block)?;
        inode.check_record(head, by)
    }

    // A record with the name of a file or a directory: what it leads to is found, where that is new.
    fn find(
        &mut self,
        visit: &Visit<'a>,
        by: u64,
        record: &Record<'a>,
        found: &mut Vec<Found<'a>>,
    ) -> Result<(), ImageFault>
        requires going { IsGoing self.old visit.now found.old.items }
        requires has { HasRecordAt self.old.image visit.now.inode.block.number by record.now.head record.now.name.now }
        requires name { is_dots record.now.name.now ≡ false }
        ensures damaged { IfErr result (IsTrueOf (image_at self.old.image)) }
        ensures going { OnOk result (IsGoing self.new visit.now found.new.items) }
        ensures on { OnOk result (GoesOn (IsNameOf visit.now.inode.block.number) visit.now self.old.owners.entries.items found.old.items self.new.owners.entries.items found.new.items) }
        ensures entered { OnOk result (HasEntry found.new.items visit.now.place record.now.name.now record.now.head.inum.address) }
        ensures falls { vec_len found.new + self.new.owners.free ≤ vec_len found.old + self.old.owners.free }
        ensures free { self.new.owners.free ≤ self.old.owners.free }
        ensures grows { vec_len found.old ≤ vec_len found.new }
        ensures same { self.new.image ≡ self.old.image }
    {
        if !is_name(record.name) {
            return Err(damaged(by, 9));
        }
        let parent = visit.inode.block.number;
        let claim = Claim::Named {
            parent,
            name: record.name,
        };
        let block = match self.claim(by, record.head.inum.address, claim) {
            Ok(Some(block)) => block,
            Ok(None) => return check_twins(parent, by, record.name, found),
            Err(fault) => return Err(fault),
        };
        let inode = Inode::read(block)?;
        inode.check_record(&record.head, by)?;
        let name = Name::new(Vec::from_slice(self.alloc, record.name)?);
        let entry = Found::new(visit, inode, name, by);
        found.push(entry)?;
        Ok(())
    }

    // A record in use: `.`, `..`, or the name of a file or a directory.
    fn named(
        &mut self,
        visit: &Visit<'a>,
        by: u64,
        record: &Record<'a>,
        found: &mut Vec<Found<'a>>,
    ) -> Result<(), ImageFault>
        requires going { IsGoing self.old visit.now found.old.items }
        requires has { HasRecordAt self.old.image visit.now.inode.block.number by record.now.head record.now.name.now }
        ensures damaged { IfErr result (IsTrueOf (image_at self.old.image)) }
        ensures going { OnOk result (IsGoing self.new visit.now found.new.items) }
        ensures on { OnOk result (GoesOn (IsNameOf visit.now.inode.block.number) visit.now self.old.owners.entries.items found.old.items self.new.owners.entries.items found.new.items) }
        ensures entered { OnOk result (is_dots record.now.name.now ≡ false → HasEntry found.new.items visit.now.place record.now.name.now record.now.head.inum.address) }
        ensures falls { vec_len found.new + self.new.owners.free ≤ vec_len found.old + self.old.owners.free }
        ensures free { self.new.owners.free ≤ self.old.owners.free }
        ensures grows { vec_len found.old ≤ vec_len found.new }
        ensures same { self.new.image ≡ self.old.image }
    {
        if record.name == b".".as_slice() {
            return self.check_dot(visit, by, &record.head, visit.inode.block.number);
        }
        if record.name == b"..".as_slice() {
            return self.check_dot(visit, by, &record.head, visit.parent);
        }
        self.find(visit, by, record, found)
    }

    // That a record in use has its name's hash.
    fn check_hash(&self, visit: &Visit<'a>, by: u64, record: &Record<'a>) -> Result<(), ImageFault>
        requires { HasSlotAt self.now.image visit.now.inode.block.number by record.now.head record.now.name.now }
        ensures damaged { IfErr result (IsTrueOf (image_at self.now.image)) }
    {
        if record.head.hash != crc_words::crc32(record.name) {
            return Err(damaged(by, 9));
        }
        Ok(())
    }

    // That the name of a record in use doesn't come again in the records behind it.
    fn check_once(
        &self,
        visit: &Visit<'a>,
        by: u64,
        record: &Record<'a>,
        behind: &'a [u8],
    ) -> Result<(), ImageFault>
        requires slot { HasSlotBefore self.now.image visit.now.inode.block.number by record.now.head record.now.name.now behind.now }
        requires used { is_in_use record.now.head ≡ true }
        requires area { IsArea behind.now }
        requires short { length behind.now < 2 ^ 32 }
        ensures damaged { IfErr result (IsTrueOf (image_at self.now.image)) }
    {
        match find_record(behind, record.name) {
            Some(_) => Err(damaged(by, 10)),
            None => Ok(()),
        }
    }

    // A record, if it is in use, with the records behind it, in which its name doesn't come again.
    fn record(
        &mut self,
        visit: &Visit<'a>,
        by: u64,
        record: &Record<'a>,
        behind: &'a [u8],
        tally: &mut Tally,
        found: &mut Vec<Found<'a>>,
    ) -> Result<(), ImageFault>
        requires going { IsGoing self.old visit.now found.old.items }
        requires slot { HasSlotBefore self.old.image visit.now.inode.block.number by record.now.head record.now.name.now behind.now }
        requires area { IsArea behind.now }
        requires short { length behind.now < 2 ^ 32 }
        ensures damaged { IfErr result (IsTrueOf (image_at self.old.image)) }
        ensures going { OnOk result (IsGoing self.new visit.now found.new.items) }
        ensures on { OnOk result (GoesOn (IsNameOf visit.now.inode.block.number) visit.now self.old.owners.entries.items found.old.items self.new.owners.entries.items found.new.items) }
        ensures counted { OnOk result (AreCounted tally.old tally.new (says record.now.head record.now.name.now)) }
        ensures entered { OnOk result (AreFound found.new.items visit.now (says record.now.head record.now.name.now)) }
        ensures falls { vec_len found.new + self.new.owners.free ≤ vec_len found.old + self.old.owners.free }
        ensures free { self.new.owners.free ≤ self.old.owners.free }
        ensures grows { vec_len found.old ≤ vec_len found.new }
        ensures same { self.new.image ≡ self.old.image }
    {
        if !record.head.is_in_use() {
            return Ok(());
        }
        self.check_hash(visit, by, record)?;
        self.check_once(visit, by, record, behind)?;
        tally.count(record);
        self.named(visit, by, record, found)
    }

    /// Goes over the records of an area, which they are to fill.
    pub fn records(
        &mut self,
        visit: &Visit<'a>,
        area: &Area<'a>,
        tally: &mut Tally,
        found: &mut Vec<Found<'a>>,
    ) -> Result<(), ImageFault>
        requires going { IsGoing self.old visit.now found.old.items }
        requires area { HasArea (image_at self.old.image) visit.now.inode.block.number area.now.block area.now.bytes.now }
        requires short { length area.now.bytes.now < 2 ^ 32 }
        ensures damaged { IfErr result (IsTrueOf (image_at self.old.image)) }
        ensures going { OnOk result (IsGoing self.new visit.now found.new.items) }
        ensures on { OnOk result (GoesOn (IsNameOf visit.now.inode.block.number) visit.now self.old.owners.entries.items found.old.items self.new.owners.entries.items found.new.items) }
        ensures filled { OnOk result (IsArea area.now.bytes.now) }
        ensures counted { OnOk result (AreCounted tally.old tally.new (records_in area.now.bytes.now)) }
        ensures entered { OnOk result (AreFound found.new.items visit.now (records_in area.now.bytes.now)) }
        ensures falls { vec_len found.new + self.new.owners.free ≤ vec_len found.old + self.old.owners.free }
        ensures free { self.new.owners.free ≤ self.old.owners.free }
        ensures grows { vec_len found.old ≤ vec_len found.new }
        ensures same { self.new.image ≡ self.old.image }
    {
        if !is_area(area.bytes) {
            return Err(damaged(area.block, 9));
        }
        let mut rest = area.bytes;
        while let Some((record, behind)) = next_record(rest) {
            self.record(visit, area.block, &record, behind, tally, found)?;
            rest = behind;
        }
        Ok(())
    }

    // A linear directory: its records stand behind the dinode, and fill its block.
    fn linear(
        &mut self,
        visit: &Visit<'a>,
        tally: &mut Tally,
        found: &mut Vec<Found<'a>>,
    ) -> Result<(), ImageFault>
        requires going { IsGoing self.old visit.now found.old.items }
        requires directory { HasDirectory (image_at self.old.image) visit.now.inode.block.number }
        requires linear { is_hashed_in (held visit.now.inode) ≡ false }
        ensures damaged { IfErr result (IsTrueOf (image_at self.old.image)) }
        ensures going { OnOk result (IsGoing self.new visit.now found.new.items) }
        ensures on { OnOk result (GoesOn (IsNameOf visit.now.inode.block.number) visit.now self.old.owners.entries.items found.old.items self.new.owners.entries.items found.new.items) }
        ensures counted { OnOk result (AreCounted tally.old tally.new (records_in (linear_area (held visit.now.inode)))) }
        ensures entered { OnOk result (AreFound found.new.items visit.now (records_in (linear_area (held visit.now.inode)))) }
        ensures falls { vec_len found.new + self.new.owners.free ≤ vec_len found.old + self.old.owners.free }
        ensures free { self.new.owners.free ≤ self.old.owners.free }
        ensures grows { vec_len found.old ≤ vec_len found.new }
        ensures same { self.new.image ≡ self.old.image }
    {
        visit.inode.check_linear()?;
        let area = Area {
            block: visit.inode.block.number,
            bytes: visit.inode.block.behind(DINODE_LENGTH),
        };
        self.records(visit, &area, tally, found)
    }

    // Goes over a linear directory, and counts its records.
    fn linear_tally(
        &mut self,
        visit: &Visit<'a>,
        found: &mut Vec<Found<'a>>,
    ) -> Result<Tally, ImageFault>
        requires going { IsGoing self.old visit.now found.old.items }
        requires directory { HasDirectory (image_at self.old.image) visit.now.inode.block.number }
        requires linear { is_hashed_in (held visit.now.inode) ≡ false }
        ensures damaged { IfErr result (IsTrueOf (image_at self.old.image)) }
        ensures going { OnOk result (IsGoing self.new visit.now found.new.items) }
        ensures on { OnOk result (GoesOn (IsOf visit.now.inode.block.number) visit.now self.old.owners.entries.items found.old.items self.new.owners.entries.items found.new.items) }
        ensures tally { IfOk result (λ tally. IsWholeTally (image_at self.old.image) visit.now.inode.block.number tally) }
        ensures all { OnOk result (AllAreFound (image_at self.old.image) visit.now self.new.owners.entries.items found.new.items) }
        ensures falls { vec_len found.new + self.new.owners.free ≤ vec_len found.old + self.old.owners.free }
        ensures free { self.new.owners.free ≤ self.old.owners.free }
        ensures grows { vec_len found.old ≤ vec_len found.new }
        ensures same { self.new.image ≡ self.old.image }
    {
        let mut tally = Tally::none();
        self.linear(visit, &mut tally, found)?;
        Ok(tally)
    }

    // Goes over a hashed directory, and counts its records.
    fn hashed_tally(
        &mut self,
        visit: &Visit<'a>,
        found: &mut Vec<Found<'a>>,
    ) -> Result<Tally, ImageFault>
        requires going { IsGoing self.old visit.now found.old.items }
        requires directory { HasDirectory (image_at self.old.image) visit.now.inode.block.number }
        requires hashed { is_hashed_in (held visit.now.inode) ≡ true }
        requires fits { Fits (held visit.now.inode) }
        requires fresh { HasNoLeaf visit.now self.old.owners.entries.items }
        ensures damaged { IfErr result (IsTrueOf (image_at self.old.image)) }
        ensures going { OnOk result (IsGoing self.new visit.now found.new.items) }
        ensures on { OnOk result (GoesOn (IsOf visit.now.inode.block.number) visit.now self.old.owners.entries.items found.old.items self.new.owners.entries.items found.new.items) }
        ensures tally { IfOk result (λ tally. IsWholeTally (image_at self.old.image) visit.now.inode.block.number tally) }
        ensures all { OnOk result (AllAreFound (image_at self.old.image) visit.now self.new.owners.entries.items found.new.items) }
        ensures falls { vec_len found.new + self.new.owners.free ≤ vec_len found.old + self.old.owners.free }
        ensures free { self.new.owners.free ≤ self.old.owners.free }
        ensures grows { vec_len found.old ≤ vec_len found.new }
        ensures same { self.new.image ≡ self.old.image }
    {
        let mut tally = Tally::none();
        self.hashed(visit, &mut tally, found)?;
        Ok(tally)
    }

    // Goes over a directory, and counts its records.
    fn directory_tally(
        &mut self,
        visit: &Visit<'a>,
        found: &mut Vec<Found<'a>>,
    ) -> Result<Tally, ImageFault>
        requires going { IsGoing self.old visit.now found.old.items }
        requires directory { HasDirectory (image_at self.old.image) visit.now.inode.block.number }
        requires fits { Fits (held visit.now.inode) }
        requires fresh { HasNoLeaf visit.now self.old.owners.entries.items }
        ensures damaged { IfErr result (IsTrueOf (image_at self.old.image)) }
        ensures going { OnOk result (IsGoing self.new visit.now found.new.items) }
        ensures on { OnOk result (GoesOn (IsOf visit.now.inode.block.number) visit.now self.old.owners.entries.items found.old.items self.new.owners.entries.items found.new.items) }
        ensures tally { IfOk result (λ tally. IsWholeTally (image_at self.old.image) visit.now.inode.block.number tally) }
        ensures all { OnOk result (AllAreFound (image_at self.old.image) visit.now self.new.owners.entries.items found.new.items) }
        ensures falls { vec_len found.new + self.new.owners.free ≤ vec_len found.old + self.old.owners.free }
        ensures free { self.new.owners.free ≤ self.old.owners.free }
        ensures grows { vec_len found.old ≤ vec_len found.new }
        ensures same { self.new.image ≡ self.old.image }
    {
        if visit.inode.is_hashed() {
            return self.hashed_tally(visit, found);
        }
        self.linear_tally(visit, found)
    }

    /// Goes over a directory that fits and whose blocks of content are claimed, and finds what it names.
    pub fn directory(
        &mut self,
        visit: &Visit<'a>,
        found: &mut Vec<Found<'a>>,
    ) -> Result<(), ImageFault>
        requires going { IsGoing self.old visit.now found.old.items }
        requires directory { HasDirectory (image_at self.old.image) visit.now.inode.block.number }
        requires fits { Fits (held visit.now.inode) }
        requires fresh { HasNoLeaf visit.now self.old.owners.entries.items }
        ensures damaged { IfErr result (IsTrueOf (image_at self.old.image)) }
        ensures going { OnOk result (IsGoing self.new visit.now found.new.items) }
        ensures on { OnOk result (GoesOn (IsOf visit.now.inode.block.number) visit.now self.old.owners.entries.items found.old.items self.new.owners.entries.items found.new.items) }
        ensures all { OnOk result (AllAreFound (image_at self.old.image) visit.now self.new.owners.entries.items found.new.items) }
        ensures falls { vec_len found.new + self.new.owners.free ≤ vec_len found.old + self.old.owners.free }
        ensures free { self.new.owners.free ≤ self.old.owners.free }
        ensures grows { vec_len found.old ≤ vec_len found.new }
        ensures same { self.new.image ≡ self.old.image }
    {
        let tally = self.directory_tally(visit, found)?;
        visit.inode.check_tally(&tally)
    }
}
