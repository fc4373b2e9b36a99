ghost use Rattle.std.specs.Prelude.{◌≡◌, ◌≢◌, ◌⊎◌, ◌+◌, ◌-◌, ◌*◌, ◌/◌, ◌^◌, ◌<◌, ◌≤◌, ℕ, true, false, None, Some, length, min, vec_len, IfErr, IfOk, IfSome, OnOk};
ghost use Rattle.gfs2_layout.specs.Area.{IsArea};
ghost use Rattle.crc_words.specs.Remainder.{crc32_of};
ghost use Rattle.gfs2_layout.specs.Structures.{is_in_use};
ghost use Rattle.gfs2_layout.specs.Inode.{Fits, content_of, depth_in, entry, entry_block, first_hash, leaf_area, leaf_in};
ghost use Rattle.image_model.specs.Claims.{Claims, HasLeaf};
ghost use Rattle.image_reader.specs.Going.{AreCounted, AreFound, GoesOn, IsGoing, IsNameOf, IsOf};
ghost use Rattle.image_reader.specs.Leaves.{AreLeavesGoing, AreLeavesOver, HasClaim, IsClaimedLeaf, IsHeaded, IsLeafOf, IsTableOf, LeavesOnly, LeavesStay, leaf_records, number_of};
ghost use Rattle.image_model.specs.Owners.{Chained};
ghost use Rattle.image_reader.specs.Owning.{IsPlaced};
ghost use Rattle.image_reader.specs.Reading.{IsDinodeBlock, IsTrueOf, held, image_at};
ghost use Rattle.image_model.specs.Rules.{IsHashedAt};

use crate::blocks::Block;
use crate::content::read_content;
use crate::directory::{Area, Found, Tally, Visit};
use crate::hash_table::{HashTable, pointers_of};
use crate::image::{ImageFault, damaged};
use crate::inode::Inode;
use crate::owners::Claim;
use crate::walk::Walk;
use gfs2_layout::{Leaf, Record, next_record};

// Where the records of a leaf begin.
const IN_LEAF: usize = 104;

/// A leaf, the chain that it is in, and its place in it.
#[derive(Clone, Copy)]
pub(crate) struct LeafAt<'a> {
    pub block: Block<'a>,
    pub leaf: Leaf,
    pub hash: u64,
    pub place: u64,
}

// The first hash that has these for its top bits, of which there are so many.
fn first_hash_of(bits: u64, depth: u16) -> u64
    requires bits { bits < 2 ^ 16 }
    requires depth { depth ≤ 15 }
    ensures { result ≡ bits * 2 ^ (32 - depth) }
{
    bits << (32 - depth)
}

// Whether a record is in use and its name's hash isn't one of the leaf's chain.
fn is_astray(at: &LeafAt<'_>, record: &Record<'_>) -> bool
    ensures { result ≡ true → (is_in_use record.now.head ≡ true) × (crc32_of record.now.name.now / 2 ^ (32 - min at.now.leaf.depth 32) ≢ at.now.hash / 2 ^ (32 - min at.now.leaf.depth 32)) }
{
    let shift = 32 - at.leaf.depth.min(32);
    let hash = u64::from(crc_words::crc32(record.name));
    record.head.is_in_use() && hash >> shift != at.hash >> shift
}

impl<'a> Inode<'a> {
    // The depth of the table, which has so many pointers as it may have.
    fn table_depth(&self) -> Result<u16, ImageFault>
        requires { IsHashedAt (image_at self.now.block.image) self.now.block.number }
        ensures damaged { IfErr result (IsTrueOf (image_at self.now.block.image)) }
        ensures deep { IfOk result (λ depth. depth ≤ 15) }
        ensures depth { IfOk result (λ depth. depth ≡ depth_in (held self.now)) }
        ensures size { IfOk result (λ depth. self.now.dinode.size ≡ 8 * 2 ^ depth) }
    {
        let depth = self.dinode.depth;
        let size = self.block.image.size as u64;
        if depth > 15 {
            return Err(damaged(self.block.number, 13));
        }
        let count = pointers_of(depth);
        if count < size / 16 {
            return Err(damaged(self.block.number, 13));
        }
        if 8 * size < count {
            return Err(damaged(self.block.number, 13));
        }
        if self.dinode.size != 8 * count {
            return Err(damaged(self.block.number, 13));
        }
        Ok(depth)
    }

    // The block that has pointer i of the table; the dinode's where the table has a hole there.
    fn entry_block(&self, i: u64) -> Result<u64, ImageFault>
        requires dinode { IsDinodeBlock self.now.block }
        requires fits { Fits (held self.now) }
        requires within { 8 * i < self.now.dinode.size }
        requires small { i < 2 ^ 16 }
        ensures damaged { IfErr result (IsTrueOf (image_at self.now.block.image)) }
        ensures block { IfOk result (λ b. b ≡ entry_block (held self.now) i) }
        ensures inside { IfOk result (λ b. b < self.now.block.image.count) }
    {
        if self.dinode.height == 0 {
            return Ok(self.block.number);
        }
        let index = 8 * i / self.unit() as u64;
        match self.content_block(index)? {
            Some(block) => Ok(block.number),
            None => Ok(self.block.number),
        }
    }

    // Reads a leaf's head, and that it is no deeper than the table.
    fn read_leaf(&self, block: &Block<'a>, depth: u16) -> Result<Leaf, ImageFault>
        requires leaf { HasLeaf (image_at self.now.block.image) self.now.block.number block.now.number }
        requires of_image { block.now.image ≡ self.now.block.image }
        requires depth { depth ≡ depth_in (held self.now) }
        ensures damaged { IfErr result (IsTrueOf (image_at self.now.block.image)) }
        ensures read { IfOk result (λ leaf. leaf ≡ leaf_in (held self.now) block.now.number) }
        ensures low { IfOk result (λ leaf. leaf.depth ≤ depth) }
    {
        if !block.has_header(6, 600) {
            return Err(damaged(block.number, 1));
        }
        let Ok(leaf) = Leaf::read(block.bytes()) else {
            return Err(damaged(block.number, 14));
        };
        if leaf.depth > depth {
            return Err(damaged(block.number, 14));
        }
        Ok(leaf)
    }

    // That the records of a leaf have the hashes of its chain.
    fn check_hashes(&self, at: &LeafAt<'a>, area: &Area<'a>) -> Result<(), ImageFault>
        requires claimed { (by : ℕ) × Claims (image_at self.now.block.image) by at.now.block.number (Chained self.now.block.number at.now.hash at.now.place) }
        requires leaf { IsLeafOf self.now at.now }
        requires records { area.now.bytes.now ≡ leaf_area (held self.now) at.now.block.number }
        requires area { IsArea area.now.bytes.now }
        ensures damaged { IfErr result (IsTrueOf (image_at self.now.block.image)) }
    {
        let mut rest = area.bytes;
        while let Some((record, behind)) = next_record(rest) {
            if is_astray(at, &record) {
                return Err(damaged(at.block.number, 14));
            }
            rest = behind;
        }
        Ok(())
    }
}

impl<'a> Walk<'a> {
    // Goes over the records of a leaf that is claimed.
    fn leaf_records(
        &mut self,
        visit: &Visit<'a>,
        at: &LeafAt<'a>,
        tally: &mut Tally,
        found: &mut Vec<Found<'a>>,
    ) -> Result<(), ImageFault>
        requires going { IsGoing self.old visit.now found.old.items }
        requires leaf { IsLeafOf visit.now.inode at.now }
        requires claimed { (by : ℕ) × Claims (image_at self.old.image) by at.now.block.number (Chained visit.now.inode.block.number at.now.hash at.now.place) }
        ensures damaged { IfErr result (IsTrueOf (image_at self.old.image)) }
        ensures going { OnOk result (IsGoing self.new visit.now found.new.items) }
        ensures on { OnOk result (GoesOn (IsNameOf visit.now.inode.block.number) visit.now self.old.owners.entries.items found.old.items self.new.owners.entries.items found.new.items) }
        ensures counted { OnOk result (AreCounted tally.old tally.new (leaf_records (held visit.now.inode) at.now.block.number)) }
        ensures entered { OnOk result (AreFound found.new.items visit.now (leaf_records (held visit.now.inode) at.now.block.number)) }
        ensures falls { vec_len found.new + self.new.owners.free ≤ vec_len found.old + self.old.owners.free }
        ensures free { self.new.owners.free ≤ self.old.owners.free }
        ensures grows { vec_len found.old ≤ vec_len found.new }
        ensures same { self.new.image ≡ self.old.image }
    {
        let area = Area {
            block: at.block.number,
            bytes: at.block.behind(IN_LEAF),
        };
        let mut own = Tally::none();
        self.records(visit, &area, &mut own, found)?;
        if own.entries != u64::from(at.leaf.entries) {
            return Err(damaged(at.block.number, 14));
        }
        visit.inode.check_hashes(at, &area)?;
        tally.add(&own);
        Ok(())
    }

    // Claims a leaf and, where that is new, goes over its records. It answers whether it is new.
    fn leaf(
        &mut self,
        visit: &Visit<'a>,
        by: u64,
        at: &LeafAt<'a>,
        tally: &mut Tally,
        found: &mut Vec<Found<'a>>,
    ) -> Result<bool, ImageFault>
        requires going { IsGoing self.old visit.now found.old.items }
        requires over { AreLeavesOver visit.now self.old.owners.entries.items tally.old found.old.items }
        requires leaf { IsLeafOf visit.now.inode at.now }
        requires inside { by < self.old.image.count }
        requires claimed { Claims (image_at self.old.image) by at.now.block.number (Chained visit.now.inode.block.number at.now.hash at.now.place) }
        requires placed { IsPlaced (image_at self.old.image) at.now.block.number (Chained visit.now.inode.block.number at.now.hash at.now.place) }
        ensures damaged { IfErr result (IsTrueOf (image_at self.old.image)) }
        ensures going { OnOk result (IsGoing self.new visit.now found.new.items) }
        ensures over { OnOk result (AreLeavesOver visit.now self.new.owners.entries.items tally.new found.new.items) }
        ensures on { OnOk result (GoesOn (IsOf visit.now.inode.block.number) visit.now self.old.owners.entries.items found.old.items self.new.owners.entries.items found.new.items) }
        ensures claimed { OnOk result (IsClaimedLeaf self.new visit.now at.now) }
        ensures only { OnOk result (LeavesOnly visit.now.inode.block.number at.now.block.number self.old.owners.entries.items self.new.owners.entries.items) }
        ensures known { IfOk result (λ fresh. fresh ≡ false → LeavesStay visit.now.inode.block.number self.old.owners.entries.items self.new.owners.entries.items) }
        ensures fresh { IfOk result (λ fresh. fresh ≡ true → self.new.owners.free + 1 ≤ self.old.owners.free) }
        ensures falls { vec_len found.new + self.new.owners.free ≤ vec_len found.old + self.old.owners.free }
        ensures free { self.new.owners.free ≤ self.old.owners.free }
        ensures grows { vec_len found.old ≤ vec_len found.new }
        ensures same { self.new.image ≡ self.old.image }
    {
        let claim = Claim::Chained {
            directory: visit.inode.block.number,
            hash: at.hash,
            place: at.place,
        };
        match self.claim(by, at.block.number, claim) {
            Ok(Some(_)) => {
                self.leaf_records(visit, at, tally, found)?;
                Ok(true)
            }
            Ok(None) => Ok(false),
            Err(fault) => Err(fault),
        }
    }

    // Claims the next leaf of a chain, where there is one, and goes over its records. It answers that leaf, where
    // it is new.
    fn next_leaf(
        &mut self,
        visit: &Visit<'a>,
        at: &LeafAt<'a>,
        depth: u16,
        tally: &mut Tally,
        found: &mut Vec<Found<'a>>,
    ) -> Result<Option<LeafAt<'a>>, ImageFault>
        requires leaves { AreLeavesGoing self.old visit.now tally.old found.old.items (Some at.now.block.number) }
        requires leaf { IsLeafOf visit.now.inode at.now }
        requires claimed { IsClaimedLeaf self.old visit.now at.now }
        requires depth { depth ≡ depth_in (held visit.now.inode) }
        requires place { at.now.place + 1 < 2 ^ 64 }
        ensures damaged { IfErr result (IsTrueOf (image_at self.old.image)) }
        ensures leaves { IfOk result (λ next. AreLeavesGoing self.new visit.now tally.new found.new.items (number_of next)) }
        ensures on { OnOk result (GoesOn (IsOf visit.now.inode.block.number) visit.now self.old.owners.entries.items found.old.items self.new.owners.entries.items found.new.items) }
        ensures leaf { IfOk result (λ next. IfSome next (IsLeafOf visit.now.inode)) }
        ensures claimed { IfOk result (λ next. IfSome next (IsClaimedLeaf self.new visit.now)) }
        ensures place { IfOk result (λ next. IfSome next (λ n. n.place ≡ at.now.place + 1)) }
        ensures fresh { IfOk result (λ next. IfSome next (λ _. self.new.owners.free + 1 ≤ self.old.owners.free)) }
        ensures falls { vec_len found.new + self.new.owners.free ≤ vec_len found.old + self.old.owners.free }
        ensures free { self.new.owners.free ≤ self.old.owners.free }
        ensures grows { vec_len found.old ≤ vec_len found.new }
        ensures same { self.new.image ≡ self.old.image }
    {
        let number = at.leaf.next;
        if number == 0 {
            return Ok(None);
        }
        let by = at.block.number;
        let Some(block) = self.image.get(number) else {
            return Err(damaged(by, 2));
        };
        let leaf = visit.inode.read_leaf(&block, depth)?;
        if leaf.depth != at.leaf.depth {
            return Err(damaged(number, 14));
        }
        let next = LeafAt {
            block,
            leaf,
            hash: at.hash,
            place: at.place + 1,
        };
        match self.leaf(visit, by, &next, tally, found) {
            Ok(true) => Ok(Some(next)),
            Ok(false) => Ok(None),
            Err(fault) => Err(fault),
        }
    }

    // Goes over the leaves of a chain behind the first.
    fn chain(
        &mut self,
        visit: &Visit<'a>,
        first: LeafAt<'a>,
        depth: u16,
        tally: &mut Tally,
        found: &mut Vec<Found<'a>>,
    ) -> Result<(), ImageFault>
        requires leaves { AreLeavesGoing self.old visit.now tally.old found.old.items (Some first.block.number) }
        requires leaf { IsLeafOf visit.now.inode first }
        requires claimed { IsClaimedLeaf self.old visit.now first }
        requires depth { depth ≡ depth_in (held visit.now.inode) }
        requires place { first.place ≡ 0 }
        ensures damaged { IfErr result (IsTrueOf (image_at self.old.image)) }
        ensures leaves { OnOk result (AreLeavesGoing self.new visit.now tally.new found.new.items None) }
        ensures on { OnOk result (GoesOn (IsOf visit.now.inode.block.number) visit.now self.old.owners.entries.items found.old.items self.new.owners.entries.items found.new.items) }
        ensures falls { vec_len found.new + self.new.owners.free ≤ vec_len found.old + self.old.owners.free }
        ensures free { self.new.owners.free ≤ self.old.owners.free }
        ensures grows { vec_len found.old ≤ vec_len found.new }
        ensures same { self.new.image ≡ self.old.image }
    {
        let mut chained = Some(first);
        while let Some(at) = chained {
            chained = self.next_leaf(visit, &at, depth, tally, found)?;
        }
        Ok(())
    }

    // Goes over the leaves of a chain, where the first is new.
    fn head(
        &mut self,
        visit: &Visit<'a>,
        by: u64,
        first: LeafAt<'a>,
        depth: u16,
        tally: &mut Tally,
        found: &mut Vec<Found<'a>>,
    ) -> Result<(), ImageFault>
        requires leaves { AreLeavesGoing self.old visit.now tally.old found.old.items None }
        requires leaf { IsLeafOf visit.now.inode first }
        requires inside { by < self.old.image.count }
        requires claimed { Claims (image_at self.old.image) by first.block.number (Chained visit.now.inode.block.number first.hash first.place) }
        requires placed { IsPlaced (image_at self.old.image) first.block.number (Chained visit.now.inode.block.number first.hash first.place) }
        requires depth { depth ≡ depth_in (held visit.now.inode) }
        requires place { first.place ≡ 0 }
        ensures damaged { IfErr result (IsTrueOf (image_at self.old.image)) }
        ensures leaves { OnOk result (AreLeavesGoing self.new visit.now tally.new found.new.items None) }
        ensures on { OnOk result (GoesOn (IsOf visit.now.inode.block.number) visit.now self.old.owners.entries.items found.old.items self.new.owners.entries.items found.new.items) }
        ensures claimed { OnOk result (IsClaimedLeaf self.new visit.now first.entry) }
        ensures falls { vec_len found.new + self.new.owners.free ≤ vec_len found.old + self.old.owners.free }
        ensures free { self.new.owners.free ≤ self.old.owners.free }
        ensures grows { vec_len found.old ≤ vec_len found.new }
        ensures same { self.new.image ≡ self.old.image }
    {
        match self.leaf(visit, by, &first, tally, found) {
            Ok(true) => self.chain(visit, first, depth, tally, found),
            Ok(false) => Ok(()),
            Err(fault) => Err(fault),
        }
    }

    // Goes over the chain to which pointer i of the table leads, and answers how many pointers from that one on
    // do. The first of them stands at a multiple of their count.
    fn bucket(
        &mut self,
        visit: &Visit<'a>,
        table: &HashTable,
        i: u64,
        tally: &mut Tally,
        found: &mut Vec<Found<'a>>,
    ) -> Result<u64, ImageFault>
        requires leaves { AreLeavesGoing self.old visit.now tally.old found.old.items None }
        requires fits { Fits (held visit.now.inode) }
        requires hashed { IsHashedAt (image_at self.old.image) visit.now.inode.block.number }
        requires table { IsTableOf visit.now.inode table.now }
        requires within { i < 2 ^ table.now.depth }
        ensures damaged { IfErr result (IsTrueOf (image_at self.old.image)) }
        ensures leaves { OnOk result (AreLeavesGoing self.new visit.now tally.new found.new.items None) }
        ensures on { OnOk result (GoesOn (IsOf visit.now.inode.block.number) visit.now self.old.owners.entries.items found.old.items self.new.owners.entries.items found.new.items) }
        ensures headed { IfOk result (λ run. (j : ℕ) → i ≤ j → j < i + run → IsHeaded self.new visit.now j) }
        ensures some { IfOk result (λ run. 1 ≤ run) }
        ensures within { IfOk result (λ run. i + run ≤ 2 ^ table.now.depth) }
        ensures falls { vec_len found.new + self.new.owners.free ≤ vec_len found.old + self.old.owners.free }
        ensures free { self.new.owners.free ≤ self.old.owners.free }
        ensures grows { vec_len found.old ≤ vec_len found.new }
        ensures same { self.new.image ≡ self.old.image }
    {
        let by = visit.inode.entry_block(i)?;
        let number = table.pointer(i);
        if number == 0 {
            return Err(damaged(by, 14));
        }
        let Some(block) = self.image.get(number) else {
            return Err(damaged(by, 2));
        };
        let leaf = visit.inode.read_leaf(&block, table.depth)?;
        let run = table.run(leaf.depth);
        let start = i - i % run;
        if !table.leads_to(start, run, number) {
            return Err(damaged(number, 14));
        }
        let first = LeafAt {
            block,
            leaf,
            hash: first_hash_of(i / run, leaf.depth),
            place: 0,
        };
        self.head(visit, by, first, table.depth, tally, found)?;
        Ok(start + run - i)
    }

    /// Goes over the records of a hashed directory whose blocks of content are claimed.
    pub fn hashed(
        &mut self,
        visit: &Visit<'a>,
        tally: &mut Tally,
        found: &mut Vec<Found<'a>>,
    ) -> Result<(), ImageFault>
        requires leaves { AreLeavesGoing self.old visit.now tally.old found.old.items None }
        requires fits { Fits (held visit.now.inode) }
        requires hashed { IsHashedAt (image_at self.old.image) visit.now.inode.block.number }
        ensures damaged { IfErr result (IsTrueOf (image_at self.old.image)) }
        ensures leaves { OnOk result (AreLeavesGoing self.new visit.now tally.new found.new.items None) }
        ensures on { OnOk result (GoesOn (IsOf visit.now.inode.block.number) visit.now self.old.owners.entries.items found.old.items self.new.owners.entries.items found.new.items) }
        ensures all { OnOk result ((by x hash place : ℕ) → Claims (image_at self.old.image) by x (Chained visit.now.inode.block.number hash place) → HasClaim self.new.owners.entries.items x (Chained visit.now.inode.block.number hash place)) }
        ensures falls { vec_len found.new + self.new.owners.free ≤ vec_len found.old + self.old.owners.free }
        ensures free { self.new.owners.free ≤ self.old.owners.free }
        ensures grows { vec_len found.old ≤ vec_len found.new }
        ensures same { self.new.image ≡ self.old.image }
    {
        let depth = visit.inode.table_depth()?;
        let bytes = read_content(self.alloc, &visit.inode)?;
        let table = HashTable { depth, bytes };
        let count = table.count();
        let mut i = 0;
        while i < count {
            i += self.bucket(visit, &table, i, tally, found)?;
        }
        Ok(())
    }
}
