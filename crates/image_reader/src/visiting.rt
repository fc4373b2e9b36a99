ghost use Rattle.std.specs.Prelude.{◌≡◌, ◌⊎◌, ◌+◌, ◌<◌, ◌≤◌, vec_len, length, [], ℕ, true, false, IfErr, IfOk, IfSome, OnOk};
ghost use Rattle.gfs2_layout.specs.Inode.{Fits};
ghost use Rattle.gfs2_layout.specs.Structures.{is_directory, is_regular};
ghost use Rattle.gfs2_layout.specs.Device.{superblock_place};
ghost use Rattle.image_model.specs.Owners.{Master, Root};
ghost use Rattle.image_model.specs.Claims.{Claims, HasDirectory, IsUnder};
ghost use Rattle.image_reader.specs.Complete.{AllAreFound, HasNoLeaf, IsBlockCount};
ghost use Rattle.image_reader.specs.Going.{ClaimsOnly, GoesOn, IsFresh, IsGoing, IsOf, IsVisitIn};
ghost use Rattle.image_reader.specs.Finding.{IsFoundIn};
ghost use Rattle.image_reader.specs.declared.blocks.Blocks.{Blocks};
ghost use Rattle.image_reader.specs.Found.{IsTreeOf};
ghost use Rattle.image_reader.specs.Untouched.{AllAreBelow, AreEntire, AreEntireBut, AreNamedApart, AreOwned, AreTwinsBroken, IsLimit, IsOfSome, IsUnclaimed, IsUntouched};
ghost use Rattle.image_reader.specs.Leaves.{HasClaim};
ghost use Rattle.image_reader.specs.Owning.{owner_of};
ghost use Rattle.image_reader.specs.Reading.{IsDinodeBlock, IsTrueOf, held, image_at};
ghost use Rattle.image_reader.specs.Walking.{IsSound};

use crate::blocks::Block;
use crate::directory::{Found, Visit};
use crate::image::{ImageFault, damaged};
use crate::inode::Inode;
use crate::owners::Claim;
use crate::walk::Walk;
use std::alloc::Global;
use std::collections::BTreeSet;

impl<'a> Inode<'a> {
    // That a file has one link.
    fn check_links(&self) -> Result<(), ImageFault>
        requires inode { IsDinodeBlock self.now.block }
        requires file { is_directory self.now.dinode ≡ false }
        ensures damaged { IfErr result (IsTrueOf (image_at self.now.block.image)) }
    {
        if self.dinode.nlink != 1 {
            return Err(damaged(self.block.number, 12));
        }
        Ok(())
    }

    // That the dinode counts its blocks: itself, and so many beside it.
    fn check_blocks(&self, beside: usize) -> Result<(), ImageFault>
        requires inode { IsDinodeBlock self.now.block }
        requires count { IsBlockCount (image_at self.now.block.image) self.now.block.number beside }
        ensures damaged { IfErr result (IsTrueOf (image_at self.now.block.image)) }
    {
        if self.dinode.blocks == 0 {
            return Err(damaged(self.block.number, 19));
        }
        if self.dinode.blocks - 1 != beside as u64 {
            return Err(damaged(self.block.number, 19));
        }
        Ok(())
    }
}

impl<'a> Visit<'a> {
    // Of a top directory, which is its own parent.
    fn of_top(block: Block<'a>) -> Result<Visit<'a>, ImageFault>
        requires { IsDinodeBlock block }
        ensures damaged { IfErr result (IsTrueOf (image_at block.entry.image)) }
        ensures block { IfOk result (λ visit. visit.inode.block ≡ block.entry) }
        ensures parent { IfOk result (λ visit. visit.parent ≡ block.entry.number) }
        ensures place { IfOk result (λ visit. visit.place ≡ 0) }
    {
        let inode = Inode::read(block)?;
        Ok(Visit {
            inode,
            parent: inode.block.number,
            place: 0,
        })
    }
}

impl<'a> Visit<'a> {
    // Of what was found, by its place.
    fn of_found(entry: &Found<'a>, place: usize) -> Visit<'a>
        ensures visit { (image : Blocks) → IsFoundIn image entry.now → IsVisitIn image result }
        ensures inode { result.inode ≡ entry.now.inode }
        ensures place { result.place ≡ place }
    {
        Visit {
            inode: entry.inode,
            parent: entry.parent,
            place,
        }
    }
}

impl<'a> Walk<'a> {
    // What an inode names, if it is a directory.
    fn names(&mut self, visit: &Visit<'a>, found: &mut Vec<Found<'a>>) -> Result<(), ImageFault>
        requires going { IsGoing self.old visit.now found.old.items }
        requires fits { Fits (held visit.now.inode) }
        requires fresh { HasNoLeaf visit.now self.old.owners.entries.items }
        ensures damaged { IfErr result (IsTrueOf (image_at self.old.image)) }
        ensures going { OnOk result (IsGoing self.new visit.now found.new.items) }
        ensures on { OnOk result (GoesOn (IsOf visit.now.inode.block.number) visit.now self.old.owners.entries.items found.old.items self.new.owners.entries.items found.new.items) }
        ensures all { OnOk result (AllAreFound (image_at self.old.image) visit.now self.new.owners.entries.items found.new.items) }
        ensures falls { vec_len found.new + self.new.owners.free ≤ vec_len found.old + self.old.owners.free }
        ensures free { self.new.owners.free ≤ self.old.owners.free }
        ensures grows { vec_len found.old ≤ vec_len found.new }
        ensures same { self.new.image ≡ self.old.image }
    {
        if visit.inode.dinode.is_directory() {
            return self.directory(visit, found);
        }
        visit.inode.check_links()
    }

    /// Goes over an inode that was found: its size, its blocks, and what it names.
    pub fn inode(&mut self, visit: &Visit<'a>, found: &mut Vec<Found<'a>>) -> Result<(), ImageFault>
        requires going { IsGoing self.old visit.now found.old.items }
        requires fresh { IsFresh visit.now.inode.block.number self.old.owners.entries.items }
        ensures damaged { IfErr result (IsTrueOf (image_at self.old.image)) }
        ensures going { OnOk result (IsGoing self.new visit.now found.new.items) }
        ensures on { OnOk result (GoesOn (IsOf visit.now.inode.block.number) visit.now self.old.owners.entries.items found.old.items self.new.owners.entries.items found.new.items) }
        ensures all { OnOk result (AllAreFound (image_at self.old.image) visit.now self.new.owners.entries.items found.new.items) }
        ensures below { OnOk result (AllAreBelow (image_at self.old.image) visit.now.inode.block.number self.new.owners.entries.items) }
        ensures falls { vec_len found.new + self.new.owners.free ≤ vec_len found.old + self.old.owners.free }
        ensures free { self.new.owners.free ≤ self.old.owners.free }
        ensures grows { vec_len found.old ≤ vec_len found.new }
        ensures same { self.new.image ≡ self.old.image }
    {
        visit.inode.check_fits()?;
        let free = self.owners.free;
        let before = found.len();
        self.claim_content(&visit.inode)?;
        self.names(visit, found)?;
        let beside = free - self.owners.free - (found.len() - before);
        visit.inode.check_blocks(beside)
    }

    /// A top directory, which is claimed first.
    pub fn top(&mut self, number: u64, claim: Claim<'a>) -> Result<Visit<'a>, ImageFault>
        requires sound { IsSound self.old }
        requires there { superblock_place self.old.image.size < self.old.image.count }
        requires top { (owner_of claim ≡ Root) ⊎ (owner_of claim ≡ Master) }
        requires claimed { Claims (image_at self.old.image) (superblock_place self.old.image.size) number (owner_of claim) }
        requires owned { AreOwned self.old.owners.entries.items }
        requires unclaimed { IsUnclaimed (owner_of claim) self.old.owners.entries.items }
        requires entire { AreEntire (image_at self.old.image) self.old.owners.entries.items }
        ensures damaged { IfErr result (IsTrueOf (image_at self.old.image)) }
        ensures sound { OnOk result (IsSound self.new) }
        ensures visit { IfOk result (λ visit. IsVisitIn self.old.image visit) }
        ensures number { IfOk result (λ visit. visit.inode.block.number ≡ number) }
        ensures image { IfOk result (λ visit. visit.inode.block.image ≡ self.old.image) }
        ensures place { IfOk result (λ visit. visit.place ≡ 0) }
        ensures owned { OnOk result (AreOwned self.new.owners.entries.items) }
        ensures claims { OnOk result (ClaimsOnly (λ o. o ≡ owner_of claim.entry) self.old.owners.entries.items self.new.owners.entries.items) }
        ensures entered { OnOk result (HasClaim self.new.owners.entries.items number (owner_of claim.entry)) }
        ensures untouched { OnOk result (IsUntouched number self.new.owners.entries.items) }
        ensures entire { OnOk result (AreEntireBut number (image_at self.old.image) self.new.owners.entries.items) }
        ensures same { self.new.image ≡ self.old.image }
    {
        let by = self.image.superblock_place();
        let Some(block) = self.image.get(number) else {
            return Err(damaged(by, 2));
        };
        match self.claim(by, number, claim) {
            Ok(_) => Visit::of_top(block),
            Err(fault) => Err(fault),
        }
    }

    /// Goes over an inode, which is no longer than it may be, and names nothing twice.
    pub fn go_over(
        &mut self,
        visit: &Visit<'a>,
        most: Option<u64>,
        found: &mut Vec<Found<'a>>,
    ) -> Result<(), ImageFault>
        requires going { IsGoing self.old visit.now found.old.items }
        requires fresh { IsFresh visit.now.inode.block.number self.old.owners.entries.items }
        requires limit { IsLimit (image_at self.old.image) most visit.now.inode.block.number }
        ensures damaged { IfErr result (IsTrueOf (image_at self.old.image)) }
        ensures going { OnOk result (IsGoing self.new visit.now found.new.items) }
        ensures on { OnOk result (GoesOn (IsOf visit.now.inode.block.number) visit.now self.old.owners.entries.items found.old.items self.new.owners.entries.items found.new.items) }
        ensures all { OnOk result (AllAreFound (image_at self.old.image) visit.now self.new.owners.entries.items found.new.items) }
        ensures below { OnOk result (AllAreBelow (image_at self.old.image) visit.now.inode.block.number self.new.owners.entries.items) }
        ensures apart { OnOk result (AreNamedApart (vec_len found.old) found.new.items) }
        ensures falls { vec_len found.new + self.new.owners.free ≤ vec_len found.old + self.old.owners.free }
        ensures free { self.new.owners.free ≤ self.old.owners.free }
        ensures grows { vec_len found.old ≤ vec_len found.new }
        ensures same { self.new.image ≡ self.old.image }
    {
        check_length(&visit.inode, most)?;
        let before = found.len();
        self.inode(visit, found)?;
        check_names(self.alloc, found, before)
    }

    /// Goes over the tree of a top directory, and adds what is found, each directory before what it names. No
    /// file is longer than `most` bytes, if there is such a limit. It goes over each inode once.
    pub fn tree(
        &mut self,
        top: Visit<'a>,
        most: Option<u64>,
        found: &mut Vec<Found<'a>>,
    ) -> Result<(), ImageFault>
        requires sound { IsSound self.old }
        requires visit { IsVisitIn self.old.image top }
        requires place { top.place ≡ 0 }
        requires owned { AreOwned self.old.owners.entries.items }
        requires untouched { IsUntouched top.inode.block.number self.old.owners.entries.items }
        requires entire { AreEntireBut top.inode.block.number (image_at self.old.image) self.old.owners.entries.items }
        requires empty { found.old.items ≡ [] }
        requires limit { (a : ℕ) → IsUnder (image_at self.old.image) top.inode.block.number a → IsLimit (image_at self.old.image) most a }
        ensures damaged { IfErr result (IsTrueOf (image_at self.old.image)) }
        ensures sound { OnOk result (IsSound self.new) }
        ensures found { OnOk result (IsTreeOf self.old.image top.entry.inode found.new.items) }
        ensures owned { OnOk result (AreOwned self.new.owners.entries.items) }
        ensures claims { OnOk result (ClaimsOnly IsOfSome self.old.owners.entries.items self.new.owners.entries.items) }
        ensures entire { OnOk result (AreEntire (image_at self.old.image) self.new.owners.entries.items) }
        ensures same { self.new.image ≡ self.old.image }
    {
        self.go_over(&top, most, found)?;
        let mut next = 0;
        while next < found.len() {
            let visit = Visit::of_found(&found[next], next + 1);
            self.go_over(&visit, most, found)?;
            next += 1;
        }
        Ok(())
    }
}

// That no two entries from one place on have one name.
fn check_names(alloc: Global, found: &[Found<'_>], first: usize) -> Result<(), ImageFault>
    requires { first ≤ length found.now }
    ensures damaged { (image : Blocks) → AreTwinsBroken (image_at image) first found.now → IfErr result (IsTrueOf (image_at image)) }
    ensures apart { OnOk result (AreNamedApart first found.now) }
{
    let mut names = BTreeSet::new(alloc);
    for place in first..found.len() {
        let entry = &found[place];
        if !names.insert(entry.name.bytes())? {
            return Err(damaged(entry.by, 10));
        }
    }
    Ok(())
}

// That a file is no longer than a file may be there, if there is such a limit.
fn check_length(inode: &Inode<'_>, most: Option<u64>) -> Result<(), ImageFault>
    requires { IsLimit (image_at inode.now.block.image) most inode.now.block.number }
    ensures damaged { IfErr result (IsTrueOf (image_at inode.now.block.image)) }
    ensures short { OnOk result (IfSome most (λ limit. is_regular inode.now.dinode ≡ true → inode.now.dinode.size ≤ limit)) }
{
    let Some(limit) = most else {
        return Ok(());
    };
    if !inode.dinode.is_regular() {
        return Ok(());
    }
    if inode.dinode.size > limit {
        return Err(damaged(inode.block.number, 8));
    }
    Ok(())
}
