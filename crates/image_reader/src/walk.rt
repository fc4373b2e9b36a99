ghost use Rattle.std.specs.Prelude.{◌≡◌, ◌+◌, ◌*◌, ◌<◌, ◌≤◌, length, vec_len, IfOk, IfErr, OnOk, IfSome, IsTrue, is_some};
ghost use Rattle.gfs2_layout.specs.Structures.{dinode_length};

use crate::blocks::{Block, Blocks};
use crate::groups::is_data;
use crate::image::{ImageFault, damaged};
use crate::inode::{IN_BLOCK, Inode};
use crate::owners::{Claim, Owners};
use gfs2_layout::{DINODE_LENGTH, Rindex};
use std::alloc::Global;

/// A walk over what is reached in an image: every block that it comes to is claimed once.
#[derive(Drop)]
pub(crate) struct Walk<'a> {
    pub alloc: Global,
    pub image: Blocks<'a>,
    /// The groups, once their list was read.
    pub groups: Option<&'a [Rindex]>,
    pub owners: Owners<'a>,
    ghost one_entry_a_block: { vec_len owners.entries ≡ image.count },
}

/// A block with pointers, which lead to blocks so many levels above content, the first of them to the
/// content from index `first` on.
#[derive(Clone, Copy)]
struct Pointers<'a> {
    block: Block<'a>,
    start: usize,
    level: u16,
    first: u64,
    ghost known: { start ≤ dinode_length },
}

impl<'a> Pointers<'a> {
    ghost use Rattle.gfs2_layout.specs.Inode.{Leads, header_length};
    ghost use Rattle.image_reader.specs.Descending.{IsGroupOf};
    ghost use Rattle.image_reader.specs.Reading.{held};
    ghost use Rattle.image_reader.specs.Walking.{IsReached};
    ghost use Rattle.std.specs.Prelude.{ℕ};

    // Those of a dinode, which lead to blocks so many levels above content.
    fn of_dinode(inode: &Inode<'a>, level: u16) -> Pointers<'a>
        requires { inode.now.dinode.height ≡ level + 1 }
        ensures reached { IsReached inode.now result }
        ensures at { IsGroupOf dinode_length inode.now.block.number level 0 result }
    {
        Pointers {
            block: inode.block,
            start: DINODE_LENGTH,
            level,
            first: 0,
        }
    }

    // Those of an indirect block to which others lead.
    fn of_block(inode: &Inode<'a>, block: Block<'a>, level: u16, first: u64) -> Pointers<'a>
        requires image { block.image ≡ inode.now.block.image }
        requires reached { (b : ℕ) × ((k : ℕ) × Leads (held inode.now) b k (level + 1) first block.number) }
        ensures reached { IsReached inode.now result }
        ensures at { IsGroupOf header_length block.entry.number level first result }
    {
        Pointers {
            block,
            start: IN_BLOCK,
            level,
            first,
        }
    }
}

impl<'a> Walk<'a> {
    ghost use Rattle.image_model.specs.Claims.{Claims};
    ghost use Rattle.gfs2_layout.specs.declared.rindex.Rindex.{Rindex as IndexEntry};
    ghost use Rattle.std.specs.Prelude.{Contains, MatchOption, ◌∷◌};
    ghost use Rattle.gfs2_layout.specs.Inode.{Leads, fan};
    ghost use Rattle.std.specs.List.{All};
    ghost use Rattle.image_reader.specs.Descending.{AreDescended, IsEnteredAt};
    ghost use Rattle.image_reader.specs.Going.{IsFresh, TakesOnly};
    ghost use Rattle.image_reader.specs.Leaves.{HasClaim};
    ghost use Rattle.image_model.specs.Owners.{Below};
    ghost use Rattle.image_reader.specs.declared.walk.Pointers.{Pointers as Pointed};
    ghost use Rattle.image_reader.specs.Owning.{owner_of, IsEmpty, IsEntered, IsPlaced};
    ghost use Rattle.image_reader.specs.Reading.{IsTrueOf, IsDinodeBlock, held, image_at};
    ghost use Rattle.image_reader.specs.Untouched.{AllAreBelow};
    ghost use Rattle.image_reader.specs.Walking.{IsSound, IsReached, IsOutsideKnown, KnowsAll};

    pub fn new(
        alloc: Global,
        image: Blocks<'a>,
        groups: Option<&'a [Rindex]>,
    ) -> Result<Walk<'a>, ImageFault>
        requires known { KnowsAll image groups }
        ensures image { IfOk result (λ walk. walk.image ≡ image.entry) }
        ensures sound { IfOk result IsSound }
        ensures empty { IfOk result (λ walk. IsEmpty walk.owners.entries.items) }
        ensures damaged { IfErr result (λ fault. fault ≡ ImageFault.NoMemory) }
    {
        let owners = Owners::new(alloc, image.count as usize)?;
        Ok(Walk {
            alloc,
            image,
            groups,
            owners,
        })
    }

    // Whether a block is no data block of the groups, where they are known.
    fn is_outside(&self, number: u64) -> bool
        requires { number < self.now.image.count }
        ensures { IsTrue result → IsOutsideKnown self.now number }
    {
        match self.groups {
            Some(groups) => !is_data(groups, number),
            None => false,
        }
    }

    /// Claims the block of this number, which stands in block `by`, and answers it where the claim is new.
    pub fn claim(
        &mut self,
        by: u64,
        number: u64,
        claim: Claim<'a>,
    ) -> Result<Option<Block<'a>>, ImageFault>
        requires sound { IsSound self.old }
        requires inside { by < self.old.image.count }
        requires claimed { Claims (image_at self.old.image) by number (owner_of claim) }
        requires placed { IsPlaced (image_at self.old.image) number (owner_of claim) }
        ensures sound { IsSound self.new }
        ensures damaged { IfErr result (IsTrueOf (image_at self.old.image)) }
        ensures block { IfOk result (λ block. IfSome block (λ b. (b.number ≡ number) × (b.image ≡ self.old.image))) }
        ensures entered { IfOk result (λ block. IsEntered self.old.owners.entries.items self.new.owners.entries.items number claim.entry (is_some block)) }
        ensures falls { self.new.owners.free ≤ self.old.owners.free }
        ensures new { IfOk result (λ block. IfSome block (λ _. self.new.owners.free + 1 ≡ self.old.owners.free)) }
        ensures same { self.new.image ≡ self.old.image }
    {
        let Some(block) = self.image.get(number) else {
            return Err(damaged(by, 2));
        };
        if self.is_outside(number) {
            return Err(damaged(by, 2));
        }
        match self.owners.claim(number, claim) {
            Ok(true) => Ok(Some(block)),
            Ok(false) => Ok(None),
            Err(fault) => Err(fault),
        }
    }

    /// Claims the blocks of content of an inode that fits, and the indirect blocks above them.
    pub fn claim_content(&mut self, inode: &Inode<'a>) -> Result<(), ImageFault>
        requires sound { IsSound self.old }
        requires inode { IsDinodeBlock inode.now.block }
        requires of_image { inode.now.block.image ≡ self.old.image }
        requires fresh { IsFresh inode.now.block.number self.old.owners.entries.items }
        ensures sound { IsSound self.new }
        ensures damaged { IfErr result (IsTrueOf (image_at self.old.image)) }
        ensures takes { OnOk result (TakesOnly inode.now.block.number self.old.owners.entries.items self.new.owners.entries.items) }
        ensures below { OnOk result (AllAreBelow (image_at self.old.image) inode.now.block.number self.new.owners.entries.items) }
        ensures falls { self.new.owners.free ≤ self.old.owners.free }
        ensures same { self.new.image ≡ self.old.image }
    {
        let height = inode.dinode.height;
        if height == 0 {
            return Ok(());
        }
        let mut pending = Vec::new(self.alloc);
        let top = Pointers::of_dinode(inode, height - 1);
        pending.push(top)?;
        while let Some(pointers) = pending.pop() {
            self.claim_children(inode, &pointers, &mut pending)?;
        }
        Ok(())
    }

    fn claim_children(
        &mut self,
        inode: &Inode<'a>,
        pointers: &Pointers<'a>,
        pending: &mut Vec<Pointers<'a>>,
    ) -> Result<(), ImageFault>
        requires sound { IsSound self.old }
        requires inode { IsDinodeBlock inode.now.block }
        requires of_image { inode.now.block.image ≡ self.old.image }
        requires reached { IsReached inode.now pointers.now }
        requires pending { All (IsReached inode.now) pending.old.items }
        requires descended { AreDescended (held inode.now) self.old.owners.entries.items (pointers.now ∷ pending.old.items) }
        ensures sound { IsSound self.new }
        ensures damaged { IfErr result (IsTrueOf (image_at self.old.image)) }
        ensures takes { OnOk result (TakesOnly inode.now.block.number self.old.owners.entries.items self.new.owners.entries.items) }
        ensures pending { OnOk result (All (IsReached inode.now) pending.new.items) }
        ensures descended { OnOk result (AreDescended (held inode.now) self.new.owners.entries.items pending.new.items) }
        ensures falls { 2 * self.new.owners.free + vec_len pending.new ≤ 2 * self.old.owners.free + vec_len pending.old }
        ensures free { self.new.owners.free ≤ self.old.owners.free }
        ensures same { self.new.image ≡ self.old.image }
    {
        for k in 0..pointers.block.fan(pointers.start) {
            self.follow(inode, pointers, k, pending)?;
        }
        Ok(())
    }

    // Claims what pointer k leads to, where it leads somewhere: a block that carries content before the inode's
    // end, or leads to some.
    fn follow(
        &mut self,
        inode: &Inode<'a>,
        pointers: &Pointers<'a>,
        k: u64,
        pending: &mut Vec<Pointers<'a>>,
    ) -> Result<(), ImageFault>
        requires sound { IsSound self.old }
        requires inode { IsDinodeBlock inode.now.block }
        requires of_image { inode.now.block.image ≡ self.old.image }
        requires reached { IsReached inode.now pointers.now }
        requires fan { k < fan inode.now.block.image.size pointers.now.start }
        requires pending { All (IsReached inode.now) pending.old.items }
        ensures sound { IsSound self.new }
        ensures damaged { IfErr result (IsTrueOf (image_at self.old.image)) }
        ensures takes { OnOk result (TakesOnly inode.now.block.number self.old.owners.entries.items self.new.owners.entries.items) }
        ensures pending { OnOk result (All (IsReached inode.now) pending.new.items) }
        ensures entered { OnOk result (IsEnteredAt (held inode.now) self.new.owners.entries.items pointers.now.start pointers.now.block.number pointers.now.level pointers.now.first k) }
        ensures descended { OnOk result ((over : Pointed) → AreDescended (held inode.now) self.old.owners.entries.items (over ∷ pending.old.items) → AreDescended (held inode.now) self.new.owners.entries.items (over ∷ pending.new.items)) }
        ensures falls { 2 * self.new.owners.free + vec_len pending.new ≤ 2 * self.old.owners.free + vec_len pending.old }
        ensures free { self.new.owners.free ≤ self.old.owners.free }
        ensures same { self.new.image ≡ self.old.image }
    {
        let number = pointers.block.pointer(pointers.start, k);
        if number == 0 {
            return Ok(());
        }
        let before = inode.span(pointers.level).saturating_mul(k);
        let first = pointers.first.saturating_add(before);
        if first >= inode.content_count() {
            return Err(damaged(inode.block.number, 8));
        }
        self.claim_child(inode, pointers, k, number, first, pending)
    }

    // Claims the block to which pointer k leads; it has the header that it needs.
    fn claim_child(
        &mut self,
        inode: &Inode<'a>,
        pointers: &Pointers<'a>,
        k: u64,
        number: u64,
        first: u64,
        pending: &mut Vec<Pointers<'a>>,
    ) -> Result<(), ImageFault>
        requires sound { IsSound self.old }
        requires inode { IsDinodeBlock inode.now.block }
        requires of_image { inode.now.block.image ≡ self.old.image }
        requires leads { Leads (held inode.now) pointers.now.block.number k pointers.now.level first number }
        requires pending { All (IsReached inode.now) pending.old.items }
        ensures sound { IsSound self.new }
        ensures damaged { IfErr result (IsTrueOf (image_at self.old.image)) }
        ensures takes { OnOk result (TakesOnly inode.now.block.number self.old.owners.entries.items self.new.owners.entries.items) }
        ensures pending { OnOk result (All (IsReached inode.now) pending.new.items) }
        ensures entered { OnOk result (HasClaim self.new.owners.entries.items number (Below inode.now.block.number pointers.now.block.number k pointers.now.level first)) }
        ensures descended { OnOk result ((over : Pointed) → AreDescended (held inode.now) self.old.owners.entries.items (over ∷ pending.old.items) → AreDescended (held inode.now) self.new.owners.entries.items (over ∷ pending.new.items)) }
        ensures falls { 2 * self.new.owners.free + vec_len pending.new ≤ 2 * self.old.owners.free + vec_len pending.old }
        ensures free { self.new.owners.free ≤ self.old.owners.free }
        ensures same { self.new.image ≡ self.old.image }
    {
        let claim = Claim::Below {
            inode: inode.block.number,
            block: pointers.block.number,
            pointer: k,
            level: pointers.level,
            first,
        };
        let block = match self.claim(pointers.block.number, number, claim) {
            Ok(Some(block)) => block,
            Ok(None) => return Ok(()),
            Err(fault) => return Err(fault),
        };
        if pointers.level == 0 {
            return inode.check_content(&block);
        }
        if !block.has_header(5, 500) {
            return Err(damaged(number, 1));
        }
        let below = Pointers::of_block(inode, block, pointers.level - 1, first);
        pending.push(below)?;
        Ok(())
    }
}

impl<'a> Inode<'a> {
    ghost use Rattle.image_reader.specs.Reading.{IsTrueOf, image_at};
    ghost use Rattle.image_reader.specs.Walking.{IsContentOf};

    // That a block of content has the header that it needs: a table block of a directory has one.
    fn check_content(&self, block: &Block<'a>) -> Result<(), ImageFault>
        requires claimed { IsContentOf self.now block.now.number }
        requires of_image { block.now.image ≡ self.now.block.image }
        ensures damaged { IfErr result (IsTrueOf (image_at self.now.block.image)) }
    {
        if !self.dinode.is_directory() {
            return Ok(());
        }
        if !block.has_header(7, 700) {
            return Err(damaged(block.number, 1));
        }
        Ok(())
    }
}
