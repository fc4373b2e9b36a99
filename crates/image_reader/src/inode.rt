ghost use Rattle.std.specs.Prelude.{◌≡◌, ◌≢◌, ◌+◌, ◌-◌, ◌*◌, ◌/◌, ◌%◌, ◌<◌, ◌≤◌, ◌^◌, min, length, IfOk, IfErr, IfSome, IfNone, OnOk};
ghost use Rattle.gfs2_layout.specs.Structures.{dinode_of, dinode_length};
ghost use Rattle.gfs2_layout.specs.Headers.{HasHeader};
ghost use Rattle.shared_disk.specs.Blocks.{block_in};

use crate::blocks::Block;
use crate::image::{ImageFault, damaged};
use gfs2_layout::{DINODE_LENGTH, Dinode};

/// Where the pointers of a dinode begin, and those of an indirect block.
pub(crate) const IN_BLOCK: usize = 24;

/// An inode: the block of its dinode, which has its header, and what the dinode says.
#[derive(Clone, Copy)]
pub(crate) struct Inode<'a> {
    pub block: Block<'a>,
    pub dinode: Dinode,
    ghost is: { dinode ≡ dinode_of (block_in block.image.size block.image.bytes.now block.number) },
    ghost headed: { HasHeader 4 400 (block_in block.image.size block.image.bytes.now block.number) },
}

impl<'a> Inode<'a> {
    ghost use Rattle.gfs2_layout.specs.Inode.{fan, span, unit, content_block, content_count, is_hashed_in, Fits};
    ghost use Rattle.image_reader.specs.Reading.{held, image_at, IsDinodeBlock, IsTrueOf};
    ghost use Rattle.image_model.specs.Stands.{kind_of};
    ghost use Rattle.gfs2_layout.specs.Inode.{head_of};

    // Reads a dinode, which is to have its header.
    fn at(block: Block<'a>) -> Result<Inode<'a>, ImageFault>
        requires { IsDinodeBlock block }
        ensures block { IfOk result (λ inode. inode.block ≡ block.entry) }
        ensures damaged { IfErr result (IsTrueOf (image_at block.entry.image)) }
    {
        if !block.has_header(4, 400) {
            return Err(damaged(block.number, 1));
        }
        match Dinode::read(block.bytes()) {
            Ok(dinode) => Ok(Inode { block, dinode }),
            Err(_) => Err(damaged(block.number, 1)),
        }
    }

    // That the dinode has its own address and a formal number.
    fn check_number(&self) -> Result<(), ImageFault>
        requires { IsDinodeBlock self.now.block }
        ensures damaged { IfErr result (IsTrueOf (image_at self.now.block.image)) }
    {
        if self.dinode.num.address != self.block.number {
            return Err(damaged(self.block.number, 7));
        }
        if self.dinode.num.number == 0 {
            return Err(damaged(self.block.number, 7));
        }
        Ok(())
    }

    // That its mode is that of a directory or a regular file.
    fn check_mode(&self) -> Result<(), ImageFault>
        requires { IsDinodeBlock self.now.block }
        ensures damaged { IfErr result (IsTrueOf (image_at self.now.block.image)) }
    {
        if self.dinode.is_directory() {
            return Ok(());
        }
        if self.dinode.is_regular() {
            return Ok(());
        }
        Err(damaged(self.block.number, 8))
    }

    /// Reads a dinode, which is to have its header, its own address, a formal number, and the mode of a
    /// directory or a regular file.
    pub fn read(block: Block<'a>) -> Result<Inode<'a>, ImageFault>
        requires { IsDinodeBlock block }
        ensures block { IfOk result (λ inode. inode.block ≡ block.entry) }
        ensures damaged { IfErr result (IsTrueOf (image_at block.entry.image)) }
    {
        let inode = Inode::at(block)?;
        inode.check_number()?;
        inode.check_mode()?;
        Ok(inode)
    }

    pub fn address(&self) -> u64 {
        self.block.number
    }

    /// Whether it is a directory with the flag of a hashed one.
    #[tactic(auto, unfolding(gfs2_layout::specs::Inode::dinode_in))]
    pub fn is_hashed(&self) -> bool
        ensures { result ≡ is_hashed_in (held self.now) }
    {
        self.dinode.is_directory() && self.dinode.flags / 2 % 2 == 1
    }

    /// The kind that a record has of it.
    #[tactic(auto, unfolding(gfs2_layout::specs::Inode::dinode_in))]
    pub fn kind(&self) -> u16
        ensures { result ≡ kind_of (head_of (held self.now)) }
    {
        if self.dinode.is_directory() { 4 } else { 8 }
    }

    /// How many bytes of its content a block carries: a table block of a directory has a header.
    #[tactic(auto, unfolding(gfs2_layout::specs::Inode::dinode_in))]
    pub fn unit(&self) -> usize
        ensures value { result ≡ unit (held self.now) }
        ensures least { 488 ≤ result }
        ensures most { result ≤ self.now.block.image.size }
    {
        if self.dinode.is_directory() {
            self.block.image.size - IN_BLOCK
        } else {
            self.block.image.size
        }
    }

    /// How many blocks of content its size asks for.
    #[tactic(auto, using(crate::proofs::Pieces::pieces_of), unfolding(gfs2_layout::specs::Inode::dinode_in))]
    pub fn content_count(&self) -> u64
        ensures { result ≡ content_count (held self.now) }
    {
        self.dinode.size.div_ceil(self.unit() as u64)
    }

    /// How many blocks of content a block leads to that stands so many levels above content, or the
    /// greatest number where it is more.
    pub fn span(&self, level: u16) -> u64
        ensures value { result ≡ min (span (self.now.block.image.size) level) (2 ^ 64 - 1) }
        ensures some { 1 ≤ result }
    {
        let fan = self.block.fan(IN_BLOCK);
        let mut span: u64 = 1;
        for _above in 0..level {
            span = span.saturating_mul(fan);
        }
        span
    }

    /// That the height is one of 0 to 10, and that the content fits: behind the dinode at height 0, and
    /// else below it.
    pub fn check_fits(&self) -> Result<(), ImageFault>
        requires { IsDinodeBlock self.now.block }
        ensures low { OnOk result (self.now.dinode.height ≤ 10) }
        ensures stuffed { OnOk result (self.now.dinode.height ≡ 0 → dinode_length + self.now.dinode.size ≤ self.now.block.image.size) }
        ensures fits { OnOk result (Fits (held self.now)) }
        ensures damaged { IfErr result (IsTrueOf (image_at self.now.block.image)) }
    {
        if self.dinode.height > 10 {
            return Err(damaged(self.block.number, 8));
        }
        if self.dinode.height == 0 {
            return self.check_stuffed();
        }
        self.check_pointed(self.dinode.height - 1)
    }

    fn check_stuffed(&self) -> Result<(), ImageFault>
        requires block { IsDinodeBlock self.now.block }
        requires height { self.now.dinode.height ≡ 0 }
        ensures fits { OnOk result (dinode_length + self.now.dinode.size ≤ self.now.block.image.size) }
        ensures damaged { IfErr result (IsTrueOf (image_at self.now.block.image)) }
    {
        if self.dinode.size > self.room() {
            return Err(damaged(self.block.number, 8));
        }
        Ok(())
    }

    fn check_pointed(&self, level: u16) -> Result<(), ImageFault>
        requires block { IsDinodeBlock self.now.block }
        requires height { self.now.dinode.height ≡ level + 1 }
        ensures under { OnOk result (content_count (held self.now) ≤ fan self.now.block.image.size dinode_length * span self.now.block.image.size level) }
        ensures damaged { IfErr result (IsTrueOf (image_at self.now.block.image)) }
    {
        let most = self
            .block
            .fan(DINODE_LENGTH)
            .saturating_mul(self.span(level));
        if self.content_count() > most {
            return Err(damaged(self.block.number, 8));
        }
        Ok(())
    }

    /// How many bytes there are behind the dinode.
    pub fn room(&self) -> u64
        ensures { result ≡ self.now.block.image.size - dinode_length }
    {
        (self.block.image.size - DINODE_LENGTH) as u64
    }

    /// The block of content with this index, of an inode whose content isn't in its dinode; None is a hole. It
    /// reads a pointer a level.
    pub fn content_block(&self, index: u64) -> Result<Option<Block<'a>>, ImageFault>
        requires dinode { IsDinodeBlock self.now.block }
        requires fits { Fits (held self.now) }
        requires pointed { self.now.dinode.height ≢ 0 }
        requires within { index < content_count (held self.now) }
        ensures none { IfOk result (λ found. IfNone found (content_block (held self.now) index ≡ 0)) }
        ensures some { IfOk result (λ found. IfSome found (λ b. (b.number ≢ 0) × (b.number ≡ content_block (held self.now) index))) }
        ensures of_image { IfOk result (λ found. IfSome found (λ b. b.image ≡ self.now.block.image)) }
        ensures damaged { IfErr result (IsTrueOf (image_at self.now.block.image)) }
    {
        if index >= self.content_count() {
            unreachable!()
        }
        let mut block = self.block;
        let mut start = DINODE_LENGTH;
        let mut left = index;
        for level in (0..self.dinode.height).rev() {
            let span = self.span(level);
            let number = block.pointer(start, left / span);
            if number == 0 {
                return Ok(None);
            }
            block = self.block.image.led_to(block.number, number)?;
            start = IN_BLOCK;
            left %= span;
        }
        Ok(Some(block))
    }
}
