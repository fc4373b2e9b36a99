ghost use Rattle.std.specs.Prelude.{◌≡◌, ◌+◌, ◌-◌, ◌*◌, ◌/◌, ◌^◌, ◌%◌, ◌<◌, ◌≤◌, ◌↔◌, length, drop, IfSome, IfNone, IfOk, IfErr, OnErr, OnOk, IsTrue};
ghost use Rattle.gfs2_layout.specs.Bytes.{u64_at};
ghost use Rattle.gfs2_layout.specs.Structures.{dinode_length};

use crate::image::{Image, ImageFault, damaged};
use gfs2_layout::{has_header, superblock_block};

/// The blocks of an image, which are borrowed.
#[derive(Clone, Copy)]
pub(crate) struct Blocks<'a> {
    pub size: usize,
    pub count: u64,
    pub bytes: &'a [u8],
    ghost least: { 512 ≤ size },
    ghost most: { size ≤ 4096 },
    ghost whole: { count * size ≡ length bytes.now },
    ghost counted: { count ≡ length bytes.now / size },
    ghost few: { count + 1 < 2 ^ 64 },
}

/// A block of an image, by its number.
#[derive(Clone, Copy)]
pub(crate) struct Block<'a> {
    pub image: Blocks<'a>,
    pub number: u64,
    ghost inside: { number < image.count },
}

impl<'a> Blocks<'a> {
    ghost use Rattle.gfs2_layout.specs.Device.{IsBlockSize, superblock_place};
    ghost use Rattle.image_model.specs.Image.{image_in};
    ghost use Rattle.image_reader.specs.Reading.{image_at};

    pub fn of(image: &'a Image) -> Blocks<'a>
        requires size { IsBlockSize image.now.block_size }
        requires whole { length image.now.bytes % image.now.block_size ≡ 0 }
        ensures { image_at result ≡ image_in image.now.block_size image.now.bytes }
    {
        let bytes = image.bytes.bytes();
        let size = image.block_size as usize;
        Blocks {
            size,
            count: (bytes.len() / size) as u64,
            bytes,
        }
    }

    /// The block of this number, if the image has it.
    pub fn get(&self, number: u64) -> Option<Block<'a>>
        ensures some { IfSome result (λ b. (b.number ≡ number) × (b.image ≡ self.now)) }
        ensures none { IfNone result (self.now.count ≤ number) }
    {
        if number >= self.count {
            return None;
        }
        Some(Block {
            image: *self,
            number,
        })
    }

    /// The block to which a number leads that stands in block `by`.
    pub fn led_to(&self, by: u64, number: u64) -> Result<Block<'a>, ImageFault>
        ensures block { IfOk result (λ b. (b.number ≡ number) × (b.image ≡ self.now)) }
        ensures fault { IfErr result (λ fault. fault ≡ ImageFault.Damaged by 2) }
        ensures outside { OnErr result (self.now.count ≤ number) }
    {
        match self.get(number) {
            Some(block) => Ok(block),
            None => Err(damaged(by, 2)),
        }
    }

    /// The superblock's block.
    pub fn superblock_place(&self) -> u64
        ensures { result ≡ superblock_place self.now.size }
    {
        superblock_block(self.size as u32)
    }
}

impl<'a> Block<'a> {
    ghost use Rattle.shared_disk.specs.Blocks.{block_in};
    ghost use Rattle.gfs2_layout.specs.Headers.{HasHeader};
    ghost use Rattle.image_reader.specs.Reading.{image_at};

    /// What it holds.
    pub fn bytes(&self) -> &'a [u8]
        ensures value { result.now ≡ block_in self.now.image.size self.now.image.bytes.now self.now.number }
        ensures size { length result.now ≡ self.now.image.size }
    {
        let at = self.number as usize * self.image.size;
        &self.image.bytes[at..at + self.image.size]
    }

    /// What it holds from a byte on.
    pub fn behind(&self, start: usize) -> &'a [u8]
        requires { start ≤ 512 }
        ensures value { result.now ≡ drop start ((image_at self.now.image).at self.now.number) }
        ensures short { length result.now < 2 ^ 32 }
    {
        &self.bytes()[start..]
    }

    /// Whether it begins with the magic, this kind and this format.
    pub fn has_header(&self, kind: u32, format: u32) -> bool
        ensures { IsTrue result ↔ HasHeader kind format ((image_at self.now.image).at self.now.number) }
    {
        has_header(self.bytes(), kind, format)
    }

    /// That it begins so.
    pub fn check_header(&self, kind: u32, format: u32) -> Result<(), ImageFault>
        ensures fault { IfErr result (λ fault. fault ≡ ImageFault.Damaged self.now.number 1) }
        ensures lacks { OnErr result (¬ (HasHeader kind format ((image_at self.now.image).at self.now.number))) }
        ensures has { OnOk result (HasHeader kind format ((image_at self.now.image).at self.now.number)) }
    {
        if self.has_header(kind, format) {
            Ok(())
        } else {
            Err(damaged(self.number, 1))
        }
    }

    /// How many pointers it has from byte `start` on.
    pub fn fan(&self, start: usize) -> u64
        requires { start ≤ dinode_length }
        ensures { result ≡ (self.now.image.size - start) / 8 }
    {
        ((self.image.size - start) / 8) as u64
    }

    /// Pointer k of those from byte `start` on; 0 where it has not so many.
    pub fn pointer(&self, start: usize, k: u64) -> u64
        requires { start ≤ dinode_length }
        ensures { k < (self.now.image.size - start) / 8 → result ≡ u64_at (start + 8 * k) ((image_at self.now.image).at self.now.number) }
    {
        if k >= self.fan(start) {
            return 0;
        }
        number_at(self.bytes(), start + 8 * k as usize)
    }
}

/// The number in the eight bytes at a place.
#[tactic(auto, unfolding(gfs2_layout::specs::Bytes::number_at))]
pub(crate) fn number_at(bytes: &[u8], at: usize) -> u64
    requires { at + 8 ≤ length bytes.now }
    ensures { result ≡ u64_at at bytes.now }
{
    let mut part = [0u8; 8];
    part.copy_from_slice(&bytes[at..at + 8]);
    u64::from_be_bytes(part)
}
