// Images: the bytes of a device, how large its blocks are, and what its blocks are called.
use crate::fields::DINODE_LENGTH;
use crate::numbers::{number_at, part};
use anyhow::{Result, bail};
use std::alloc::Global;

#[derive(Drop)]
pub struct Name {
    pub word: String,
    pub number: u64,
}

#[derive(Drop)]
pub struct Image {
    pub size: u32,
    pub bytes: Vec<u8>,
    pub names: Vec<Name>,
}

impl Image {
    /// A device of so many blocks that have this byte everywhere.
    pub fn device(alloc: Global, size: u32, blocks: u64, byte: u8) -> Result<Image> {
        if size > 4096 || blocks > 1_000_000 {
            bail!("a device of {blocks} blocks of {size} bytes");
        }
        let count = (blocks as usize).saturating_mul(size as usize);
        Ok(Image {
            size,
            bytes: vec![in alloc; byte; count]?,
            names: Vec::new(alloc),
        })
    }

    pub fn copy(&self, alloc: Global) -> Result<Image> {
        let mut names = Vec::new(alloc);
        for name in &self.names {
            names.push(Name {
                word: name.word.as_str().to_string(alloc)?,
                number: name.number,
            })?;
        }
        Ok(Image {
            size: self.size,
            bytes: self.bytes.to_vec(alloc)?,
            names,
        })
    }

    /// Calls a block by this word.
    pub fn call(&mut self, alloc: Global, word: &str, number: u64) -> Result<()> {
        self.names.push(Name {
            word: word.to_string(alloc)?,
            number,
        })?;
        Ok(())
    }

    /// What is called by this word; of several the last.
    pub fn called(&self, word: &str) -> Option<u64> {
        let mut found = None;
        for name in &self.names {
            if name.word.as_str() == word {
                found = Some(name.number);
            }
        }
        found
    }

    /// Where a block begins, in bytes.
    pub fn start(&self, block: u64) -> usize {
        (block.min(1_000_000) as usize).saturating_mul(self.size as usize)
    }

    /// The number of so many bytes at a place of a block.
    pub fn number(&self, block: u64, at: usize, width: usize) -> Option<u64> {
        number_at(&self.bytes, self.start(block).saturating_add(at), width)
    }

    /// How many blocks there are.
    pub fn blocks(&self) -> u64 {
        let size = (self.size as usize).max(1);
        (self.bytes.len() / size) as u64
    }

    /// The kind of a block's structure, where its magic number is right.
    pub fn kind(&self, block: u64) -> Option<u64> {
        if self.number(block, 0, 4)? != 0x0116_1970 {
            return None;
        }
        self.number(block, 4, 4)
    }

    /// Where in a directory's block its records begin.
    pub fn area(&self, block: u64) -> usize {
        if self.kind(block) == Some(6) {
            104
        } else {
            DINODE_LENGTH
        }
    }

    /// Where in a directory's block the record of a name stands.
    pub fn record(&self, block: u64, name: &[u8]) -> Option<usize> {
        let mut at = self.area(block);
        for _ in 0..self.size / 40 {
            let length = self.number(block, at.saturating_add(20), 2)? as usize;
            let count = self.number(block, at.saturating_add(22), 2)? as usize;
            let place = self.start(block).saturating_add(at).saturating_add(40);
            if part(&self.bytes, place, count)? == name {
                return Some(at);
            }
            at = at.saturating_add(length);
            if length == 0 || at >= self.size as usize {
                return None;
            }
        }
        None
    }

    /// Where in a directory's block its last record stands.
    pub fn last_record(&self, block: u64) -> Option<usize> {
        let mut at = self.area(block);
        for _ in 0..self.size / 40 {
            let length = self.number(block, at.saturating_add(20), 2)? as usize;
            let next = at.saturating_add(length);
            if length == 0 || next >= self.size as usize {
                return Some(at);
            }
            at = next;
        }
        None
    }

    /// The block to which a name in a directory's block leads.
    pub fn led_to(&self, block: u64, name: &[u8]) -> Option<u64> {
        let at = self.record(block, name)?;
        self.number(block, at.saturating_add(8), 8)
    }
}
