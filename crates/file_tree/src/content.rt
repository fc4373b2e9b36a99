ghost use Rattle.std.specs.Prelude.{◌≡◌, ◌+◌, ◌≤◌, ◌++◌, if◌then◌else◌, nat_lt, length, take, drop, IfOk, OnOk, OnErr};
ghost use Rattle.file_tree.specs.Apply.{file_limit, overwritten, resized};

use crate::NoMemory;
use std::alloc::Global;
use std::marker::Model;

/// The bytes of a file.
#[derive(Drop)]
pub struct Content {
    bytes: Vec<u8>,
}

impl Model for Content {
    ghost use Rattle.std.specs.Prelude.{List, ℕ};

    ghost Value = { List ℕ };

    ghost view = { λ c. c.bytes.items };
}

impl Content {
    /// The content of these bytes.
    pub fn new(bytes: Vec<u8>) -> Content
        ensures { result ≡ bytes.items }
    {
        Content { bytes }
    }

    /// The bytes.
    pub fn bytes(&self) -> &[u8]
        ensures { result.now ≡ self.now }
    {
        self.bytes.as_slice()
    }

    /// What its bytes take memory from.
    pub(crate) fn allocator(&self) -> Global {
        *self.bytes.allocator()
    }

    /// Equal content.
    pub fn copy(&self) -> Result<Content, NoMemory>
        ensures { IfOk result (λ c. c ≡ self.now) }
    {
        Ok(Content {
            bytes: self.bytes.clone()?,
        })
    }

    /// The bytes from an offset on, at most so many.
    pub(crate) fn part(&self, at: u64, count: u32) -> Result<Content, NoMemory>
        ensures { IfOk result (λ part. part ≡ take count (drop at self.now)) }
    {
        let part = part_of(&self.bytes, at, count);
        Ok(Content::new(Vec::from_slice(self.allocator(), part)?))
    }

    /// Cuts it to so many bytes, or puts zeros behind it.
    pub(crate) fn resize(&mut self, size: usize) -> Result<(), NoMemory>
        ensures ok { OnOk result (self.new ≡ resized size self.old) }
        ensures err { OnErr result (self.new ≡ self.old) }
    {
        self.bytes.resize(size, 0)?;
        Ok(())
    }

    /// Writes over what is there from an offset on, with zeros between the old end and the offset. It takes
    /// memory for what is past the old end alone.
    pub(crate) fn overwrite(&mut self, at: usize, bytes: &[u8]) -> Result<(), NoMemory>
        requires { at + length bytes.now ≤ file_limit }
        ensures ok { OnOk result (self.new ≡ overwritten at bytes.now self.old) }
        ensures err { OnErr result (self.new ≡ self.old) }
    {
        make_long(&mut self.bytes, at + bytes.len())?;
        write_over(&mut self.bytes, at, bytes);
        Ok(())
    }
}

// Puts zeros behind what is shorter.
fn make_long(bytes: &mut Vec<u8>, size: usize) -> Result<(), NoMemory>
    ensures ok { OnOk result (bytes.new.items ≡ (if nat_lt (length bytes.old.items) size then resized size bytes.old.items else bytes.old.items)) }
    ensures long { OnOk result (size ≤ length bytes.new.items) }
    ensures err { OnErr result (bytes.new.items ≡ bytes.old.items) }
{
    if bytes.len() < size {
        bytes.resize(size, 0)?;
    }
    Ok(())
}

fn write_over(bytes: &mut [u8], at: usize, new: &[u8])
    requires { at + length new.now ≤ length bytes.old }
    ensures len { length bytes.new ≡ length bytes.old }
    ensures over { bytes.new ≡ take at bytes.old ++ new.now ++ drop (at + length new.now) bytes.old }
{
    bytes[at..at + new.len()].copy_from_slice(new);
}

fn part_of(bytes: &[u8], at: u64, count: u32) -> &[u8]
    ensures { result.now ≡ take count (drop at bytes.now) }
{
    let from = at.min(bytes.len() as u64) as usize;
    let rest = &bytes[from..];
    let count = (count as usize).min(rest.len());
    &rest[..count]
}
