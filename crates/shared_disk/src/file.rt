ghost use Rattle.std.specs.Prelude.{◌≡◌, ◌*◌, ◌^◌, ◌<◌, ◌≤◌, ℕ, None, IfOk, length};
ghost use Rattle.std.specs.List.{AllByRecursion};
ghost use Rattle.shared_disk.specs.Disk.{IsIdle};
ghost use Rattle.shared_disk.specs.Files.{file_state};
ghost use Rattle.shared_disk.specs.Places.{AreThere};
ghost use Rattle.shared_disk.specs.Nodes.{NodeStates, faults_of, fresh};

use crate::nodes::Nodes;
use crate::places::{Place, bytes_at};
use crate::{DiskError, Settle, SharedDisk};
use std::alloc::Global;
use std::fs::{File, OpenFile, OpenOptions};
use std::io::{self, Error, ErrorKind, Seek, SeekFrom};
use std::marker::Model;
use std::os::unix::fs::{FileExt, FileTypeExt};
use std::rt::Files;

/// Why a file can't be a disk: the system refused to open or to measure it, or there was no memory.
#[derive(Clone, Copy, Debug, PartialEq, Eq)]
pub enum OpenError {
    Failed,
    NoMemory,
}

/// The whole blocks of a regular file or a block device; bytes past them are left alone. What is in flight is in memory, reserved
/// at opening and touched by the first write, until a barrier or a fence writes it to the file. It tells nothing of its blocks.
/// A read costs a binary search and one read of the system, a barrier or a fence one write of the
/// system per write in flight, and a barrier one sync.
#[derive(Drop)]
pub struct FileDisk {
    file: File,
    nodes: Nodes,
    scratch: Vec<u8>,
}

impl Model for FileDisk {
    ghost use Rattle.std.specs.Prelude.{◌≡◌, ◌*◌, ◌^◌, ◌<◌, length};
    ghost use Rattle.shared_disk.specs.Nodes.{NodeStates};

    ghost Value = { NodeStates };

    ghost view = { λ d. d.nodes };

    ghost invariant = { λ d. (d.nodes.count * d.nodes.size < 2 ^ 64) × (length d.scratch.items ≡ d.nodes.size) };
}

// Where a block begins in the file.
fn offset(block: u64, size: u32) -> u64
    requires { block * size < 2 ^ 64 }
    ensures { result ≡ block * size }
{
    block * u64::from(size)
}

// Writes each write in flight to its place in the file.
fn write_flights(file: &File, size: u32, places: &[Place], bytes: &[u8]) -> io::Result<()>
    requires within { AllByRecursion (λ p. p.block * size < 2 ^ 64) places.now }
    requires there { AreThere size bytes.now places.now }
{
    for place in places {
        let new = bytes_at(bytes, size as usize, place.number);
        file.write_all_at(new, offset(place.block, size))?;
    }
    Ok(())
}

// Writes the first bytes over those of the old block.
fn tear(file: &File, at: u64, new: &[u8], count: usize, scratch: &mut [u8]) -> io::Result<()>
    requires size { length new.now ≡ length scratch.old }
    requires count { count ≤ length new.now }
{
    file.read_exact_at(scratch, at)?;
    scratch[..count].copy_from_slice(&new[..count]);
    file.write_all_at(scratch, at)
}

// Settles a write in flight in the file as the order says.
fn settle_flight(
    file: &File,
    size: u32,
    block: u64,
    new: &[u8],
    order: Settle,
    scratch: &mut [u8],
) -> io::Result<()>
    requires within { block * size < 2 ^ 64 }
    requires size { length new.now ≡ size }
    requires scratch { length scratch.old ≡ size }
{
    let at = offset(block, size);
    match order {
        Settle::Old => Ok(()),
        Settle::Torn(count) if count < size => tear(file, at, new, count as usize, scratch),
        _ => file.write_all_at(new, at),
    }
}

// Settles each write in flight in the file as the order says.
fn settle_flights(
    file: &File,
    size: u32,
    places: &[Place],
    bytes: &[u8],
    order: Settle,
    scratch: &mut [u8],
) -> io::Result<()>
    requires within { AllByRecursion (λ p. p.block * size < 2 ^ 64) places.now }
    requires there { AreThere size bytes.now places.now }
    requires scratch { length scratch.old ≡ size }
{
    for place in places {
        let new = bytes_at(bytes, size as usize, place.number);
        settle_flight(file, size, place.block, new, order, scratch)?;
    }
    Ok(())
}

// Opens a file that blocks stand on: a regular file, or a block device. Nothing else is opened, so nobody waits at a pipe.
fn open_blocks<F: Files<File = File>>(rt: &F, path: &str, is_written: bool) -> io::Result<File> {
    let about = rt.metadata(path)?;
    if !about.is_file() && !about.file_type().is_block_device() {
        return Err(Error::from(ErrorKind::InvalidInput));
    }
    OpenOptions::new()
        .read(true)
        .write(is_written)
        .open(rt, path)
}

impl FileDisk {
    /// A disk of the file's whole blocks of so many bytes, with nothing in flight and nobody fenced. The file is a
    /// regular file or a block device.
    pub fn open<F: Files<File = File>>(
        rt: &F,
        alloc: Global,
        path: &str,
        block_size: u32,
    ) -> Result<FileDisk, OpenError>
        requires { 1 ≤ block_size }
        ensures value { IfOk result (λ d. d ≡ fresh d.count block_size) }
        ensures idle { IfOk result (λ d. IsIdle (file_state d)) }
    {
        match open_blocks(rt, path, true) {
            Ok(file) => FileDisk::over(file, alloc, block_size),
            Err(_) => Err(OpenError::Failed),
        }
    }

    /// The same of a file that may only be read. What is written to the disk stays in flight: the barrier or the fence
    /// that is to bring it to the file fails.
    pub fn open_for_reading<F: Files<File = File>>(
        rt: &F,
        alloc: Global,
        path: &str,
        block_size: u32,
    ) -> Result<FileDisk, OpenError>
        requires { 1 ≤ block_size }
        ensures value { IfOk result (λ d. d ≡ fresh d.count block_size) }
        ensures idle { IfOk result (λ d. IsIdle (file_state d)) }
    {
        match open_blocks(rt, path, false) {
            Ok(file) => FileDisk::over(file, alloc, block_size),
            Err(_) => Err(OpenError::Failed),
        }
    }

    // A disk over an open file. Its end tells how long it is; what the system tells of a block device has no length.
    fn over(mut file: File, alloc: Global, block_size: u32) -> Result<FileDisk, OpenError>
        requires { 1 ≤ block_size }
        ensures value { IfOk result (λ d. d ≡ fresh d.count block_size) }
        ensures idle { IfOk result (λ d. IsIdle (file_state d)) }
    {
        let Ok(length) = file.seek(SeekFrom::End(0)) else {
            return Err(OpenError::Failed);
        };
        let count = length / u64::from(block_size);
        let Ok(nodes) = Nodes::new(alloc, count, block_size) else {
            return Err(OpenError::NoMemory);
        };
        let Ok(scratch) = vec![in alloc; 0; block_size as usize] else {
            return Err(OpenError::NoMemory);
        };
        Ok(FileDisk {
            file,
            nodes,
            scratch,
        })
    }
}

impl SharedDisk for FileDisk {
    ghost state = { file_state };

    ghost list = { λ d. None };

    ghost faults = { λ d node. faults_of d node };

    fn blocks(&self) -> u64 {
        self.nodes.blocks()
    }

    fn block_size(&self) -> u32 {
        self.nodes.block_size()
    }

    fn read(&mut self, node: u8, block: u64, into: &mut [u8]) -> Result<(), DiskError> {
        if self.nodes.is_fenced(node) {
            return Err(DiskError::Fenced);
        }
        if self.nodes.copy(node, block, into) {
            return Ok(());
        }
        let at = offset(block, self.nodes.block_size());
        if self.file.read_exact_at(into, at).is_err() {
            return Err(self.nodes.fail(node));
        }
        Ok(())
    }

    fn write(&mut self, node: u8, block: u64, bytes: &[u8]) -> Result<(), DiskError> {
        if self.nodes.is_fenced(node) {
            return Err(DiskError::Fenced);
        }
        self.nodes.put(node, block, bytes);
        Ok(())
    }

    fn barrier(&mut self, node: u8) -> Result<(), DiskError> {
        if self.nodes.is_fenced(node) {
            return Err(DiskError::Fenced);
        }
        let size = self.nodes.block_size();
        let (places, bytes) = self.nodes.in_flight(node);
        if write_flights(&self.file, size, places, bytes).is_err() {
            return Err(self.nodes.fail(node));
        }
        if self.file.sync_data().is_err() {
            return Err(self.nodes.fail(node));
        }
        self.nodes.clear(node);
        Ok(())
    }

    fn fence(&mut self, node: u8, order: Settle) -> Result<(), DiskError> {
        let size = self.nodes.block_size();
        let (places, bytes) = self.nodes.in_flight(node);
        if settle_flights(&self.file, size, places, bytes, order, &mut self.scratch).is_err() {
            return Err(self.nodes.fail(0));
        }
        self.nodes.clear(node);
        self.nodes.set_fenced(node, true);
        Ok(())
    }

    fn admit(&mut self, node: u8) -> Result<(), DiskError> {
        self.nodes.set_fenced(node, false);
        Ok(())
    }

    fn faults(&self, node: u8) -> u64 {
        self.nodes.faults(node)
    }
}
