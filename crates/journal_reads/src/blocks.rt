// A journal's blocks, read one place after another.
ghost use Rattle.std.specs.Prelude.{◌≡◌, ◌+◌, ◌^◌, ◌<◌, ◌≤◌, IsTrue, OnOk, IfOk, IfErr, false, length, get_or};
ghost use Rattle.std.specs.List.{All};
ghost use Rattle.gfs2_layout.specs.Device.{IsBlockSize};
ghost use Rattle.journal_reads.specs.Reading.{AreFirstPlaces, HasCause, ring_read};
ghost use Rattle.journal_scan.specs.Images.{IsImage, ring_of};
ghost use Rattle.log_layout.specs.Laws.{HasSamePlaces};
ghost use Rattle.shared_disk.specs.Disk.{ReadsOnly};

use crate::ReadFault;
use file_tree::Content;
use journal_scan::JournalImage;
use shared_disk::{SharedDisk, read_block};
use std::alloc::Global;

// Reads the block of a place, and puts it at the end.
fn append_block<D: SharedDisk>(
    disk: &mut D,
    node: u8,
    blocks: &[u64],
    place: usize,
    block: &mut [u8],
    bytes: &mut Vec<u8>,
) -> Result<(), ReadFault>
    requires node { node ≤ 8 }
    requires open { (D.state disk.old).is_fenced node ≡ false }
    requires place { place < length blocks.now }
    requires inside { All (λ b. b < (D.state disk.old).count) blocks.now }
    requires size { length block.old ≡ (D.state disk.old).size }
    ensures blocks { OnOk result (AreFirstPlaces (D.state disk.old) node blocks.now place bytes.old.items → AreFirstPlaces (D.state disk.old) node blocks.now (place + 1) bytes.new.items) }
    ensures reads { ReadsOnly (D.state disk.old) (D.state disk.new) (D.list disk.old) (D.list disk.new) (D.faults disk.old) (D.faults disk.new) }
    ensures cause { IfErr result (HasCause blocks.now (D.faults disk.old node) (D.faults disk.new node)) }
{
    let number = blocks[place];
    match read_block(disk, node, number, block) {
        Ok(()) => {}
        Err(rise) => {
            return Err(ReadFault::DiskFailed {
                block: number,
                rise,
            });
        }
    }
    bytes.extend_from_slice(block)?;
    Ok(())
}

// The blocks of all places, one behind the other.
fn read_blocks<D: SharedDisk>(
    alloc: Global,
    disk: &mut D,
    node: u8,
    blocks: &[u64],
) -> Result<Vec<u8>, ReadFault>
    requires node { node ≤ 8 }
    requires open { (D.state disk.old).is_fenced node ≡ false }
    requires inside { All (λ b. b < (D.state disk.old).count) blocks.now }
    ensures blocks { IfOk result (λ bytes. AreFirstPlaces (D.state disk.old) node blocks.now (length blocks.now) bytes.items) }
    ensures reads { ReadsOnly (D.state disk.old) (D.state disk.new) (D.list disk.old) (D.list disk.new) (D.faults disk.old) (D.faults disk.new) }
    ensures cause { IfErr result (HasCause blocks.now (D.faults disk.old node) (D.faults disk.new node)) }
{
    let size = disk.block_size() as usize;
    let mut block = vec![in alloc; 0u8; size]?;
    let mut bytes = Vec::new(alloc);
    for place in 0..blocks.len() {
        append_block(disk, node, blocks, place, &mut block, &mut bytes)?;
    }
    Ok(bytes)
}

/// Reads a journal, given the block at each of its places, as a node sees the disk: what it says is what those blocks say. It costs a read for each place,
/// and memory for all of them.
pub fn read_journal<D: SharedDisk>(
    alloc: Global,
    disk: &mut D,
    node: u8,
    blocks: &[u64],
) -> Result<JournalImage, ReadFault>
    requires node { node ≤ 8 }
    requires open { (D.state disk.old).is_fenced node ≡ false }
    requires inside { All (λ b. b < (D.state disk.old).count) blocks.now }
    requires few { length blocks.now < 2 ^ 32 }
    requires size { IsBlockSize (D.state disk.old).size }
    ensures image { IfOk result IsImage }
    ensures size { IfOk result (λ journal. journal.block_size ≡ (D.state disk.old).size) }
    ensures long { IfOk result (λ journal. journal.length ≡ length blocks.now) }
    ensures says { IfOk result (λ journal. IsTrue (D.state disk.old).tells → HasSamePlaces (ring_of journal) (ring_read (D.state disk.old) node blocks.now)) }
    ensures reads { ReadsOnly (D.state disk.old) (D.state disk.new) (D.list disk.old) (D.list disk.new) (D.faults disk.old) (D.faults disk.new) }
    ensures cause { IfErr result (HasCause blocks.now (D.faults disk.old node) (D.faults disk.new node)) }
{
    let block_size = disk.block_size();
    let bytes = read_blocks(alloc, disk, node, blocks)?;
    Ok(JournalImage {
        block_size,
        length: blocks.len() as u32,
        bytes: Content::new(bytes),
    })
}
