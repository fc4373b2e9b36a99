// The blocks of a disk, read into memory.
ghost use Rattle.std.specs.Prelude.{◌≡◌, ◌+◌, ◌<◌, ◌++◌, IsTrue, OnOk, IfOk, IfErr, length};
ghost use Rattle.disk_trees.specs.Answers.{HasCause, IsNotDamaged};
ghost use Rattle.disk_trees.specs.Reading.{AreFirstBlocks};
ghost use Rattle.shared_disk.specs.Disk.{IsIdle, ReadsOnly};

use crate::TreeFault;
use shared_disk::{SharedDisk, read_block};
use std::alloc::Global;

// Reads a block as the run itself, and puts it at the end.
fn append_block<D: SharedDisk>(
    disk: &mut D,
    number: u64,
    block: &mut [u8],
    bytes: &mut Vec<u8>,
) -> Result<(), TreeFault>
    requires idle { IsIdle (D.state disk.old) }
    requires inside { number < (D.state disk.old).count }
    requires size { length block.old ≡ (D.state disk.old).size }
    ensures blocks { OnOk result (AreFirstBlocks (D.state disk.old) number bytes.old.items → AreFirstBlocks (D.state disk.old) (number + 1) bytes.new.items) }
    ensures reads { ReadsOnly (D.state disk.old) (D.state disk.new) (D.list disk.old) (D.list disk.new) (D.faults disk.old) (D.faults disk.new) }
    ensures cause { IfErr result (HasCause (D.state disk.old).count (D.faults disk.old) (D.faults disk.new)) }
    ensures failed { IfErr result IsNotDamaged }
{
    match read_block(disk, 0, number, block) {
        Ok(()) => {}
        Err(rise) => {
            return Err(TreeFault::DiskFailed {
                block: number,
                rise,
            });
        }
    }
    bytes.extend_from_slice(block)?;
    Ok(())
}

/// Every block of an idle disk, one after another, read as the run itself.
pub(crate) fn read_blocks<D: SharedDisk>(alloc: Global, disk: &mut D) -> Result<Vec<u8>, TreeFault>
    requires { IsIdle (D.state disk.old) }
    ensures blocks { IfOk result (λ bytes. AreFirstBlocks (D.state disk.old) (D.state disk.old).count bytes.items) }
    ensures reads { ReadsOnly (D.state disk.old) (D.state disk.new) (D.list disk.old) (D.list disk.new) (D.faults disk.old) (D.faults disk.new) }
    ensures cause { IfErr result (HasCause (D.state disk.old).count (D.faults disk.old) (D.faults disk.new)) }
    ensures failed { IfErr result IsNotDamaged }
{
    let size = disk.block_size() as usize;
    let Some(total) = size.checked_mul(disk.blocks() as usize) else {
        return Err(TreeFault::NoMemory);
    };
    let mut block = vec![in alloc; 0u8; size]?;
    let mut bytes = Vec::with_capacity(alloc, total)?;
    for number in 0..disk.blocks() {
        append_block(disk, number, &mut block, &mut bytes)?;
    }
    Ok(bytes)
}
