ghost use Rattle.std.specs.Prelude.{ℕ, List, ◌≡◌, ◌+◌, ◌<◌, ◌≤◌, length, IsTrue, true, None, OnOk, IfErr, slice_get, Some};
ghost use Rattle.gfs2_layout.specs.Device.{IsBlockSize};
ghost use Rattle.shared_disk.specs.Disk.{IsIdle};
ghost use Rattle.shared_disk.specs.Disk.{ReadsOnly};
ghost use Rattle.image_model.specs.Image.{Image};
ghost use Rattle.image_mount.specs.Marked.{IsGrown, IsTaken, marks_of};
ghost use Rattle.image_mount.specs.Refusals.{HasRisen, LiesWithin, RefusesRightly};
ghost use Rattle.image_mount.specs.Rings.{IsSearched};
ghost use Rattle.image_mount.specs.Searching.{FailsAt, IsWanted, IsWorking, LacksBlock, ShowsSystem, StopsRightly};
ghost use Rattle.image_mount.specs.Kept.{seen_of};

use crate::fault::MountFault;
use crate::kept_blocks::KeptBlocks;
use crate::stop::{Stop, damaged};
use gfs2_layout::superblock_block;
use glock_names::View;
use shared_disk::{SharedDisk, read_block};
use std::alloc::Global;

/// Reads a block of an idle disk, as the run itself.
pub(crate) fn read_into<D: SharedDisk>(
    disk: &mut D,
    block: u64,
    into: &mut [u8],
) -> Result<(), MountFault>
    requires idle { IsIdle (D.state disk.old) }
    requires block { block < (D.state disk.old).count }
    requires size { length into.old ≡ (D.state disk.old).size }
    ensures bytes { OnOk result (IsTrue (D.state disk.old).tells → into.new ≡ (D.state disk.old).block_at block) }
    ensures failed { IfErr result (FailsAt block) }
    ensures risen { IfErr result (HasRisen (D.faults disk.old) (D.faults disk.new)) }
    ensures within { IfErr result (LiesWithin (D.state disk.old).count) }
    ensures reads { ReadsOnly (D.state disk.old) (D.state disk.new) (D.list disk.old) (D.list disk.new) (D.faults disk.old) (D.faults disk.new) }
{
    match read_block(disk, 0, block, into) {
        Ok(()) => Ok(()),
        Err(rise) => Err(MountFault::DeviceFault {
            block,
            before: rise.before,
            after: rise.after,
        }),
    }
}

// Why a block is not read whose number stands in block `from`: it is not on the device, or it is a place of a journal.
fn check_readable(table: &KeptBlocks, count: u64, block: u64, from: u64) -> Result<(), MountFault>
    ensures inside { OnOk result (block < count) }
    ensures unmarked { OnOk result (marks_of table.now block ≡ 0) }
    ensures refused { (im : Image) (done : List ℕ) (d n : ℕ) → table.now.size ≡ im.size → count ≡ im.count → IsWanted im block from → IsSearched im done d n table.now → IfErr result (RefusesRightly im) }
    ensures steady { IfErr result (λ fault. (f g : ℕ → ℕ) → HasRisen f g fault) }
    ensures within { IfErr result (LiesWithin count) }
{
    if block == superblock_block(table.block_size()) && block >= count {
        return Err(damaged(block, 1));
    }
    if block >= count {
        return Err(damaged(from, 2));
    }
    if table.is_place(block) {
        return Err(damaged(block, 3));
    }
    Ok(())
}

/// Reads a block that is not kept yet, whose number stands in block `from`, and keeps it.
pub(crate) fn fetch<D: SharedDisk>(
    alloc: Global,
    disk: &mut D,
    table: &mut KeptBlocks,
    block: u64,
    from: u64,
) -> Result<(), MountFault>
    requires work { IsWorking (D.state disk.old) table.old }
    requires new { (seen_of table.old).block_at block ≡ None }
    ensures work { OnOk result (IsWorking (D.state disk.new) table.new) }
    ensures searched { OnOk result ((im : Image) (done : List ℕ) (d n : ℕ) → IsWanted im block from → IsSearched im done d n table.old → IsSearched im done d n table.new) }
    ensures refused { (done : List ℕ) (d n : ℕ) → (im : Image) → ShowsSystem (D.state disk.old) im → IsWanted im block from → IsSearched im done d n table.old
        → IfErr result (RefusesRightly im) }
    ensures falls { OnOk result (table.new.left + 1 ≡ table.old.left) }
    ensures places { table.new.places ≡ table.old.places }
    ensures grown { OnOk result (IsGrown table.old table.new) }
    ensures risen { IfErr result (HasRisen (D.faults disk.old) (D.faults disk.new)) }
    ensures within { IfErr result (LiesWithin (D.state disk.old).count) }
    ensures reads { ReadsOnly (D.state disk.old) (D.state disk.new) (D.list disk.old) (D.list disk.new) (D.faults disk.old) (D.faults disk.new) }
{
    check_readable(table, disk.blocks(), block, from)?;
    let size = disk.block_size() as usize;
    let mut bytes = vec![in alloc; 0u8; size]?;
    read_into(disk, block, &mut bytes)?;
    table.keep(block, bytes);
    Ok(())
}

/// Reads a leaf, whose number stands in block `from`, into `into`. It isn't kept; only that it was read is known afterwards. What
/// is kept already is not read again.
pub(crate) fn read_leaf<D: SharedDisk>(
    disk: &mut D,
    table: &mut KeptBlocks,
    block: u64,
    from: u64,
    into: &mut [u8],
) -> Result<(), MountFault>
    requires work { IsWorking (D.state disk.old) table.old }
    requires size { length into.old ≡ (D.state disk.old).size }
    ensures work { OnOk result (IsWorking (D.state disk.new) table.new) }
    ensures inside { OnOk result (block < (D.state disk.old).count) }
    ensures read { OnOk result (IsTaken table.new block) }
    ensures bytes { OnOk result (IsTrue (D.state disk.old).tells → into.new ≡ (D.state disk.old).block_at block) }
    ensures searched { OnOk result ((im : Image) (done : List ℕ) (d n : ℕ) → IsWanted im block from → IsSearched im done d n table.old → IsSearched im done d n table.new) }
    ensures refused { (done : List ℕ) (d n : ℕ) → (im : Image) → ShowsSystem (D.state disk.old) im → IsWanted im block from → IsSearched im done d n table.old
        → IfErr result (RefusesRightly im) }
    ensures left { OnOk result (table.new.left ≡ table.old.left) }
    ensures grown { OnOk result (IsGrown table.old table.new) }
    ensures risen { IfErr result (HasRisen (D.faults disk.old) (D.faults disk.new)) }
    ensures within { IfErr result (LiesWithin (D.state disk.old).count) }
    ensures reads { ReadsOnly (D.state disk.old) (D.state disk.new) (D.list disk.old) (D.list disk.new) (D.faults disk.old) (D.faults disk.new) }
{
    if let Ok(bytes) = table.get(block, from) {
        into.copy_from_slice(bytes);
        return Ok(());
    }
    check_readable(table, disk.blocks(), block, from)?;
    read_into(disk, block, into)?;
    table.mark_leaf(block);
    Ok(())
}

/// Reads the block for want of which a search stopped; a refusal it answers.
pub(crate) fn go_on<D: SharedDisk>(
    alloc: Global,
    disk: &mut D,
    table: &mut KeptBlocks,
    stop: Stop,
) -> Result<(), MountFault>
    requires work { IsWorking (D.state disk.old) table.old }
    requires lacks { LacksBlock table.old stop }
    ensures work { OnOk result (IsWorking (D.state disk.new) table.new) }
    ensures searched { OnOk result ((im : Image) (done : List ℕ) (d n : ℕ) → StopsRightly im stop → IsSearched im done d n table.old → IsSearched im done d n table.new) }
    ensures refused { (done : List ℕ) (d n : ℕ) → (im : Image) → ShowsSystem (D.state disk.old) im → StopsRightly im stop → IsSearched im done d n table.old
        → IfErr result (RefusesRightly im) }
    ensures falls { OnOk result (table.new.left + 1 ≡ table.old.left) }
    ensures places { table.new.places ≡ table.old.places }
    ensures grown { OnOk result (IsGrown table.old table.new) }
    ensures risen { IfErr result (HasRisen (D.faults disk.old) (D.faults disk.new)) }
    ensures within { IfErr result (LiesWithin (D.state disk.old).count) }
    ensures reads { ReadsOnly (D.state disk.old) (D.state disk.new) (D.list disk.old) (D.list disk.new) (D.faults disk.old) (D.faults disk.new) }
{
    match stop {
        Stop::Refused(fault) => Err(fault),
        Stop::Reads { block, from } => fetch(alloc, disk, table, block, from),
    }
}
