// A block that a call asks for, read into the view.
ghost use Rattle.std.specs.Prelude.{ℕ, List, ◌≡◌, ◌<◌, ◌≤◌, false, IsTrue, OnOk, OnErr, IfErr, length};
ghost use Rattle.gfs2_layout.specs.Device.{IsBlockSize};
ghost use Rattle.fault_counts.specs.Causes.{WentUp};
ghost use Rattle.shared_disk.specs.Disk.{ReadsOnly, read_gives};
ghost use Rattle.lone_answers.specs.Faults.{IfDamaged, IfFailed, IfNotBuilt, source_of as source_in};
ghost use Rattle.lone_answers.specs.Reading.{keeping};

use crate::Unanswered;
use file_tree::Content;
use gfs2_layout::superblock_block;
use glock_names::{Missing, View};
use lone_view::LoneView;
use shared_disk::{SharedDisk, read_block};
use std::alloc::Global;

// The block that is damaged where a number in it leads out of the device: the one in which the number stands; the root's stands in the
// superblock.
fn source_of(missing: &Missing, block_size: u32) -> u64
    requires size { IsBlockSize block_size }
    ensures { result ≡ source_in block_size missing.now }
{
    if missing.from == missing.block {
        superblock_block(block_size)
    } else {
        missing.from
    }
}

/// Reads a block that the view hasn't, under node 1. It costs a read, and memory for the block.
pub(crate) fn fetch<D: SharedDisk>(
    alloc: Global,
    disk: &mut D,
    view: &mut LoneView,
    missing: &Missing,
) -> Result<(), Unanswered>
    requires size { view.old.size ≡ (D.state disk.old).size }
    requires unfenced { (D.state disk.old).is_fenced 1 ≡ false }
    ensures kept { OnOk result ((bytes : List ℕ) × (length bytes ≡ view.old.size) × (view.new ≡ keeping view.old missing.now.block bytes)
        × (IsTrue (D.state disk.old).tells → bytes ≡ read_gives (D.state disk.old) 1 missing.now.block)) }
    ensures inside { OnOk result (missing.now.block < (D.state disk.old).count) }
    ensures same { OnErr result (view.new ≡ view.old) }
    ensures outside { IfErr result (λ why. IfDamaged why (λ b rule. ((D.state disk.old).count ≤ missing.now.block) × (b ≡ source_in view.old.size missing.now) × (rule ≡ 2))) }
    ensures failed { IfErr result (λ why. IfFailed why (λ block rise. (block ≡ missing.now.block) × (missing.now.block < (D.state disk.old).count))) }
    ensures cause { IfErr result (λ why. IfFailed why (λ block rise. WentUp (D.faults disk.old 1) (D.faults disk.new 1) rise.before rise.after)) }
    ensures built { IfErr result (λ why. IfNotBuilt why ⊥) }
    ensures reads { ReadsOnly (D.state disk.old) (D.state disk.new) (D.list disk.old) (D.list disk.new) (D.faults disk.old) (D.faults disk.new) }
{
    let size = view.block_size();
    if missing.block >= disk.blocks() {
        let block = source_of(missing, size);
        return Err(Unanswered::Damaged { block, rule: 2 });
    }
    let mut bytes = vec![in alloc; 0u8; size as usize]?;
    match read_block(disk, 1, missing.block, &mut bytes) {
        Ok(()) => {}
        Err(rise) => {
            return Err(Unanswered::DiskFailed {
                block: missing.block,
                rise,
            });
        }
    }
    view.keep(missing.block, Content::new(bytes))?;
    Ok(())
}
