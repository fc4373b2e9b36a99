ghost use Rattle.std.specs.Prelude.{◌≡◌, IfErr, IfOk, IsTrue};
ghost use Rattle.file_tree.specs.Tree.{Tree};
ghost use Rattle.disk_trees.specs.Answers.{GivesTree, HasCause, IfDamaged, fault_of_look};
ghost use Rattle.disk_trees.specs.Reading.{IsUnreadable};
ghost use Rattle.gfs2_layout.specs.Device.{IsBlockSize};
ghost use Rattle.image_model.specs.Image.{image_of};
ghost use Rattle.image_model.specs.Replays.{IsReplayable, StandsReplayed};
ghost use Rattle.image_replays.specs.MountedImages.{IsMounted};
ghost use Rattle.shared_disk.specs.Disk.{IsIdle, ReadsOnly};

use crate::TreeFault;
use crate::replayed::read_replayed_tree;
use file_tree::Tree;
use image_replays::{LookFault, Mounted, plan_replay, stopped_images_have_no_replay};
use shared_disk::SharedDisk;
use std::alloc::Global;

// What stops a replay, as the fault of a tree.
fn not_replayed(fault: LookFault) -> TreeFault
    ensures { result ≡ fault_of_look fault }
{
    match fault {
        LookFault::Damaged { block, rule } => TreeFault::Damaged { block, rule },
        LookFault::DiskFailed { block, rise } => TreeFault::DiskFailed { block, rise },
        LookFault::NoMemory => TreeFault::NoMemory,
    }
}

/// Reads the tree of files and directories that a mounted image on an idle disk stands for, with what its journals say in place. Nothing is written to the disk. It costs
/// what `plan_replay` costs, a read for each block of the disk, by the run itself, and memory for all of them, for an entry a block, and for the tree.
pub fn read_mounted_tree<D: SharedDisk>(
    alloc: Global,
    disk: &mut D,
    mounted: &Mounted,
) -> Result<Tree, TreeFault>
    requires idle { IsIdle (D.state disk.old) }
    requires size { IsBlockSize (D.state disk.old).size }
    // Of an image that stands for a tree, its journals replayed, exactly that one, or what lies outside of the image.
    ensures stands { IsTrue (D.state disk.old).tells → IsMounted (image_of (D.state disk.old)) mounted.now → (t : Tree) → StandsReplayed (image_of (D.state disk.old)) t → GivesTree t result }
    // Where there is a tree the journals can be replayed.
    ensures replayable { IfOk result (λ t. IsTrue (D.state disk.old).tells → (is : IsMounted (image_of (D.state disk.old)) mounted.now) → IsReplayable (image_of (D.state disk.old)) is.layout) }
    // A block that is told stops the replay, or breaks the rule once the journals are replayed, where nothing lies behind the device's end.
    ensures damaged { IfErr result (λ fault. IsTrue (D.state disk.old).tells → (is : IsMounted (image_of (D.state disk.old)) mounted.now)
        → IfDamaged fault (IsUnreadable (image_of (D.state disk.old)) is.layout)) }
    ensures reads { ReadsOnly (D.state disk.old) (D.state disk.new) (D.list disk.old) (D.list disk.new) (D.faults disk.old) (D.faults disk.new) }
    ensures cause { IfErr result (HasCause (D.state disk.old).count (D.faults disk.old) (D.faults disk.new)) }
{
    stopped_images_have_no_replay();
    let plans = match plan_replay(alloc, disk, 0, mounted) {
        Ok(plans) => plans,
        Err(fault) => return Err(not_replayed(fault)),
    };
    read_replayed_tree(alloc, disk, &plans)
}
