ghost use Rattle.std.specs.Prelude.{IfErr, IsTrue};
ghost use Rattle.std.specs.List.{AllByRecursion};
ghost use Rattle.file_tree.specs.Tree.{Tree};
ghost use Rattle.disk_trees.specs.Answers.{GivesTree, HasCause, IfDamaged};
ghost use Rattle.disk_trees.specs.Reading.{ending};
ghost use Rattle.gfs2_layout.specs.Device.{IsBlockSize};
ghost use Rattle.image_model.specs.Image.{image_of};
ghost use Rattle.image_model.specs.Rules.{IsBrokenBlock};
ghost use Rattle.image_model.specs.Stands.{Stands};
ghost use Rattle.image_replays.specs.Replays.{IsWritable, put_over};
ghost use Rattle.shared_disk.specs.Disk.{IsIdle, ReadsOnly};

use crate::TreeFault;
use crate::blocks::read_blocks;
use file_tree::{Content, Tree};
use image_reader::{Image, read_tree};
use image_replays::Plan;
use replayed_blocks::put_plans;
use shared_disk::SharedDisk;
use std::alloc::Global;

/// Reads the tree of files and directories that the image on an idle disk stands for once what these plans write is in its place. Nothing is written to the
/// disk. It costs a read for each block of the disk, by the run itself, and memory for all of them, for an entry a block, and for the tree.
pub fn read_replayed_tree<D: SharedDisk>(
    alloc: Global,
    disk: &mut D,
    plans: &[Plan],
) -> Result<Tree, TreeFault>
    requires idle { IsIdle (D.state disk.old) }
    requires size { IsBlockSize (D.state disk.old).size }
    requires writable { AllByRecursion (IsWritable (D.state disk.old)) plans.now }
    // Of an image that stands for a tree then exactly that one, or what lies outside of the image.
    ensures stands { IsTrue (D.state disk.old).tells → (t : Tree) → Stands (put_over (image_of (D.state disk.old)) plans.now) t → GivesTree t result }
    // A block that is told breaks the rule in that image, where nothing lies behind the device's end.
    ensures damaged { IfErr result (λ fault. IsTrue (D.state disk.old).tells → IfDamaged fault (λ block rule. IsBrokenBlock (ending (put_over (image_of (D.state disk.old)) plans.now)) rule block)) }
    ensures reads { ReadsOnly (D.state disk.old) (D.state disk.new) (D.list disk.old) (D.list disk.new) (D.faults disk.old) (D.faults disk.new) }
    ensures cause { IfErr result (HasCause (D.state disk.old).count (D.faults disk.old) (D.faults disk.new)) }
{
    let block_size = disk.block_size();
    let mut bytes = read_blocks(alloc, disk)?;
    put_plans(&mut bytes, block_size as usize, plans);
    let image = Image {
        block_size,
        bytes: Content::new(bytes),
    };
    Ok(read_tree(alloc, &image)?)
}
