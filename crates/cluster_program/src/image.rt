ghost use Rattle.std.specs.Prelude.{◌≡◌, ◌≤◌, ℕ, List, Option};
ghost use Rattle.shared_disk.specs.Disk.{IsIdle};
ghost use Rattle.gfs2_layout.specs.Device.{IsBlockSize};
ghost use Rattle.command_words.specs.Limits.{IsMakeWithin};
ghost use Rattle.cluster_program.specs.Course.{Makes, options_of as options_asked};
ghost use Rattle.cluster_program.specs.World.{inputs};
ghost use Rattle.run_reports.specs.Report.{IsSinkFault};
ghost use Rattle.profile_limits.specs.Limits.{most_blocks};

use command_words::MakeWords;
use image_mount::Field;
use mkgfs2_tool::{MakeFault, MakeOptions, make};
use profile_limits::MOST_BLOCKS;
use run_reports::Status;
use shared_disk::SharedDisk;
use std::alloc::Global;

fn options_of(words: &MakeWords) -> MakeOptions
    ensures { result ≡ options_asked words.now }
{
    MakeOptions {
        journals: words.journals,
        journal_blocks: words.journal_blocks,
        groups: words.groups,
        uuid: words.uuid,
        time: words.time,
    }
}

// Makes an image on a device that is not too large.
fn make_on<D: SharedDisk>(alloc: Global, disk: &mut D, words: &MakeWords) -> Status
    requires size { IsBlockSize (D.state disk.old).size }
    requires idle { IsIdle (D.state disk.old) }
    requires small { (D.state disk.old).count ≤ most_blocks }
    requires within { IsMakeWithin words.now }
    ensures makes { (left : Option (List ℕ)) (failed : ℕ) → Makes words.now
        (inputs (D.state disk.old) (D.list disk.old) (D.faults disk.old) left failed)
        (inputs (D.state disk.new) (D.list disk.new) (D.faults disk.new) left failed) result }
    ensures own { IsSinkFault result → ⊥ }
    ensures later { (j : ℕ) → D.faults disk.old j ≤ D.faults disk.new j }
{
    match make(alloc, disk, &options_of(words)) {
        Ok(()) => Status::Done,
        Err(MakeFault::TooSmall { needed, found }) => Status::TooSmall { needed, found },
        Err(
            MakeFault::DeviceFault {
                block,
                before,
                after,
            },
        ) => Status::DeviceFault {
            node: 0,
            block,
            before,
            after,
        },
        Err(MakeFault::BadOption(_)) => unreachable!(),
        Err(MakeFault::NoMemory) => Status::NoMemory,
    }
}

/// Makes the image that the words ask for.
pub(crate) fn make_image<D: SharedDisk>(alloc: Global, disk: &mut D, words: &MakeWords) -> Status
    requires size { IsBlockSize (D.state disk.old).size }
    requires idle { IsIdle (D.state disk.old) }
    requires within { IsMakeWithin words.now }
    ensures makes { (left : Option (List ℕ)) (failed : ℕ) → Makes words.now
        (inputs (D.state disk.old) (D.list disk.old) (D.faults disk.old) left failed)
        (inputs (D.state disk.new) (D.list disk.new) (D.faults disk.new) left failed) result }
    ensures own { IsSinkFault result → ⊥ }
    ensures later { (j : ℕ) → D.faults disk.old j ≤ D.faults disk.new j }
{
    let count = disk.blocks();
    if count > MOST_BLOCKS {
        return Status::NotProfile {
            field: Field::Device,
            value: count,
        };
    }
    make_on(alloc, disk, words)
}
