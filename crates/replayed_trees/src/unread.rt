ghost use Rattle.std.specs.Prelude.{◌≡◌};
ghost use Rattle.replayed_trees.specs.Answers.{of_look as of_look_fault, of_read as of_read_fault, of_tree as of_tree_fault, IsSureLook, IsSureTree};

use disk_trees::TreeFault;
use image_reader::ImageFault;
use replay_looks::LookFault;

/// Why the tree of an image was not read.
#[derive(Clone, Copy, Debug, PartialEq, Eq)]
pub enum Unread {
    /// The image stands for no tree. Where the frame is that of an image that stands, the block stops the replay, or breaks the rule with the journals' blocks in place. Where it is that of none, this is so of some journals.
    Damaged { block: u64, rule: u16 },
    /// The image stands for no tree: its system files, whatever stands at the places of its journals, are those of no image that stands, so its journals weren't replayed. As it lies, it breaks the rule at the block, which may be one that a replay would mend.
    DamagedAsItLies { block: u64, rule: u16 },
    /// The image stands for no tree: its system files, whatever stands at the places of its journals, are those of no image that stands. No rule is told.
    Broken,
    /// There was no memory.
    NoMemory,
}

// What stops a replay, on a disk that doesn't fail.
pub(crate) fn of_look(fault: LookFault) -> Unread
    requires { IsSureLook fault }
    ensures { result ≡ of_look_fault fault }
{
    match fault {
        LookFault::Damaged { block, rule } => Unread::Damaged { block, rule },
        LookFault::DiskFailed { block: _, rise: _ } => unreachable!(),
        LookFault::NoMemory => Unread::NoMemory,
    }
}

// Why the tree was not read once the journals were replayed, on a disk that doesn't fail.
pub(crate) fn of_tree(fault: TreeFault) -> Unread
    requires { IsSureTree fault }
    ensures { result ≡ of_tree_fault fault }
{
    match fault {
        TreeFault::Damaged { block, rule } => Unread::Damaged { block, rule },
        TreeFault::DiskFailed { block: _, rise: _ } => unreachable!(),
        TreeFault::NoMemory => Unread::NoMemory,
    }
}

// Why it was not read of the image as it lies.
pub(crate) fn of_read(fault: ImageFault) -> Unread
    ensures { result ≡ of_read_fault fault }
{
    match fault {
        ImageFault::Damaged { block, rule } => Unread::DamagedAsItLies { block, rule },
        ImageFault::NoMemory => Unread::NoMemory,
    }
}
