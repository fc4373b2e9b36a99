//! Images as a file system of the cluster's machine: what contents stand for, and what the answers of file calls say of them. The functions do nothing: their
//! contracts are the laws.
#![tactic(auto)]

ghost use Rattle.image_machine.specs.Laws.{ContentsAreImages, DoneIsAnswered, EveryImageCluster, EveryImageRun, FreeBlocksDoNotMatter, ImagesStand, MissingIsNeeded, PlacesOfRingsDoNotMatter, SpacelessIsAnswered, SyncIsAnswered};

/// A law: an image that stands for a tree does so as contents, each block where its owner has it; and where contents stand for a tree,
/// the image that has them does.
pub fn images_are_contents()
    ensures there { ImagesStand }
    ensures back { ContentsAreImages }
{}

/// A law: what free blocks have is no matter, whatever it is, and what the journals' rings have is none where each journal can be read.
pub fn contents_do_not_matter()
    ensures free { FreeBlocksDoNotMatter }
    ensures rings { PlacesOfRingsDoNotMatter }
{}

/// A law: the answer of a file call that does what it should is one that the machine takes, with each written block as its bytes under
/// the lock that is told with it, and each freed one as a free block of its group.
pub fn answers_are_the_machines()
    ensures done { DoneIsAnswered }
    ensures spaceless { SpacelessIsAnswered }
    ensures sync { SyncIsAnswered }
{}

/// A law: so is the block that a file call finds missing.
pub fn missing_blocks_are_needed()
    ensures { MissingIsNeeded }
{}

/// The headline over images: of every run of nodes, journals and disk, and of these together with the locks.
pub fn every_run_over_images_is_right()
    ensures nodes { EveryImageRun }
    ensures cluster { EveryImageCluster }
{}
