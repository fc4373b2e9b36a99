//! What the definitions of replays mean. The functions do nothing: their contracts are the laws.
ghost use Rattle.image_replays.specs.Laws.{CleanMountsStay, ReplayedHasSameBlocks, StoppedAreNotReplayed};

/// A law: an image of which something stops the replay has no replayed image.
pub fn stopped_images_have_no_replay()
    ensures { StoppedAreNotReplayed }
{}

/// A law: an image that was mounted with all its journals clean is its own replayed image.
pub fn clean_mounts_stay()
    ensures { CleanMountsStay }
{}

/// A law: the replayed image has the blocks of its system files as they were mounted, so by `mount_image` (`alike`) it has the journals and
/// groups of the image as it lies.
pub fn replayed_images_have_the_same_system()
    ensures { ReplayedHasSameBlocks }
{}
