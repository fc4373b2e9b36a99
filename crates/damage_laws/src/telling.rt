//! What is told as damage.
ghost use Rattle.damage_laws.specs.Telling.{CallsTell, CallsTellExactly, InodesAreThere, MakingsTell, MakingsTellExactly, MountedAreRead, MovesTell, MovesTellExactly, NeedsTell, PathsTell, RemovalsTell, RemovalsTellExactly, StandingAreRead, WritesTell, WritesTellExactly};

/// A law: a view that may be of an image that stands may have been read from it, and has the root and the groups that the laws below
/// ask for.
pub fn views_may_be_read_from_standing_images()
    ensures { StandingAreRead }
{}

/// A law: a view that has what mounting told of an image, which may be wrong, and of the bytes of its blocks, may have been read from it,
/// and has the groups that the laws below ask for.
pub fn views_may_be_read_from_mounted_images()
    ensures { MountedAreRead }
{}

/// A law: what is told of a view as damage on a path breaks that rule in every image that the view may have been read from, right or
/// wrong, and the inode to which the path leads is one of that image; but where a block of a hashed directory on the path is beyond the device.
pub fn paths_tell_broken_blocks()
    ensures there { InodesAreThere }
    ensures broken { PathsTell }
{}

/// A law: so does what a write tells; but for the root's block, where that is in no group: there the superblock breaks the rule, which has
/// its number.
pub fn writes_tell_broken_blocks()
    ensures broken { WritesTell }
    ensures exact { WritesTellExactly }
{}

/// A law: so does what the removal of a name tells, where the groups are on the device; but for the root's block, so.
pub fn removals_tell_broken_blocks()
    ensures broken { RemovalsTell }
    ensures exact { RemovalsTellExactly }
{}

/// A law: so does what a call tells that makes a name, where the groups are on the device; but for the root's block, so.
pub fn makings_tell_broken_blocks()
    ensures broken { MakingsTell }
    ensures exact { MakingsTellExactly }
{}

/// A law: so does what a call tells that moves a name, on either of its paths; but for the root's block, so.
pub fn moves_tell_broken_blocks()
    ensures broken { MovesTell }
    ensures exact { MovesTellExactly }
{}

/// A law: so does what each call tells, with no other exceptions.
pub fn calls_tell_broken_blocks()
    ensures broken { CallsTell }
    ensures exact { CallsTellExactly }
{}

/// A law: where a block that such a call needs lies out of the device, the block in which its number stands breaks the rule on numbers: the
/// superblock, where the block is asked for by itself, which is then the root.
pub fn needs_out_of_the_device_tell_broken_blocks()
    ensures { NeedsTell }
{}
