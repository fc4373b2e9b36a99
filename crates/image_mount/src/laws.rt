//! What a mounted image has. The functions do nothing: their contracts are the laws.
ghost use Rattle.image_mount.specs.Mounted.{GroupsAreAsSeen, StandsAsMounted};

/// A law: the groups of a mounted image are such as every view has, and end on the device.
pub fn mounted_groups_are_as_seen()
    ensures { GroupsAreAsSeen }
{}

/// A law: an image that stands and was mounted stands by the root and the groups that mounting told.
pub fn mounted_images_stand_as_mounted()
    ensures { StandsAsMounted }
{}
