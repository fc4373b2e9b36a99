use gfs2_layout::SuperBlock;
use glock_names::Group;
use log_layout::LogHeader;
use std::marker::Model;

/// A journal of a mounted image.
#[derive(Drop)]
pub struct JournalMap {
    /// The block of its dinode.
    pub dinode: u64,
    /// The block at each of its places.
    pub blocks: Vec<u64>,
    /// Its head: of the log headers that are accepted at their places the one of highest sequence.
    pub head: LogHeader,
}

impl Model for JournalMap {
    ghost use Rattle.image_mount.specs.Mounted.{Journal};

    ghost Value = { Journal };

    ghost view = { λ j. record { dinode = j.dinode; blocks = j.blocks.items; head = j.head } };
}

/// What mounting found in an image: its superblock, its groups in rising order, its journals, that of node 1 first, and the blocks
/// of its system files, in rising order.
#[derive(Drop)]
pub struct Mounted {
    pub sb: SuperBlock,
    pub groups: Vec<Group>,
    pub journals: Vec<JournalMap>,
    pub system: Vec<u64>,
}

impl Model for Mounted {
    ghost use Rattle.image_mount.specs.Mounted.{MountedValue};

    ghost Value = { MountedValue };

    ghost view = { λ m. record { superblock = m.sb; groups = m.groups.items; journals = m.journals.items; system = m.system.items } };
}
