ghost use Rattle.std.specs.Prelude.{◌≡◌};
ghost use Rattle.mkgfs2_tool.specs.Making.{bad_option as bad_option_of};

use profile_limits::{LEAST_JOURNAL_BLOCKS, MOST_GROUPS, MOST_JOURNAL_BLOCKS, MOST_JOURNALS};

/// What an image is to have: so many journals (1 to 8) of so many blocks (512 to 65,536), so many resource groups (1 to
/// 64), an identifier, and the time of its inodes in seconds.
#[derive(Clone, Copy, Debug, PartialEq, Eq)]
pub struct MakeOptions {
    pub journals: u32,
    pub journal_blocks: u32,
    pub groups: u32,
    pub uuid: [u8; 16],
    pub time: u64,
}

/// A number of the options that has limits.
#[derive(Clone, Copy, Debug, PartialEq, Eq)]
pub enum Opt {
    Journals,
    JournalBlocks,
    Groups,
}

/// Why an image was not made.
#[derive(Clone, Copy, Debug, PartialEq, Eq)]
pub enum MakeFault {
    /// It needs so many blocks, and the device has only so many. Nothing was written.
    TooSmall {
        needed: u64,
        found: u64,
    },
    /// The disk failed at this block, or at a barrier (`None`), and its count of faults for node 0 rose so. A part of the
    /// image may be written.
    DeviceFault {
        block: Option<u64>,
        before: u64,
        after: u64,
    },
    /// This number is outside its limits, the first one that is. Nothing was written.
    BadOption(Opt),
    /// There was no memory. Nothing was written.
    NoMemory,
}

/// The first number that is outside its limits.
pub(crate) fn bad_option(options: &MakeOptions) -> Option<Opt>
    ensures { result ≡ bad_option_of options.now }
{
    if !(1..=MOST_JOURNALS).contains(&options.journals) {
        return Some(Opt::Journals);
    }
    if !(LEAST_JOURNAL_BLOCKS..=MOST_JOURNAL_BLOCKS).contains(&options.journal_blocks) {
        return Some(Opt::JournalBlocks);
    }
    if !(1..=MOST_GROUPS).contains(&options.groups) {
        return Some(Opt::Groups);
    }
    None
}
