/// A field of an image in which it can be outside the profile, and what its value is.
#[derive(Clone, Copy, Debug, PartialEq, Eq)]
pub enum Field {
    /// Of the superblock: the format of the file system, which is 1801.
    FsFormat,
    /// Of the superblock: the format of its sharing, which is 1900.
    MultihostFormat,
    /// Of the superblock: how many bytes a block has, which is as on the disk.
    Bsize,
    /// Of the superblock: the power of two that this is.
    BsizeShift,
    /// A name in the master directory beside `jindex` and `rindex`, by the block to which it leads.
    Master,
    /// How many blocks the device has: at most 131,072.
    Device,
    /// How many names there are in `jindex`, which are those of one to eight journals, from `journal0` on.
    Journals,
    /// How many blocks a journal has: 512 to 65,536.
    Journal,
    /// How many groups there are: 1 to 64.
    Groups,
    /// How many blocks the headers and bitmaps of all groups have: at most 128.
    GroupBlocks,
    /// How many nodes the script has: at most as many as there are journals.
    Nodes,
    /// The sequence of a journal's head, which is below 2^63.
    Sequence,
}
