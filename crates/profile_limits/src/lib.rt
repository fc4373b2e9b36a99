//! The numbers of the profile that several crates share: how large devices, journals and groups may be. Each has one home: its
//! constant here for the code, and its definition in specs/Limits.antt for the contracts.
#![tactic(auto)]

/// How many blocks a device has at most.
pub const MOST_BLOCKS: u64 = 131_072;

/// How many journals an image has at most, and so how many nodes there are.
pub const MOST_JOURNALS: u32 = 8;

/// How many blocks a journal has at least.
pub const LEAST_JOURNAL_BLOCKS: u32 = 512;

/// How many blocks a journal has at most.
pub const MOST_JOURNAL_BLOCKS: u32 = 65_536;

/// How many resource groups an image has at most.
pub const MOST_GROUPS: u32 = 64;

/// How many blocks the headers and bitmaps of all groups have at most.
pub const MOST_GROUP_BLOCKS: u32 = 128;

/// How many frames, of a block each, a node's pool has at least.
pub const LEAST_FRAMES: u32 = 512;

/// How many frames a node's pool has at most.
pub const MOST_FRAMES: u32 = 4096;
