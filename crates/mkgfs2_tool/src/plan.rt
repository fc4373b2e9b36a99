ghost use Rattle.std.specs.Prelude.{◌≡◌, ◌≢◌, ◌+◌, ◌-◌, ◌*◌, ◌/◌, ◌^◌, ◌<◌, ◌≤◌, length};
ghost use Rattle.mkgfs2_tool.specs.Groups.{parts as parts_of, header_blocks as header_blocks_of};
ghost use Rattle.mkgfs2_tool.specs.Making.{IsPlan, plan_of};

use crate::options::MakeOptions;
use gfs2_layout::superblock_block;

/// What a device is to become: blocks of `size` bytes, `count` of them, with these journals and groups.
#[derive(Clone, Copy, Debug, PartialEq, Eq)]
pub struct Plan {
    pub size: u64,
    pub count: u64,
    pub journals: u64,
    pub journal_blocks: u64,
    pub groups: u64,
    pub uuid: [u8; 16],
    pub time: u64,
}

/// How many parts of this size it takes.
pub(crate) fn parts(whole: u64, size: u64) -> u64
    requires size { 1 ≤ size }
    requires room { whole + size < 2 ^ 64 }
    ensures value { result ≡ parts_of whole size }
    ensures bound { result ≤ whole }
{
    (whole + size - 1) / size
}

/// A product of a small number.
fn times(few: u64, many: u64) -> u64
    requires few { few ≤ 64 }
    requires many { many < 2 ^ 50 }
    ensures value { result ≡ few * many }
    ensures bound { result < 2 ^ 56 }
{
    few * many
}

// The blocks of header and bitmap of a group of so many blocks.
fn header_blocks(size: u64, blocks: u64) -> u64
    requires size { 512 ≤ size }
    requires small { size ≤ 4096 }
    requires room { blocks < 2 ^ 50 }
    ensures value { result ≡ header_blocks_of size blocks }
    ensures least { 1 ≤ result }
    ensures bound { result ≤ 1 + blocks }
{
    let beyond = blocks.saturating_sub(1 + 4 * (size - 128));
    1 + parts(beyond, 4 * (size - 24) + 1)
}

impl Plan {
    ghost use Rattle.mkgfs2_tool.specs.Groups.{super_block, share, last_group, group_address, group_blocks, headers_of, first_data, data_blocks, data_before, all_data, group_of_data, data_address};
    ghost use Rattle.mkgfs2_tool.specs.Blocks.{zeros};
    ghost use Rattle.mkgfs2_tool.specs.Standing.{IsStamped};

    /// What a device of so many blocks of this size is to become.
    pub(crate) fn of(size: u32, count: u64, options: &MakeOptions) -> Plan
        ensures { result ≡ plan_of size count options.now }
    {
        Plan {
            size: u64::from(size),
            count,
            journals: u64::from(options.journals),
            journal_blocks: u64::from(options.journal_blocks),
            groups: u64::from(options.groups),
            uuid: options.uuid,
            time: options.time,
        }
    }

    pub(crate) fn super_block(&self) -> u64
        requires { IsPlan self.now }
        ensures value { result ≡ super_block self.now }
        ensures bound { result ≤ 128 }
    {
        superblock_block(self.size as u32)
    }

    pub(crate) fn share(&self) -> u64
        requires { IsPlan self.now }
        ensures value { result ≡ share self.now }
        ensures bound { result ≤ self.now.count }
    {
        self.count.saturating_sub(self.super_block() + 1) / self.groups
    }

    pub(crate) fn group_address(&self, group: u64) -> u64
        requires plan { IsPlan self.now }
        requires group { group ≤ 64 }
        ensures value { result ≡ group_address self.now group }
        ensures bound { result < 2 ^ 57 }
    {
        self.super_block() + 1 + times(group, self.share())
    }

    fn group_blocks(&self, group: u64) -> u64
        requires plan { IsPlan self.now }
        requires group { group ≤ 64 }
        ensures value { result ≡ group_blocks self.now group }
        ensures bound { result ≤ self.now.count }
    {
        if group == self.groups - 1 {
            self.count.saturating_sub(self.group_address(group))
        } else {
            self.share()
        }
    }

    pub(crate) fn headers_of(&self, group: u64) -> u64
        requires plan { IsPlan self.now }
        requires group { group ≤ 64 }
        ensures value { result ≡ headers_of self.now group }
        ensures least { 1 ≤ result }
        ensures bound { result ≤ 1 + self.now.count }
    {
        header_blocks(self.size, self.group_blocks(group))
    }

    pub(crate) fn first_data(&self, group: u64) -> u64
        requires plan { IsPlan self.now }
        requires group { group ≤ 64 }
        ensures value { result ≡ first_data self.now group }
        ensures bound { result < 2 ^ 58 }
    {
        self.group_address(group) + self.headers_of(group)
    }

    pub(crate) fn data_blocks(&self, group: u64) -> u64
        requires plan { IsPlan self.now }
        requires group { group ≤ 64 }
        ensures value { result ≡ data_blocks self.now group }
        ensures bound { result ≤ self.now.count }
    {
        self.group_blocks(group)
            .saturating_sub(self.headers_of(group))
            / 4
            * 4
    }

    pub(crate) fn data_before(&self, group: u64) -> u64
        requires plan { IsPlan self.now }
        requires group { group ≤ 64 }
        ensures value { result ≡ data_before self.now group }
        ensures bound { result < 2 ^ 56 }
    {
        times(group, self.data_blocks(0))
    }

    /// How many data blocks there are in all.
    pub(crate) fn all_data(&self) -> u64
        requires { IsPlan self.now }
        ensures value { result ≡ all_data self.now }
    {
        let last = self.groups - 1;
        self.data_before(last) + self.data_blocks(last)
    }

    /// The address of data block `k`.
    #[tactic(auto, unfolding(crate::specs::Groups::data_address))]
    pub(crate) fn data_address(&self, k: u64) -> u64
        requires plan { IsPlan self.now }
        requires some { data_blocks self.now 0 ≢ 0 }
        requires room { k < 2 ^ 50 }
        ensures { result ≡ data_address self.now k }
    {
        let group = (k / self.data_blocks(0)).min(self.groups - 1);
        self.first_data(group) + k.saturating_sub(self.data_before(group))
    }

    /// The time of the inodes. It has 64 bits, which the law of new images asks of a plan.
    pub(crate) fn time(&self) -> u64
        ensures value { result ≡ self.now.time }
        ensures stamped { IsStamped self.now }
    {
        self.time
    }

    /// Makes a block all zeros.
    pub(crate) fn clear(&self, block: &mut [u8])
        requires { length block.old ≡ self.now.size }
        ensures { block.new ≡ zeros self.now }
    {
        block.fill(0);
    }
}
