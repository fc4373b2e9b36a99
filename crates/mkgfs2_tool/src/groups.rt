ghost use Rattle.std.specs.Prelude.{◌≡◌, ◌+◌, ◌-◌, ◌*◌, ◌/◌, ◌^◌, ◌<◌, ◌≤◌, length, replicate};
ghost use Rattle.gfs2_layout.specs.Writing.{group_put, rindex_put};
ghost use Rattle.mkgfs2_tool.specs.Blocks.{is_within as is_within_of, is_dinode as is_dinode_of, is_dinode_part as is_dinode_part_of};
ghost use Rattle.mkgfs2_tool.specs.Making.{IsFitting};
ghost use Rattle.profile_limits.specs.Limits.{most_blocks};

use crate::files::Part;
use crate::order::Use;
use crate::plan::Plan;
use gfs2_layout::{GroupHeader, Rindex, pack};

const FREE: u8 = 0;

const USED: u8 = 1;

const DINODE: u8 = 3;

fn is_dinode_part(part: Part) -> bool
    ensures { result ≡ is_dinode_part_of part }
{
    matches!(part, Part::Top)
}

fn is_dinode(block: Use) -> bool
    ensures { result ≡ is_dinode_of block }
{
    match block {
        Use::Master | Use::Root | Use::Journals => true,
        Use::Leaf(_) => false,
        Use::GroupList(part) | Use::Journal { part, .. } => is_dinode_part(part),
    }
}

fn is_within(start: u64, count: u64, k: u64) -> bool
    requires { start + count < 2 ^ 64 }
    ensures { result ≡ is_within_of start count k }
{
    start <= k && k < start + count
}

impl Plan {
    ghost use Rattle.std.specs.Prelude.{count_by, ◌∷◌, []};
    ghost use Rattle.mkgfs2_tool.specs.Groups.{data_blocks, data_before};
    ghost use Rattle.mkgfs2_tool.specs.Blocks.{state, state_in, bitmap_byte, bitmap, free_blocks, dinode_blocks, group_header, first_header_block, further_header_block, header_block, group_entry, zeros};

    /// The state of data block `k`.
    #[tactic(auto, unfolding(crate::specs::Blocks::state))]
    fn state(&self, k: u64) -> u8
        requires plan { IsFitting self.now }
        ensures value { result ≡ state self.now k }
        ensures state { result < 4 }
    {
        if k >= self.taken() {
            FREE
        } else if is_dinode(self.use_of(k)) {
            DINODE
        } else {
            USED
        }
    }

    // The state of a block of a group, counted from its first data block.
    fn state_in(&self, group: u64, n: u64) -> u8
        requires plan { IsFitting self.now }
        requires group { group ≤ 64 }
        requires n { n < 2 ^ 40 }
        ensures value { result ≡ state_in self.now group n }
        ensures state { result < 4 }
    {
        if n < self.data_blocks(group) {
            self.state(self.data_before(group) + n)
        } else {
            FREE
        }
    }

    #[tactic(auto, unfolding(crate::specs::Blocks::bitmap_byte, gfs2_layout::specs::Bitmap::packed))]
    fn bitmap_byte(&self, group: u64, n: u64) -> u8
        requires plan { IsFitting self.now }
        requires group { group ≤ 64 }
        requires n { n < 2 ^ 36 }
        ensures { result ≡ bitmap_byte self.now group n }
    {
        pack([
            self.state_in(group, 4 * n),
            self.state_in(group, 4 * n + 1),
            self.state_in(group, 4 * n + 2),
            self.state_in(group, 4 * n + 3),
        ])
    }

    // The bitmap of a group from a byte on, to the end of these bytes.
    fn put_bitmap(&self, bytes: &mut [u8], group: u64, start: u64)
        requires plan { IsFitting self.now }
        requires group { group ≤ 64 }
        requires start { start < 2 ^ 32 }
        requires small { length bytes.old ≤ 4096 }
        ensures { bytes.new ≡ bitmap self.now group start (length bytes.old) }
    {
        for n in 0..bytes.len() {
            bytes[n] = self.bitmap_byte(group, start + n as u64);
        }
    }

    fn free_blocks(&self, group: u64) -> u64
        requires plan { IsFitting self.now }
        requires group { group ≤ 64 }
        ensures value { result ≡ free_blocks self.now group }
        ensures bound { result ≤ most_blocks }
    {
        self.data_blocks(group)
            .saturating_sub(self.taken().saturating_sub(self.data_before(group)))
    }

    // Whether a dinode at this place of the order is in a group.
    fn is_in(&self, group: u64, place: u64) -> u32
        requires plan { IsFitting self.now }
        requires group { group ≤ 64 }
        ensures value { result ≡ count_by (is_within_of (data_before self.now group) (data_blocks self.now group)) (place ∷ []) }
        ensures bound { result ≤ 1 }
    {
        u32::from(is_within(self.data_before(group), self.data_blocks(group), place))
    }

    // How many dinodes a group has.
    fn dinode_blocks(&self, group: u64) -> u32
        requires plan { IsFitting self.now }
        requires group { group ≤ 64 }
        ensures value { result ≡ dinode_blocks self.now group }
    {
        let mut count = self.is_in(group, 0)
            + self.is_in(group, 1)
            + self.is_in(group, 2)
            + self.is_in(group, self.journals_place());
        for number in 0..self.journals {
            count += self.is_in(group, self.journal_place(number));
        }
        count
    }

    fn group_header(&self, group: u64) -> GroupHeader
        requires plan { IsFitting self.now }
        requires group { group ≤ 64 }
        ensures { result ≡ group_header self.now group }
    {
        let data_blocks = self.data_blocks(group) as u32;
        GroupHeader {
            flags: 0,
            free: self.free_blocks(group) as u32,
            dinodes: self.dinode_blocks(group),
            skip: 0,
            igeneration: self.dinodes(),
            data0: self.first_data(group),
            data_blocks,
            bitbytes: data_blocks / 4,
        }
    }

    fn put_group_header(&self, block: &mut [u8], group: u64)
        requires plan { IsFitting self.now }
        requires size { length block.old ≡ self.now.size }
        requires group { group ≤ 64 }
        ensures { block.new ≡ group_put (group_header self.now group) (zeros self.now) }
    {
        self.clear(block);
        self.group_header(group).write(block);
    }

    fn put_first_header_block(&self, block: &mut [u8], group: u64)
        requires plan { IsFitting self.now }
        requires size { length block.old ≡ self.now.size }
        requires group { group ≤ 64 }
        ensures { block.new ≡ first_header_block self.now group }
    {
        self.put_group_header(block, group);
        self.put_bitmap(&mut block[128..], group, 0);
    }

    fn put_further_header_block(&self, block: &mut [u8], group: u64, n: u64)
        requires plan { IsFitting self.now }
        requires size { length block.old ≡ self.now.size }
        requires group { group ≤ 64 }
        requires some { 1 ≤ n }
        requires n { n ≤ most_blocks }
        ensures { block.new ≡ further_header_block self.now group n }
    {
        self.put_header(block, 3, 300);
        let start = self.size - 128 + (n - 1) * (self.size - 24);
        self.put_bitmap(&mut block[24..], group, start);
    }

    /// Block `n` of a group's header.
    pub(crate) fn put_header_block(&self, block: &mut [u8], group: u64, n: u64)
        requires plan { IsFitting self.now }
        requires size { length block.old ≡ self.now.size }
        requires group { group ≤ 64 }
        requires n { n ≤ most_blocks }
        ensures { block.new ≡ header_block self.now group n }
    {
        if n == 0 {
            self.put_first_header_block(block, group);
        } else {
            self.put_further_header_block(block, group, n);
        }
    }

    fn group_entry(&self, group: u64) -> Rindex
        requires plan { IsFitting self.now }
        requires group { group ≤ 64 }
        ensures { result ≡ group_entry self.now group }
    {
        let data_blocks = self.data_blocks(group) as u32;
        Rindex {
            address: self.group_address(group),
            length: self.headers_of(group) as u32,
            data0: self.first_data(group),
            data_blocks,
            bitbytes: data_blocks / 4,
        }
    }

    /// The entry of a group in their list, 96 bytes.
    pub(crate) fn entry_bytes(&self, group: u64) -> [u8; 96]
        requires plan { IsFitting self.now }
        requires group { group ≤ 64 }
        ensures { result ≡ rindex_put (group_entry self.now group) (replicate 96 0) }
    {
        let mut bytes = [0u8; 96];
        self.group_entry(group).write(&mut bytes);
        bytes
    }
}
