ghost use Rattle.std.specs.Prelude.{◌≡◌, ◌+◌, ◌*◌, ◌^◌, ◌<◌, ◌≤◌, length};
ghost use Rattle.std.specs.List.{range_with_len};
ghost use Rattle.mkgfs2_tool.specs.Files.{IsShape, fan, children};
ghost use Rattle.mkgfs2_tool.specs.Making.{IsFitting};
ghost use Rattle.gfs2_layout.specs.Bytes.{put_at};
ghost use Rattle.gfs2_layout.specs.Writing.{header_put};

use crate::bytes::put_bytes;
use crate::files::Shape;
use crate::inodes::system_file;
use crate::plan::Plan;
use gfs2_layout::{DINODE_LENGTH, MetaHeader};

impl Plan {
    ghost use Rattle.mkgfs2_tool.specs.Blocks.{addresses, pointing_dinode, pointer_block, zeros};

    // The addresses of `count` blocks from block `first` on of the file that is at a place, each in eight bytes.
    fn put_addresses(&self, block: &mut [u8], at: usize, place: u64, first: u64, count: u64)
        requires plan { IsFitting self.now }
        requires place { place < 2 ^ 40 }
        requires first { first < 2 ^ 48 }
        requires room { at + 8 * count ≤ length block.old }
        requires small { length block.old ≤ 4096 }
        ensures { block.new ≡ put_at at (addresses self.now place (range_with_len first count)) block.old }
    {
        for n in 0..count {
            let address = self.data_address(place + (first + n));
            put_bytes(block, at + 8 * n as usize, &address.to_be_bytes());
        }
    }

    // The addresses of the blocks that a block of a file leads to, where this is block `index` of its level.
    fn put_children(
        &self,
        block: &mut [u8],
        at: usize,
        place: u64,
        shape: Shape,
        level: u64,
        index: u64,
    )
        requires plan { IsFitting self.now }
        requires shape { IsShape shape }
        requires place { place < 2 ^ 40 }
        requires level { level ≤ 3 }
        requires index { index < 2 ^ 38 }
        requires room { at + 8 * fan shape level ≤ length block.old }
        requires small { length block.old ≤ 4096 }
        ensures { block.new ≡ put_at at (addresses self.now place (children shape level index)) block.old }
    {
        let fan = shape.fan(level);
        let before = index * fan;
        let first = shape.level_start(1 + level) + before;
        let left = shape.level_blocks(1 + level).saturating_sub(before);
        self.put_addresses(block, at, place, first, fan.min(left));
    }

    /// The block of a file's dinode whose pointers lead to its content.
    #[tactic(auto, unfolding(crate::specs::Blocks::pointing_dinode, crate::specs::Blocks::dinode_block))]
    pub(crate) fn put_pointing_dinode(
        &self,
        block: &mut [u8],
        number: u64,
        place: u64,
        shape: Shape,
    )
        requires plan { IsFitting self.now }
        requires shape { IsShape shape }
        requires same { shape.size ≡ self.now.size }
        requires place { place < 2 ^ 40 }
        requires size { length block.old ≡ self.now.size }
        ensures { block.new ≡ pointing_dinode self.now number place shape }
    {
        let dinode = self.dinode(number, place, system_file(shape));
        self.put_dinode(block, dinode);
        self.put_children(block, DINODE_LENGTH, place, shape, 0, 0);
    }

    /// A block of pointers.
    #[tactic(auto, unfolding(crate::specs::Blocks::pointer_block))]
    pub(crate) fn put_pointers(
        &self,
        block: &mut [u8],
        place: u64,
        shape: Shape,
        level: u64,
        index: u64,
    )
        requires plan { IsFitting self.now }
        requires shape { IsShape shape }
        requires same { shape.size ≡ self.now.size }
        requires place { place < 2 ^ 40 }
        requires some { 1 ≤ level }
        requires level { level ≤ 3 }
        requires index { index < 2 ^ 38 }
        requires size { length block.old ≡ self.now.size }
        ensures { block.new ≡ pointer_block self.now place shape level index }
    {
        self.put_header(block, 5, 500);
        self.put_children(block, 24, place, shape, level, index);
    }

    /// The header of a block of metadata, and zeros behind it.
    pub(crate) fn put_header(&self, block: &mut [u8], kind: u32, format: u32)
        requires plan { IsFitting self.now }
        requires size { length block.old ≡ self.now.size }
        ensures { block.new ≡ header_put (record { kind = kind; format = format; jid = 0 }) (zeros self.now) }
    {
        self.clear(block);
        let header = MetaHeader {
            kind,
            format,
            jid: 0,
        };
        header.write(block);
    }
}
