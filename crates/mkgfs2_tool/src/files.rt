ghost use Rattle.std.specs.Prelude.{◌≡◌, ◌≢◌, ◌+◌, ◌-◌, ◌*◌, ◌^◌, ◌<◌, ◌≤◌};
ghost use Rattle.mkgfs2_tool.specs.Making.{IsPartOf};
ghost use Rattle.mkgfs2_tool.specs.Files.{IsShape, dinode_pointers as dinode_pointers_of, block_pointers as block_pointers_of};

use crate::plan::parts;
use gfs2_layout::DINODE_LENGTH;

/// A file of so many bytes, in blocks of this size.
#[derive(Clone, Copy, Debug, PartialEq, Eq)]
pub(crate) struct Shape {
    pub size: u64,
    pub bytes: u64,
}

/// What a block of a file is: its dinode, the block of pointers at this place of a level, or a block of content.
#[derive(Clone, Copy, Debug, PartialEq, Eq)]
pub(crate) enum Part {
    Top,
    Pointers { level: u64, index: u64 },
    Content(u64),
}

fn dinode_pointers(size: u64) -> u64
    requires { 512 ≤ size }
    ensures { result ≡ dinode_pointers_of size }
{
    (size - DINODE_LENGTH as u64) / 8
}

fn block_pointers(size: u64) -> u64
    requires { 512 ≤ size }
    ensures { result ≡ block_pointers_of size }
{
    (size - 24) / 8
}

impl Shape {
    ghost use Rattle.mkgfs2_tool.specs.Files.{content_blocks, height, level_blocks, level_start, file_blocks, fan, part_at, part};

    fn content_blocks(&self) -> u64
        requires { IsShape self.now }
        ensures value { result ≡ content_blocks self.now }
        ensures bound { result ≤ self.now.bytes }
    {
        parts(self.bytes, self.size)
    }

    /// The least height at which the content fits.
    pub(crate) fn height(&self) -> u64
        requires { IsShape self.now }
        ensures value { result ≡ height self.now }
        ensures bound { result ≤ 3 }
    {
        if self.bytes <= self.size - DINODE_LENGTH as u64 {
            return 0;
        }
        let blocks = self.content_blocks();
        let top = dinode_pointers(self.size);
        if blocks <= top {
            1
        } else if blocks <= top * block_pointers(self.size) {
            2
        } else {
            3
        }
    }

    // How many blocks of content lie under a block so many levels above them.
    fn span(&self, levels: u64) -> u64
        requires shape { IsShape self.now }
        requires levels { levels ≤ 3 }
        ensures value { result ≡ block_pointers_of self.now.size ^ levels }
        ensures some { 1 ≤ result }
        ensures bound { result < 2 ^ 30 }
    {
        let pointers = block_pointers(self.size);
        match levels {
            0 => 1,
            1 => pointers,
            2 => pointers * pointers,
            _ => pointers * pointers * pointers,
        }
    }

    /// How many blocks there are at a level.
    pub(crate) fn level_blocks(&self, level: u64) -> u64
        requires { IsShape self.now }
        ensures value { result ≡ level_blocks self.now level }
        ensures bound { result ≤ self.now.bytes }
    {
        parts(
            self.content_blocks(),
            self.span(self.height().saturating_sub(level)),
        )
    }

    /// The number of the first block at a level, up to level 4.
    pub(crate) fn level_start(&self, level: u64) -> u64
        requires shape { IsShape self.now }
        requires level { level ≤ 4 }
        ensures value { result ≡ level_start self.now level }
        ensures bound { result ≤ 1 + 3 * self.now.bytes }
    {
        match level {
            0 => 0,
            1 => 1,
            2 => 1 + self.level_blocks(1),
            3 => 1 + self.level_blocks(1) + self.level_blocks(2),
            _ => 1 + self.level_blocks(1) + self.level_blocks(2) + self.level_blocks(3),
        }
    }

    /// How many blocks the file has in all.
    pub(crate) fn file_blocks(&self) -> u64
        requires { IsShape self.now }
        ensures value { result ≡ file_blocks self.now }
        ensures some { 1 ≤ result }
        ensures bound { result ≤ 1 + 3 * self.now.bytes }
    {
        self.level_start(1 + self.height())
    }

    /// How many pointers a block at a level has.
    pub(crate) fn fan(&self, level: u64) -> u64
        requires { IsShape self.now }
        ensures { result ≡ fan self.now level }
    {
        if level == 0 {
            dinode_pointers(self.size)
        } else {
            block_pointers(self.size)
        }
    }

    fn part_at(&self, level: u64, n: u64) -> Part
        requires shape { IsShape self.now }
        requires some { 1 ≤ level }
        requires level { level ≤ 3 }
        requires n { n < 2 ^ 38 }
        ensures value { result ≡ part_at self.now level n }
        ensures part { IsPartOf result }
    {
        let index = n.saturating_sub(self.level_start(level));
        if level == self.height() {
            Part::Content(index)
        } else {
            Part::Pointers { level, index }
        }
    }

    /// What block `n` of the file is.
    pub(crate) fn part(&self, n: u64) -> Part
        requires shape { IsShape self.now }
        requires n { n < 2 ^ 38 }
        ensures value { result ≡ part self.now n }
        ensures part { IsPartOf result }
    {
        if n == 0 {
            Part::Top
        } else if self.level_start(2) > n {
            self.part_at(1, n)
        } else if self.level_start(3) > n {
            self.part_at(2, n)
        } else {
            self.part_at(3, n)
        }
    }
}
