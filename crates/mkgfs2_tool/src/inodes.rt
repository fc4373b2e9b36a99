ghost use Rattle.std.specs.Prelude.{◌≡◌, ◌+◌, ◌-◌, ◌^◌, ◌<◌, ◌≤◌, false, length, replicate};
ghost use Rattle.mkgfs2_tool.specs.Files.{IsShape};
ghost use Rattle.mkgfs2_tool.specs.Making.{IsFitting};
ghost use Rattle.mkgfs2_tool.specs.Directories.{AreNamed, Fit, records};
ghost use Rattle.gfs2_layout.specs.Writing.{dinode_put};
ghost use Rattle.mkgfs2_tool.specs.Blocks.{system_file as system_file_of, dinode_block, zeros};

use crate::directory::{Entry, Name, put_records};
use crate::files::Shape;
use crate::plan::Plan;
use gfs2_layout::{DINODE_LENGTH, Dinode, Inum};

const DIRECTORY: u32 = 0o040_755;

const SYSTEM_FILE: u32 = 0o100_600;

// The flags of an inode whose content is journaled, and of a system file.
pub(crate) const JOURNALED: u32 = 0x1;

const SYSTEM: u32 = 0x200;

// The format of a directory's records, and their kinds.
const RECORDS: u32 = 1200;

pub(crate) const DIRECTORY_KIND: u16 = 4;

const FILE_KIND: u16 = 8;

/// What a new inode is, but for its number, its address and its times.
#[derive(Clone, Copy, Debug, PartialEq, Eq)]
pub(crate) struct Inode {
    pub mode: u32,
    pub nlink: u32,
    pub size: u64,
    pub blocks: u64,
    pub flags: u32,
    pub payload_format: u32,
    pub height: u16,
    pub depth: u16,
    pub entries: u32,
}

/// A file of the system: the list of groups, or a journal.
pub(crate) fn system_file(shape: Shape) -> Inode
    requires { IsShape shape }
    ensures { result ≡ system_file_of shape }
{
    Inode {
        mode: SYSTEM_FILE,
        nlink: 1,
        size: shape.bytes,
        blocks: shape.file_blocks(),
        flags: JOURNALED + SYSTEM,
        payload_format: 0,
        height: shape.height() as u16,
        depth: 0,
        entries: 0,
    }
}

impl Plan {
    ghost use Rattle.mkgfs2_tool.specs.Blocks.{directory, dinode, master_block, root_block, journals_block, area_length};
    ghost use Rattle.mkgfs2_tool.specs.Directories.{entry, journal_entry, most_entries};
    ghost use Rattle.mkgfs2_tool.specs.Order.{has_hashed_journals};

    pub(crate) fn directory(&self, entries: u32, directories: u32) -> Inode
        requires { IsFitting self.now }
        ensures { result ≡ directory self.now entries directories }
    {
        Inode {
            mode: DIRECTORY,
            nlink: directories,
            size: self.size - DINODE_LENGTH as u64,
            blocks: 1,
            flags: JOURNALED,
            payload_format: RECORDS,
            height: 0,
            depth: 0,
            entries,
        }
    }

    #[tactic(auto, unfolding(crate::specs::Blocks::dinode))]
    /// The dinode in the block at a place of the order in which blocks are taken, with its formal number.
    pub(crate) fn dinode(&self, number: u64, place: u64, inode: Inode) -> Dinode
        requires plan { IsFitting self.now }
        requires place { place < 2 ^ 40 }
        ensures { result ≡ dinode self.now number place inode }
    {
        let address = self.data_address(place);
        Dinode {
            num: Inum { number, address },
            mode: inode.mode,
            uid: 0,
            gid: 0,
            nlink: inode.nlink,
            size: inode.size,
            blocks: inode.blocks,
            atime: self.time(),
            mtime: self.time(),
            ctime: self.time(),
            major: 0,
            minor: 0,
            goal_meta: address,
            goal_data: address,
            generation: number,
            flags: inode.flags,
            payload_format: inode.payload_format,
            height: inode.height,
            depth: inode.depth,
            entries: inode.entries,
            eattr: 0,
            atime_nsec: 0,
            mtime_nsec: 0,
            ctime_nsec: 0,
        }
    }

    pub(crate) fn entry(&self, name: Name, number: u64, place: u64, kind: u16) -> Entry
        requires plan { IsFitting self.now }
        requires place { place < 2 ^ 40 }
        ensures { result ≡ entry self.now name number place kind }
    {
        Entry {
            name,
            number,
            address: self.data_address(place),
            kind,
            reach: 0,
        }
    }

    pub(crate) fn journal_entry(&self, number: u64) -> Entry
        requires plan { IsFitting self.now }
        requires number { number < 8 }
        ensures { result ≡ journal_entry self.now number }
    {
        self.entry(
            Name::Journal(number),
            5 + number,
            self.journal_place(number),
            FILE_KIND,
        )
    }

    // A dinode, and zeros behind it.
    pub(crate) fn put_dinode(&self, block: &mut [u8], dinode: Dinode)
        requires size { length block.old ≡ self.now.size }
        requires plan { IsFitting self.now }
        ensures { block.new ≡ dinode_put dinode (zeros self.now) }
    {
        self.clear(block);
        dinode.write(block);
    }

    // A directory's block.
    #[tactic(auto, using(crate::proofs::PutLaws::put_part), unfolding(crate::specs::Blocks::dinode_block))]
    fn put_directory(&self, block: &mut [u8], dinode: Dinode, entries: &[Entry])
        requires plan { IsFitting self.now }
        requires size { length block.old ≡ self.now.size }
        requires named { AreNamed entries.now }
        requires fit { Fit (area_length self.now) entries.now }
        ensures { block.new ≡ dinode_block self.now dinode (records (area_length self.now) entries.now) }
    {
        self.put_dinode(block, dinode);
        put_records(&mut block[DINODE_LENGTH..], entries);
    }

    /// The block of the master directory.
    #[tactic(auto, unfolding(crate::specs::Blocks::master_block))]
    pub(crate) fn put_master(&self, block: &mut [u8])
        requires plan { IsFitting self.now }
        requires size { length block.old ≡ self.now.size }
        ensures { block.new ≡ master_block self.now }
    {
        let entries = [
            self.entry(Name::This, 1, 0, DIRECTORY_KIND),
            self.entry(Name::Parent, 1, 0, DIRECTORY_KIND),
            self.entry(Name::Jindex, 4, self.journals_place(), DIRECTORY_KIND),
            self.entry(Name::Rindex, 3, 2, FILE_KIND),
        ];
        let dinode = self.dinode(1, 0, self.directory(4, 3));
        self.put_directory(block, dinode, &entries);
    }

    /// The block of the root.
    #[tactic(auto, unfolding(crate::specs::Blocks::root_block))]
    pub(crate) fn put_root(&self, block: &mut [u8])
        requires plan { IsFitting self.now }
        requires size { length block.old ≡ self.now.size }
        ensures { block.new ≡ root_block self.now }
    {
        let entries = [
            self.entry(Name::This, 2, 1, DIRECTORY_KIND),
            self.entry(Name::Parent, 2, 1, DIRECTORY_KIND),
        ];
        let dinode = self.dinode(2, 1, self.directory(2, 2));
        self.put_directory(block, dinode, &entries);
    }

    // The entries of the directory of the journals, if there were eight.
    pub(crate) fn most_entries(&self) -> [Entry; 10]
        requires { IsFitting self.now }
        ensures { result ≡ most_entries self.now }
    {
        [
            self.entry(Name::This, 4, self.journals_place(), DIRECTORY_KIND),
            self.entry(Name::Parent, 1, 0, DIRECTORY_KIND),
            self.journal_entry(0),
            self.journal_entry(1),
            self.journal_entry(2),
            self.journal_entry(3),
            self.journal_entry(4),
            self.journal_entry(5),
            self.journal_entry(6),
            self.journal_entry(7),
        ]
    }

    /// The block of the directory of the journals where it is a linear one.
    #[tactic(auto, using(crate::proofs::RecordLaws::journals_first), unfolding(crate::specs::Blocks::journals_block))]
    pub(crate) fn put_linear_journals(&self, block: &mut [u8])
        requires plan { IsFitting self.now }
        requires size { length block.old ≡ self.now.size }
        requires linear { has_hashed_journals self.now ≡ false }
        ensures { block.new ≡ journals_block self.now }
    {
        let entries = self.most_entries();
        let dinode = self.dinode(
            4,
            self.journals_place(),
            self.directory(2 + self.journals as u32, 2),
        );
        self.put_directory(block, dinode, &entries[..2 + self.journals as usize]);
    }
}
