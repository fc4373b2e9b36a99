ghost use Rattle.std.specs.Prelude.{◌≡◌, ◌+◌, ◌-◌, ◌^◌, ◌<◌, ◌≤◌, true, false, length};
ghost use Rattle.std.specs.List.{range_with_len};
ghost use Rattle.gfs2_layout.specs.Bytes.{put_at};
ghost use Rattle.gfs2_layout.specs.Structures.{dinode_length};
ghost use Rattle.gfs2_layout.specs.Writing.{leaf_put};
ghost use Rattle.mkgfs2_tool.specs.Directories.{records};
ghost use Rattle.mkgfs2_tool.specs.Making.{IsFitting};

use crate::bytes::put_bytes;
use crate::directory::{Entry, Name, put_records};
use crate::inodes::{DIRECTORY_KIND, Inode, JOURNALED};
use crate::plan::Plan;
use gfs2_layout::{DINODE_LENGTH, Leaf};

// A leaf's head, before its records.
const LEAF_LENGTH: usize = 104;

// The flag of a hashed directory.
const HASHED: u32 = 0x2;

// How many first bits of a hash choose a pointer of a table, and so how many pointers it has, at eight bytes each.
const TABLE_DEPTH: u16 = 5;

const TABLE_POINTERS: u64 = 32;

impl Plan {
    ghost use Rattle.mkgfs2_tool.specs.Directories.{upper_entries, most_lower};
    ghost use Rattle.mkgfs2_tool.specs.Order.{has_hashed_journals, is_split};
    ghost use Rattle.mkgfs2_tool.specs.Hashing.{leaf_of_pointer, table_bytes, leaf_room, leaf_entries, leaf_records, leaf_head};
    ghost use Rattle.mkgfs2_tool.specs.Blocks.{hashed_directory, journals_block, leaf_block, zeros};

    fn hashed_directory(&self) -> Inode
        requires { IsFitting self.now }
        ensures { result ≡ hashed_directory self.now }
    {
        Inode {
            size: 8 * TABLE_POINTERS,
            blocks: 1 + self.journal_leaves(),
            flags: JOURNALED + HASHED,
            depth: TABLE_DEPTH,
            ..self.directory(2 + self.journals as u32, 2)
        }
    }

    // The leaf to which a pointer of the table leads.
    fn leaf_of_pointer(&self, pointer: u64) -> u64
        ensures value { result ≡ leaf_of_pointer self.now pointer }
        ensures few { result ≤ 1 }
    {
        u64::from(self.is_split() && pointer < TABLE_POINTERS / 2)
    }

    // The table behind the dinode.
    fn put_table(&self, block: &mut [u8])
        requires plan { IsFitting self.now }
        requires size { length block.old ≡ self.now.size }
        ensures { block.new ≡ put_at dinode_length (table_bytes self.now) block.old }
    {
        for n in 0..TABLE_POINTERS {
            let address = self.data_address(self.leaf_place(self.leaf_of_pointer(n)));
            put_bytes(
                block,
                DINODE_LENGTH + 8 * n as usize,
                &address.to_be_bytes(),
            );
        }
    }

    // The block of the directory of the journals where it is a hashed one.
    #[tactic(auto, unfolding(crate::specs::Blocks::journals_block))]
    fn put_hashed_journals(&self, block: &mut [u8])
        requires plan { IsFitting self.now }
        requires size { length block.old ≡ self.now.size }
        requires hashed { has_hashed_journals self.now ≡ true }
        ensures { block.new ≡ journals_block self.now }
    {
        let dinode = self.dinode(4, self.journals_place(), self.hashed_directory());
        self.put_dinode(block, dinode);
        self.put_table(block);
    }

    /// The block of the directory of the journals.
    pub(crate) fn put_journals(&self, block: &mut [u8])
        requires plan { IsFitting self.now }
        requires size { length block.old ≡ self.now.size }
        ensures { block.new ≡ journals_block self.now }
    {
        if self.has_hashed_journals() {
            self.put_hashed_journals(block);
        } else {
            self.put_linear_journals(block);
        }
    }

    // The entries of the leaf that kept the upper half of its names: those that it had, of which some are no longer in use.
    fn upper_entries(&self) -> [Entry; 8]
        requires { IsFitting self.now }
        ensures { result ≡ upper_entries self.now }
    {
        [
            Entry {
                number: 0,
                address: 0,
                ..self.entry(Name::This, 4, self.journals_place(), DIRECTORY_KIND)
            },
            self.entry(Name::Parent, 1, 0, DIRECTORY_KIND),
            self.journal_entry(0),
            Entry {
                reach: 96,
                ..self.journal_entry(1)
            },
            self.journal_entry(2),
            self.journal_entry(3),
            self.journal_entry(4),
            self.journal_entry(5),
        ]
    }

    // The entries of the leaf with the lower half of the names, if there were eight journals.
    fn most_lower(&self) -> [Entry; 5]
        requires { IsFitting self.now }
        ensures { result ≡ most_lower self.now }
    {
        [
            self.entry(Name::This, 4, self.journals_place(), DIRECTORY_KIND),
            self.journal_entry(2),
            self.journal_entry(3),
            self.journal_entry(6),
            self.journal_entry(7),
        ]
    }

    // The records of a leaf that was split: of the upper half, or of the lower.
    #[tactic(auto, using(crate::proofs::RecordLaws::upper_fits, crate::proofs::RecordLaws::lower_first))]
    fn put_half(&self, area: &mut [u8], leaf: u64)
        requires plan { IsFitting self.now }
        requires split { is_split self.now ≡ true }
        requires size { length area.old ≡ leaf_room self.now }
        ensures { area.new ≡ records (leaf_room self.now) (leaf_entries self.now leaf) }
    {
        if leaf == 0 {
            put_records(area, &self.upper_entries());
        } else {
            let entries = self.most_lower();
            put_records(area, &entries[..self.journals as usize - 3]);
        }
    }

    // The records of the only leaf.
    #[tactic(auto, using(crate::proofs::RecordLaws::leaf_first))]
    fn put_all_records(&self, area: &mut [u8], leaf: u64)
        requires plan { IsFitting self.now }
        requires whole { is_split self.now ≡ false }
        requires size { length area.old ≡ leaf_room self.now }
        ensures { area.new ≡ records (leaf_room self.now) (leaf_entries self.now leaf) }
    {
        let entries = self.most_entries();
        put_records(area, &entries[..2 + self.journals as usize]);
    }

    fn put_leaf_records(&self, area: &mut [u8], leaf: u64)
        requires plan { IsFitting self.now }
        requires size { length area.old ≡ leaf_room self.now }
        ensures { area.new ≡ records (leaf_room self.now) (leaf_entries self.now leaf) }
    {
        if self.is_split() {
            self.put_half(area, leaf);
        } else {
            self.put_all_records(area, leaf);
        }
    }

    // How many records of a leaf are in use.
    fn leaf_records(&self, leaf: u64) -> u16
        requires { IsFitting self.now }
        ensures { result ≡ leaf_records self.now leaf }
    {
        let journals = self.journals as u16;
        if !self.is_split() {
            2 + journals
        } else if leaf == 0 {
            5
        } else {
            journals - 3
        }
    }

    fn leaf_head(&self, leaf: u64) -> Leaf
        requires { IsFitting self.now }
        ensures { result ≡ leaf_head self.now leaf }
    {
        Leaf {
            depth: u16::from(self.is_split()),
            entries: self.leaf_records(leaf),
            next: 0,
        }
    }

    fn put_leaf_head(&self, block: &mut [u8], leaf: u64)
        requires plan { IsFitting self.now }
        requires size { length block.old ≡ self.now.size }
        ensures { block.new ≡ leaf_put (leaf_head self.now leaf) (zeros self.now) }
    {
        self.clear(block);
        self.leaf_head(leaf).write(block);
    }

    /// A leaf of the directory of journals.
    pub(crate) fn put_leaf(&self, block: &mut [u8], leaf: u64)
        requires plan { IsFitting self.now }
        requires size { length block.old ≡ self.now.size }
        ensures { block.new ≡ leaf_block self.now leaf }
    {
        self.put_leaf_head(block, leaf);
        self.put_leaf_records(&mut block[LEAF_LENGTH..], leaf);
    }
}
