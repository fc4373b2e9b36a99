ghost use Rattle.std.specs.Prelude.{◌≡◌, ◌+◌, ◌-◌, ◌*◌, ◌/◌, ◌^◌, ◌<◌, ◌≤◌, length, replicate};
ghost use Rattle.gfs2_layout.specs.Bytes.{slice};
ghost use Rattle.gfs2_layout.specs.Writing.{superblock_put};
ghost use Rattle.mkgfs2_tool.specs.Blocks.{system_file as system_file_of, text_field as text_field_of, shift_of as shift_of_size};
ghost use Rattle.mkgfs2_tool.specs.Making.{IsFitting};
ghost use Rattle.profile_limits.specs.Limits.{most_blocks};
ghost use Rattle.gfs2_layout.specs.Structures.{dinode_length};

use crate::bytes::put_bytes;
use crate::files::Part;
use crate::inodes::system_file;
use crate::order::Use;
use crate::plan::Plan;
use gfs2_layout::{DINODE_LENGTH, Inum, SuperBlock};
use log_layout::{Later, LogHeader};

// A name, and zeros behind it.
fn text_field(text: &[u8]) -> [u8; 64]
    requires { length text.now ≤ 64 }
    ensures { result ≡ text_field_of text.now }
{
    let mut field = [0u8; 64];
    put_bytes(&mut field, 0, text);
    field
}

// So many bytes from a place on, as far as there are any.
#[tactic(auto, using(crate::proofs::PutLaws::piece))]
fn piece_of(bytes: &[u8], at: usize, count: usize) -> &[u8]
    requires { count ≤ 4096 }
    ensures value { result.now ≡ slice at count bytes.now }
    ensures short { length result.now ≤ count }
{
    let start = bytes.len().min(at);
    let end = bytes.len().min(start + count);
    &bytes[start..end]
}

// The exponent of one of the four block sizes.
fn shift_of(size: u64) -> u32
    ensures { result ≡ shift_of_size size }
{
    match size {
        512 => 9,
        1024 => 10,
        2048 => 11,
        _ => 12,
    }
}

impl Plan {
    ghost use Rattle.mkgfs2_tool.specs.Groups.{data_address, group_address, group_blocks, headers_of};
    ghost use Rattle.mkgfs2_tool.specs.Order.{taken, group_list, journal, journal_place};
    ghost use Rattle.mkgfs2_tool.specs.Making.{IsPartOf, IsUseOf};
    ghost use Rattle.mkgfs2_tool.specs.Blocks.{superblock, clean_header, clean_block, first_content, group_list_block, journal_block, used_block, data_block, group_block, group_at, new_block, IsGroupList, padded, zeros, dinode_block, dinode};

    fn superblock(&self) -> SuperBlock
        requires { IsFitting self.now }
        ensures { result ≡ superblock self.now }
    {
        SuperBlock {
            fs_format: 1801,
            multihost_format: 1900,
            bsize: self.size as u32,
            bsize_shift: shift_of(self.size),
            master: Inum {
                number: 1,
                address: self.data_address(0),
            },
            root: Inum {
                number: 2,
                address: self.data_address(1),
            },
            lock_protocol: text_field(b"lock_dlm"),
            lock_table: text_field(b"gfs2run:image"),
            uuid: self.uuid,
        }
    }

    /// A block of the list of groups, whose bytes are given.
    #[tactic(auto, unfolding(crate::specs::Blocks::group_list_block, crate::specs::Blocks::dinode_block))]
    fn put_group_list(&self, block: &mut [u8], part: Part, entries: &[u8])
        requires plan { IsFitting self.now }
        requires size { length block.old ≡ self.now.size }
        requires entries { IsGroupList self.now entries.now }
        requires part { IsPartOf part }
        ensures { block.new ≡ group_list_block self.now part }
    {
        let shape = self.group_list();
        match part {
            Part::Top if shape.height() == 0 => self.put_stuffed(block, entries),
            Part::Top => self.put_pointing_dinode(block, 3, 2, shape),
            Part::Pointers { level, index } => self.put_pointers(block, 2, shape, level, index),
            Part::Content(n) => self.put_piece(block, entries, n),
        }
    }

    // The list of groups in its dinode.
    fn put_stuffed(&self, block: &mut [u8], entries: &[u8])
        requires plan { IsFitting self.now }
        requires size { length block.old ≡ self.now.size }
        requires room { dinode_length + length entries.now ≤ self.now.size }
        ensures { block.new ≡ dinode_block self.now (dinode self.now 3 2 (system_file_of (group_list self.now))) entries.now }
    {
        let dinode = self.dinode(3, 2, system_file(self.group_list()));
        self.put_dinode(block, dinode);
        put_bytes(block, DINODE_LENGTH, entries);
    }

    // Block `n` of some content, and zeros behind its end.
    fn put_piece(&self, block: &mut [u8], content: &[u8], n: u64)
        requires plan { IsFitting self.now }
        requires size { length block.old ≡ self.now.size }
        requires n { n < 2 ^ 40 }
        ensures { block.new ≡ padded self.now (slice (n * self.now.size) self.now.size content.now) }
    {
        let piece = piece_of(content, (n * self.size) as usize, self.size as usize);
        self.clear(block);
        put_bytes(block, 0, piece);
    }

    // The log header with which a journal begins, of version 2.
    fn clean_header(&self, number: u64) -> LogHeader
        requires plan { IsFitting self.now }
        requires number { number < 8 }
        ensures { result ≡ clean_header self.now.time number (data_address self.now (first_content self.now number)) (data_address self.now (journal_place self.now number)) }
    {
        let journal = self.journal();
        let place = self.journal_place(number);
        let first = place + journal.level_start(journal.height());
        let later = Later {
            nsec: 0,
            sec: self.time(),
            addr: self.data_address(first),
            jinode: self.data_address(place),
            statfs_addr: 0,
            quota_addr: 0,
            local_total: 0,
            local_free: 0,
            local_dinodes: 0,
        };
        LogHeader {
            jid: number as u32,
            sequence: 1,
            clean: true,
            tail: 0,
            blkno: 0,
            later: Some(later),
        }
    }

    // The first block of a journal.
    #[tactic(auto, unfolding(crate::specs::Blocks::clean_block))]
    fn put_clean_header(&self, block: &mut [u8], number: u64)
        requires plan { IsFitting self.now }
        requires size { length block.old ≡ self.now.size }
        requires number { number < 8 }
        ensures { block.new ≡ clean_block self.now number }
    {
        self.clear(block);
        self.clean_header(number).write(block);
    }

    /// A block of a journal.
    #[tactic(auto, unfolding(crate::specs::Blocks::journal_block))]
    fn put_journal(&self, block: &mut [u8], number: u64, part: Part)
        requires plan { IsFitting self.now }
        requires size { length block.old ≡ self.now.size }
        requires number { number < 8 }
        requires part { IsPartOf part }
        ensures { block.new ≡ journal_block self.now number part }
    {
        let place = self.journal_place(number);
        let shape = self.journal();
        match part {
            Part::Top => self.put_pointing_dinode(block, 5 + number, place, shape),
            Part::Pointers { level, index } => self.put_pointers(block, place, shape, level, index),
            Part::Content(0) => self.put_clean_header(block, number),
            Part::Content(_) => self.clear(block),
        }
    }

    // A block that is taken.
    #[tactic(auto, unfolding(crate::specs::Blocks::used_block))]
    fn put_used(&self, block: &mut [u8], used: Use, entries: &[u8])
        requires plan { IsFitting self.now }
        requires size { length block.old ≡ self.now.size }
        requires entries { IsGroupList self.now entries.now }
        requires used { IsUseOf used }
        ensures { block.new ≡ used_block self.now used }
    {
        match used {
            Use::Master => self.put_master(block),
            Use::Root => self.put_root(block),
            Use::GroupList(part) => self.put_group_list(block, part, entries),
            Use::Journals => self.put_journals(block),
            Use::Leaf(leaf) => self.put_leaf(block, leaf),
            Use::Journal { number, part } => self.put_journal(block, number, part),
        }
    }

    // Data block `k`.
    #[tactic(auto, unfolding(crate::specs::Blocks::data_block))]
    fn put_data_block(&self, block: &mut [u8], k: u64, entries: &[u8])
        requires plan { IsFitting self.now }
        requires size { length block.old ≡ self.now.size }
        requires entries { IsGroupList self.now entries.now }
        ensures { block.new ≡ data_block self.now k }
    {
        if k < self.taken() {
            self.put_used(block, self.use_of(k), entries);
        } else {
            self.clear(block);
        }
    }

    // Block `n` of a group.
    #[tactic(auto, unfolding(crate::specs::Blocks::group_block))]
    fn put_group_block(&self, block: &mut [u8], group: u64, n: u64, entries: &[u8])
        requires plan { IsFitting self.now }
        requires size { length block.old ≡ self.now.size }
        requires group { group ≤ 64 }
        requires n { n ≤ most_blocks }
        requires entries { IsGroupList self.now entries.now }
        ensures { block.new ≡ group_block self.now group n }
    {
        let headers = self.headers_of(group);
        if n < headers {
            self.put_header_block(block, group, n);
        } else if n - headers < self.data_blocks(group) {
            self.put_data_block(block, self.data_before(group) + (n - headers), entries);
        } else {
            self.clear(block);
        }
    }

    fn put_superblock(&self, block: &mut [u8])
        requires plan { IsFitting self.now }
        requires size { length block.old ≡ self.now.size }
        ensures { block.new ≡ superblock_put (superblock self.now) (zeros self.now) }
    {
        self.clear(block);
        self.superblock().write(block);
    }

    // The group in which a block lies.
    #[tactic(auto, using(crate::proofs::UseLaws::shares_are_some))]
    fn group_at(&self, block: u64) -> u64
        requires { IsFitting self.now }
        ensures value { result ≡ group_at self.now block }
        ensures bound { result ≤ 64 }
    {
        let behind = block.saturating_sub(self.super_block() + 1);
        (behind / self.share()).min(self.groups - 1)
    }

    /// What is to stand in a block of the device, where the bytes of the list of groups are given.
    #[tactic(auto, unfolding(crate::specs::Blocks::new_block))]
    pub(crate) fn put_block(&self, block: &mut [u8], number: u64, entries: &[u8])
        requires plan { IsFitting self.now }
        requires size { length block.old ≡ self.now.size }
        requires number { number < most_blocks }
        requires entries { IsGroupList self.now entries.now }
        ensures { block.new ≡ new_block self.now number }
    {
        let superblock = self.super_block();
        if number < superblock {
            self.clear(block);
        } else if number == superblock {
            self.put_superblock(block);
        } else {
            let group = self.group_at(number);
            let n = number.saturating_sub(self.group_address(group));
            self.put_group_block(block, group, n, entries);
        }
    }
}
