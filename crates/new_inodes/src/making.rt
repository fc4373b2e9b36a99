// The dinode of a new inode put in a draft.
ghost use Rattle.std.specs.Prelude.{ℕ, List, ◌≡◌, ◌≢◌, ◌-◌, ◌≤◌, [], ◌∷◌, length, take, drop, replicate, codes, Ok, IfOk, OnOk, OnErr};
ghost use Rattle.gfs2_layout.specs.Area.{slots_of};
ghost use Rattle.gfs2_layout.specs.Records.{IsRecordArea, records_in};
ghost use Rattle.gfs2_layout.specs.Structures.{dinode_length, dinode_read};
ghost use Rattle.linear_dirs.specs.Shown.{dots_in, record_for};
ghost use Rattle.new_inodes.specs.New.{new_file, new_directory, cleared_with, IsInodePut, IsNewDirectory, IsNewFile};

use drafts::Draft;
use gfs2_layout::{DINODE_LENGTH, Dinode, Inum, structures_read_back};
use glock_names::{Entry, View};
use linear_dirs::{begin, lock_of};
use no_memory::NoMemory;
use std::alloc::Global;

// What the dinode of an empty file says.
fn file_dinode(number: u64, block: u64, time: u64) -> Dinode
    ensures { result ≡ new_file number block time }
{
    Dinode {
        num: Inum {
            number,
            address: block,
        },
        mode: 0o100_644,
        uid: 0,
        gid: 0,
        nlink: 1,
        size: 0,
        blocks: 1,
        atime: time,
        mtime: time,
        ctime: time,
        major: 0,
        minor: 0,
        goal_meta: block,
        goal_data: block,
        generation: number,
        flags: 1,
        payload_format: 0,
        height: 0,
        depth: 0,
        entries: 0,
        eattr: 0,
        atime_nsec: 0,
        mtime_nsec: 0,
        ctime_nsec: 0,
    }
}

// What that of a directory with `.` and `..` alone says, which fills the rest of its block with records.
fn directory_dinode(size: u32, number: u64, block: u64, time: u64) -> Dinode
    requires { dinode_length ≤ size }
    ensures { result ≡ new_directory size number block time }
{
    Dinode {
        mode: 0o040_755,
        nlink: 2,
        size: u64::from(size) - DINODE_LENGTH as u64,
        payload_format: 1200,
        entries: 2,
        ..file_dinode(number, block, time)
    }
}

// A block with this dinode, and zeros else.
fn cleared_block(alloc: Global, size: u32, dinode: &Dinode) -> Result<Vec<u8>, NoMemory>
    requires { dinode_length ≤ size }
    ensures bytes { IfOk result (λ block. block.items ≡ cleared_with size dinode.now) }
    ensures read { IfOk result (λ block. dinode_read block.items ≡ Ok dinode.now) }
    ensures whole { IfOk result (λ block. length block.items ≡ size) }
{
    let mut block = vec![in alloc; 0; size as usize]?;
    dinode.write(&mut block);
    Ok(block)
}

// Makes what is behind the dinode of a block the records `.` and `..`, which lead to these entries.
fn put_dots(block: &mut [u8], own: Entry, parent: Entry)
    requires least { 512 ≤ length block.old }
    requires most { length block.old ≤ 4096 }
    requires number { own.number ≢ 0 }
    requires address { own.addr ≢ 0 }
    requires parent_number { parent.number ≢ 0 }
    requires parent_address { parent.addr ≢ 0 }
    ensures front { take dinode_length block.new ≡ take dinode_length block.old }
    ensures slots { slots_of (drop dinode_length block.new) ≡ dots_in (length block.old - dinode_length) own parent }
    ensures records { records_in (drop dinode_length block.new) ≡ record_for (codes ".") own ∷ record_for (codes "..") parent ∷ [] }
    ensures area { IsRecordArea (drop dinode_length block.new) }
{
    begin(&mut block[DINODE_LENGTH..], own, parent);
}

/// Puts the dinode of an empty file with this formal number and these times, in seconds, into a block, whole. That the block is
/// free, and that the number is new, isn't looked at. It costs two copies of the block. Where memory ends the draft is as before.
pub fn put_file<V: View>(
    alloc: Global,
    draft: &mut Draft<'_, V>,
    block: u64,
    number: u64,
    time: u64,
) -> Result<(), NoMemory>
    requires number { number ≢ 0 }
    ensures put { OnOk result ((bytes : List ℕ) × IsInodePut V.seen draft.old draft.new block (IsNewFile number block time) bytes) }
    ensures err { OnErr result (draft.new ≡ draft.old) }
{
    let size = draft.block_size();
    let bytes = cleared_block(alloc, size, &file_dinode(number, block, time))?;
    draft.put(lock_of(block), block, false, &bytes)
}

/// Puts a directory with this formal number and these times, in seconds, which has `.` and `..` alone, into a block, whole. That
/// the block is free, that the number is new, and what the parent is, isn't looked at. It costs two copies of the block. Where
/// memory ends the draft is as before.
pub fn put_directory<V: View>(
    alloc: Global,
    draft: &mut Draft<'_, V>,
    block: u64,
    number: u64,
    parent: Entry,
    time: u64,
) -> Result<(), NoMemory>
    requires number { number ≢ 0 }
    requires block { block ≢ 0 }
    requires parent_number { parent.number ≢ 0 }
    requires parent_address { parent.addr ≢ 0 }
    ensures put { OnOk result ((bytes : List ℕ) × IsInodePut V.seen draft.old draft.new block (IsNewDirectory number block parent time) bytes) }
    ensures err { OnErr result (draft.new ≡ draft.old) }
{
    let size = draft.block_size();
    let dinode = directory_dinode(size, number, block, time);
    let mut bytes = cleared_block(alloc, size, &dinode)?;
    let own = Entry {
        number,
        addr: block,
        kind: 4,
    };
    structures_read_back();
    put_dots(&mut bytes, own, parent);
    draft.put(lock_of(block), block, false, &bytes)
}
