// The clean header that ends a replay.
ghost use Rattle.std.specs.Prelude.{◌≡◌, IfOk, Ok, length};
ghost use Rattle.gfs2_layout.specs.Device.{IsBlockSize};
ghost use Rattle.log_layout.specs.Headers.{as_read, log_read};
ghost use Rattle.journal_replays.specs.Headers.{clean_block as clean_block_of, filled as filled_of};

use drafts::Written;
use file_tree::Content;
use log_layout::{Later, LogHeader};
use no_memory::NoMemory;
use std::alloc::Global;

// The header with the journal's number and what version 2 has besides.
fn filled(header: &LogHeader, block: u64, slot: u8, dinode: u64, time: u64) -> LogHeader
    ensures { result ≡ filled_of block slot dinode time header.now }
{
    LogHeader {
        jid: slot.saturating_sub(1) as u32,
        sequence: header.sequence,
        clean: header.clean,
        tail: header.tail,
        blkno: header.blkno,
        later: Some(Later {
            nsec: 0,
            sec: time,
            addr: block,
            jinode: dinode,
            statfs_addr: 0,
            quota_addr: 0,
            local_total: 0,
            local_free: 0,
            local_dinodes: 0,
        }),
    }
}

/// The header as it is written into this block of so many bytes, of the journal of this slot, whose dinode is in that one, at this
/// time. It costs a block of memory.
pub(crate) fn clean_block(
    alloc: Global,
    size: u32,
    header: &LogHeader,
    block: u64,
    slot: u8,
    dinode: u64,
    time: u64,
) -> Result<Written, NoMemory>
    requires { IsBlockSize size }
    ensures value { IfOk result (λ w. w ≡ clean_block_of size block slot dinode time header.now) }
    ensures long { IfOk result (λ w. length w.bytes ≡ size) }
    ensures read { IfOk result (λ w. log_read w.bytes ≡ Ok (as_read (filled_of block slot dinode time header.now) w.bytes)) }
{
    let mut bytes = vec![in alloc; 0u8; size as usize]?;
    filled(header, block, slot, dinode, time).write(&mut bytes);
    Ok(Written {
        block,
        plain: false,
        bytes: Content::new(bytes),
    })
}
