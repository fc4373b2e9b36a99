// The clean header that ends a journal.
ghost use Rattle.std.specs.Prelude.{◌≡◌, ◌<◌, ◌≤◌, length, Ok};
ghost use Rattle.log_layout.specs.Headers.{as_read, log_put, log_read};
ghost use Rattle.log_layout.specs.Transactions.{after};
ghost use Rattle.node_journal.specs.Encoding.{zeros};
ghost use Rattle.log_values.specs.Flushing.{block_at, first_place};
ghost use Rattle.log_memory.specs.Ending.{last_header};

use crate::log::Log;
use crate::places::{block_of, place};
use log_layout::{Later, LogHeader};

/// The write of a journal's last header: the block where it goes, and its sequence.
#[derive(Clone, Copy, Debug, PartialEq, Eq)]
pub struct LastWrite {
    pub block: u64,
    pub sequence: u64,
}

// The place behind the head, which is always free.
fn last_place(log: &Log) -> u32
    ensures value { result ≡ first_place log.now }
    ensures inside { result < log.now.journal.length }
    ensures long { 120 ≤ log.now.journal.size }
{
    let _head = log.head;
    place(log, 0)
}

// The header for this place, where this block stands.
fn header(log: &Log, first: u32, block: u64) -> LogHeader
    requires first { first ≡ first_place log.now }
    requires block { block ≡ block_at log.now.journal (first_place log.now) }
    ensures { result ≡ last_header log.now }
{
    LogHeader {
        jid: log.journal.jid,
        sequence: log.sequence.wrapping_add(1),
        clean: true,
        tail: first,
        blkno: first,
        later: Some(Later {
            nsec: 0,
            sec: log.journal.time,
            addr: block,
            jinode: log.journal.jinode,
            statfs_addr: 0,
            quota_addr: 0,
            local_total: 0,
            local_free: 0,
            local_dinodes: 0,
        }),
    }
}

/// Fills a block of the journal, `into`, with the clean header that ends it, and tells where it goes: to the place behind the journal's head. It takes no memory.
pub fn put_last_header(log: &Log, into: &mut [u8]) -> LastWrite
    requires { length into.old ≡ log.now.journal.size }
    ensures at { result ≡ record { block = block_at log.now.journal (first_place log.now); sequence = after log.now.sequence } }
    ensures bytes { into.new ≡ log_put (last_header log.now) (zeros log.now.journal.size) }
    ensures read { log_read into.new ≡ Ok (as_read (last_header log.now) into.new) }
{
    let first = last_place(log);
    let block = block_of(log, first);
    let header = header(log, first, block);
    into.fill(0);
    header.write(into);
    LastWrite {
        block,
        sequence: header.sequence,
    }
}
