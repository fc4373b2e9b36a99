// A transaction as it is written.
ghost use Rattle.profile_limits.specs.Limits.{most_blocks};
ghost use Rattle.std.specs.Prelude.{◌≡◌, ◌<◌, ◌≤◌, filter, if◌then◌else◌, length, map, not, slice_get, IfOk};
ghost use Rattle.gfs2_layout.specs.Device.{IsBlockSize};
ghost use Rattle.journal_scan.specs.Said.{logged, says};
ghost use Rattle.log_layout.specs.Chunks.{Logged};
ghost use Rattle.log_layout.specs.Journal.{Placed};
ghost use Rattle.log_layout.specs.Headers.{as_read, log_put, log_read};
ghost use Rattle.node_journal.specs.Encoding.{chunks, chunks_with, content_of, encoded, header_of, metadata_of, zeros};
ghost use Rattle.node_journal.specs.Places.{placed_from};
ghost use Rattle.node_journal.specs.Written.{AreWhole, IsHeaderRead, IsLoggableAll, IsPlaceFor};

use crate::around::place_after;
use crate::blocks::put_block;
use crate::entries::Selected;
use crate::kinds::select;
use crate::numbers::empty_block;
use crate::place::Place;
use crate::sizes::size;
use drafts::Transaction;
use log_layout::{Later, LogHeader, next_place};
use no_memory::NoMemory;
use std::alloc::Global;

// The blocks of content, or the others.
fn selected<'a>(alloc: Global, t: &'a Transaction, plain: bool) -> Result<Selected<'a>, NoMemory>
    ensures { IfOk result (λ s. map (λ r. logged r.now) s.blocks.items ≡ filter (λ (e : Logged). if plain then e.plain else not e.plain) (says t.now).blocks) }
{
    let blocks = select(alloc, &t.blocks, plain)?;
    Ok(Selected { blocks })
}

// The block with this index, of those of the chunks.
fn chunk_block(
    alloc: Global,
    jid: u32,
    content: &Selected<'_>,
    metadata: &Selected<'_>,
    revokes: &[u64],
    index: usize,
    size: usize,
) -> Result<Vec<u8>, NoMemory>
    requires size { IsBlockSize size }
    requires few_content { length content.now.blocks.items ≤ most_blocks }
    requires few_metadata { length metadata.now.blocks.items ≤ most_blocks }
    requires few_revokes { length revokes.now ≤ most_blocks }
    requires content { AreWhole size (map (λ r. logged r.now) content.now.blocks.items) }
    requires metadata { AreWhole size (map (λ r. logged r.now) metadata.now.blocks.items) }
    requires index { index < length (chunks_with size jid (map (λ r. logged r.now) content.now.blocks.items) (map (λ r. logged r.now) metadata.now.blocks.items) revokes.now) }
    ensures { IfOk result (λ block. slice_get (chunks_with size jid (map (λ r. logged r.now) content.now.blocks.items) (map (λ r. logged r.now) metadata.now.blocks.items) revokes.now) index ≡ Some block.items) }
{
    let mut block = empty_block(alloc, size)?;
    put_block(jid, content, metadata, revokes, index, &mut block);
    Ok(block)
}

// All blocks of the chunks, each at its place.
fn place_chunks(
    alloc: Global,
    t: &Transaction,
    at: &Place,
    block_size: u32,
) -> Result<Vec<(u32, Vec<u8>)>, NoMemory>
    requires whole { IsLoggableAll block_size (says t.now) }
    requires first { at.now.first < at.now.length }
    ensures { IfOk result (λ placed. map (λ b. record { place = b.0; bytes = b.1.items }) placed.items ≡ placed_from at.now.length at.now.first (chunks block_size at.now.jid (says t.now))) }
{
    let content = selected(alloc, t, true)?;
    let metadata = selected(alloc, t, false)?;
    let mut placed = Vec::new(alloc);
    let mut place = at.first;
    for index in 0..size(t, block_size) - 1 {
        let block = chunk_block(
            alloc,
            at.jid,
            &content,
            &metadata,
            &t.revokes,
            index as usize,
            block_size as usize,
        )?;
        placed.push((place, block))?;
        place = next_place(at.length, place);
    }
    Ok(placed)
}

// The header that ends a transaction.
fn header(at: &Place, place: u32) -> LogHeader
    ensures { result ≡ header_of at.now place }
{
    LogHeader {
        jid: at.jid,
        sequence: at.sequence,
        clean: false,
        tail: at.tail,
        blkno: place,
        later: Some(Later {
            nsec: 0,
            sec: at.time,
            addr: at.head_addr,
            jinode: at.jinode,
            statfs_addr: 0,
            quota_addr: 0,
            local_total: 0,
            local_free: 0,
            local_dinodes: 0,
        }),
    }
}

/// Fills a block of a journal with the header that ends a transaction, at its place.
pub fn put_header(at: &Place, place: u32, into: &mut [u8])
    requires { 120 ≤ length into.old }
    ensures bytes { into.new ≡ log_put (header_of at.now place) (zeros (length into.old)) }
    ensures read { log_read into.new ≡ Ok (as_read (header_of at.now place) into.new) }
{
    into.fill(0);
    header(at, place).write(into);
}

// The block of that header.
fn header_block(alloc: Global, size: usize, at: &Place, place: u32) -> Result<Vec<u8>, NoMemory>
    requires { IsBlockSize size }
    ensures bytes { IfOk result (λ block. block.items ≡ log_put (header_of at.now place) (zeros size)) }
    ensures read { IfOk result (λ block. log_read block.items ≡ Ok (as_read (header_of at.now place) block.items)) }
{
    let mut block = empty_block(alloc, size)?;
    put_header(at, place, &mut block);
    Ok(block)
}

/// A transaction as it is written: each block with its place in the journal, the header last. It copies each block once.
pub fn encode(
    alloc: Global,
    t: &Transaction,
    at: &Place,
    block_size: u32,
) -> Result<Vec<(u32, Vec<u8>)>, NoMemory>
    requires whole { IsLoggableAll block_size (says t.now) }
    requires fits { IsPlaceFor block_size at.now (says t.now) }
    ensures blocks { IfOk result (λ bs. map (λ b. record { place = b.0; bytes = b.1.items }) bs.items ≡ encoded block_size at.now (says t.now)) }
    ensures header { IfOk result (λ _. IsHeaderRead block_size at.now (says t.now)) }
{
    let mut placed = place_chunks(alloc, t, at, block_size)?;
    let place = place_after(at.length, at.first, size(t, block_size) - 1);
    let block = header_block(alloc, block_size as usize, at, place)?;
    placed.push((place, block))?;
    Ok(placed)
}
