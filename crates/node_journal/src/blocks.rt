// The blocks of a transaction as it is written, one at a time and without memory.
ghost use Rattle.profile_limits.specs.Limits.{most_blocks};
ghost use Rattle.std.specs.Prelude.{◌≡◌, ◌+◌, ◌-◌, ◌*◌, ◌<◌, ◌≤◌, Some, drop, length, slice_get, take};
ghost use Rattle.std.specs.List.{flat_map};
ghost use Rattle.gfs2_layout.specs.Device.{IsBlockSize};
ghost use Rattle.log_layout.specs.Chunks.{content_room, numbers_room};
ghost use Rattle.log_layout.specs.Descriptors.{descriptor_put};
ghost use Rattle.log_layout.specs.declared.descriptor.ChunkKind.TheVariants as kind_of;
ghost use Rattle.node_journal.specs.Encoding.{begins_with_magic, chunks_with, content_chunk, content_numbers, descriptor_block, escaped, further_block, kind_size as kind_size_of, metadata_chunk, pieces, revoke_chunks, revoke_size, zeros};
ghost use Rattle.node_journal.specs.Written.{AreWhole};
ghost use Rattle.std.specs.Prelude.{map};

use crate::cuts::{behind, piece_at};
use crate::entries::Entries;
use crate::numbers::put_numbers;
use crate::sizes::{further_count, kind_size};
use gfs2_layout::MetaHeader;
use log_layout::{ChunkKind, LogDescriptor, put_u32, put_u64, u32_at};

// The number with which each block of metadata begins.
const MAGIC: u32 = 0x0116_1970;

// A descriptor without entries.
fn put_head(jid: u32, kind: ChunkKind, blocks: u32, entries: u32, into: &mut [u8])
    requires { 72 ≤ length into.old }
    ensures bytes { into.new ≡ descriptor_put (record { jid = jid; kind = kind; length = blocks; entries = entries }) (zeros (length into.old)) }
    ensures size { length into.new ≡ length into.old }
{
    into.fill(0);
    let descriptor = LogDescriptor {
        jid,
        kind,
        length: blocks,
        entries,
    };
    descriptor.write(into);
}

// Whether a block begins with the magic.
fn is_escaped(bytes: &[u8]) -> bool
    requires { 4 ≤ length bytes.now }
    ensures { result ≡ begins_with_magic bytes.now }
{
    u32_at(bytes, 0) == MAGIC
}

// A block of content as it is written: without the magic, where it begins with that.
fn put_escaped(bytes: &[u8], into: &mut [u8])
    requires size { length into.old ≡ length bytes.now }
    requires least { 4 ≤ length bytes.now }
    ensures { into.new ≡ escaped bytes.now }
{
    into.copy_from_slice(bytes);
    if is_escaped(bytes) {
        put_u32(into, 0, 0);
    }
}

// The descriptor of a chunk of content: so many of the entries from the first on, each with its escape.
fn put_content_head<E: Entries>(jid: u32, entries: &E, first: usize, count: usize, into: &mut [u8])
    requires room { 72 + 16 * count ≤ length into.old }
    requires most { length into.old ≤ 4096 }
    requires there { first + count ≤ length (E.logged entries.now) }
    requires few { length (E.logged entries.now) ≤ most_blocks }
    requires whole { AreWhole (length into.old) (E.logged entries.now) }
    ensures { into.new ≡ descriptor_block (length into.old) jid kind_of.Journaled (1 + count) count (content_numbers (take count (drop first (E.logged entries.now)))) }
{
    put_head(
        jid,
        ChunkKind::Journaled,
        1 + count as u32,
        count as u32,
        into,
    );
    for i in 0..count {
        put_u64(into, 72 + 16 * i, entries.block(first + i));
        put_u64(
            into,
            80 + 16 * i,
            u64::from(is_escaped(entries.bytes(first + i))),
        );
    }
}

// The descriptor of a chunk of metadata.
fn put_metadata_head<E: Entries>(jid: u32, entries: &E, first: usize, count: usize, into: &mut [u8])
    requires room { 72 + 8 * count ≤ length into.old }
    requires most { length into.old ≤ 4096 }
    requires there { first + count ≤ length (E.logged entries.now) }
    requires few { length (E.logged entries.now) ≤ most_blocks }
    ensures { into.new ≡ descriptor_block (length into.old) jid kind_of.Metadata (1 + count) count (map (λ e. e.block) (take count (drop first (E.logged entries.now)))) }
{
    put_head(
        jid,
        ChunkKind::Metadata,
        1 + count as u32,
        count as u32,
        into,
    );
    for i in 0..count {
        put_u64(into, 72 + 8 * i, entries.block(first + i));
    }
}

// The block with this index, of those of the chunks of content.
fn put_content<E: Entries>(jid: u32, entries: &E, index: usize, into: &mut [u8])
    requires size { IsBlockSize (length into.old) }
    requires few { length (E.logged entries.now) ≤ most_blocks }
    requires whole { AreWhole (length into.old) (E.logged entries.now) }
    requires index { index < kind_size_of (content_room (length into.old)) (length (E.logged entries.now)) }
    ensures { slice_get (flat_map (content_chunk (length into.old) jid) (pieces (content_room (length into.old)) (E.logged entries.now))) index ≡ Some into.new }
{
    let room = (into.len() - 72) / 16;
    let first = index / (room + 1) * room;
    let place = index % (room + 1);
    if place == 0 {
        let count = room.min(entries.count() - first);
        put_content_head(jid, entries, first, count, into);
    } else {
        put_escaped(entries.bytes(first + place - 1), into);
    }
}

// The same of metadata.
fn put_metadata<E: Entries>(jid: u32, entries: &E, index: usize, into: &mut [u8])
    requires size { IsBlockSize (length into.old) }
    requires few { length (E.logged entries.now) ≤ most_blocks }
    requires whole { AreWhole (length into.old) (E.logged entries.now) }
    requires index { index < kind_size_of (numbers_room (length into.old)) (length (E.logged entries.now)) }
    ensures { slice_get (flat_map (metadata_chunk (length into.old) jid) (pieces (numbers_room (length into.old)) (E.logged entries.now))) index ≡ Some into.new }
{
    let room = (into.len() - 72) / 8;
    let first = index / (room + 1) * room;
    let place = index % (room + 1);
    if place == 0 {
        let count = room.min(entries.count() - first);
        put_metadata_head(jid, entries, first, count, into);
    } else {
        into.copy_from_slice(entries.bytes(first + place - 1));
    }
}

// A block with further revokes, behind a header of its own.
fn put_further(jid: u32, revokes: &[u64], into: &mut [u8])
    requires { 24 + 8 * length revokes.now ≤ length into.old }
    ensures { into.new ≡ further_block (length into.old) jid revokes.now }
{
    into.fill(0);
    let header = MetaHeader {
        kind: 12,
        format: 1000,
        jid,
    };
    header.write(into);
    put_numbers(into, 24, revokes);
}

// The block with this index, of those of the chunk of revokes.
fn put_revokes(jid: u32, revokes: &[u64], index: usize, into: &mut [u8])
    requires size { IsBlockSize (length into.old) }
    requires few { length revokes.now ≤ most_blocks }
    requires index { index < revoke_size (length into.old) (length revokes.now) }
    ensures { slice_get (revoke_chunks (length into.old) jid revokes.now) index ≡ Some into.new }
{
    let size = into.len();
    let room = (size - 72) / 8;
    if index > 0 {
        let further = (size - 24) / 8;
        let rest = behind(revokes, room);
        put_further(jid, piece_at(rest, (index - 1) * further, further), into);
        return;
    }
    let blocks = further_count(size as u64, revokes.len() as u64);
    put_head(
        jid,
        ChunkKind::Revoke,
        1 + blocks as u32,
        revokes.len() as u32,
        into,
    );
    put_numbers(into, 72, piece_at(revokes, 0, room));
}

/// Fills a block of a journal with what a transaction has there: that with this index, from 0, of those of its chunks, content of files before metadata
/// before revokes. It copies a block, or goes over the entries of one chunk, and takes no memory.
pub fn put_block<C: Entries, M: Entries>(
    jid: u32,
    content: &C,
    metadata: &M,
    revokes: &[u64],
    index: usize,
    into: &mut [u8],
)
    requires size { IsBlockSize (length into.old) }
    requires few_content { length (C.logged content.now) ≤ most_blocks }
    requires few_metadata { length (M.logged metadata.now) ≤ most_blocks }
    requires few_revokes { length revokes.now ≤ most_blocks }
    requires content { AreWhole (length into.old) (C.logged content.now) }
    requires metadata { AreWhole (length into.old) (M.logged metadata.now) }
    requires index { index < length (chunks_with (length into.old) jid (C.logged content.now) (M.logged metadata.now) revokes.now) }
    ensures { slice_get (chunks_with (length into.old) jid (C.logged content.now) (M.logged metadata.now) revokes.now) index ≡ Some into.new }
{
    let size = into.len() as u64;
    let contents = kind_size((size - 72) / 16, content.count() as u64) as usize;
    if index < contents {
        put_content(jid, content, index, into);
        return;
    }
    let behind_contents = index - contents;
    let metadatas = kind_size((size - 72) / 8, metadata.count() as u64) as usize;
    if behind_contents < metadatas {
        put_metadata(jid, metadata, behind_contents, into);
        return;
    }
    put_revokes(jid, revokes, behind_contents - metadatas, into);
}
