ghost use Rattle.profile_limits.specs.Limits.{most_blocks};
ghost use Rattle.std.specs.Prelude.{◌≡◌, ◌+◌, ◌-◌, ◌<◌, ◌≤◌, ◌^◌, count_by, length, filter, not};
ghost use Rattle.gfs2_layout.specs.Device.{IsBlockSize};
ghost use Rattle.drafts.specs.declared.change.Written.{Written as WrittenValue};
ghost use Rattle.log_layout.specs.Chunks.{Logged, content_room as content_room_of, further_count as further_count_of, further_room as further_room_of, numbers_room as numbers_room_of};
ghost use Rattle.journal_scan.specs.Said.{logged, says};
ghost use Rattle.node_journal.specs.Encoding.{kind_size as kind_size_of, piece_count as piece_count_of, revoke_size as revoke_size_of, size_of, size_with, content_of};
ghost use Rattle.std.specs.Prelude.{◌*◌, map};

use drafts::{Transaction, Written};

/// How many chunks and blocks so many entries take, where each chunk has room for so many.
#[tactic(auto, using(crate::proofs::Arounds::division_is_less))]
pub(crate) fn kind_size(room: u64, count: u64) -> u64
    requires some { 0 < room }
    requires room { room ≤ 4096 }
    requires few { count ≤ most_blocks }
    ensures size { result ≡ kind_size_of room count }
    ensures small { result ≤ 2 * count + 4096 }
{
    (count + (room - 1)) / room + count
}

/// How many further blocks so many revokes take, behind those that the descriptor's own block has.
#[tactic(auto, using(crate::proofs::Arounds::division_is_less))]
pub(crate) fn further_count(size: u64, count: u64) -> u64
    requires size { IsBlockSize size }
    requires few { count ≤ most_blocks }
    ensures count { result ≡ further_count_of size count }
    ensures small { result ≤ count + 4096 }
{
    let room = (size - 24) / 8;
    (count.saturating_sub((size - 72) / 8) + (room - 1)) / room
}

// How many blocks so many revokes take.
fn revoke_size(size: u64, count: u64) -> u64
    requires size { IsBlockSize size }
    requires few { count ≤ most_blocks }
    ensures size { result ≡ revoke_size_of size count }
    ensures small { result ≤ count + 4097 }
{
    if count == 0 {
        return 0;
    }
    1 + further_count(size, count)
}

// How many of these blocks are content of files.
fn content_count(blocks: &[Written]) -> usize
    ensures count { result ≡ length (filter (λ (e : Logged). e.plain) (map logged blocks.now)) }
    ensures within { result ≤ length blocks.now }
    ensures rest { length (filter (λ (e : Logged). not e.plain) (map logged blocks.now)) ≡ length blocks.now - result }
{
    let mut count = 0;
    for written in blocks {
        if written.plain {
            count += 1;
        }
    }
    count
}

/// How many places of a journal a transaction takes, that of its header among them, which logs so many blocks of content of files and so many of metadata, and
/// revokes so many.
pub fn size_with(content: u32, metadata: u32, revokes: u32, block_size: u32) -> u32
    requires size { IsBlockSize block_size }
    requires few { content + metadata + revokes ≤ most_blocks }
    ensures { result ≡ size_with block_size content metadata revokes }
{
    let size = u64::from(block_size);
    let blocks = kind_size((size - 72) / 16, u64::from(content))
        + (kind_size((size - 72) / 8, u64::from(metadata)) + revoke_size(size, u64::from(revokes)));
    (blocks + 1) as u32
}

/// How many places of a journal a transaction takes, that of its header among them. It goes over the blocks once.
pub fn size(t: &Transaction, block_size: u32) -> u32
    requires size { IsBlockSize block_size }
    requires few { length t.now.blocks.items + length t.now.revokes.items ≤ most_blocks }
    ensures { result ≡ size_of block_size (says t.now) }
{
    let content = content_count(&t.blocks);
    size_with(
        content as u32,
        (t.blocks.len() - content) as u32,
        t.revokes.len() as u32,
        block_size,
    )
}
