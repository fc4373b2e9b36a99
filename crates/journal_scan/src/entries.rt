// Where the number of a block stands in a journal.
ghost use Rattle.std.specs.Prelude.{◌≡◌, ◌+◌, ◌*◌, ◌<◌, ◌≤◌, ◌==◌, ◌∷◌, List, length, true, IfSome, MatchOption, None, Some};
ghost use Rattle.std.specs.List.{list_any};
ghost use Rattle.log_layout.specs.Chunks.{are_entries as are_entries_of, dues, numbers_at};
ghost use Rattle.log_layout.specs.Journal.{Placed, blocks_from, head_in};
ghost use Rattle.journal_scan.specs.Images.{IsImage, ring_of};
ghost use Rattle.journal_scan.specs.Numbers.{LiveHaveNumbers, is_for, last_number, number_from};

use crate::chunks::{descriptor_at, due_count};
use crate::image::JournalImage;
use log_layout::{
    ChunkKind, LogHeader, accepted, heads_are_accepted, next_place, places_between, u64_at,
};

// Whether one of so many numbers, each so far behind the one before it, is this.
fn is_among(block: &[u8], step: usize, entries: usize, number: u64) -> bool
    requires step { 8 ≤ step }
    requires room { 72 + step * entries ≤ length block.now }
    ensures { result ≡ list_any (λ n. n == number) (numbers_at 72 step entries block.now) }
{
    for i in 0..entries {
        if u64_at(block, 72 + step * i) == number {
            return true;
        }
    }
    false
}

// Whether the chunk whose descriptor stands here has an entry of the block of this number.
fn has_entry(kind: ChunkKind, block: &[u8], entries: u32, number: u64) -> bool
    requires low { 72 ≤ length block.now }
    requires room { are_entries_of kind (length block.now) entries block.now ≡ true }
    ensures { result ≡ list_any (is_for number) (dues kind (length block.now) entries block.now) }
{
    match kind {
        ChunkKind::Metadata => is_among(block, 8, entries as usize, number),
        ChunkKind::Journaled => is_among(block, 16, entries as usize, number),
        ChunkKind::Revoke => false,
    }
}

// The search for the last descriptor that has a number, block by block.
#[derive(Drop)]
struct NumberSearch {
    // How many blocks of a chunk are still to be passed.
    passed: usize,
    found: Option<u32>,
}

impl NumberSearch {
    // Takes the next block, where so many are left behind it.
    fn take(&mut self, place: u32, left: u32, block: &[u8], number: u64)
        requires low { 72 ≤ length block.now }
        requires high { length block.now ≤ 4096 }
        ensures { (bs : List Placed) → length bs ≡ left → last_number (length block.now) number self.old.passed self.old.found (record { place = place; bytes = block.now } ∷ bs)
            ≡ last_number (length block.now) number self.new.passed self.new.found bs }
    {
        if self.passed > 0 {
            self.passed -= 1;
            return;
        }
        if accepted(place, block).is_some() {
            return;
        }
        let Some(descriptor) = descriptor_at(block, left) else {
            return;
        };
        self.passed = due_count(descriptor.kind, block.len(), descriptor.entries);
        if has_entry(descriptor.kind, block, descriptor.entries, number) {
            self.found = Some(place);
        }
    }
}

/// The place of the last descriptor, from a journal's tail to its head, that has the number of the block: of a live block that of its entry.
/// It looks at each of these places once, and takes no memory.
pub fn find_number(j: &JournalImage, head: &LogHeader, number: u64) -> Option<u32>
    requires image { IsImage j.now }
    requires headed { head_in (ring_of j.now) ≡ Some head.now }
    requires tailed { head.now.tail < j.now.length }
    ensures { result ≡ number_from (ring_of j.now) head.now number }
{
    heads_are_accepted();
    let count = places_between(j.length, head.tail, head.blkno);
    let mut search = NumberSearch {
        passed: 0,
        found: None,
    };
    let mut place = head.tail;
    for taken in 0..count + 1 {
        search.take(place, count - taken, j.block(place), number);
        place = next_place(j.length, place);
    }
    search.found
}

/// A law: in a journal that can be read the number of each live block stands in a descriptor.
pub fn live_blocks_have_numbers()
    ensures { LiveHaveNumbers }
{}
