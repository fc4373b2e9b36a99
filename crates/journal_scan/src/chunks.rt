ghost use Rattle.std.specs.Prelude.{◌≡◌, ◌+◌, ◌*◌, ◌<◌, ◌≤◌, ◌++◌, [], ℕ, List, length, map, true, false, is_some, IfOk, OnOk, MatchOption, ⊤};
ghost use Rattle.std.specs.List.{All, list_all, range_with_len};
ghost use Rattle.log_layout.specs.Chunks.{Chunk, are_entries as are_entries_of, chunk_in, content_room as content_room_of, dues, first_revokes, further_count as further_count_of, further_part, further_room as further_room_of, joined, numbers_at, numbers_room as numbers_room_of};
ghost use Rattle.log_layout.specs.declared.due.Due.TheVariants as variant;
ghost use Rattle.journal_scan.specs.Course.{IsFit};
ghost use Rattle.journal_scan.specs.Said.{says};
ghost use Rattle.std.specs.Prelude.{None, Some, ◌==◌, nat_le};
ghost use Rattle.gfs2_layout.specs.Bytes.{u64_at as number_64};

use crate::numbers::push_numbers;
use drafts::Transaction;
use log_layout::{ChunkKind, Due, LogDescriptor, u64_at};
use no_memory::NoMemory;
use std::collections::VecDeque;

fn numbers_room(size: usize) -> usize
    requires { 72 ≤ size }
    ensures { result ≡ numbers_room_of size }
{
    (size - 72) / 8
}

fn content_room(size: usize) -> usize
    requires { 72 ≤ size }
    ensures { result ≡ content_room_of size }
{
    (size - 72) / 16
}

fn further_room(size: usize) -> usize
    requires { 32 ≤ size }
    ensures value { result ≡ further_room_of size }
    ensures some { 0 < result }
{
    (size - 24) / 8
}

fn further_count(size: usize, entries: u32) -> usize
    requires low { 72 ≤ size }
    requires high { size ≤ 4096 }
    ensures { result ≡ further_count_of size entries }
{
    let room = further_room(size);
    ((entries as usize).saturating_sub(numbers_room(size)) + (room - 1)) / room
}

/// How many blocks come behind the descriptor of a chunk with so many entries.
pub(crate) fn due_count(kind: ChunkKind, size: usize, entries: u32) -> usize
    requires low { 72 ≤ size }
    requires high { size ≤ 4096 }
    ensures { (bytes : List ℕ) → result ≡ length (dues kind size entries bytes) }
{
    match kind {
        ChunkKind::Metadata | ChunkKind::Journaled => entries as usize,
        ChunkKind::Revoke => further_count(size, entries),
    }
}

// Whether each of so many escapes is 0 or 1.
fn are_escapes(block: &[u8], entries: usize) -> bool
    requires { 72 + 16 * entries ≤ length block.now }
    ensures { result ≡ list_all (λ escape. nat_le escape 1) (numbers_at 80 16 entries block.now) }
{
    for i in 0..entries {
        if u64_at(block, 80 + 16 * i) > 1 {
            return false;
        }
    }
    true
}

// Whether the descriptor's block has room for its entries, and they are such.
fn are_entries(kind: ChunkKind, block: &[u8], entries: u32) -> bool
    requires { 72 ≤ length block.now }
    ensures { result ≡ are_entries_of kind (length block.now) entries block.now }
{
    let entries = entries as usize;
    match kind {
        ChunkKind::Metadata => entries <= numbers_room(block.len()),
        ChunkKind::Journaled => entries <= content_room(block.len()) && are_escapes(block, entries),
        ChunkKind::Revoke => true,
    }
}

/// The descriptor that begins a chunk here, where so many places are left before the head.
pub(crate) fn descriptor_at(block: &[u8], left: u32) -> Option<LogDescriptor>
    requires low { 72 ≤ length block.now }
    requires high { length block.now ≤ 4096 }
    ensures { MatchOption result (chunk_in (length block.now) left block.now ≡ None) (λ d. (are_entries_of d.kind (length block.now) d.entries block.now ≡ true) × (chunk_in (length block.now) left block.now
        ≡ Some (record { due = dues d.kind (length block.now) d.entries block.now; revokes = first_revokes d.kind (length block.now) d.entries block.now }))) }
{
    let Ok(descriptor) = LogDescriptor::read(block) else {
        return None;
    };
    if !are_entries(descriptor.kind, block, descriptor.entries) {
        return None;
    }
    let behind = due_count(descriptor.kind, block.len(), descriptor.entries);
    if u128::from(descriptor.length) != 1 + behind as u128 || descriptor.length > left {
        return None;
    }
    Some(descriptor)
}

fn push_metadata(due: &mut VecDeque<Due>, block: &[u8], entries: u32) -> Result<(), NoMemory>
    requires { 72 + 8 * entries ≤ length block.now }
    ensures { OnOk result (due.new.items ≡ due.old.items ++ map variant.Metadata (numbers_at 72 8 entries block.now)) }
{
    for i in 0..entries as usize {
        due.push_back(Due::Metadata(u64_at(block, 72 + 8 * i)))?;
    }
    Ok(())
}

fn push_content(due: &mut VecDeque<Due>, block: &[u8], entries: u32) -> Result<(), NoMemory>
    requires { 72 + 16 * entries ≤ length block.now }
    ensures { OnOk result (due.new.items ≡ due.old.items ++ map (λ i. variant.Content (number_64 (72 + 16 * i) block.now) (number_64 (80 + 16 * i) block.now == 1)) (range_with_len 0 entries)) }
{
    for i in 0..entries as usize {
        due.push_back(Due::Content(u64_at(block, 72 + 16 * i), u64_at(block, 80 + 16 * i) == 1))?;
    }
    Ok(())
}

fn push_further(due: &mut VecDeque<Due>, size: usize, entries: u32) -> Result<(), NoMemory>
    requires low { 72 ≤ size }
    requires high { size ≤ 4096 }
    ensures { OnOk result (due.new.items ≡ due.old.items ++ map (λ i. variant.Further (further_part size entries i)) (range_with_len 0 (further_count_of size entries))) }
{
    let room = further_room(size);
    let rest = (entries as usize).saturating_sub(numbers_room(size));
    for i in 0..further_count(size, entries) {
        due.push_back(Due::Further(room.min(rest.saturating_sub(room * i)) as u32))?;
    }
    Ok(())
}

// What the blocks behind a descriptor have to be.
fn push_dues(
    due: &mut VecDeque<Due>,
    kind: ChunkKind,
    block: &[u8],
    entries: u32,
) -> Result<(), NoMemory>
    requires low { 72 ≤ length block.now }
    requires high { length block.now ≤ 4096 }
    requires room { are_entries_of kind (length block.now) entries block.now ≡ true }
    ensures { OnOk result (due.new.items ≡ due.old.items ++ dues kind (length block.now) entries block.now) }
{
    match kind {
        ChunkKind::Metadata => push_metadata(due, block, entries),
        ChunkKind::Journaled => push_content(due, block, entries),
        ChunkKind::Revoke => push_further(due, block.len(), entries),
    }
}

/// Begins the chunk whose descriptor stands here, where so many places are left before the head: what is due behind it, and the
/// revokes that it has itself. Answers whether there is one.
pub(crate) fn begin_chunk(
    due: &mut VecDeque<Due>,
    begun: &mut Transaction,
    block: &[u8],
    left: u32,
) -> Result<bool, NoMemory>
    requires low { 72 ≤ length block.now }
    requires high { length block.now ≤ 4096 }
    requires none { due.old.items ≡ [] }
    ensures chunk { IfOk result (λ is. MatchOption (chunk_in (length block.now) left block.now) (is ≡ false)
        (λ c. (is ≡ true) × (due.new.items ≡ c.due) × (says begun.new ≡ joined (says begun.old) (record { blocks = []; revokes = c.revokes })))) }
    ensures fit { OnOk result (All (IsFit (length block.now)) due.new.items) }
{
    let Some(descriptor) = descriptor_at(block, left) else {
        return Ok(false);
    };
    push_dues(due, descriptor.kind, block, descriptor.entries)?;
    if descriptor.kind == ChunkKind::Revoke {
        let first = (descriptor.entries as usize).min(numbers_room(block.len()));
        push_numbers(&mut begun.revokes, block, 72, first)?;
    }
    Ok(true)
}
