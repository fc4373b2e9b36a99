// The change of a call is added whole or not at all: what would be kept after it is counted first, by look-ups alone.
ghost use Rattle.std.specs.Prelude.{◌≡◌, ◌+◌, ◌<◌, ◌≤◌, ◌^◌, ◌↔◌, ◌&&◌, not, ℕ, true, [], ◌∷◌};
ghost use Rattle.std.specs.Ordering.{nat_cmp};
ghost use Rattle.std.specs.FinMap as table;
ghost use Rattle.glock_names.specs.declared.LockName.{LockName as LockValue};
ghost use Rattle.log_values.specs.Blocks as set;
ghost use Rattle.log_values.specs.Log.{LogValue, Version};
ghost use Rattle.log_values.specs.Changes.{CanBeAdded, Suffices, frames_taken, has_entry, most_unflushed, with_change};
ghost use Rattle.log_values.specs.Sound.{IsSoundLog};
ghost use Rattle.log_memory.specs.Adding.{CountsFor, IsAlike, IsAmong, counts_of, less, more, with_freed_all, with_written_all};

use crate::changes::{free, has_entry, put};
use crate::log::Log;
use drafts::{Change, Written};
use node_journal::size_with;

// How many blocks of its journal may be taken by what isn't flushed, its header among them.
const MOST_UNFLUSHED: u32 = 400;

/// How much isn't flushed: blocks that are content of files, blocks of metadata, and blocks that are to be revoked.
#[derive(Clone, Copy)]
pub(crate) struct Counts {
    pub content: u32,
    pub metadata: u32,
    pub revokes: u32,
}

// ---- what would be kept

// What isn't flushed now. That the log is sound is told on to those that don't look inside, since it bounds what they count.
fn counts_now(log: &Log) -> Counts
    ensures counts { result ≡ counts_of log.now }
    ensures sound { IsSoundLog log.now }
{
    let content = log.tables.fresh_content() as u32;
    Counts {
        content,
        metadata: log.tables.fresh_len() as u32 - content,
        revokes: log.gone.len() as u32,
    }
}

// Without the change that a block has, if it has one: of content of a file, or of metadata.
fn without(counts: Counts, change: Option<bool>) -> Counts
    requires { IsAmong change counts }
    ensures { result ≡ less change counts }
{
    match change {
        None => counts,
        Some(true) => Counts {
            content: counts.content - 1,
            ..counts
        },
        Some(false) => Counts {
            metadata: counts.metadata - 1,
            ..counts
        },
    }
}

// With one more change.
fn with(counts: Counts, plain: bool) -> Counts
    requires { counts.content + counts.metadata < 2 ^ 31 }
    ensures { result ≡ more plain counts }
{
    if plain {
        Counts {
            content: counts.content + 1,
            ..counts
        }
    } else {
        Counts {
            metadata: counts.metadata + 1,
            ..counts
        }
    }
}

fn is_gone(log: &Log, block: u64) -> bool
    ensures { result ≡ set.contains log.now.gone block }
{
    log.gone.get(block).is_some()
}

// Whether one more block is to be revoked once this one is freed.
fn is_new_revoke(log: &Log, block: u64) -> bool
    ensures { result ≡ (has_entry log.now block && not (set.contains log.now.gone block)) }
{
    let has_entry = has_entry(log, block);
    let is_gone = is_gone(log, block);
    has_entry && !is_gone
}

// Once the block is freed, in a log that has the same of it.
fn once_freed(log: &Log, counts: Counts, block: u64) -> Counts
    requires counted { CountsFor log.now block counts }
    requires few { counts.revokes < 2 ^ 31 }
    ensures { (m : LogValue) → IsAlike log.now m block → counts ≡ counts_of m → result ≡ counts_of (with_freed_all m (block ∷ [])) }
{
    let rest = without(counts, log.tables.change_of(block));
    let is_new = is_new_revoke(log, block);
    Counts {
        revokes: rest.revokes + u32::from(is_new),
        ..rest
    }
}

// Once the block is written, in a log that has the same of it.
fn once_written(log: &Log, counts: Counts, written: &Written) -> Counts
    requires counted { CountsFor log.now written.now.block counts }
    requires few { counts.content + counts.metadata < 2 ^ 31 }
    ensures { (m : LogValue) (lock : LockValue) → IsAlike log.now m written.now.block → counts ≡ counts_of m → result ≡ counts_of (with_written_all m (written.now ∷ []) (lock ∷ [])) }
{
    let rest = without(counts, log.tables.change_of(written.block));
    let all = with(rest, written.plain);
    let is_gone = is_gone(log, written.block);
    Counts {
        revokes: all.revokes - u32::from(is_gone),
        ..all
    }
}

// Once the change's blocks are freed.
fn counts_freed(log: &Log, change: &Change) -> Counts
    requires { CanBeAdded log.now.journal.size change.now }
    ensures counts { result ≡ counts_of (with_freed_all log.now change.now.freed.items) }
    ensures sound { IsSoundLog log.now }
{
    let mut counts = counts_now(log);
    for block in &change.freed {
        counts = once_freed(log, counts, *block);
    }
    counts
}

// And once those that it writes are written.
fn counts_with(log: &Log, change: &Change) -> Counts
    requires { CanBeAdded log.now.journal.size change.now }
    ensures counts { result ≡ counts_of (with_change log.now change.now) }
    ensures versions { result.content + result.metadata < 2 ^ 31 }
    ensures revokes { result.revokes ≤ 4096 + 65536 }
{
    let mut counts = counts_freed(log, change);
    for written in &change.blocks {
        counts = once_written(log, counts, written);
    }
    counts
}

// Whether the frames suffice for so many, and the blocks of the part that isn't flushed.
fn suffices(log: &Log, counts: Counts) -> bool
    requires versions { counts.content + counts.metadata < 2 ^ 31 }
    requires revokes { counts.revokes ≤ 4096 + 65536 }
    ensures { (fresh : table.FinMap nat_cmp Version) (gone : set.Blocks) → counts ≡ counts_of (record log.now { fresh = fresh; gone = gone })
        → (result ≡ true ↔ Suffices (record log.now { fresh = fresh; gone = gone })) }
{
    let others = log.tables.taken() - log.tables.fresh_len() as u32;
    let frames = others + counts.content + counts.metadata;
    if frames > log.journal.frames {
        return false;
    }
    let blocks = size_with(
        counts.content,
        counts.metadata,
        counts.revokes,
        log.journal.block_size,
    );
    blocks <= MOST_UNFLUSHED
}

// ---- the change

fn free_all(log: &mut Log, freed: &[u64])
    ensures { log.new ≡ with_freed_all log.old freed.now }
{
    for block in freed {
        free(log, *block);
    }
}

fn put_all(log: &mut Log, change: &Change)
    requires can { CanBeAdded log.old.journal.size change.now }
    requires few { table.len (with_written_all log.old change.now.blocks.items change.now.locks.items).fresh < most_unflushed }
    requires room { frames_taken (with_written_all log.old change.now.blocks.items change.now.locks.items) ≤ log.old.journal.frames }
    ensures { log.new ≡ with_written_all log.old change.now.blocks.items change.now.locks.items }
{
    for (place, written) in change.blocks.iter().enumerate() {
        put(log, written, change.locks[place]);
    }
}

impl Log {
    ghost use Rattle.std.specs.Prelude.{◌≡◌, ◌↔◌, true, false};
    ghost use Rattle.log_values.specs.Changes.{CanBeAdded, Suffices, with_change};

    /// Adds the change of a call, where the frames and the 400 blocks suffice for the log with it. Else it is false, and the log is as before. Each block of the change costs
    /// some searches and moves the rows behind it; all blocks that aren't flushed are gone over once.
    pub fn add(&mut self, change: &Change) -> bool
        requires { CanBeAdded self.old.journal.size change.now }
        ensures added { result ≡ true → self.new ≡ with_change self.old change.now }
        ensures kept { result ≡ false → self.new ≡ self.old }
        ensures exactly { result ≡ true ↔ Suffices (with_change self.old change.now) }
    {
        if !suffices(self, counts_with(self, change)) {
            return false;
        }
        free_all(self, &change.freed);
        put_all(self, change);
        true
    }
}
