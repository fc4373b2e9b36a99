// What a change of a call does to the log, block by block.
ghost use Rattle.std.specs.Prelude.{◌≡◌, ◌+◌, ◌<◌, [], ◌∷◌, if◌then◌else◌};
ghost use Rattle.std.specs.FinMap as table;
ghost use Rattle.journal_scan.specs.Said.{logged};
ghost use Rattle.node_journal.specs.Written.{IsLoggable};
ghost use Rattle.log_values.specs.Blocks as set;
ghost use Rattle.log_values.specs.Changes.{frames_taken, has_entry, most_unflushed, version_of, with_freed};

use crate::log::Log;
use drafts::Written;
use fixed_tables::FixedTable;
use glock_names::LockName;

// Whether the block has an entry in the journal that counts, or gets one by the flush that was begun.
pub(crate) fn has_entry(log: &Log, block: u64) -> bool
    ensures { result ≡ has_entry log.now block }
{
    log.tables.is_live(block) || log.tables.is_flushed(block)
}

// The block is in the set, if it is to be.
fn mark(blocks: &mut FixedTable<()>, block: u64, is_in: bool)
    requires { table.len blocks.old.at < blocks.old.room }
    ensures { blocks.new ≡ record blocks.old { at = if is_in then set.insert blocks.old.at block else blocks.old.at } }
{
    if is_in {
        let _ = blocks.put(block, ());
    }
}

// A block is freed: it has no change any more, and what the journal has of it is to be revoked.
pub(crate) fn free(log: &mut Log, block: u64)
    ensures { log.new ≡ record log.old { fresh = table.remove log.old.fresh block; gone = with_freed (has_entry log.old) (block ∷ []) log.old.gone } }
{
    let has = has_entry(log, block);
    mark(&mut log.gone, block, has);
    log.tables.remove(block);
}

// A block is written.
pub(crate) fn put(log: &mut Log, written: &Written, lock: LockName)
    requires loggable { IsLoggable log.old.journal.size (logged written.now) }
    requires few { table.len (table.remove log.old.fresh written.now.block) + 1 < most_unflushed }
    requires room { frames_taken (record log.old { fresh = table.remove log.old.fresh written.now.block }) < log.old.journal.frames }
    ensures { log.new ≡ record log.old { fresh = table.insert log.old.fresh written.now.block (version_of written.now lock); gone = set.remove log.old.gone written.now.block } }
{
    let _ = log.gone.take(written.block);
    log.tables
        .put(lock, written.block, written.plain, written.bytes.bytes());
}
