// A flush, step by step.
ghost use Rattle.std.specs.Prelude.{◌≡◌, ◌<◌, ℕ, List, Some, length, slice_get};
ghost use Rattle.log_values.specs.Log.{Flush};
ghost use Rattle.log_values.specs.Log.Stage.{Ending, Headed, Writing};
ghost use Rattle.log_values.specs.Flushing.{FlushStep, flush_chunks, head_place, place_of};
ghost use Rattle.log_memory.specs.Inside.{stage_of};
ghost use Rattle.log_memory.specs.Flushing.{IsAllWritten, IsAt, IsBegun, IsChunk};

use crate::beginning::{Beginning, start};
use crate::kinds::{Kind, Stage};
use crate::landing::land;
use crate::log::Log;
use crate::places::{block_of, chunk_count, place};
use crate::tails::tail_of;
use log_values::LogStep;
use node_journal::{Place, put_block, put_header};

// The block with this index, of those of the chunks of the flush that was begun.
fn put_chunk(log: &Log, index: u32, into: &mut [u8])
    requires size { length into.old ≡ log.now.journal.size }
    requires there { IsChunk log.now index }
    ensures { (f : Flush) → log.now.flush ≡ Some f → slice_get (flush_chunks log.now f) index ≡ Some into.new }
{
    let content = Kind {
        tables: &log.tables,
        places: &log.content,
    };
    let metadata = Kind {
        tables: &log.tables,
        places: &log.metadata,
    };
    put_block(
        log.journal.jid,
        &content,
        &metadata,
        &log.revokes,
        index as usize,
        into,
    );
}

// This block of the chunks is written.
fn write_block(log: &mut Log, index: u32, into: &mut [u8]) -> LogStep
    requires size { length into.old ≡ log.old.journal.size }
    requires at { IsAt log.old (Writing index) }
    requires there { IsChunk log.old index }
    ensures { (f : Flush) → log.old.flush ≡ Some f → FlushStep log.old log.new f into.new result }
{
    put_chunk(log, index, into);
    let block = block_of(log, place(log, index));
    log.stage = Some(Stage::Writing(index + 1));
    LogStep::Write { block }
}

// All blocks of the chunks are written: a barrier, with which all that was on its way home is there, too.
fn make_barrier(log: &mut Log) -> LogStep
    requires { IsAllWritten log.old }
    ensures { (f : Flush) (bytes : List ℕ) → log.old.flush ≡ Some f → FlushStep log.old log.new f bytes result }
{
    log.settle();
    log.stage = Some(Stage::Ending);
    LogStep::Barrier
}

// What the header of the flush tells, at its place.
fn place_with(log: &Log, head: u32, tail: u32) -> Place
    requires { head < log.now.journal.length }
    ensures { (f : Flush) → log.now.flush ≡ Some f → head ≡ head_place log.now f → result ≡ place_of log.now f tail }
{
    Place {
        jid: log.journal.jid,
        length: log.journal.length,
        first: place(log, 0),
        tail,
        sequence: log.sequence.wrapping_add(1),
        head_addr: block_of(log, head),
        jinode: log.journal.jinode,
        time: log.journal.time,
    }
}

// The header of the flush is written.
fn write_head(log: &mut Log, into: &mut [u8]) -> LogStep
    requires size { length into.old ≡ log.old.journal.size }
    requires at { IsAt log.old Ending }
    ensures { (f : Flush) → log.old.flush ≡ Some f → FlushStep log.old log.new f into.new result }
{
    let head = place(log, chunk_count(log));
    let tail = tail_of(log, head);
    let at = place_with(log, head, tail);
    put_header(&at, head, into);
    log.stage = Some(Stage::Headed(tail));
    LogStep::Head {
        block: at.head_addr,
        sequence: at.sequence,
    }
}

// A flush that has come so far goes on by a block, or by the barrier behind the last.
fn go_on(log: &mut Log, index: u32, into: &mut [u8]) -> LogStep
    requires size { length into.old ≡ log.old.journal.size }
    requires at { IsAt log.old (Writing index) }
    ensures { (f : Flush) → log.old.flush ≡ Some f → FlushStep log.old log.new f into.new result }
{
    if index < chunk_count(log) {
        write_block(log, index, into)
    } else {
        make_barrier(log)
    }
}

// The next step of a flush that has come so far.
fn step_from(log: &mut Log, stage: Stage, into: &mut [u8]) -> LogStep
    requires size { length into.old ≡ log.old.journal.size }
    requires at { IsAt log.old (stage_of stage) }
    ensures { (f : Flush) → log.old.flush ≡ Some f → FlushStep log.old log.new f into.new result }
{
    match stage {
        Stage::Writing(index) => go_on(log, index, into),
        Stage::Ending => write_head(log, into),
        Stage::Headed(tail) => land(log, tail),
    }
}

// The next step of the flush that was begun.
fn step(log: &mut Log, into: &mut [u8]) -> LogStep
    requires size { length into.old ≡ log.old.journal.size }
    requires begun { IsBegun log.old }
    ensures { (f : Flush) → log.old.flush ≡ Some f → FlushStep log.old log.new f into.new result }
{
    match log.stage {
        Some(stage) => step_from(log, stage, into),
        None => unreachable!(),
    }
}

impl Log {
    ghost use Rattle.std.specs.Prelude.{◌≡◌, length};
    ghost use Rattle.log_values.specs.Flushing.{FlushAnswer};

    /// The next step of a flush, which begins if one is due: what a node is to do, and in `into`, a block long, the block that it is to write. Behind a barrier it is made before the
    /// next call. None where nothing is due. A step that writes a block of content costs a copy of it; one that writes a descriptor goes over its entries; the first and the
    /// last go over the live blocks and what is flushed.
    pub fn flush_step(&mut self, into: &mut [u8]) -> Option<LogStep>
        requires { length into.old ≡ self.old.journal.size }
        ensures { FlushAnswer self.old self.new into.new result }
    {
        if self.stage.is_some() {
            return Some(step(self, into));
        }
        match start(self) {
            Beginning::Nothing => None,
            Beginning::NoRoom => Some(LogStep::NoRoom),
            Beginning::Begun => Some(step(self, into)),
        }
    }
}
