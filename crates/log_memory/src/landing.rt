// A flush that is in the journal: its blocks are live.
ghost use Rattle.std.specs.Prelude.{◌≡◌, ◌+◌, ◌≤◌, ◌<◌, ◌&&◌, ℕ, List, not, true, false, nat_lt, None, Some};
ghost use Rattle.std.specs.FinMap as table;
ghost use Rattle.fixed_tables.specs.Fixed.{left_by};
ghost use Rattle.log_layout.specs.Journal.{way};
ghost use Rattle.log_tables.specs.Kept.{is_home};
ghost use Rattle.log_values.specs.Blocks as set;
ghost use Rattle.log_values.specs.Log.{Entry, Flush};
ghost use Rattle.log_values.specs.Log.Stage.{Headed};
ghost use Rattle.log_values.specs.Transactions.{live_among};
ghost use Rattle.log_values.specs.Flushing.{FlushStep, logged_over};
ghost use Rattle.log_memory.specs.Flushing.{IsAt, rested_if, stays, with_flush};

use crate::log::Log;
use crate::places::{chunk_count, distance, place};
use fixed_tables::{FixedTable, RowTest};
use log_tables::{LiveTest, Tables};
use log_values::LogStep;

// The blocks that are revoked aren't wanted at home any more.
fn rest_all(tables: &mut Tables, revoked: &FixedTable<()>)
    ensures same { tables.new ≡ record tables.old { live = tables.new.live } }
    ensures rests { (b : ℕ) → table.get tables.new.live b ≡ rested_if (set.contains revoked.now.at b) (table.get tables.old.live b) }
{
    for place in 0..revoked.len() {
        tables.rest(revoked.row(place).0);
    }
}

// Each block of the flush is live, in a transaction that begins at this place.
fn land_all(tables: &mut Tables, first: u32)
    requires { table.len tables.old.live + table.len tables.old.flushed ≤ tables.old.places }
    ensures same { tables.new ≡ record tables.old { flushed = table.empty; live = tables.new.live } }
    ensures lives { (b : ℕ) → table.get tables.new.live b ≡ logged_over (table.get tables.old.flushed b) first (table.get tables.old.live b) }
{
    for _ in 0..tables.flushed_len() {
        let last = tables.flushed_len() - 1;
        let block = tables.flushed_block(last);
        tables.land(block, first);
    }
}

/// The live blocks that stay once a flush is in the journal: those that it doesn't revoke, and whose transactions don't begin before its tail.
#[derive(Drop)]
struct Left<'a> {
    revoked: &'a FixedTable<()>,
    length: u32,
    old_tail: u32,
    tail: u32,
    ghost inside: { old_tail < length },
}

impl<'a> LiveTest for Left<'a> {
    ghost stays = { λ t. stays t.revoked.now.at t.length t.old_tail t.tail };

    fn stays(&self, block: u64, first: u32) -> bool {
        let behind = distance(self.length, self.old_tail, first);
        let tail_behind = distance(self.length, self.old_tail, self.tail);
        self.revoked.get(block).is_none() && tail_behind <= behind
    }
}

// A flush is in the journal: what it logs is live, and of the rest what is left.
fn take_in(tables: &mut Tables, first: u32, left: &Left<'_>)
    requires room { table.len tables.old.live + table.len tables.old.flushed ≤ tables.old.places }
    requires home { (b : ℕ) (e : Entry) → with_flush left.now.revoked.now.at tables.old.flushed first tables.old.live b ≡ Some e
        → stays left.now.revoked.now.at left.now.length left.now.old_tail left.now.tail b e.first ≡ false → is_home e.way ≡ true }
    ensures same { tables.new ≡ record tables.old { flushed = table.empty; live = tables.new.live } }
    ensures lives { (b : ℕ) → table.get tables.new.live b
        ≡ left_by (λ (e : Entry). stays left.now.revoked.now.at left.now.length left.now.old_tail left.now.tail b e.first) (with_flush left.now.revoked.now.at tables.old.flushed first tables.old.live b) }
{
    rest_all(tables, left.revoked);
    land_all(tables, first);
    tables.keep(left);
}

// The blocks that are live.
#[derive(Drop)]
struct Living<'a> {
    tables: &'a Tables,
}

impl<'a> RowTest<()> for Living<'a> {
    ghost stays = { λ t key value. table.contains_key t.tables.now.live key };

    fn stays(&self, key: u64, _value: &()) -> bool {
        self.tables.is_live(key)
    }
}

// Of the blocks that are to be revoked, those are left that are live.
fn keep_live(gone: &mut FixedTable<()>, tables: &Tables)
    ensures { gone.new ≡ record gone.old { at = live_among tables.now.live gone.old.at } }
{
    gone.keep(&Living { tables });
}

/// The flush that was begun is in the journal, with its header, which told this tail: what it logs is live, what it revokes and what was before the tail isn't, and nothing
/// is flushed any more. It goes over the live blocks, and moves them for each block that the flush logs.
pub(crate) fn land(log: &mut Log, tail: u32) -> LogStep
    requires { IsAt log.old (Headed tail) }
    ensures { (f : Flush) (bytes : List ℕ) → log.old.flush ≡ Some f → FlushStep log.old log.new f bytes result }
{
    let first = place(log, 0);
    let head = place(log, chunk_count(log));
    let left = Left {
        revoked: &log.revoked,
        length: log.journal.length,
        old_tail: log.tail,
        tail,
    };
    take_in(&mut log.tables, first, &left);
    keep_live(&mut log.gone, &log.tables);
    log.revoked.clear();
    log.revokes.clear();
    log.content.clear();
    log.metadata.clear();
    log.head = head;
    log.tail = tail;
    log.sequence = log.sequence.wrapping_add(1);
    log.clean = false;
    log.stage = None;
    LogStep::Barrier
}
