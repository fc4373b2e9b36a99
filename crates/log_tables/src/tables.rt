// The tables, and the frames behind them.
ghost use Rattle.std.specs.Prelude.{◌≡◌, ℕ, Bool};

use crate::cells::{Cell, Hold, LiveCell, frame_in, on_its_way};
use crate::frames::frame_with;
use fixed_tables::{FixedTable, RowTest};
use frame_pool::Pool;
use glock_names::LockName;
use no_memory::NoMemory;
use std::alloc::Global;
use std::marker::Model;

/// The blocks that a log keeps: those that were changed since the last flush began, those of the flush that was begun, and those that are live in
/// the journal. Each bytes are in a frame of their own.
#[derive(Drop)]
pub struct Tables {
    pub(crate) pool: Pool,
    pub(crate) fresh: FixedTable<Cell>,
    pub(crate) flushed: FixedTable<Cell>,
    pub(crate) live: FixedTable<LiveCell>,
    places: u32,
    taken: u32,
}

impl Model for Tables {
    ghost use Rattle.log_tables.specs.Kept.{Kept, kept_code};

    ghost Value = { Kept };

    ghost coded = { kept_code };

    ghost use Rattle.log_tables.specs.IsTables.{IsTables, kept_in};

    ghost view = { kept_in };

    ghost invariant = { IsTables };
}

/// Which live blocks stay, by the block and the place where its transaction begins.
pub trait LiveTest {
    /// The block does.
    ghost stays: { Self → ℕ → ℕ → Bool };

    /// Whether it does.
    fn stays(&self, block: u64, first: u32) -> bool
        ensures { result ≡ stays self.now block first };
}

// The same of a row of the table.
#[derive(Drop)]
struct ByFirst<'a, T> {
    test: &'a T,
}

impl<'a, T: LiveTest> RowTest<LiveCell> for ByFirst<'a, T> {
    ghost stays = { λ t block cell. T.stays t.test.now block cell.first };

    fn stays(&self, key: u64, value: &LiveCell) -> bool {
        self.test.stays(key, value.first)
    }
}

impl Tables {
    ghost use Rattle.std.specs.Prelude.{◌≡◌, ◌<◌, ◌≤◌, ◌⊎◌, ℕ, IfOk, length, true, false, Some, slice_get};
    ghost use Rattle.std.specs.FinMap as map;
    ghost use Rattle.fixed_tables.specs.Fixed.{left_by};
    ghost use Rattle.log_tables.specs.Kept.{flown, frames_taken, is_home, landed, nothing_kept, rested};
    ghost use Rattle.log_tables.specs.Versions.{Entry, Version};

    /// Nothing is kept. Takes all the memory that the tables will need: so many frames of a block each, and room for so many live blocks.
    pub fn new(alloc: Global, frames: u32, size: u32, places: u32) -> Result<Tables, NoMemory>
        requires frames { (1 ≤ frames) × (frames ≤ 4096) }
        requires size { (1 ≤ size) × (size ≤ 4096) }
        ensures { IfOk result (λ t. t ≡ nothing_kept size frames places) }
    {
        let pool = Pool::new(alloc, frames, size)?;
        let fresh = FixedTable::new(alloc, frames as usize)?;
        let flushed = FixedTable::new(alloc, frames as usize)?;
        let live = FixedTable::new(alloc, places as usize)?;
        Ok(Tables {
            pool,
            fresh,
            flushed,
            live,
            places,
            taken: 0,
        })
    }

    /// How many frames are taken.
    pub fn taken(&self) -> u32
        ensures { result ≡ frames_taken self.now }
    {
        self.taken
    }

    // ---- what was changed since the last flush began

    /// The block's change is dropped, if it has one.
    pub fn remove(&mut self, block: u64)
        ensures { self.new ≡ record self.old { fresh = map.remove self.old.fresh block } }
    {
        let Some(cell) = self.fresh.take(block) else {
            return;
        };
        self.taken -= 1;
        self.pool.give(cell.frame);
    }

    // The block, which had no change, has this one.
    fn put_new(&mut self, lock: LockName, block: u64, plain: bool, bytes: &[u8])
        requires whole { length bytes.now ≡ self.old.size }
        requires absent { map.contains_key self.old.fresh block ≡ false }
        requires room { frames_taken self.old < self.old.frames }
        ensures { self.new ≡ record self.old { fresh = map.insert self.old.fresh block (record { lock = lock; plain = plain; bytes = bytes.now }) } }
    {
        let frame = frame_with(&mut self.pool, bytes);
        let _ = self.fresh.put(block, Cell { lock, plain, frame });
        self.taken += 1;
    }

    /// The block has this change, in place of what it had. It costs a search, moves the rows behind the block, and copies the bytes.
    pub fn put(&mut self, lock: LockName, block: u64, plain: bool, bytes: &[u8])
        requires whole { length bytes.now ≡ self.old.size }
        requires room { frames_taken (record self.old { fresh = map.remove self.old.fresh block }) < self.old.frames }
        ensures { self.new ≡ record self.old { fresh = map.insert self.old.fresh block (record { lock = lock; plain = plain; bytes = bytes.now }) } }
    {
        self.remove(block);
        self.put_new(lock, block, plain, bytes);
    }

    // ---- the flush

    /// A flush begins with all that was changed. None was begun.
    pub fn begin(&mut self)
        requires { self.old.flushed ≡ map.empty }
        ensures { self.new ≡ record self.old { fresh = map.empty; flushed = self.old.fresh } }
    {
        std::mem::swap(&mut self.fresh, &mut self.flushed);
    }

    // The same, of a live block whose content isn't kept.
    fn land_new(&mut self, block: u64, first: u32)
        requires there { map.contains_key self.old.flushed block ≡ true }
        requires rests { (e : Entry) → map.get self.old.live block ≡ Some e → is_home e.way ≡ true }
        requires room { (map.contains_key self.old.live block ≡ true) ⊎ (map.len self.old.live < self.old.places) }
        ensures { (v : Version) → map.get self.old.flushed block ≡ Some v
            → self.new ≡ record self.old { flushed = map.remove self.old.flushed block; live = map.insert self.old.live block (landed v first) } }
    {
        let Some(cell) = self.flushed.take(block) else {
            return;
        };
        let _ = self.live.put(
            block,
            LiveCell {
                lock: cell.lock,
                first,
                hold: Hold::Away(cell.frame),
            },
        );
    }

    /// A block of the flush is live, in a transaction that begins at this place of the journal; what was live of it isn't any more.
    pub fn land(&mut self, block: u64, first: u32)
        requires there { map.contains_key self.old.flushed block ≡ true }
        requires room { (map.contains_key self.old.live block ≡ true) ⊎ (map.len self.old.live < self.old.places) }
        ensures { (v : Version) → map.get self.old.flushed block ≡ Some v
            → self.new ≡ record self.old { flushed = map.remove self.old.flushed block; live = map.insert self.old.live block (landed v first) } }
    {
        self.rest(block);
        self.land_new(block, first);
    }

    // ---- live blocks

    /// The content of the block, if it is live, is home, or isn't wanted there any more.
    pub fn rest(&mut self, block: u64)
        ensures { self.new ≡ record self.old { live = rested self.old.live block (map.get self.old.live block) } }
    {
        let Some(cell) = self.live.get(block) else {
            return;
        };
        let rests = LiveCell {
            lock: cell.lock,
            first: cell.first,
            hold: Hold::Home,
        };
        let Some(was) = self.live.put(block, rests) else {
            return;
        };
        if let Some(frame) = frame_in(was.hold) {
            self.taken -= 1;
            self.pool.give(frame);
        }
    }

    /// The content of the block, if it is live and away, is on its way home.
    pub fn fly(&mut self, block: u64)
        ensures { self.new ≡ record self.old { live = flown self.old.live block (map.get self.old.live block) } }
    {
        let Some(cell) = self.live.get(block) else {
            return;
        };
        let (lock, first) = (cell.lock, cell.first);
        let rests = LiveCell {
            lock,
            first,
            hold: Hold::Home,
        };
        let Some(was) = self.live.put(block, rests) else {
            return;
        };
        let hold = on_its_way(was.hold);
        let _ = self.live.put(block, LiveCell { lock, first, hold });
    }

    /// Only the live blocks that pass the test stay. Those that don't are home. It goes over all of them.
    pub fn keep<T: LiveTest>(&mut self, test: &T)
        requires home { (b : ℕ) (e : Entry) → map.get self.old.live b ≡ Some e → T.stays test.now b e.first ≡ false → is_home e.way ≡ true }
        ensures same { self.new ≡ record self.old { live = self.new.live } }
        ensures left { (b : ℕ) → map.get self.new.live b ≡ left_by (λ (e : Entry). T.stays test.now b e.first) (map.get self.old.live b) }
        ensures fewer { map.len self.new.live ≤ map.len self.old.live }
    {
        let by_first = ByFirst { test };
        self.live.keep(&by_first);
    }
}
