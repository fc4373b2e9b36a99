// What the tables tell.
use crate::cells::Hold;
use crate::tables::Tables;
use glock_names::LockName;

/// Where the content of a live block is.
#[derive(Clone, Copy, Debug, PartialEq, Eq)]
pub enum Whereabouts {
    /// In its place on the disk.
    Home,
    /// Not there yet.
    Away,
    /// In flight there.
    Flying,
}

impl Tables {
    ghost use Rattle.std.specs.Prelude.{◌≡◌, ◌<◌, ℕ, IfSome, Some, length, option_map, option_copied, slice_get, count_by};
    ghost use Rattle.std.specs.FinMap as map;
    ghost use Rattle.log_tables.specs.Kept.{away_bytes, place_of_way};
    ghost use Rattle.log_tables.specs.Versions.{Entry, Version};

    /// Whether the block has a change that isn't flushed; and if so, whether it is content of a regular file.
    pub fn change_of(&self, block: u64) -> Option<bool>
        ensures { result ≡ option_map (λ (v : Version). v.plain) (map.get self.now.fresh block) }
    {
        match self.fresh.get(block) {
            Some(cell) => Some(cell.plain),
            None => None,
        }
    }

    /// Whether the flush that was begun logs the block.
    pub fn is_flushed(&self, block: u64) -> bool
        ensures { result ≡ map.contains_key self.now.flushed block }
    {
        self.flushed.get(block).is_some()
    }

    /// Whether the block is live.
    pub fn is_live(&self, block: u64) -> bool
        ensures { result ≡ map.contains_key self.now.live block }
    {
        self.live.get(block).is_some()
    }

    /// How many blocks have changes that aren't flushed.
    pub fn fresh_len(&self) -> usize
        ensures { result ≡ map.len self.now.fresh }
    {
        self.fresh.len()
    }

    /// Whether that at a place of their order is content of a regular file.
    pub fn fresh_is_plain(&self, place: usize) -> bool
        requires { place < map.len self.now.fresh }
        ensures { (e : ℕ × Version) → slice_get (map.entries self.now.fresh) place ≡ Some e → result ≡ e.1.plain }
    {
        self.fresh.row(place).1.plain
    }

    /// How many of these are content of regular files. It goes over them.
    pub fn fresh_content(&self) -> usize
        ensures { result ≡ count_by (λ (e : ℕ × Version). e.1.plain) (map.entries self.now.fresh) }
    {
        let mut count = 0;
        for place in 0..self.fresh_len() {
            if self.fresh_is_plain(place) {
                count += 1;
            }
        }
        count
    }

    // ---- the flush that was begun

    /// How many blocks it logs.
    pub fn flushed_len(&self) -> usize
        ensures { result ≡ map.len self.now.flushed }
    {
        self.flushed.len()
    }

    /// The block at a place of their order.
    pub fn flushed_block(&self, place: usize) -> u64
        requires { place < map.len self.now.flushed }
        ensures { (e : ℕ × Version) → slice_get (map.entries self.now.flushed) place ≡ Some e → result ≡ e.0 }
    {
        self.flushed.row(place).0
    }

    /// Whether it is content of a regular file.
    pub fn flushed_is_plain(&self, place: usize) -> bool
        requires { place < map.len self.now.flushed }
        ensures { (e : ℕ × Version) → slice_get (map.entries self.now.flushed) place ≡ Some e → result ≡ e.1.plain }
    {
        self.flushed.row(place).1.plain
    }

    /// Its bytes.
    pub fn flushed_bytes(&self, place: usize) -> &[u8]
        requires { place < map.len self.now.flushed }
        ensures bytes { (e : ℕ × Version) → slice_get (map.entries self.now.flushed) place ≡ Some e → result.now ≡ e.1.bytes }
        ensures whole { length result.now ≡ self.now.size }
    {
        self.pool.bytes(&self.flushed.row(place).1.frame)
    }

    // ---- live blocks

    /// How many blocks are live.
    pub fn live_len(&self) -> usize
        ensures { result ≡ map.len self.now.live }
    {
        self.live.len()
    }

    /// The block at a place of their order.
    pub fn live_block(&self, place: usize) -> u64
        requires { place < map.len self.now.live }
        ensures { (e : ℕ × Entry) → slice_get (map.entries self.now.live) place ≡ Some e → result ≡ e.0 }
    {
        self.live.row(place).0
    }

    /// The lock under which it was at its flush.
    pub fn live_lock(&self, place: usize) -> LockName
        requires { place < map.len self.now.live }
        ensures { (e : ℕ × Entry) → slice_get (map.entries self.now.live) place ≡ Some e → result ≡ e.1.lock }
    {
        self.live.row(place).1.lock
    }

    /// The place where its transaction begins.
    pub fn live_first(&self, place: usize) -> u32
        requires { place < map.len self.now.live }
        ensures { (e : ℕ × Entry) → slice_get (map.entries self.now.live) place ≡ Some e → result ≡ e.1.first }
    {
        self.live.row(place).1.first
    }

    /// Where its content is.
    pub fn live_whereabouts(&self, place: usize) -> Whereabouts
        requires { place < map.len self.now.live }
        ensures { (e : ℕ × Entry) → slice_get (map.entries self.now.live) place ≡ Some e → result ≡ place_of_way e.1.way }
    {
        match &self.live.row(place).1.hold {
            Hold::Home => Whereabouts::Home,
            Hold::Away(_) => Whereabouts::Away,
            Hold::Flying(_) => Whereabouts::Flying,
        }
    }

    /// Its content, where that is away.
    pub fn away_bytes(&self, place: usize) -> Option<&[u8]>
        requires { place < map.len self.now.live }
        ensures bytes { (e : ℕ × Entry) → slice_get (map.entries self.now.live) place ≡ Some e → option_copied result ≡ away_bytes e.1.way }
        ensures whole { IfSome result (λ b. length b.now ≡ self.now.size) }
    {
        match &self.live.row(place).1.hold {
            Hold::Home => None,
            Hold::Away(frame) => Some(self.pool.bytes(frame)),
            Hold::Flying(_) => None,
        }
    }
}
