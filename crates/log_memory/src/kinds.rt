// How far a flush has come, and what it logs of a kind.
ghost use Rattle.std.specs.Prelude.{◌≡◌, ◌<◌, ℕ, map, length, slice_index};
ghost use Rattle.std.specs.FinMap as table;
ghost use Rattle.log_memory.specs.Rows.{row_of};

use log_tables::Tables;
use node_journal::Entries;

/// How far a flush has come.
#[derive(Clone, Copy, Debug, PartialEq, Eq)]
pub enum Stage {
    /// So many blocks of its chunks are written.
    Writing(u32),
    /// They are in the journal, and the header is next.
    Ending,
    /// The header is in flight, and told this tail.
    Headed(u32),
}

/// The blocks of a flush of one kind, by their places among all that it logs.
#[derive(Drop)]
pub(crate) struct Kind<'a> {
    pub tables: &'a Tables,
    pub places: &'a [u32],
    ghost inside: { (i : ℕ) → i < length places.now → slice_index places.now i < table.len tables.now.flushed },
}

impl<'a> Entries for Kind<'a> {
    ghost logged = { λ k. map (row_of k.tables.now) k.places.now };

    fn count(&self) -> usize {
        self.places.len()
    }

    fn block(&self, place: usize) -> u64 {
        self.tables.flushed_block(self.places[place] as usize)
    }

    fn bytes(&self, place: usize) -> &[u8] {
        self.tables.flushed_bytes(self.places[place] as usize)
    }
}
