// What a transaction logs of one kind.
ghost use Rattle.std.specs.Prelude.{◌≡◌, ◌<◌, List, Some, length, slice_get, map};
ghost use Rattle.log_layout.specs.Chunks.{Logged};
ghost use Rattle.journal_scan.specs.Said.{logged as said_of};

use drafts::Written;

/// Blocks that a transaction logs, of one kind, in their order: content of files, or metadata.
pub trait Entries {
    /// What they say.
    ghost logged: { Self → List Logged };

    /// How many there are.
    fn count(&self) -> usize
        ensures { result ≡ length (logged self.now) };

    /// The number of the block at a place of the order.
    fn block(&self, place: usize) -> u64
        requires { place < length (logged self.now) }
        ensures { (e : Logged) → slice_get (logged self.now) place ≡ Some e → result ≡ e.block };

    /// Its bytes.
    fn bytes(&self, place: usize) -> &[u8]
        requires { place < length (logged self.now) }
        ensures { (e : Logged) → slice_get (logged self.now) place ≡ Some e → result.now ≡ e.bytes };
}

/// Blocks of a transaction that were selected.
#[derive(Drop)]
pub(crate) struct Selected<'a> {
    pub blocks: Vec<&'a Written>,
}

impl<'a> Entries for Selected<'a> {
    ghost logged = { λ s. map (λ r. said_of r.now) s.blocks.items };

    fn count(&self) -> usize {
        self.blocks.len()
    }

    fn block(&self, place: usize) -> u64 {
        self.blocks[place].block
    }

    fn bytes(&self, place: usize) -> &[u8] {
        self.blocks[place].bytes.bytes()
    }
}
