// What a node asks of its log before it flushes, takes blocks home or unmounts.
use crate::log::Log;

impl Log {
    ghost use Rattle.std.specs.Prelude.{◌≡◌, ◌≢◌, ◌↔◌, true, false, [], None};
    ghost use Rattle.log_values.specs.Flushing.{AllAreHome, IsDue, NothingIsLive};
    ghost use Rattle.log_values.specs.Transactions.{due};

    /// Whether a block was changed that no flush has begun with. It costs no search.
    pub fn has_changes(&self) -> bool
        ensures { result ≡ true ↔ ((due self.now).blocks ≢ []) }
    {
        self.tables.fresh_len() > 0
    }

    /// Whether a block is to be revoked that no flush has begun with, as one may be once a lock went down. It costs no search.
    pub fn has_revokes(&self) -> bool
        ensures { result ≡ true ↔ ((due self.now).revokes ≢ []) }
    {
        self.gone.len() > 0
    }

    /// Whether something was changed or is to be revoked that no flush has begun with. It costs no search.
    pub fn has_due(&self) -> bool
        ensures { result ≡ true ↔ IsDue self.now }
    {
        self.has_changes() || self.has_revokes()
    }

    /// Whether a flush was begun that isn't in the journal yet. It costs no search.
    pub fn is_flushing(&self) -> bool
        ensures { result ≡ false ↔ self.now.flush ≡ None }
    {
        self.stage.is_some()
    }

    /// Whether each live block is home: none is away, nor on its way. It costs no search.
    pub fn is_all_home(&self) -> bool
        ensures { result ≡ true ↔ AllAreHome self.now }
    {
        let changed = self.tables.fresh_len() + self.tables.flushed_len();
        self.tables.taken() as usize == changed
    }

    /// Whether the journal has blocks that are live. It costs no search.
    pub fn has_live(&self) -> bool
        ensures { result ≡ false ↔ NothingIsLive self.now }
    {
        self.tables.live_len() > 0
    }

    /// Whether nothing was flushed to the journal since its clean header.
    pub fn is_clean(&self) -> bool
        ensures { result ≡ self.now.clean }
    {
        self.clean
    }

    /// The sequence of the journal's head. It costs no search.
    pub fn sequence(&self) -> u64
        ensures { result ≡ self.now.sequence }
    {
        self.sequence
    }
}
