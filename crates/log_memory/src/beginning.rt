// Whether a flush begins, and with what.
ghost use Rattle.std.specs.Prelude.{◌≡◌, ◌↔◌, ◌⊎◌, ℕ, IsTrue, None, Some, true, false};
ghost use Rattle.std.specs.FinMap as table;
ghost use Rattle.log_tables.specs.Versions.Way.{Home};
ghost use Rattle.log_values.specs.Log.{Entry};
ghost use Rattle.log_values.specs.Flushing.{AllAreHome, HasRoom, IsDue, NothingIsLive, begun, begun_alone};
ghost use Rattle.log_values.specs.Transactions.{due};
ghost use Rattle.log_memory.specs.Flushing.{Starts};

use crate::kinds::Stage;
use crate::lists::{list_blocks, list_kind};
use crate::log::Log;
use crate::places::has_free;
use crate::tails::is_home;
use node_journal::size_with;

/// What comes of a call for the next step, where no flush was begun.
#[derive(Clone, Copy, Debug, PartialEq, Eq)]
pub(crate) enum Beginning {
    /// Nothing is due.
    Nothing,
    /// There is no room for what is due.
    NoRoom,
    /// A flush was begun.
    Begun,
}

// Whether a change or a revoke isn't flushed.
fn is_due(log: &Log) -> bool
    ensures yes { result ≡ true → IsDue log.now }
    ensures no { result ≡ false → IsDue log.now → ⊥ }
{
    log.tables.fresh_len() > 0 || log.gone.len() > 0
}

// Whether there is room for all that is due. It goes over the changes.
fn has_room(log: &Log) -> bool
    ensures room { IsTrue result ↔ HasRoom log.now (due log.now) }
    ensures empty { log.now.flush ≡ None → NothingIsLive log.now → IsTrue result }
{
    let content = log.tables.fresh_content();
    let metadata = log.tables.fresh_len() - content;
    let revokes = log.gone.len();
    let blocks = size_with(
        content as u32,
        metadata as u32,
        revokes as u32,
        log.journal.block_size,
    );
    has_free(log, blocks)
}

// Whether all that is live is home.
fn all_are_home(log: &Log) -> bool
    ensures home { result ≡ true → AllAreHome log.now }
    ensures away { result ≡ false → AllAreHome log.now → ⊥ }
{
    for place in 0..log.tables.live_len() {
        if !is_home(&log.tables, place) {
            return false;
        }
    }
    true
}

// A flush begins with all that is due.
fn begin(log: &mut Log)
    requires none { log.old.flush ≡ None }
    requires due { IsDue log.old }
    requires room { HasRoom log.old (due log.old) }
    ensures { log.new ≡ begun log.old }
{
    log.tables.begin();
    std::mem::swap(&mut log.gone, &mut log.revoked);
    list_blocks(&log.revoked, &mut log.revokes);
    list_kind(&log.tables, true, &mut log.content);
    list_kind(&log.tables, false, &mut log.metadata);
    log.stage = Some(Stage::Writing(0));
}

// A flush begins that has a header alone.
fn begin_alone(log: &mut Log)
    requires none { log.old.flush ≡ None }
    requires home { AllAreHome log.old }
    requires some { NothingIsLive log.old → ⊥ }
    requires no_more { IsDue log.old → HasRoom log.old (due log.old) → ⊥ }
    ensures { log.new ≡ begun_alone log.old }
{
    log.stage = Some(Stage::Ending);
}

// Whether something is due for which there is room.
fn fits(log: &Log) -> bool
    ensures yes { result ≡ true → IsDue log.now × HasRoom log.now (due log.now) }
    ensures no { result ≡ false → IsDue log.now → HasRoom log.now (due log.now) → ⊥ }
    ensures empty { result ≡ false → IsDue log.now → log.now.flush ≡ None → NothingIsLive log.now → ⊥ }
{
    is_due(log) && has_room(log)
}

// Whether a header alone would move the tail, and nothing is to go home first.
fn is_end_due(log: &Log) -> bool
    ensures yes { result ≡ true → AllAreHome log.now × (NothingIsLive log.now → ⊥) }
    ensures no { result ≡ false → NothingIsLive log.now ⊎ (AllAreHome log.now → ⊥) }
{
    log.tables.live_len() > 0 && all_are_home(log)
}

/// A flush begins, if one is due and there is room for it. It goes over the changes and the live blocks.
pub(crate) fn start(log: &mut Log) -> Beginning
    requires { log.old.flush ≡ None }
    ensures { Starts log.old log.new result }
{
    if fits(log) {
        begin(log);
        return Beginning::Begun;
    }
    if is_end_due(log) {
        begin_alone(log);
        return Beginning::Begun;
    }
    if is_due(log) {
        Beginning::NoRoom
    } else {
        Beginning::Nothing
    }
}
