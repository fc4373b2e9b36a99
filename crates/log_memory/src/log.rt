// The log and its making.
ghost use Rattle.std.specs.Prelude.{◌≡◌, IfOk};
ghost use Rattle.log_memory.specs.Empty.{IsEmptyList, no_rows};

use crate::journal::Journal;
use crate::kinds::Stage;
use fixed_tables::FixedTable;
use log_tables::Tables;
use no_memory::NoMemory;
use std::alloc::Global;
use std::marker::Model;

/// A node's log. All its memory was taken when it was made: no call but `new` takes any.
#[derive(Drop)]
pub struct Log {
    pub(crate) journal: Journal,
    pub(crate) head: u32,
    pub(crate) tail: u32,
    pub(crate) sequence: u64,
    pub(crate) clean: bool,
    pub(crate) tables: Tables,
    pub(crate) gone: FixedTable<()>,
    // of the flush that was begun: how far it has come, what it revokes, and the places of its rows of each kind
    pub(crate) stage: Option<Stage>,
    pub(crate) revoked: FixedTable<()>,
    pub(crate) revokes: Vec<u64>,
    pub(crate) content: Vec<u32>,
    pub(crate) metadata: Vec<u32>,
}

impl Model for Log {
    ghost use Rattle.log_values.specs.Log.{LogValue, log_code};

    ghost Value = { LogValue };

    ghost coded = { log_code };

    ghost use Rattle.log_memory.specs.Inside.{IsLog, log_in};

    ghost view = { log_in };

    ghost invariant = { IsLog };
}

// The blocks that are to be revoked, and those that the flush revokes that was begun.
#[derive(Drop)]
struct Sets {
    gone: FixedTable<()>,
    revoked: FixedTable<()>,
}

// Of the flush that was begun what it revokes, and the places of its rows of each kind.
#[derive(Drop)]
struct Lists {
    revokes: Vec<u64>,
    content: Vec<u32>,
    metadata: Vec<u32>,
}

// Both sets are empty, and have room for so many blocks.
fn empty_sets(alloc: Global, most: usize) -> Result<Sets, NoMemory>
    ensures gone { IfOk result (λ s. s.gone ≡ no_rows most) }
    ensures revoked { IfOk result (λ s. s.revoked ≡ no_rows most) }
{
    let gone = FixedTable::new(alloc, most)?;
    let revoked = FixedTable::new(alloc, most)?;
    Ok(Sets { gone, revoked })
}

// The lists are empty, and have room for so many revokes, and for so many rows of each kind.
fn empty_lists(alloc: Global, most_revokes: usize, most: usize) -> Result<Lists, NoMemory>
    ensures revokes { IfOk result (λ l. IsEmptyList l.revokes most_revokes) }
    ensures content { IfOk result (λ l. IsEmptyList l.content most) }
    ensures metadata { IfOk result (λ l. IsEmptyList l.metadata most) }
{
    let revokes = Vec::with_capacity(alloc, most_revokes)?;
    let content = Vec::with_capacity(alloc, most)?;
    let metadata = Vec::with_capacity(alloc, most)?;
    Ok(Lists {
        revokes,
        content,
        metadata,
    })
}

impl Log {
    ghost use Rattle.std.specs.Prelude.{◌≡◌, ◌<◌, ◌≤◌, IfOk};
    ghost use Rattle.log_values.specs.Laws.{IsJournal, empty_log};
    ghost use Rattle.log_memory.specs.Journals.{journal_in};

    /// An empty log of a journal whose last header is at this place, of this sequence, and is a clean one. Takes all the memory that the log will need.
    pub fn new(alloc: Global, journal: Journal, head: u32, sequence: u64) -> Result<Log, NoMemory>
        requires journal { IsJournal (journal_in journal) }
        requires frames { 1 ≤ journal.frames }
        requires head { head < journal.length }
        ensures { IfOk result (λ l. l ≡ empty_log (journal_in journal) head sequence) }
    {
        let tables = Tables::new(alloc, journal.frames, journal.block_size, journal.length)?;
        let frames = journal.frames as usize;
        let most_revokes = frames + journal.length as usize;
        let Sets { gone, revoked } = empty_sets(alloc, most_revokes)?;
        let Lists {
            revokes,
            content,
            metadata,
        } = empty_lists(alloc, most_revokes, frames)?;
        Ok(Log {
            journal,
            head,
            tail: head,
            sequence,
            clean: true,
            tables,
            gone,
            stage: None,
            revoked,
            revokes,
            content,
            metadata,
        })
    }
}
