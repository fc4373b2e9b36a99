// Neighbouring pointers of a table that are set in a draft.
ghost use Rattle.std.specs.Prelude.{ℕ, ◌≡◌, ◌+◌, ◌^◌, ◌≤◌, Contains, OnOk};
ghost use Rattle.drafts.specs.Fates.{seen_in};
ghost use Rattle.gfs2_layout.specs.Holding.{Holding};
ghost use Rattle.pointer_tables.specs.Directories.{IsPlaced, IsTreeSound};
ghost use Rattle.table_files.specs.TreePointers.{IsTableOf};
ghost use Rattle.table_changes.specs.Setting.{AreRuns, IsSeenRun, IsSetIn, PutsRuns, counted};

use crate::finding::Run;
use crate::putting::put_pointers;
use drafts::Draft;
use glock_names::View;
use no_memory::NoMemory;
use table_files::TreeTable;

/// Makes the pointers of a table's runs lead to a leaf. Of each directory that the draft showed with this table, and that has these runs one
/// behind another, it then shows the directory with these pointers set and all else as it was. It costs two copies of each run's block.
pub(crate) fn set_runs<V: View>(
    draft: &mut Draft<'_, V>,
    table: TreeTable,
    runs: &[Run],
    leaf: u64,
) -> Result<(), NoMemory>
    requires seen { (run : Run) → Contains runs.now run → IsSeenRun (seen_in V.seen draft.old) run }
    ensures set { (h : Holding) (from : ℕ) → IsTableOf table (seen_in V.seen draft.old) h → IsTreeSound h → IsPlaced h → AreRuns h from runs.now → from + counted runs.now ≤ 2 ^ table.depth
        → OnOk result (IsSetIn V.seen draft.old draft.new table h from (counted runs.now) leaf) }
    ensures parts { OnOk result (PutsRuns draft.old.fates draft.new.fates runs.now) }
    ensures view { draft.new.view ≡ draft.old.view }
{
    for run in runs {
        put_pointers(
            draft,
            table.directory,
            run.block,
            run.start,
            run.count,
            leaf,
        )?;
    }
    Ok(())
}
