// The blocks of one kind.
ghost use Rattle.std.specs.Prelude.{◌≡◌, map, filter, not, if◌then◌else◌, IfOk};
ghost use Rattle.log_layout.specs.Chunks.{Logged};
ghost use Rattle.journal_scan.specs.Said.{logged};

use drafts::Written;
use no_memory::NoMemory;
use std::alloc::Global;

/// The blocks that are content of files, or those that aren't.
pub(crate) fn select<'a>(
    alloc: Global,
    blocks: &'a [Written],
    plain: bool,
) -> Result<Vec<&'a Written>, NoMemory>
    ensures { IfOk result (λ chosen. map (λ r. logged r.now) chosen.items ≡ filter (λ (e : Logged). if plain then e.plain else not e.plain) (map logged blocks.now)) }
{
    let mut chosen = Vec::new(alloc);
    for written in blocks {
        if written.plain == plain {
            chosen.push(written)?;
        }
    }
    Ok(chosen)
}
