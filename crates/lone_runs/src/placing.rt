// Whether a node may have a journal on a disk.
ghost use Rattle.std.specs.Prelude.{ℕ, ◌≡◌, ◌<◌, ◌≤◌, ◌↔◌, IfOk, IsTrue};
ghost use Rattle.std.specs.List.{All};
ghost use Rattle.std.specs.List.Sorted.{IsStrictlyIncreasing};
ghost use Rattle.gfs2_layout.specs.Device.{IsBlockSize};
ghost use Rattle.log_layout.specs.declared.log_header.LogHeader.{LogHeader};
ghost use Rattle.mounted_views.specs.Views.{journal_of};
ghost use Rattle.profile_limits.specs.Limits.{most_frames};
ghost use Rattle.lone_runs.specs.Beginning.{MayHave};
ghost use Rattle.lone_runs.specs.Placing.{AreApart};

use image_mount::JournalMap;
use no_memory::NoMemory;
use profile_limits::{LEAST_JOURNAL_BLOCKS, MOST_JOURNAL_BLOCKS};
use std::alloc::Global;

/// The place of a journal's last header, and its sequence.
#[derive(Clone, Copy, Debug)]
pub(crate) struct LastHead {
    pub place: u32,
    pub sequence: u64,
}

fn are_below(blocks: &[u64], count: u64) -> bool
    ensures { IsTrue result ↔ All (λ b. b < count) blocks.now }
{
    blocks.iter().all(|block| *block < count)
}

// Whether each of these numbers is above the one before it.
fn rise(blocks: &[u64]) -> bool
    ensures { IsTrue result ↔ IsStrictlyIncreasing blocks.now }
{
    for place in 1..blocks.len() {
        if blocks[place] <= blocks[place - 1] {
            return false;
        }
    }
    true
}

// Whether no two of these numbers are one.
fn are_apart(alloc: Global, blocks: &[u64]) -> Result<bool, NoMemory>
    ensures { IfOk result (λ apart. IsTrue apart ↔ AreApart blocks.now) }
{
    let mut sorted = Vec::from_slice(alloc, blocks)?;
    sorted.sort_unstable();
    Ok(rise(&sorted))
}

/// Whether a node of a disk of so many blocks may have this journal, with its last header here. It takes memory for a copy of its places, and sorts them.
pub(crate) fn may_have(
    alloc: Global,
    own: &JournalMap,
    head: LastHead,
    count: u64,
) -> Result<bool, NoMemory>
    ensures { IfOk result (λ may. (size frames time : ℕ) (header : LogHeader) → IsBlockSize size → frames ≤ most_frames → header.blkno ≡ head.place → header.sequence ≡ head.sequence
        → IsTrue may ↔ MayHave count (journal_of size frames time own.now) header) }
{
    let places = own.blocks.len();
    if places < LEAST_JOURNAL_BLOCKS as usize || places > MOST_JOURNAL_BLOCKS as usize {
        return Ok(false);
    }
    if head.place as usize >= places || head.sequence > 1 << 63 {
        return Ok(false);
    }
    if own.dinode >= count || !are_below(&own.blocks, count) {
        return Ok(false);
    }
    are_apart(alloc, &own.blocks)
}
