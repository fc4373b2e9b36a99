// Node 1 begins: with the first journal, if that is one that it may have.
ghost use Rattle.std.specs.Prelude.{ℕ, ◌≡◌, ◌<◌, ◌≤◌, ◌^◌, IfErr, IfOk, length};
ghost use Rattle.gfs2_layout.specs.Device.{IsBlockSize};
ghost use Rattle.log_memory.specs.Journals.{journal_in};
ghost use Rattle.mounted_views.specs.Views.{journal_of};
ghost use Rattle.profile_limits.specs.Limits.{most_frames};
ghost use Rattle.lone_runs.specs.Beginning.{IsNew, MayHave, its_head};
ghost use Rattle.lone_runs.specs.Runs.{MayNotBegin};

use crate::ends::RunEnd;
use crate::placing::{LastHead, may_have};
use image_mount::JournalMap;
use journal_replays::Plan;
use log_memory::Journal;
use logged_scripts::{Node, begin_node};
use lone_view::LoneView;
use no_memory::NoMemory;
use shared_disk::SharedDisk;
use std::alloc::Global;

// The head that node 1's journal has once it is replayed.
fn head_behind(own: &JournalMap, plan: &Plan) -> LastHead
    ensures place { (size time : ℕ) → (its_head size time own.now plan.now).blkno ≡ result.place }
    ensures sequence { (size time : ℕ) → (its_head size time own.now plan.now).sequence ≡ result.sequence }
{
    match &plan.clean {
        Some(header) => LastHead {
            place: header.blkno,
            sequence: header.sequence,
        },
        None => LastHead {
            place: own.head.blkno,
            sequence: own.head.sequence,
        },
    }
}

// Its journal, for a log of so many frames and headers of this time.
fn own_journal(
    alloc: Global,
    own: &JournalMap,
    block_size: u32,
    frames: u32,
    time: u64,
) -> Result<Journal, NoMemory>
    requires { length own.now.blocks < 2 ^ 32 }
    ensures { IfOk result (λ journal. journal_in journal ≡ journal_of block_size frames time own.now) }
{
    Ok(Journal {
        jid: 0,
        length: own.blocks.len() as u32,
        places: Vec::from_slice(alloc, &own.blocks)?,
        block_size,
        frames,
        jinode: own.dinode,
        time,
    })
}

/// Node 1 as it begins on a mounted image, with what it sees of it, its journal, which was mounted, and the plan of that one's replay; its log is empty, with so many frames, behind the head that the journal has
/// then. Only on a disk where it may have this journal. It takes memory for two copies of the journal's places, one of which is sorted, and what `begin_node` takes.
pub(crate) fn begin<D: SharedDisk>(
    alloc: Global,
    disk: &D,
    view: LoneView,
    own: &JournalMap,
    plan: &Plan,
    frames: u32,
    time: u64,
) -> Result<Node, RunEnd>
    requires size { IsBlockSize (D.state disk.now).size }
    requires some { 1 ≤ frames }
    requires few { frames ≤ most_frames }
    ensures new { IfOk result (λ n. IsNew view (journal_of (D.state disk.now).size frames time own.now) (its_head (D.state disk.now).size time own.now plan.now) n) }
    ensures has { IfOk result (λ n. MayHave (D.state disk.now).count (journal_of (D.state disk.now).size frames time own.now) (its_head (D.state disk.now).size time own.now plan.now)) }
    ensures not { IfErr result (MayNotBegin (D.state disk.now).count (D.state disk.now).size time frames own.now plan.now) }
{
    let head = head_behind(own, plan);
    if !may_have(alloc, own, head, disk.blocks())? {
        return Err(RunEnd::Misplaced { dinode: own.dinode });
    }
    let journal = own_journal(alloc, own, disk.block_size(), frames, time)?;
    let items = Vec::new(alloc);
    let node = begin_node(alloc, view, journal, head.place, head.sequence, items, None)?;
    Ok(node)
}
