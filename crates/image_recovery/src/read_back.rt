// The clean headers of a replay are read from their blocks as they are written, since their numbers have the widths of their types. This says so before any
// is written; nothing is done.
ghost use Rattle.std.specs.Prelude.{◌<◌, IfSome, Some, length};
ghost use Rattle.gfs2_layout.specs.Device.{IsBlockSize};
ghost use Rattle.shared_disk.specs.Disk.{DiskState};
ghost use Rattle.log_layout.specs.declared.log_header.LogHeader.{LogHeader as HeaderValue};
ghost use Rattle.journal_replays.specs.Headers.{IsHeaderRead};
ghost use Rattle.image_recovery.specs.Recoveries.{AreHeadersRead, CanReplayAll};

use image_mount::JournalMap;
use journal_replays::Plan;
use log_layout::{LogHeader, headers_read_back};

// A law of this header: it is read from its block of so many bytes as it was written there.
fn header_is_read(size: u32, slot: u8, dinode: u64, blocks: &[u64], header: &LogHeader, time: u64)
    requires size { IsBlockSize size }
    requires place { header.now.blkno < length blocks.now }
    ensures { IsHeaderRead size slot dinode blocks.now time (Some header.now) }
{
    headers_read_back();
    let _sequence = header.sequence;
    let _tail = header.tail;
    let _block = blocks[header.blkno as usize];
}

// So of the header of a plan, if it has one.
fn plan_is_read(size: u32, slot: u8, dinode: u64, blocks: &[u64], plan: &Plan, time: u64)
    requires size { IsBlockSize size }
    requires place { IfSome plan.now.clean (λ (h : HeaderValue). h.blkno < length blocks.now) }
    ensures { IsHeaderRead size slot dinode blocks.now time plan.now.clean }
{
    if let Some(header) = &plan.clean {
        header_is_read(size, slot, dinode, blocks, header, time);
    }
}

// So of the headers of all plans: a step for each.
pub(crate) fn headers_are_read(size: u32, journals: &[JournalMap], plans: &[Plan], time: u64)
    requires size { IsBlockSize size }
    requires few { length plans.now < 256 }
    requires can { (d : DiskState) × CanReplayAll d journals.now plans.now }
    ensures { AreHeadersRead size 1 time journals.now plans.now }
{
    for (place, plan) in plans.iter().enumerate() {
        let journal = &journals[place];
        plan_is_read(
            size,
            place as u8 + 1,
            journal.dinode,
            &journal.blocks,
            plan,
            time,
        );
    }
}
