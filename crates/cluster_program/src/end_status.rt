// How a command ends whose part ended early.
ghost use Rattle.std.specs.Prelude.{◌≡◌, ◌+◌, ◌<◌, ◌^◌};
ghost use Rattle.cluster_program.specs.EndStatuses.{IfOfScript, IsPlacedEnd, status_of_look, status_of_mount, status_of_run, status_of_script as status_of_script_end, status_of_tree};

use disk_trees::TreeFault;
use fault_counts::Rise;
use image_mount::MountFault;
use image_replays::LookFault;
use kept_profiles::{RunEnd, ScriptEnd};
use run_reports::{Status, Unbuilt};

/// One whose mount failed.
pub(crate) fn not_mounted(fault: MountFault) -> Status
    ensures { result ≡ status_of_mount fault }
{
    match fault {
        MountFault::NotProfile { field, value } => Status::NotProfile { field, value },
        MountFault::Damaged { block, rule } => Status::Damaged { block, rule },
        MountFault::DeviceFault {
            block,
            before,
            after,
        } => Status::DeviceFault {
            node: 0,
            block: Some(block),
            before,
            after,
        },
        MountFault::NoMemory => Status::NoMemory,
    }
}

/// One whose journals could not be planned.
pub(crate) fn not_planned(fault: LookFault) -> Status
    ensures { result ≡ status_of_look fault }
{
    match fault {
        LookFault::Damaged { block, rule } => Status::Damaged { block, rule },
        LookFault::DiskFailed { block, rise } => Status::DeviceFault {
            node: 0,
            block: Some(block),
            before: rise.before,
            after: rise.after,
        },
        LookFault::NoMemory => Status::NoMemory,
    }
}

/// A rise of the count of faults of this node, at this block where there is one.
pub(crate) fn device_fault(node: u8, block: Option<u64>, rise: Rise) -> Status
    ensures { result ≡ Status.DeviceFault node block rise.before rise.after }
{
    Status::DeviceFault {
        node,
        block,
        before: rise.before,
        after: rise.after,
    }
}

// The line at this place isn't built; the first line that is run has the number `first` in its text.
fn unbuilt_line(first: u32, place: usize) -> Status
    requires { first + place < 2 ^ 32 }
    ensures { result ≡ Status.NotBuilt (Unbuilt.Script (first + place)) }
{
    Status::NotBuilt {
        part: Unbuilt::Script {
            line: first + place as u32,
        },
    }
}

// One whose script was carried out so far.
fn status_of_script(first: u32, end: ScriptEnd) -> Status
    requires { IsPlacedEnd (λ line. first + line < 2 ^ 32) end }
    ensures { result ≡ status_of_script_end first end }
{
    match end {
        ScriptEnd::ReadFailed { block, rise } => device_fault(1, Some(block), rise),
        ScriptEnd::WriteFailed { block, rise } => device_fault(1, block, rise),
        ScriptEnd::NotFenced { rise } => device_fault(0, None, rise),
        ScriptEnd::HeadUnread { block, rise } => device_fault(0, Some(block), rise),
        ScriptEnd::Damaged { block, rule } => Status::Damaged { block, rule },
        ScriptEnd::NotBuilt { line }
        | ScriptEnd::LogTooSmall { line }
        | ScriptEnd::NotLoggable { line } => unbuilt_line(first, line),
        ScriptEnd::NoMemory => Status::NoMemory,
    }
}

/// One that has a journal, with its dinode in this block, such as none can be: a block of it has two owners.
pub(crate) fn misplaced(dinode: u64) -> Status
    ensures { result ≡ Status.Damaged dinode 3 }
{
    Status::Damaged {
        block: dinode,
        rule: 3,
    }
}

/// One whose run ended so; the first line that is run has the number `first` in its text.
pub(crate) fn status_of_end(first: u32, end: RunEnd) -> Status
    requires { IfOfScript end (IsPlacedEnd (λ line. first + line < 2 ^ 32)) }
    ensures { result ≡ status_of_run first end }
{
    match end {
        RunEnd::Misplaced { dinode } => misplaced(dinode),
        RunEnd::ReplayFailed { block, rise } => device_fault(1, block, rise),
        RunEnd::Script(end) => status_of_script(first, end),
    }
}

/// One whose tree wasn't read.
pub(crate) fn not_read(fault: TreeFault) -> Status
    ensures { result ≡ status_of_tree fault }
{
    match fault {
        TreeFault::Damaged { block, rule } => Status::Damaged { block, rule },
        TreeFault::DiskFailed { block, rise } => Status::DeviceFault {
            node: 0,
            block: Some(block),
            before: rise.before,
            after: rise.after,
        },
        TreeFault::NoMemory => Status::NoMemory,
    }
}
