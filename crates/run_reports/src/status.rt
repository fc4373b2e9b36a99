ghost use Rattle.std.specs.Prelude.{◌≡◌};
ghost use Rattle.run_reports.specs.StatusText.{status_number};

use glock_names::Waits;
use image_mount::Field;

/// One of the two sinks.
#[derive(Clone, Copy, Debug, PartialEq, Eq)]
pub enum WhichSink {
    Trace,
    Out,
}

/// What is not built yet: this form of words, or this line of a script.
#[derive(Clone, Copy, Debug, PartialEq, Eq)]
pub enum Unbuilt {
    Words,
    Script { line: u32 },
}

/// How a command ended.
#[derive(Drop)]
pub enum Status {
    /// The input was read to its end, and every line answered.
    Done,
    /// The words are no command; the place is that of the first wrong word, from 1.
    Usage {
        word: u32,
    },
    /// The script is none; line and column are those of the first wrong word, from 1.
    BadScript {
        line: u32,
        column: u32,
    },
    /// A field of the image is outside the profile.
    NotProfile {
        field: Field,
        value: u64,
    },
    /// A block breaks a rule.
    Damaged {
        block: u64,
        rule: u16,
    },
    /// The disk's count of faults for the run rose from `before` to `after`, at this block where there is one.
    DeviceFault {
        node: u8,
        block: Option<u64>,
        before: u64,
        after: u64,
    },
    /// The script's source failed: its count of faults rose from `before` to `after`.
    ScriptFault {
        before: u64,
        after: u64,
    },
    /// A sink failed: its count of faults rose from `before` to `after`.
    SinkFault {
        which: WhichSink,
        before: u64,
        after: u64,
    },
    NoMemory,
    /// All steps that were allowed are spent, and work is left.
    StepsSpent {
        steps: u64,
    },
    /// Work is left, and nothing can go on.
    Stuck {
        waits: Vec<Waits>,
    },
    /// The image has fewer blocks than it needs.
    TooSmall {
        needed: u64,
        found: u64,
    },
    /// This is not built yet.
    NotBuilt {
        part: Unbuilt,
    },
}

impl Status {
    /// The number that a program ends with: 0 where all was done.
    pub fn number(&self) -> u8
        ensures { result ≡ status_number self.now }
    {
        match self {
            Status::Done => 0,
            Status::Usage { .. } => 1,
            Status::BadScript { .. } => 2,
            Status::NotProfile { .. } => 3,
            Status::Damaged { .. } => 4,
            Status::DeviceFault { .. } => 5,
            Status::ScriptFault { .. } => 6,
            Status::SinkFault { .. } => 7,
            Status::NoMemory => 8,
            Status::StepsSpent { .. } => 9,
            Status::Stuck { .. } => 10,
            Status::TooSmall { .. } => 11,
            Status::NotBuilt { .. } => 20,
        }
    }
}
