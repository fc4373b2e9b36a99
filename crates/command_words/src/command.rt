ghost use Rattle.std.specs.Prelude.{◌≡◌};
ghost use Rattle.command_words.specs.Commands.{steps_of, frames_of};

/// How many items a trace has at most where `--steps` is not given.
pub const DEFAULT_STEPS: u64 = 1_000_000;

/// How many frames a node has where `--frames` is not given.
pub const DEFAULT_FRAMES: u32 = 1024;

/// An image to make: how many journals, of how many blocks, and resource groups it has, its identifier, and the time of
/// its files. What was not given has its default.
#[derive(Clone, Copy, Debug, PartialEq, Eq)]
pub struct MakeWords {
    pub journals: u32,
    pub journal_blocks: u32,
    pub groups: u32,
    pub uuid: [u8; 16],
    pub time: u64,
}

/// A run: the number of its schedule, how many items its trace has at most, the time of the files it makes, and how many
/// frames each node has. `None` is what was not given.
#[derive(Clone, Copy, Debug, PartialEq, Eq)]
pub struct RunWords {
    pub schedule: Option<u64>,
    pub steps: Option<u64>,
    pub time: u64,
    pub frames: Option<u32>,
}

/// A script to make and to run: its number, and how many items the trace has at most, if that was given.
#[derive(Clone, Copy, Debug, PartialEq, Eq)]
pub struct LoadWords {
    pub number: u64,
    pub steps: Option<u64>,
}

/// What the words ask for.
#[derive(Clone, Copy, Debug, PartialEq, Eq)]
pub enum Command {
    Make(MakeWords),
    Run(RunWords),
    Replay,
    Show,
    Load(LoadWords),
}

/// The words are none of the forms: this word, counted from 1 at the command, cannot stand where it is, or is missing.
#[derive(Clone, Copy, Debug, PartialEq, Eq)]
pub struct Usage {
    pub word: u32,
}

impl RunWords {
    /// How many items the trace has at most.
    pub fn steps_or_default(&self) -> u64
        ensures { result ≡ steps_of self.now.steps }
    {
        self.steps.unwrap_or(DEFAULT_STEPS)
    }

    /// How many frames each node has.
    pub fn frames_or_default(&self) -> u32
        ensures { result ≡ frames_of self.now.frames }
    {
        self.frames.unwrap_or(DEFAULT_FRAMES)
    }
}

impl LoadWords {
    /// How many items the trace has at most.
    pub fn steps_or_default(&self) -> u64
        ensures { result ≡ steps_of self.now.steps }
    {
        self.steps.unwrap_or(DEFAULT_STEPS)
    }
}
