ghost use Rattle.std.specs.Prelude.{◌≡◌, ◌+◌, ◌*◌, ◌≤◌, ℕ, List, [], map, Ok, Err, None, Option, option_map, MatchResult, is_some, IfSome};
ghost use Rattle.std.specs.String.{string_bytes};
ghost use Rattle.command_words.specs.Options.{Given, row_named, row_left, options_read};
ghost use Rattle.command_words.specs.Commands.{make_options, run_options, load_options, make_of, run_of, load_of};
ghost use Rattle.command_words.specs.Kept.{row_of, options_of, kept, kept_put, Keeps, count_of};

use crate::command::{LoadWords, MakeWords, RunWords, Usage};
use crate::words::{first_word, identifier, size_number, small_number};
use number_words::number_word;
use profile_limits::{
    LEAST_FRAMES, LEAST_JOURNAL_BLOCKS, MOST_FRAMES, MOST_GROUPS, MOST_JOURNAL_BLOCKS,
    MOST_JOURNALS,
};

pub(crate) const LARGEST: u64 = 9_223_372_036_854_775_807;

const STEP_LIMIT: u64 = 10_000_000;

// The options of all commands.
#[derive(Clone, Copy)]
pub(crate) enum Opt {
    Bsize,
    Journals,
    JournalBlocks,
    Groups,
    Uuid,
    Time,
    Schedule,
    Steps,
    Frames,
}

// The commands by the options that they have.
#[derive(Clone, Copy)]
pub(crate) enum Kind {
    Make,
    Run,
    Load,
    Bare,
}

// The values of the options that were given.
#[derive(Clone, Copy)]
pub(crate) struct Options {
    pub bsize: Option<u32>,
    pub journals: Option<u32>,
    pub journal_blocks: Option<u32>,
    pub groups: Option<u32>,
    pub uuid: Option<[u8; 16]>,
    pub time: Option<u64>,
    pub schedule: Option<u64>,
    pub steps: Option<u64>,
    pub frames: Option<u32>,
}

fn make_option(name: &[u8]) -> Option<Opt>
    ensures { row_named name.now make_options ≡ option_map row_of result }
{
    if name == b"--bsize".as_slice() {
        Some(Opt::Bsize)
    } else if name == b"--journals".as_slice() {
        Some(Opt::Journals)
    } else if name == b"--journal-blocks".as_slice() {
        Some(Opt::JournalBlocks)
    } else if name == b"--groups".as_slice() {
        Some(Opt::Groups)
    } else if name == b"--uuid".as_slice() {
        Some(Opt::Uuid)
    } else if name == b"--time".as_slice() {
        Some(Opt::Time)
    } else {
        None
    }
}

fn run_option(name: &[u8]) -> Option<Opt>
    ensures { row_named name.now run_options ≡ option_map row_of result }
{
    if name == b"--schedule".as_slice() {
        Some(Opt::Schedule)
    } else if name == b"--steps".as_slice() {
        Some(Opt::Steps)
    } else if name == b"--time".as_slice() {
        Some(Opt::Time)
    } else if name == b"--frames".as_slice() {
        Some(Opt::Frames)
    } else {
        None
    }
}

fn load_option(name: &[u8]) -> Option<Opt>
    ensures { row_named name.now load_options ≡ option_map row_of result }
{
    if name == b"--steps".as_slice() {
        Some(Opt::Steps)
    } else {
        None
    }
}

// The option of this name that the command has.
fn option_named(kind: Kind, name: &[u8]) -> Option<Opt>
    ensures { row_named name.now (options_of kind) ≡ option_map row_of result }
{
    match kind {
        Kind::Make => make_option(name),
        Kind::Run => run_option(name),
        Kind::Load => load_option(name),
        Kind::Bare => None,
    }
}

impl Options {
    fn none() -> Options
        ensures keeps { Keeps result [] }
        ensures count { count_of result ≡ 0 }
    {
        Options {
            bsize: None,
            journals: None,
            journal_blocks: None,
            groups: None,
            uuid: None,
            time: None,
            schedule: None,
            steps: None,
            frames: None,
        }
    }

    fn has(&self, option: Opt) -> bool
        ensures { result ≡ is_some (kept option self.now) }
    {
        match option {
            Opt::Bsize => self.bsize.is_some(),
            Opt::Journals => self.journals.is_some(),
            Opt::JournalBlocks => self.journal_blocks.is_some(),
            Opt::Groups => self.groups.is_some(),
            Opt::Uuid => self.uuid.is_some(),
            Opt::Time => self.time.is_some(),
            Opt::Schedule => self.schedule.is_some(),
            Opt::Steps => self.steps.is_some(),
            Opt::Frames => self.frames.is_some(),
        }
    }

    // Keeps the value that a word is for an option, if it is one.
    fn put(&mut self, option: Opt, word: &[u8], block_size: u32)
        ensures { self.new ≡ kept_put block_size option word.now self.old }
    {
        match option {
            Opt::Bsize => self.bsize = size_number(word, block_size),
            Opt::Journals => self.journals = small_number(word, 1, MOST_JOURNALS),
            Opt::JournalBlocks => self.journal_blocks = small_number(
                word,
                LEAST_JOURNAL_BLOCKS,
                MOST_JOURNAL_BLOCKS,
            ),
            Opt::Groups => self.groups = small_number(word, 1, MOST_GROUPS),
            Opt::Uuid => self.uuid = identifier(word),
            Opt::Time => self.time = number_word(word, 0, LARGEST),
            Opt::Schedule => self.schedule = number_word(word, 0, LARGEST),
            Opt::Steps => self.steps = number_word(word, 1, STEP_LIMIT),
            Opt::Frames => self.frames = small_number(word, LEAST_FRAMES, MOST_FRAMES),
        }
    }
}

// The option of this name that the command has, if it was not given yet.
fn option_left(kind: Kind, given: &Options, name: &[u8]) -> Option<Opt>
    ensures left { (g : List Given) → Keeps given.now g → row_left (options_of kind) g name.now ≡ option_map row_of result }
    ensures named { IfSome result (λ o. (name.now ≡ (row_of o).name) × (kept o given.now ≡ None)) }
{
    match option_named(kind, name) {
        Some(option) => {
            if given.has(option) {
                None
            } else {
                Some(option)
            }
        }
        None => None,
    }
}

/// The options that words give, of which the first has this place.
pub(crate) fn read_options(
    kind: Kind,
    block_size: u32,
    words: &[String],
    first: u32,
) -> Result<Options, Usage>
    requires { first ≤ 3 }
    ensures { MatchResult result
        (λ options. (g : List Given) × ((options_read block_size (options_of kind) [] first (map string_bytes words.now) ≡ Ok g) × Keeps options g))
        (λ usage. options_read block_size (options_of kind) [] first (map string_bytes words.now) ≡ Err usage) }
{
    let mut given = Options::none();
    let mut place = first;
    let mut rest = words;
    while let Some((name, after)) = first_word(rest) {
        let Some(option) = option_left(kind, &given, name) else {
            return Err(Usage { word: place });
        };
        let Some((word, after)) = first_word(after) else {
            return Err(Usage { word: place + 1 });
        };
        given.put(option, word, block_size);
        if !given.has(option) {
            return Err(Usage { word: place + 1 });
        }
        place += 2;
        rest = after;
    }
    Ok(given)
}

/// What `mkfs` is to make.
pub(crate) fn make_words(options: &Options) -> MakeWords
    ensures { (g : List Given) → Keeps options.now g → result ≡ make_of g }
{
    MakeWords {
        journals: options.journals.unwrap_or(1),
        journal_blocks: options.journal_blocks.unwrap_or(1024),
        groups: options.groups.unwrap_or(1),
        uuid: options.uuid.unwrap_or([0; 16]),
        time: options.time.unwrap_or(0),
    }
}

/// What `run` is to run.
pub(crate) fn run_words(options: &Options) -> RunWords
    ensures { (g : List Given) → Keeps options.now g → result ≡ run_of g }
{
    RunWords {
        schedule: options.schedule,
        steps: options.steps,
        time: options.time.unwrap_or(0),
        frames: options.frames,
    }
}

/// What `load` is to make and run.
pub(crate) fn load_words(number: u64, options: &Options) -> LoadWords
    ensures { (g : List Given) → Keeps options.now g → result ≡ load_of number g }
{
    LoadWords {
        number,
        steps: options.steps,
    }
}
