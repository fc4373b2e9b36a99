ghost use Rattle.std.specs.Prelude.{◌≡◌, ℕ, List, IfOk, IfErr, MatchOption, Some, None, true, false, map, string_bytes};
ghost use Rattle.cluster_program.specs.Course.{is_built as counts_as_built, words_refusal};
ghost use Rattle.cluster_program.specs.Tasks.{IsTaskOf, Asks};

use command_words::{Command, MakeWords, read_words};
use run_reports::{Status, Unbuilt};

/// What the words ask for, among the commands that are built.
#[derive(Clone, Copy, Debug, PartialEq, Eq)]
pub(crate) enum Task {
    Make(MakeWords),
    Show,
    Replay,
    /// The time is that of the changes, in seconds.
    Run { time: u64 },
}

// Whether a command is built today.
fn is_built(command: &Command) -> bool
    ensures { result ≡ counts_as_built command.now }
{
    match command {
        Command::Make(_) | Command::Show | Command::Replay => true,
        Command::Run(words) => {
            words.schedule.is_none() && words.steps.is_none() && words.frames.is_none()
        }
        _ => false,
    }
}

// The task that a command is, if it is built.
fn task_of(command: &Command) -> Option<Task>
    ensures { MatchOption result (counts_as_built command.now ≡ false) (λ t. (counts_as_built command.now ≡ true) × IsTaskOf command.now t) }
{
    if !is_built(command) {
        return None;
    }
    match command {
        Command::Make(words) => Some(Task::Make(*words)),
        Command::Show => Some(Task::Show),
        Command::Replay => Some(Task::Replay),
        Command::Run(words) => Some(Task::Run { time: words.time }),
        _ => unreachable!(),
    }
}

/// What the words ask for, if that is built; else how the command ends.
pub(crate) fn read_task(words: &[String], block_size: u32) -> Result<Task, Status>
    ensures task { IfOk result (Asks block_size (map string_bytes words.now)) }
    ensures refused { IfErr result (λ own. words_refusal block_size (map string_bytes words.now) ≡ Some own) }
{
    let command = match read_words(words, block_size) {
        Ok(command) => command,
        Err(usage) => return Err(Status::Usage { word: usage.word }),
    };
    match task_of(&command) {
        Some(task) => Ok(task),
        None => Err(Status::NotBuilt {
            part: Unbuilt::Words,
        }),
    }
}
