ghost use Rattle.std.specs.Prelude.{◌≡◌, [], List, map, IfOk};
ghost use Rattle.std.specs.String.{string_bytes};
ghost use Rattle.command_words.specs.declared.command.Command.TheVariants as command;
ghost use Rattle.command_words.specs.Options.{Given, options_read};
ghost use Rattle.command_words.specs.Limits.{IsWithinLimits};
ghost use Rattle.command_words.specs.Commands.{make_options, run_options, make_of, run_of, command_of, load_read, words_read};

use crate::command::{Command, Usage};
use crate::options::{Kind, LARGEST, load_words, make_words, read_options, run_words};
use crate::words::first_word;
use number_words::number_word;

fn read_make(words: &[String], block_size: u32) -> Result<Command, Usage>
    ensures { result ≡ command_of (λ given. command.Make (make_of given)) (options_read block_size make_options [] 2 (map string_bytes words.now)) }
{
    match read_options(Kind::Make, block_size, words, 2) {
        Ok(options) => Ok(Command::Make(make_words(&options))),
        Err(usage) => Err(usage),
    }
}

fn read_run(words: &[String], block_size: u32) -> Result<Command, Usage>
    ensures { result ≡ command_of (λ given. command.Run (run_of given)) (options_read block_size run_options [] 2 (map string_bytes words.now)) }
{
    match read_options(Kind::Run, block_size, words, 2) {
        Ok(options) => Ok(Command::Run(run_words(&options))),
        Err(usage) => Err(usage),
    }
}

// A command without options.
fn read_bare(command: Command, words: &[String], block_size: u32) -> Result<Command, Usage>
    ensures { result ≡ command_of (λ given. command) (options_read block_size [] [] 2 (map string_bytes words.now)) }
{
    match read_options(Kind::Bare, block_size, words, 2) {
        Ok(_) => Ok(command),
        Err(usage) => Err(usage),
    }
}

fn read_load(words: &[String], block_size: u32) -> Result<Command, Usage>
    ensures { result ≡ load_read block_size (map string_bytes words.now) }
{
    let Some((word, rest)) = first_word(words) else {
        return Err(Usage { word: 2 });
    };
    let Some(number) = number_word(word, 0, LARGEST) else {
        return Err(Usage { word: 2 });
    };
    match read_options(Kind::Load, block_size, rest, 3) {
        Ok(options) => Ok(Command::Load(load_words(number, &options))),
        Err(usage) => Err(usage),
    }
}

fn read_command(words: &[String], block_size: u32) -> Result<Command, Usage>
    ensures { result ≡ words_read block_size (map string_bytes words.now) }
{
    let Some((command, rest)) = first_word(words) else {
        return Err(Usage { word: 1 });
    };
    if command == b"mkfs".as_slice() {
        read_make(rest, block_size)
    } else if command == b"run".as_slice() {
        read_run(rest, block_size)
    } else if command == b"replay".as_slice() {
        read_bare(Command::Replay, rest, block_size)
    } else if command == b"show".as_slice() {
        read_bare(Command::Show, rest, block_size)
    } else if command == b"load".as_slice() {
        read_load(rest, block_size)
    } else {
        Err(Usage { word: 1 })
    }
}

/// Reads the words from the command on, for a disk with blocks of this many bytes. It goes over the words once.
pub fn read_words(words: &[String], block_size: u32) -> Result<Command, Usage>
    ensures read { result ≡ words_read block_size (map string_bytes words.now) }
    ensures limits { IfOk result IsWithinLimits }
{
    read_command(words, block_size)
}
