//! The words of the program: its commands and their options, read exactly.
#![tactic(auto)]

mod command;
mod laws;
mod options;
mod read;
mod words;

pub use command::{Command, DEFAULT_FRAMES, DEFAULT_STEPS, LoadWords, MakeWords, RunWords, Usage};
pub use laws::{first_wrong_word_is_told, options_may_change_places};
pub use read::read_words;
