//! The texts of rows: entries, images and the patches on them, by which the program `rows` makes each image. Nothing here stands on the
//! top call, so that a change of it leaves this as it is.
#![tactic(auto)]

mod contents;
mod entries;
mod expanding;
mod fields;
mod images;
mod laying;
mod logging;
mod numbers;
mod patches;
mod places;

pub use contents::{content_of, put_hex};
pub use entries::{Entry, Item, read_entries};
pub use expanding::put_lines;
pub use images::{Image, Name};
pub use laying::{lay_file, link_file, put_leaf};
pub use numbers::{next_word, number_word, put_bytes};
pub use patches::{Change, change_of, flip_all, put_pointers};
pub use places::{call_structures, number_of, range_of};
