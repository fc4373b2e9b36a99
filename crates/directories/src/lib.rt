//! A directory, whatever its form: a map from names to entries.
#![tactic(auto)]

mod gathering;
mod laws;
mod listing;
mod looking;
mod removing;

pub use gathering::counted_leaves;
pub use laws::{directories_say_their_records, sound_directories_break_nothing};
pub use listing::names;
pub use looking::{is_hashed, look};
pub use removing::remove;
pub use tree_tables::TreeTable;
