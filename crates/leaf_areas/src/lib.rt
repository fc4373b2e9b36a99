//! Areas of records that are emptied, filled anew from others, or halved.
#![tactic(auto)]

mod laws;
mod moving;
mod parts;
mod splitting;

pub use laws::{halves_have_the_records, moved_records_stay};
pub use moving::{clear_area, move_records};
pub use splitting::{Halves, split_area};
