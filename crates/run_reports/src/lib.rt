//! What a command prints, and how its trace is written.
#![tactic(auto)]

mod counts;
mod down;
mod laws;
mod output;
mod places;
mod reports;
mod status;
mod status_text;
mod streams;

pub use laws::runs_are_of_one_node;
pub use output::Listing;
pub use reports::report;
pub use status::{Status, Unbuilt, WhichSink};
