//! Drafts over drafts: what was put in one is put into the one below it.
#![tactic(auto)]

mod laws;
mod putting;

pub use laws::puts_are_seen_alike;
pub use putting::{are_whole, put_blocks};
