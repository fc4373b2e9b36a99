//! The trace of a run: its items, and how they are written, one a line.
#![tactic(auto)]

mod item;
mod text;

pub use item::TraceItem;
pub use text::{append_item, append_lock, append_state, print};
