//! What stands in a journal: its log headers, and the descriptors of its chunks. All numbers are big-endian.
#![tactic(auto)]

mod descriptor;
mod due;
mod heads;
mod laws;
mod log_header;
mod numbers;

pub use descriptor::{ChunkKind, LogDescriptor};
pub use due::Due;
pub use heads::{
    accepted, best_headers_go_on, better, heads_are_accepted, next_place, places_between,
};
pub use laws::{clean_journals_have_nothing_live, headers_read_back, places_say_all};
pub use log_header::{Later, LogHeader};
pub use numbers::{put_u32, put_u64, u32_at, u64_at};
