//! A call, answered by one node that holds every lock, from what it keeps and reads.
#![tactic(auto)]

mod answering;
mod answers;
mod fetching;
mod laws;

pub use answering::answer_call;
pub use answers::{Answered, Unanswered};
pub use laws::reading_keeps;
