//! What is looked at before a journal is replayed.
#![tactic(auto)]

mod faults;
mod looking;

pub use faults::LookFault;
pub use journal_plans::Plan;
pub use looking::look_at_journal;
