//! What a node lost that ran alone and was fenced, told by the items of its run and the head of its journal.
#![tactic(auto)]

mod heads;
mod kept;
mod upto;

pub use heads::LeftHead;
pub use kept::kept_number;
pub use upto::upto_of;
