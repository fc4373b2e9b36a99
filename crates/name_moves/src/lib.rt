//! The draft that moves a name, between directories of any form or within one.
#![tactic(auto)]

mod drafting;
mod joining;
mod laws;
mod losing;
mod parts;
mod saying;

pub use drafting::{NameMove, moving, need_to_move};
pub use group_locks::lacked_of;
pub use laws::a_move_needs_one_number;
pub use name_drafts::{block_on_way, need_name};
