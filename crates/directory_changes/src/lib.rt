//! What a call's draft shows of directories of any form that get a name, lose one, or pass one on, so that it makes what the call should: laws
//! only. The functions do nothing: their contracts are the laws.
#![tactic(auto)]

mod growing;
mod moving;
mod shrinking;

pub use growing::drafts_grow_directories;
pub use moving::drafts_move_names;
pub use shrinking::drafts_shrink_directories;
