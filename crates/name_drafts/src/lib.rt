//! The draft that makes a name, in a directory of any form.
#![tactic(auto)]

mod directory;
mod drafting;
mod laws;
mod saying;

pub use drafting::{NewBlock, addition};
pub use laws::places_can_get_names;
pub use name_inserts::{block_on_way, look, need_name, put_name};
pub use path_walks::{Place, Walk, nothing, walk_along};
