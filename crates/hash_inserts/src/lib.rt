//! Names that come into hashed directories.
#![tactic(auto)]

mod committing;
mod converting;
mod counting;
mod drafting;
mod finding;
mod firsts;
mod inserting;
mod laws;
mod lengthening;
mod looking;
mod needing;
mod pointers;
mod records;
mod splitting;
mod walking;
mod writing;

pub use converting::{first_depth, to_hashed};
pub use firsts::need_first;
pub use hash_steps::{IN_LEAF, count_records, damaged, index_of, leaf_at};
pub use inserting::{insert, insert_first};
pub use laws::{absent_names_stay, first_needs_stay, rooms_stay_free};
pub use needing::need_insert;
pub use splitting::split;
pub use table_changes::PointerTableMut;
pub use walking::area_has_room;
