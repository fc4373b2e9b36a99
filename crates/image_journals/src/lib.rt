//! Finding the journals of an image in memory, its groups and the blocks of its system files, whatever its profile.
#![tactic(auto)]

mod blocks;
mod directories;
mod finding;
mod gathering;
mod groups;
mod journal_names;
mod laws;
mod leaves;
mod naming;
mod places;
mod system;
mod unfound;

pub use finding::{JournalPlaces, find_journals};
pub use groups::find_groups;
pub use laws::standing_replays_share_their_system;
pub use system::find_system_blocks;
pub use unfound::Unfound;
