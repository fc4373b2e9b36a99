//! The states of a resource group's data blocks, over views and drafts.
#![tactic(auto)]

mod bits;
mod blocks;
mod counting;
mod finding;
mod freeing;
mod laws;
mod numbering;
mod places;
mod putting;
mod taking;

pub use counting::count_free;
pub use finding::find_free;
pub use freeing::free_blocks;
pub use laws::bitmaps_have_all_states;
pub use numbering::take_number;
pub use putting::{group_of, set_state};
pub use taking::take_blocks;
