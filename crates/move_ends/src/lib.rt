//! What a call that moves a name finds at the ends of its two paths, over a view.
#![tactic(auto)]

mod ends;
mod finding;
mod over;

pub use ends::Ends;
pub use finding::{ends_of, from_of, to_of};
pub use pair_walks::{Place, is_hashed, look, nothing};
