//! Names that lead to another inode, in directories of any form.
#![tactic(auto)]

mod area;
mod redirecting;

pub use redirecting::redirect;
