//! The file calls over a view: each is answered by the crate that has it.
#![tactic(auto)]

mod tries;

pub use tries::attempt;
