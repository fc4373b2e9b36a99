//! The calls that read, over a view: `read`, `dread`, `stat` and `list`.
#![tactic(auto)]

mod answers;
mod tries;

pub use tries::attempt;
