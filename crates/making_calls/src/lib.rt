//! The calls that make a name, over a view: `create` and `mkdir`.
#![tactic(auto)]

mod blocks;
mod finds;
mod tries;

pub use tries::attempt;
