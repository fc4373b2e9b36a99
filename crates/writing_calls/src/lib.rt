//! The calls that write, over a view: `write` and `truncate`, of files of any height, and `sync`.
#![tactic(auto)]

mod aims;
mod blocks;
mod cuts;
mod drafting;
mod finds;
mod stuffed;
mod tries;

pub use tries::attempt;
