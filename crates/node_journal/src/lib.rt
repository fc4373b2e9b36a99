//! What is written to a journal: transactions as blocks at their places, how many they take, and which places are in use.
#![tactic(auto)]

mod around;
mod blocks;
mod cuts;
mod encoding;
mod entries;
mod kinds;
mod numbers;
mod place;
mod ring;
mod sizes;

pub use blocks::put_block;
pub use encoding::{encode, put_header};
pub use entries::Entries;
pub use place::Place;
pub use ring::Ring;
pub use sizes::{size, size_with};
