//! The calls that remove a name, over a view: `unlink` and `rmdir`.
#![tactic(auto)]

mod aims;
mod blocks;
mod counting;
mod drafting;
mod finds;
mod tries;

pub use aims::{Aim, directory_aim, file_aim};
pub use blocks::blocks_of;
pub use tries::attempt;
