//! A map from numbers to values in memory that is taken once.
#![tactic(auto)]

mod table;

pub use table::{FixedTable, RowTest};
