//! A disk in memory that never fails.
#![tactic(auto)]

mod sure;

pub use sure::SureDisk;
