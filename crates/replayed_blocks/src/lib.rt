//! The blocks of an image in memory, with what a replay puts home in its place.
#![tactic(auto)]

mod putting;

pub use putting::put_plans;
