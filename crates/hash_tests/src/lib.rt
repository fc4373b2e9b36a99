//! Tests of hashed directories over a view, and nothing else.
#![tactic(auto)]

#[cfg(test)]
mod reading;
#[cfg(test)]
mod shelf;
