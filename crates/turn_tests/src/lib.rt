//! Tests of values behind turns, with threads, and nothing else.
#![tactic(auto)]

#[cfg(test)]
mod pairs;
#[cfg(test)]
mod tables;
