//! Tests of calls that no command hands on, and nothing else.
#![tactic(auto)]

#[cfg(test)]
mod dreads;
#[cfg(test)]
mod histories;
