//! Tests of reading, mounting and making images, and nothing else.
#![tactic(auto)]

#[cfg(test)]
mod making;
#[cfg(test)]
mod mounting;
#[cfg(test)]
mod reading;
