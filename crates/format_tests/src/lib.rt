//! Tests of the structures of an image, and nothing else.
#![tactic(auto)]

#[cfg(test)]
mod putting;
#[cfg(test)]
mod reading;
#[cfg(test)]
mod writing;
