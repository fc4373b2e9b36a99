//! Tests of what file calls stand on, over views, and nothing else.
#![tactic(auto)]

#[cfg(test)]
mod contents;
#[cfg(test)]
mod groups;
#[cfg(test)]
mod wanted;
