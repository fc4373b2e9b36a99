//! Tests of what a node keeps in memory, and nothing else.
#![tactic(auto)]

#[cfg(test)]
mod cells;
#[cfg(test)]
mod frames;
#[cfg(test)]
mod glocks;
#[cfg(test)]
mod revokes;
#[cfg(test)]
mod stages;
