//! Tests of the streams, the disk, the parts of a line and the checksums, and nothing else.
#![tactic(auto)]

#[cfg(test)]
mod checksums;
#[cfg(test)]
mod disks;
#[cfg(test)]
mod numbers;
#[cfg(test)]
mod streams;
#[cfg(test)]
mod words;
