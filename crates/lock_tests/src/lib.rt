//! Tests of the names of glocks and of the lock manager, and nothing else.
#![tactic(auto)]

#[cfg(test)]
mod holders;
#[cfg(test)]
mod mails;
#[cfg(test)]
mod members;
#[cfg(test)]
mod modes;
#[cfg(test)]
mod names;
#[cfg(test)]
mod rebuilds;
