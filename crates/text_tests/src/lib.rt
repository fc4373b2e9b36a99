//! Tests of the file tree, of what is read and of what is printed, and nothing else.
#![tactic(auto)]

#[cfg(test)]
mod calls;
#[cfg(test)]
mod commands;
#[cfg(test)]
mod items;
#[cfg(test)]
mod paths;
#[cfg(test)]
mod readings;
#[cfg(test)]
mod shown;
#[cfg(test)]
mod texts;
#[cfg(test)]
mod trees;
