//! What a draft shows of a file after one step of its growth or its cut: laws only. The functions do nothing: their contracts are
//! the laws.
#![tactic(auto)]

mod steps;

pub use steps::{drafts_show_files, drafts_show_steps};
