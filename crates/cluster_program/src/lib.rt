//! The top call: what a command does to the disk, prints and answers.
#![tactic(auto)]

mod beginning;
mod dirty;
mod end_status;
mod image;
mod input;
mod mounting;
mod replay;
mod run;
mod script;
mod show;
mod top;
mod words;

pub use glock_names::Waits;
pub use image_mount::Field;
pub use run_reports::{Status, Unbuilt, WhichSink};
pub use top::{Ended, gfs2run, gfs2run_alone};
