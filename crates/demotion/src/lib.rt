//! The stages in which a node lets a glock go: its log is flushed, its blocks go home, a barrier, revokes, and release.
#![tactic(auto)]

mod laws;
mod stages;

pub use laws::{
    cut_stages_are_taken_up, past_stages_are_done, release_is_safe, stages_come_in_order,
    unflushed_comes_first,
};
pub use stages::{Stage, Under, stage_needed};
