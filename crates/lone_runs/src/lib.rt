//! A run of one node on a mounted image: it joins, replays the journals, and carries out a script with its log, crashes included.
#![tactic(auto)]

mod ends;
mod laws;
mod placing;
mod running;
mod starting;

pub use ends::RunEnd;
pub use laws::{
    mounted_journals_serve, nothing_is_written, runs_are_legal, runs_are_told, runs_end,
    runs_meet_no_damage, runs_rest, runs_see_their_damage, runs_stand, runs_tell_their_replays,
};
pub use logged_scripts::RunEnd as ScriptEnd;
pub use running::run_alone;
