//! One node carries out a script with its log, alone on a disk: it takes the lines one by one, crashes where the script says so, and unmounts behind all of them.
#![tactic(auto)]

mod crashes;
mod ends;
mod fences;
mod halts;
mod joining;
mod lines;
mod running;

pub use crashes::{settle_first, writes_left};
pub use ends::RunEnd;
pub use fences::end_of_fence;
pub use joining::join;
pub use logged_calls::{
    Node, begin_node, calls_are_loggable, calls_have_room, nodes_work_on_an_image,
};
pub use running::run_script;
pub use whole_runs::{
    a_run_begins, heads_are_told, its_calls_are_counted, replays_leave_a_disk_at_rest,
    runs_are_told, runs_end, runs_stand_at_each_front, starts_stand_at_each_front, steps_keep,
    whole_runs_stand,
};
