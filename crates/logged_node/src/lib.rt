//! Node 1 with its log, alone on a disk: it flushes its log, makes room in its journal, takes blocks home, and leaves its journal clean. It answers no call; the change of one comes into its log.
#![tactic(auto)]

mod changes;
mod deeds;
mod ends;
mod flushing;
mod homing;
mod leaving;
mod node;
mod rooms;
mod start;

pub use changes::take_change;
pub use ends::Stop;
pub use flushing::{Flushed, flush};
pub use homing::go_home;
pub use leaving::unmount;
pub use node::{CallNumbers, Node};
pub use rooms::{bring_in, make_room};
pub use start::begin_node;
