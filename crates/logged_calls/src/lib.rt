//! One call of a client, answered by one node with its log, alone on a disk.
#![tactic(auto)]

mod adding;
mod changing;
mod ends;
mod full;
mod keeping;
mod laws;
mod loggable;
mod looking;
mod quiet;
mod taking;
mod telling;

pub use ends::CallEnd;
pub use laws::{calls_are_loggable, calls_have_room};
pub use logged_answers::nodes_work_on_an_image;
pub use logged_node::{Node, Stop, begin_node, unmount};
pub use taking::take_call;
