//! What the run does once a node that ran alone has crashed: it fences it, reads the head that its journal has then, and tells what it lost.
#![tactic(auto)]

mod crashes;
mod ends;
mod heads;

pub use crashes::fence_crashed;
pub use ends::FenceEnd;
pub use heads::left_head;
