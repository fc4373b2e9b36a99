// A node with its log.
use log_memory::Log;
use lone_view::LoneView;
use trace_text::TraceItem;

/// Numbers of a node's calls: of the last that it answered, of the last that changed anything, of the last in its journal, and of the last as the flush
/// began that was begun last. 0 stands for none.
#[derive(Clone, Copy, Debug, PartialEq, Eq)]
pub struct CallNumbers {
    pub answered: u64,
    pub changed: u64,
    pub low: u64,
    pub begun: u64,
}

/// Node 1, which holds every lock.
#[derive(Drop)]
pub struct Node {
    /// The blocks that it keeps, and what mounting told.
    pub view: LoneView,
    pub log: Log,
    pub numbers: CallNumbers,
    /// The trace so far.
    pub items: Vec<TraceItem>,
    /// Room for the bytes of one block on their way to the disk.
    pub block: Vec<u8>,
    /// Whether it unmounts: it answers no call any more.
    pub unmounts: bool,
    /// How many writes it has in flight.
    pub flying: usize,
    /// Where it is to crash at a write, how many it makes until then, that one among them.
    pub armed: Option<u64>,
}
