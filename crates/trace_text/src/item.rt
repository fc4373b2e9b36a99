use dlm_modes::MailWord;
use file_tree::{Call, Name, Reply};
use glock_names::{LockName, State};

/// An item of a trace. Nodes are numbered from 1; blocks are blocks of the disk.
#[derive(Drop)]
pub enum TraceItem {
    /// The node is a member of the cluster.
    Join {
        node: u8,
    },
    /// The node asks for a lock in this state.
    Ask {
        node: u8,
        lock: LockName,
        state: State,
    },
    /// The node holds the lock in this state.
    Grant {
        node: u8,
        lock: LockName,
        state: State,
    },
    /// The node learns that it stands in another's way, and may keep this state.
    Callback {
        node: u8,
        lock: LockName,
        state: State,
    },
    /// The node holds the lock in this state only.
    Down {
        node: u8,
        lock: LockName,
        state: State,
    },
    /// A message was delivered.
    Mail {
        from: u8,
        to: u8,
        word: MailWord,
    },
    /// The node read a block.
    Read {
        node: u8,
        block: u64,
    },
    /// The node wrote a block of a transaction to its journal.
    WriteLog {
        node: u8,
        block: u64,
    },
    /// The node wrote a log header.
    WriteHead {
        node: u8,
        block: u64,
        sequence: u64,
        upto: u64,
    },
    /// The node wrote the clean log header of its unmount.
    WriteClean {
        node: u8,
        block: u64,
        sequence: u64,
        upto: u64,
    },
    /// The node wrote a block home.
    WriteHome {
        node: u8,
        block: u64,
    },
    /// The node wrote a block in its replay of another's journal.
    WriteReplay {
        node: u8,
        block: u64,
    },
    /// The node's writes in flight are on the disk.
    Barrier {
        node: u8,
    },
    /// The barrier after a log header is done.
    Commit {
        node: u8,
        sequence: u64,
        upto: u64,
    },
    /// A client's call was answered.
    Call {
        node: u8,
        client: Name,
        number: u64,
        call: Call,
        reply: Reply,
    },
    /// The next call found too few free blocks.
    Full {
        node: u8,
        need: u64,
        free: u64,
    },
    /// The node stopped.
    Crash {
        node: u8,
    },
    /// The node stopped, since its count of faults rose.
    Withdraw {
        node: u8,
        before: u64,
        after: u64,
    },
    /// The node is fenced.
    Fence {
        node: u8,
    },
    /// There is a new membership.
    View {
        generation: u64,
    },
    /// The node's journal was replayed by another.
    Recovered {
        node: u8,
        by: u8,
    },
    /// The end of a life of the node took out its calls above this number.
    Lost {
        node: u8,
        kept: u64,
    },
    /// The node begins to unmount.
    Unmount {
        node: u8,
    },
}
