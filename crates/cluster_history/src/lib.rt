//! Histories of a cluster: the calls and their replies in one order, and what a crash takes out.
#![tactic(auto)]

ghost use Rattle.cluster_history.specs.History.{GoesOn};
ghost use Rattle.cluster_history.specs.Changes.{OthersLeaveTheTree};
ghost use Rattle.cluster_history.specs.Losses.{LivesOn};

use file_tree::{Call, Reply};

/// An item of a history. The calls of one node are numbered from 1, through the whole run.
#[derive(Drop)]
pub enum Item {
    /// A call of a client and its reply.
    Call {
        node: u8,
        client: u32,
        number: u64,
        call: Call,
        reply: Reply,
    },
    /// What the end of a life of a node took out: its calls so far whose numbers are above `kept`.
    Lost {
        node: u8,
        kept: u64,
    },
}

/// A law: a legal history with no loss, and one more call that is answered as the tree answers it, is legal.
pub fn legal_goes_on()
    ensures { GoesOn }
{}

/// A law: which calls change the tree is told by call and reply. Whatever is answered, any other call leaves it.
pub fn other_calls_leave_the_tree()
    ensures { OthersLeaveTheTree }
{}

/// A law: what is alive is alive as items, which carry node and number, and grows item by item.
pub fn living_goes_on()
    ensures { LivesOn }
{}
