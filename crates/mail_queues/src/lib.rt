//! The messages that are under way between the nodes: for each ordered pair of nodes a queue, first in, first out.
#![tactic(auto)]

ghost use Rattle.std.specs.Prelude.{◌≡◌, ◌≤◌, ◌<◌, ◌+◌, ◌*◌, ◌↔◌, ℕ, [], ◌∷◌, ◌++◌, true, IsTrue, IsSome, is_ok, OnOk, OnErr, IfNone, option_to_list};
ghost use Rattle.mail_queues.specs.Queues.{word_of, messages_of, room_of, IsQueueNow};
ghost use Rattle.mail_queues.specs.Order.{ComesOnceInOrder};

mod queue;

use dlm_modes::{MailWord, Mode, ValueBlock};
use glock_names::LockName;
use no_memory::NoMemory;
use queue::Queue;
use std::alloc::Global;
use std::array;
use std::marker::Model;

/// What a message says.
#[derive(Clone, Copy, Debug, PartialEq, Eq)]
pub enum Body {
    /// The sender asks the lock's master for it.
    Request(LockName, Mode),
    /// The sender, which holds the lock, asks its master for another mode.
    Convert(LockName, Mode),
    /// The sender now holds the lock in this mode only, and may give it a value.
    Down(LockName, Mode, Option<[u8; 32]>),
    /// The master grants the lock.
    Grant(LockName, Mode, ValueBlock),
    /// The master tells a holder that it stands in the way, and the strongest mode that it may keep.
    Callback(LockName, Mode),
    /// The sender tells a lock's new master what it holds.
    Report(LockName, Mode, ValueBlock),
    /// The sender's reports have ended.
    End,
    /// There is a new view, or a slot was recovered.
    View,
}

/// A message, and the number of the view in which it was sent. Whoever takes one of an older view drops it.
#[derive(Clone, Copy, Debug, PartialEq, Eq)]
pub struct Message {
    pub generation: u64,
    pub body: Body,
}

impl Message {
    /// The kind of the message.
    pub fn word(&self) -> MailWord
        ensures { result ≡ word_of self.now.body }
    {
        match self.body {
            Body::Request(_, _) => MailWord::Request,
            Body::Convert(_, _) => MailWord::Convert,
            Body::Down(_, _, _) => MailWord::Down,
            Body::Grant(_, _, _) => MailWord::Grant,
            Body::Callback(_, _) => MailWord::Callback,
            Body::Report(_, _, _) => MailWord::Report,
            Body::End => MailWord::End,
            Body::View => MailWord::View,
        }
    }
}

/// The queues between the nodes 0 to 8, one for each ordered pair.
#[derive(Drop)]
pub struct Mail {
    // That of a pair stands at place 9 * from + to.
    queues: [Queue; 81],
}

impl Model for Mail {
    ghost use Rattle.std.specs.Prelude.{List, ◌≡◌, length};
    ghost use Rattle.mail_queues.specs.State.{QueueState};

    ghost Value = { List QueueState };

    ghost view = { λ m. m.queues };

    ghost invariant = { λ m. length m.queues ≡ 81 };
}

fn place(from: u8, to: u8) -> usize
    requires from { from ≤ 8 }
    requires to { to ≤ 8 }
    ensures value { result ≡ 9 * from + to }
    ensures within { result < 81 }
{
    9 * from as usize + to as usize
}

impl Mail {
    /// Nothing is under way. It takes no memory.
    pub fn new(alloc: Global) -> Mail
        ensures { (from to : ℕ) → messages_of result from to ≡ [] }
    {
        Mail {
            queues: array::from_fn(
                |_|
                    ensures { result.messages ≡ [] }
                { Queue::new(alloc) },
            ),
        }
    }

    /// Whether nothing is under way from the one node to the other.
    pub fn is_empty(&self, from: u8, to: u8) -> bool
        requires from { from ≤ 8 }
        requires to { to ≤ 8 }
        ensures { IsTrue result ↔ (messages_of self.now from to ≡ []) }
    {
        self.queues[place(from, to)].is_empty()
    }

    /// How many more messages from the one node to the other there is room for.
    pub fn room(&self, from: u8, to: u8) -> usize
        requires from { from ≤ 8 }
        requires to { to ≤ 8 }
        ensures { result ≡ room_of self.now from to }
    {
        self.queues[place(from, to)].room()
    }

    /// Sends a message. Where there is no memory nothing is sent, and no room that was made is lost; where there is room it is
    /// sent.
    pub fn send(&mut self, from: u8, to: u8, message: Message) -> Result<(), NoMemory>
        requires from { from ≤ 8 }
        requires to { to ≤ 8 }
        ensures ok { OnOk result (IsQueueNow self.old self.new from to (messages_of self.old from to ++ message ∷ [])) }
        ensures err { OnErr result (IsQueueNow self.old self.new from to (messages_of self.old from to)) }
        ensures room { room_of self.old from to ≤ room_of self.new from to + 1 }
        ensures kept { OnErr result (room_of self.old from to ≤ room_of self.new from to) }
        ensures roomy { 0 < room_of self.old from to → is_ok result ≡ true }
    {
        let queue = &mut self.queues[place(from, to)];
        queue.send(message)
    }

    /// Makes room for this many more messages from the one node to the other, where there isn't.
    pub fn reserve(&mut self, from: u8, to: u8, more: usize) -> Result<(), NoMemory>
        requires from { from ≤ 8 }
        requires to { to ≤ 8 }
        ensures ok { OnOk result (more ≤ room_of self.new from to) }
        ensures roomy { more ≤ room_of self.old from to → is_ok result ≡ true }
        ensures keeps { IsQueueNow self.old self.new from to (messages_of self.old from to) }
        ensures room { room_of self.old from to ≤ room_of self.new from to }
    {
        let queue = &mut self.queues[place(from, to)];
        queue.reserve(more)
    }

    /// Sends a message into room that was made before. It takes no memory.
    pub fn send_reserved(&mut self, from: u8, to: u8, message: Message)
        requires from { from ≤ 8 }
        requires to { to ≤ 8 }
        requires room { 0 < room_of self.old from to }
        ensures sent { IsQueueNow self.old self.new from to (messages_of self.old from to ++ message ∷ []) }
        ensures room { room_of self.old from to ≤ room_of self.new from to + 1 }
    {
        let queue = &mut self.queues[place(from, to)];
        queue.send_reserved(message);
    }

    /// Takes the first message from the one node to the other, and leaves its room to the next. `None` exactly where nothing is
    /// under way.
    pub fn receive(&mut self, from: u8, to: u8) -> Option<Message>
        requires from { from ≤ 8 }
        requires to { to ≤ 8 }
        ensures first { messages_of self.old from to ≡ option_to_list result ++ messages_of self.new from to }
        ensures none { IfNone result (messages_of self.old from to ≡ []) }
        ensures others { IsQueueNow self.old self.new from to (messages_of self.new from to) }
        ensures room { room_of self.old from to ≤ room_of self.new from to }
        ensures freed { IsSome result → room_of self.old from to + 1 ≤ room_of self.new from to }
    {
        let queue = &mut self.queues[place(from, to)];
        queue.receive()
    }
}

/// A law: over every list of calls, what is received from one node to another is what was sent, each message once and in the
/// order in which it was sent; what isn't received yet is under way.
pub fn messages_come_once_in_their_order()
    ensures { ComesOnceInOrder }
{}
