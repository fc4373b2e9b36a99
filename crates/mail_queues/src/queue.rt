ghost use Rattle.std.specs.Prelude.{◌≡◌, ◌≤◌, ◌<◌, ◌+◌, ◌↔◌, [], ◌∷◌, ◌++◌, true, IsTrue, IsSome, is_ok, OnOk, OnErr, IfNone, option_to_list};

use crate::Message;
use no_memory::NoMemory;
use std::alloc::Global;
use std::collections::VecDeque;
use std::marker::Model;

/// A queue of messages, with the room that was made for more.
#[derive(Drop)]
pub(crate) struct Queue {
    waiting: VecDeque<Message>,
}

impl Model for Queue {
    ghost use Rattle.std.specs.Prelude.{◌-◌, ◌≤◌};
    ghost use Rattle.std.specs.VecDeque.{deque_len, deque_capacity};
    ghost use Rattle.mail_queues.specs.State.{QueueState};

    ghost Value = { QueueState };

    ghost view = { λ q. record { messages = q.waiting.items; room = deque_capacity q.waiting - deque_len q.waiting } };
}

impl Queue {
    pub(crate) fn new(alloc: Global) -> Queue
        ensures { result.messages ≡ [] }
    {
        Queue {
            waiting: VecDeque::new(alloc),
        }
    }

    pub(crate) fn is_empty(&self) -> bool
        ensures { IsTrue result ↔ (self.now.messages ≡ []) }
    {
        self.waiting.is_empty()
    }

    pub(crate) fn room(&self) -> usize
        ensures { result ≡ self.now.room }
    {
        self.waiting.capacity() - self.waiting.len()
    }

    pub(crate) fn send(&mut self, message: Message) -> Result<(), NoMemory>
        ensures ok { OnOk result (self.new.messages ≡ self.old.messages ++ message ∷ []) }
        ensures err { OnErr result (self.new.messages ≡ self.old.messages) }
        ensures room { self.old.room ≤ self.new.room + 1 }
        ensures kept { OnErr result (self.old.room ≤ self.new.room) }
        ensures roomy { 0 < self.old.room → is_ok result ≡ true }
    {
        self.reserve(1)?;
        self.send_reserved(message);
        Ok(())
    }

    pub(crate) fn reserve(&mut self, more: usize) -> Result<(), NoMemory>
        ensures ok { OnOk result (more ≤ self.new.room) }
        ensures roomy { more ≤ self.old.room → is_ok result ≡ true }
        ensures keeps { self.new.messages ≡ self.old.messages }
        ensures room { self.old.room ≤ self.new.room }
    {
        self.waiting.reserve(more)?;
        Ok(())
    }

    pub(crate) fn send_reserved(&mut self, message: Message)
        requires { 0 < self.old.room }
        ensures sent { self.new.messages ≡ self.old.messages ++ message ∷ [] }
        ensures room { self.old.room ≤ self.new.room + 1 }
    {
        let _ = self.waiting.push_back(message);
    }

    pub(crate) fn receive(&mut self) -> Option<Message>
        ensures first { self.old.messages ≡ option_to_list result ++ self.new.messages }
        ensures none { IfNone result (self.old.messages ≡ []) }
        ensures room { self.old.room ≤ self.new.room }
        ensures freed { IsSome result → self.old.room + 1 ≤ self.new.room }
    {
        self.waiting.pop_front()
    }
}
