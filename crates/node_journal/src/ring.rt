ghost use Rattle.std.specs.Prelude.{◌≡◌, ◌+◌, ◌<◌, ◌≤◌, ◌↔◌, IsTrue, true};
ghost use Rattle.log_layout.specs.Journal.{next, way};

use crate::around::place_after;
use log_layout::{LogHeader, next_place, places_between};

/// Which places of a journal are in use: those from the tail to the head, round the ring.
#[derive(Clone, Copy, Debug, PartialEq, Eq)]
pub struct Ring {
    /// How many places the journal has.
    pub length: u32,
    /// The place of the oldest block that is still wanted.
    pub tail: u32,
    /// The place of the last header.
    pub head: u32,
    ghost tail_in: { tail < length },
    ghost head_in: { head < length },
}

impl Ring {
    ghost use Rattle.node_journal.specs.Places.{IsBetween, free_in, place_on};

    /// The ring behind a clean head, whose own place is the tail.
    pub fn start(length: u32, head: &LogHeader) -> Ring
        requires clean { head.now.clean ≡ true }
        requires inside { head.now.blkno < length }
        ensures length { result.length ≡ length }
        ensures tail { result.tail ≡ head.now.blkno }
        ensures head { result.head ≡ head.now.blkno }
    {
        Ring {
            length,
            tail: head.blkno,
            head: head.blkno,
        }
    }

    /// The place behind the head, where the next transaction begins.
    pub fn next(&self) -> u32
        ensures { result ≡ next self.now.length self.now.head }
    {
        next_place(self.length, self.head)
    }

    /// How many places are outside tail to head.
    pub fn free(&self) -> u32
        ensures { result ≡ free_in self.now }
    {
        self.length - (places_between(self.length, self.tail, self.head) + 1)
    }

    /// Whether so many places are free, and one more, which a flush leaves.
    pub fn reserve(&self, blocks: u32) -> bool
        ensures { IsTrue result ↔ (blocks + 1 ≤ free_in self.now) }
    {
        blocks < self.free()
    }

    /// The head moves on by so many places, which are free, and the tail to a place from the old tail to the new head.
    pub fn advance(&mut self, blocks: u32, tail: u32)
        requires free { blocks ≤ free_in self.old }
        requires tail { IsBetween self.old (place_on self.old.length self.old.head blocks) tail }
        ensures length { self.new.length ≡ self.old.length }
        ensures head { self.new.head ≡ place_on self.old.length self.old.head blocks }
        ensures tail { self.new.tail ≡ tail }
    {
        self.head = place_after(self.length, self.head, blocks);
        self.tail = tail;
    }
}
