ghost use Rattle.std.specs.Prelude.{◌≡◌, OnOk, fold};
ghost use Rattle.dlm_master.specs.Locks.{is_free as waits_for_none, turn as turn_of};

use crate::claims::{Claim, first_in_way, hold};
use no_memory::NoMemory;
use std::marker::Model;

/// The waiters of a lock while they take their turns: who holds the lock, who still waits, and who was granted.
#[derive(Drop)]
pub(crate) struct Turns {
    held: Vec<Claim>,
    staying: Vec<Claim>,
    granted: Vec<Claim>,
}

impl Model for Turns {
    ghost use Rattle.dlm_master.specs.LockState.{TurnState};

    ghost Value = { TurnState };

    ghost view = { λ t. record { held = t.held.items; staying = t.staying.items; granted = t.granted.items } };
}

impl Turns {
    pub(crate) fn new(held: Vec<Claim>, staying: Vec<Claim>, granted: Vec<Claim>) -> Turns
        ensures { result ≡ record { held = held.items; staying = staying.items; granted = granted.items } }
    {
        Turns {
            held,
            staying,
            granted,
        }
    }

    /// Who holds the lock, who still waits, and who was granted.
    pub(crate) fn into_parts(self) -> (Vec<Claim>, Vec<Claim>, Vec<Claim>)
        ensures held { result.0.items ≡ self.held }
        ensures staying { result.1.items ≡ self.staying }
        ensures granted { result.2.items ≡ self.granted }
    {
        let Turns {
            held,
            staying,
            granted,
        } = self;
        (held, staying, granted)
    }

    fn is_free(&self, before: &[Claim], waiter: Claim) -> bool
        ensures { result ≡ waits_for_none before.now self.now waiter }
    {
        first_in_way(&self.held, waiter.node, waiter.mode).is_none()
            && first_in_way(before, waiter.node, waiter.mode).is_none()
            && first_in_way(&self.staying, waiter.node, waiter.mode).is_none()
    }

    /// One waiter's turn, behind those before it.
    fn turn(&mut self, before: &[Claim], waiter: Claim) -> Result<(), NoMemory>
        ensures { OnOk result (self.new ≡ turn_of before.now self.old waiter) }
    {
        if self.is_free(before, waiter) {
            hold(&mut self.held, waiter)?;
            self.granted.push(waiter)?;
        } else {
            self.staying.push(waiter)?;
        }
        Ok(())
    }

    /// The turns of all these waiters, one after another.
    pub(crate) fn take(&mut self, before: &[Claim], waiters: &[Claim]) -> Result<(), NoMemory>
        ensures { OnOk result (self.new ≡ fold (turn_of before.now) self.old waiters.now) }
    {
        for waiter in waiters {
            self.turn(before, *waiter)?;
        }
        Ok(())
    }
}
