ghost use Rattle.std.specs.Prelude.{◌≡◌, true, is_some, OnOk, OnErr, IfOk};
ghost use Rattle.dlm_master.specs.Claims.{mode_of_node as mode_of_claim};
ghost use Rattle.dlm_master.specs.Locks.{free_lock, is_waiting as waits, is_awaited as awaited, request_cause, convert_cause, answer_by, requested, converted, lowered, reported, after_grants, grants_of, callback_to as callback_for, callbacks_of};

use crate::beside::{kept, value_after};
use crate::claims::{Answer, Blocked, Claim, cause_for, hold, lower_claim, mode_of_node};
use crate::turns::Turns;
use dlm_modes::{Mode, ValueBlock, covers};
use no_memory::NoMemory;
use std::alloc::Global;
use std::marker::Model;

/// A lock at its master.
#[derive(Drop)]
pub(crate) struct Lock {
    held: Vec<Claim>,
    conversions: Vec<Claim>,
    requests: Vec<Claim>,
    value: ValueBlock,
}

impl Model for Lock {
    ghost use Rattle.dlm_master.specs.LockState.{LockState};

    ghost Value = { LockState };

    ghost view = { λ l. record {
      held = l.held.items;
      conversions = l.conversions.items;
      requests = l.requests.items;
      value = l.value;
    } };
}

impl Lock {
    pub(crate) fn new(alloc: Global) -> Lock
        ensures { result ≡ free_lock }
    {
        Lock {
            held: Vec::new(alloc),
            conversions: Vec::new(alloc),
            requests: Vec::new(alloc),
            value: ValueBlock::new(),
        }
    }

    pub(crate) fn mode_of(&self, node: u8) -> Option<Mode>
        ensures { result ≡ mode_of_claim self.now.held node }
    {
        mode_of_node(&self.held, node)
    }

    pub(crate) fn is_waiting(&self, node: u8) -> bool
        ensures { result ≡ waits self.now node }
    {
        mode_of_node(&self.conversions, node).is_some()
            || mode_of_node(&self.requests, node).is_some()
    }

    pub(crate) fn is_awaited(&self) -> bool
        ensures { result ≡ awaited self.now }
    {
        !self.conversions.is_empty() || !self.requests.is_empty()
    }

    pub(crate) fn request(&mut self, blocked: Blocked, claim: Claim) -> Result<Answer, NoMemory>
        ensures answer { IfOk result (λ a. a ≡ answer_by (request_cause blocked.rebuild blocked.waiting self.old claim.node claim.mode) self.old) }
        ensures ok { OnOk result (self.new ≡ requested (request_cause blocked.rebuild blocked.waiting self.old claim.node claim.mode) self.old claim.node claim.mode) }
        ensures err { OnErr result (self.new ≡ self.old) }
    {
        match cause_for(
            blocked,
            &self.held,
            &self.conversions,
            &self.requests,
            claim,
        ) {
            None => {
                hold(&mut self.held, claim)?;
                Ok(Answer::Granted(self.value))
            }
            Some(cause) => {
                self.requests.push(claim)?;
                Ok(Answer::Waiting(cause))
            }
        }
    }

    pub(crate) fn convert(&mut self, blocked: Blocked, claim: Claim) -> Result<Answer, NoMemory>
        ensures answer { IfOk result (λ a. a ≡ answer_by (convert_cause blocked.rebuild blocked.waiting self.old claim.node claim.mode) self.old) }
        ensures ok { OnOk result (self.new ≡ converted (convert_cause blocked.rebuild blocked.waiting self.old claim.node claim.mode) self.old claim.node claim.mode) }
        ensures err { OnErr result (self.new ≡ self.old) }
    {
        match cause_for(blocked, &self.held, &self.conversions, &[], claim) {
            None => {
                hold(&mut self.held, claim)?;
                Ok(Answer::Granted(self.value))
            }
            Some(cause) => {
                self.conversions.push(claim)?;
                Ok(Answer::Waiting(cause))
            }
        }
    }

    pub(crate) fn down(&mut self, node: u8, mode: Mode, value: Option<[u8; 32]>)
        requires { is_some (mode_of_claim self.old.held node) ≡ true }
        ensures { self.new ≡ lowered self.old node mode value }
    {
        self.value = value_after(mode_of_node(&self.held, node), value, self.value);
        lower_claim(&mut self.held, node, mode);
    }

    pub(crate) fn report(&mut self, node: u8, mode: Mode) -> Result<(), NoMemory>
        ensures ok { OnOk result (self.new ≡ reported self.old node mode) }
        ensures err { OnErr result (self.new ≡ self.old) }
    {
        hold(&mut self.held, Claim { node, mode })
    }

    // The lock after all who wait have taken their turns, and who is granted.
    fn take_turns(&self, alloc: Global) -> Result<(Lock, Vec<(u8, Mode, ValueBlock)>), NoMemory>
        ensures lock { IfOk result (λ r. r.0 ≡ after_grants self.now) }
        ensures grants { IfOk result (λ r. r.1.items ≡ grants_of self.now) }
    {
        let held = Vec::from_slice(alloc, &self.held)?;
        let mut first = Turns::new(held, Vec::new(alloc), Vec::new(alloc));
        first.take(&[], &self.conversions)?;
        let (held, conversions, granted) = first.into_parts();
        let mut second = Turns::new(held, Vec::new(alloc), granted);
        second.take(&conversions, &self.requests)?;
        let (held, requests, granted) = second.into_parts();
        let value = self.value;
        let grants = granted
            .iter()
            .map(|c| (c.node, c.mode, value))
            .collect(alloc)?;
        let lock = Lock {
            held,
            conversions,
            requests,
            value,
        };
        Ok((lock, grants))
    }

    pub(crate) fn next_grants(
        &mut self,
        alloc: Global,
    ) -> Result<Vec<(u8, Mode, ValueBlock)>, NoMemory>
        ensures grants { IfOk result (λ v. v.items ≡ grants_of self.old) }
        ensures ok { OnOk result (self.new ≡ after_grants self.old) }
        ensures err { OnErr result (self.new ≡ self.old) }
    {
        if !self.is_awaited() {
            return Ok(Vec::new(alloc));
        }
        let (lock, grants) = self.take_turns(alloc)?;
        *self = lock;
        Ok(grants)
    }

    fn callback_to(&self, holder: Claim) -> Option<(u8, Mode)>
        ensures { result ≡ callback_for self.now holder }
    {
        let keep = kept(holder.node, holder.mode, &self.conversions);
        let keep = kept(holder.node, keep, &self.requests);
        if covers(keep, holder.mode) {
            None
        } else {
            Some((holder.node, keep))
        }
    }

    pub(crate) fn callbacks(&self, alloc: Global) -> Result<Vec<(u8, Mode)>, NoMemory>
        ensures { IfOk result (λ v. v.items ≡ callbacks_of self.now) }
    {
        let callbacks = self
            .held
            .iter()
            .filter_map(|holder| self.callback_to(*holder))
            .collect(alloc)?;
        Ok(callbacks)
    }
}
