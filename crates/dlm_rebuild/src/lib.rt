//! A table of locks that a new master makes anew from what the members of a view report.
#![tactic(auto)]

ghost use Rattle.std.specs.Prelude.{◌≡◌, ◌<◌, ◌||◌, true, false, not, None, IfOk, IfErr, OnOk, OnErr, is_ok};
ghost use Rattle.std.specs.List.{list_all};
ghost use Rattle.fencing.specs.NodeSets.{has, all_nodes};
ghost use Rattle.dlm_master.specs.Tables.{lock_of, held_by, waits_for, HoldsNone, IsIdle, IsCovered, IsAbove};
ghost use Rattle.dlm_rebuild.specs.Rebuilding.{NoneValid, begun, with_report, with_end, with_waiting, not_yet, is_done as done, master_after, after_request_in, after_convert_in, after_down_in, master_for};
ghost use Rattle.dlm_rebuild.specs.Runs.{RebuiltFromReports, RebuildsAreRuns};

use crc_words::crc32;
use dlm_master::{Answer, Master};
use dlm_modes::{Mode, ValueBlock};
use fencing::{add_node, count_nodes, has_node, node_at};
use glock_names::LockName;
use no_memory::NoMemory;
use std::alloc::Global;
use std::marker::Model;

/// The master of a lock among these members: the one at the place of the CRC-32 of the lock's nine bytes, modulo how many they
/// are, in rising order. `None` exactly where nobody is a member.
pub fn master_of(members: u16, lock: LockName) -> Option<u8>
    ensures { result ≡ master_for members lock }
{
    let count = count_nodes(members);
    if count == 0 {
        return None;
    }
    node_at(members, crc32(&lock.bytes()) as usize % count)
}

static NODES: [u8; 16] = [0, 1, 2, 3, 4, 5, 6, 7, 8, 9, 10, 11, 12, 13, 14, 15];

// Whether every node of the one set belongs to the other.
fn all_within(set: u16, other: u16) -> bool
    ensures { result ≡ list_all (λ node. not (has set node) || has other node) all_nodes }
{
    NODES
        .iter()
        .all(|node| !has_node(set, *node) || has_node(other, *node))
}

/// The table of a new master while the members tell what they hold. Requests, conversions and lowers that come meanwhile are
/// kept in it; nothing is granted before the rebuild is complete.
#[derive(Drop)]
pub struct Rebuild {
    members: u16,
    ended: u16,
    master: Master,
}

impl Model for Rebuild {
    ghost use Rattle.dlm_rebuild.specs.Rebuilding.{RebuildState, IsUnderWay};

    ghost Value = { RebuildState };

    ghost view = { λ r. record { members = r.members; ended = r.ended; master = r.master } };

    ghost invariant = { λ r. IsUnderWay r.master };
}

impl Rebuild {
    /// No member of the view has told anything yet. Until `blocked` tells which slots wait, each counts as one that does.
    pub fn new(alloc: Global, generation: u64, members: u16) -> Rebuild
        ensures { result ≡ begun generation members }
    {
        let mut master = Master::new(alloc, generation);
        master.blocked(true, u16::MAX);
        Rebuild {
            members,
            ended: 0,
            master,
        }
    }

    /// The nodes whose slots wait, from now on: its master grants nothing before there are none.
    pub fn blocked(&mut self, waiting: u16)
        ensures { self.new ≡ with_waiting self.old waiting }
    {
        self.master.blocked(true, waiting);
    }

    /// A member, which waits for nothing on the lock, tells what it holds of it. Of several reports of a node for a lock the last one
    /// counts, and one in `Nl` says that it holds none. The value that it has of the lock may be older than one that was lowered
    /// since, and isn't kept. After want of memory nothing has changed.
    pub fn report(
        &mut self,
        node: u8,
        lock: LockName,
        mode: Mode,
        _value: ValueBlock,
    ) -> Result<(), NoMemory>
        requires idle { IsIdle (lock_of self.old.master lock) node }
        ensures ok { OnOk result (self.new ≡ with_report self.old node lock mode) }
        ensures err { OnErr result (self.new ≡ self.old) }
    {
        self.master.report(node, lock, mode)
    }

    /// A member has told all that it holds.
    pub fn end(&mut self, node: u8)
        requires { node < 16 }
        ensures { self.new ≡ with_end self.old node }
    {
        self.ended = add_node(self.ended, node);
    }

    /// A node asks for a lock while the rebuild isn't done, as in `Master::request`: it waits for the rebuild.
    pub fn request(&mut self, node: u8, lock: LockName, mode: Mode) -> Result<Answer, NoMemory>
        requires none { HoldsNone (lock_of self.old.master lock) node }
        requires idle { IsIdle (lock_of self.old.master lock) node }
        ensures waits { IfOk result (λ a. a ≡ not_yet) }
        ensures ok { OnOk result (self.new ≡ after_request_in self.old node lock mode) }
        ensures err { OnErr result (self.new ≡ self.old) }
    {
        self.master.request(node, lock, mode)
    }

    /// A holder asks for another mode while the rebuild isn't done, as in `Master::convert`: it waits for the rebuild.
    pub fn convert(&mut self, node: u8, lock: LockName, mode: Mode) -> Result<Answer, NoMemory>
        requires covers { IsCovered (lock_of self.old.master lock) node mode }
        requires idle { IsIdle (lock_of self.old.master lock) node }
        ensures waits { IfOk result (λ a. a ≡ not_yet) }
        ensures ok { OnOk result (self.new ≡ after_convert_in self.old node lock mode) }
        ensures err { OnErr result (self.new ≡ self.old) }
    {
        self.master.convert(node, lock, mode)
    }

    /// A node, which waits for nothing on the lock, lowers it after it has reported it. No value is kept before the rebuild is done.
    /// It takes no memory.
    pub fn down(&mut self, node: u8, lock: LockName, mode: Mode)
        requires above { IsAbove (lock_of self.old.master lock) node mode }
        requires idle { IsIdle (lock_of self.old.master lock) node }
        ensures { self.new ≡ after_down_in self.old node lock mode }
    {
        self.master.down(node, lock, mode, None);
    }

    /// The mode in which the node holds the lock by what it told. `None` exactly where it holds none.
    pub fn held(&self, node: u8, lock: LockName) -> Option<Mode>
        ensures { result ≡ held_by self.now.master node lock }
    {
        self.master.held(node, lock)
    }

    /// Whether the node waits for the lock.
    pub fn waits(&self, node: u8, lock: LockName) -> bool
        ensures { result ≡ waits_for self.now.master node lock }
    {
        self.master.waits(node, lock)
    }

    /// Whether each member has ended.
    pub fn is_done(&self) -> bool
        ensures { result ≡ done self.now }
    {
        all_within(self.members, self.ended)
    }

    /// The master with the table that the members told, once each of them has ended, which grants nothing while a slot waits, and
    /// in which no value is valid; else the rebuild as it is. It takes no memory.
    pub fn complete(self) -> Result<Master, Rebuild>
        ensures done { is_ok result ≡ done self }
        ensures ok { IfOk result (λ m. m ≡ master_after self) }
        ensures values { IfOk result NoneValid }
        ensures err { IfErr result (λ r. r ≡ self) }
    {
        if !self.is_done() {
            return Err(self);
        }
        let Rebuild { mut master, .. } = self;
        let waiting = master.waiting();
        master.blocked(false, waiting);
        Ok(master)
    }
}

/// A law: after every list of calls a table that is made anew has of each node what it told last, in modes that go together
/// where these do; who asked meanwhile waits, in the order of the arrival; and no value in it is valid.
pub fn a_rebuilt_table_has_the_last_reports()
    ensures { RebuiltFromReports }
{}

/// A law: what a rebuild's calls do to its table they do to the lock in it as the other law says, and to no other lock; the master that it
/// becomes has each lock as the rebuild has it.
pub fn rebuilds_are_runs()
    ensures { RebuildsAreRuns }
{}
