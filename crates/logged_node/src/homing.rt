// Live blocks go home.
ghost use Rattle.std.specs.Prelude.{ℕ, ◌≡◌, ◌+◌, ◌++◌, ◌<◌, ◌≤◌, [], ◌∷◌, length, OnOk, IfErr};
ghost use Rattle.log_memory.specs.Locks.{IsNextLock, NoneIsAway};
ghost use Rattle.log_values.specs.Homing.{HomeAnswer};
ghost use Rattle.logged_node.specs.Ends.{HasCause};
ghost use Rattle.logged_node.specs.Homing.{GoesHomeward, HasGoneHome, IsHoming, RestsAsDue, SendsOne, SentSoFar, homes_in, last_rest, waiting};
ghost use Rattle.logged_node.specs.Nodes.{IsResting, StopsBehind};

use crate::deeds::{MOST_IN_FLIGHT, have_room, put_barrier, put_write};
use crate::ends::Stop;
use crate::node::Node;
use glock_names::LockName;
use log_values::LogStep;
use shared_disk::SharedDisk;
use trace_text::TraceItem;

// Makes a barrier: what is on its way is home.
fn rest<D: SharedDisk>(disk: &mut D, node: &mut Node) -> Result<(), Stop>
    requires homing { IsHoming (D.state disk.old) node.old }
    requires some { 0 < node.old.flying }
    ensures rested { OnOk result (GoesHomeward (D.state disk.old) (D.list disk.old) node.old (D.state disk.new) (D.list disk.new) node.new) }
    ensures none { OnOk result ((D.state disk.new).in_flight 1 ≡ []) }
    ensures waiting { OnOk result (waiting node.new.log ≡ waiting node.old.log) }
    ensures away { OnOk result (NoneIsAway node.old.log → NoneIsAway node.new.log) }
    ensures told { OnOk result (node.new.items.items ≡ node.old.items.items ++ TraceItem.Barrier 1 ∷ []) }
    ensures flying { OnOk result (node.new.flying ≡ 0) }
    ensures homes { homes_in node.new.items.items ≡ homes_in node.old.items.items }
    ensures stopped { IfErr result (StopsBehind 0 (D.state disk.old) (D.list disk.old) node.old (D.state disk.new) (D.list disk.new) node.new.items.items) }
    ensures later { (i : ℕ) → D.faults disk.old i ≤ D.faults disk.new i }
    ensures cause { IfErr result (HasCause (D.state disk.old).count (D.faults disk.old) (D.faults disk.new)) }
{
    match have_room(node, 1) {
        Ok(()) => {}
        Err(why) => return Err(why),
    }
    match put_barrier(disk, node) {
        Ok(()) => {}
        Err(why) => return Err(why),
    }
    node.log.settle();
    Ok(())
}

// The next write home of the lock's blocks, as the log makes it. Its bytes are then the node's block.
fn next_home(node: &mut Node, lock: LockName) -> Option<LogStep>
    requires { length node.old.block.items ≡ node.old.log.journal.size }
    ensures node { node.new ≡ record node.old { log = node.new.log; block = node.new.block } }
    ensures long { length node.new.block.items ≡ length node.old.block.items }
    ensures answer { HomeAnswer node.old.log node.new.log lock node.new.block.items result }
{
    node.log.home_step(lock, &mut node.block)
}

// Sends the first block home of those under the lock, which is the next one.
fn send<D: SharedDisk>(disk: &mut D, node: &mut Node, lock: LockName) -> Result<(), Stop>
    requires homing { IsHoming (D.state disk.old) node.old }
    requires few { node.old.flying < 512 }
    requires next { IsNextLock node.old.log lock }
    ensures sent { OnOk result (GoesHomeward (D.state disk.old) (D.list disk.old) node.old (D.state disk.new) (D.list disk.new) node.new) }
    ensures fewer { OnOk result (waiting node.new.log < waiting node.old.log) }
    ensures told { OnOk result ((b : ℕ) × (node.new.items.items ≡ node.old.items.items ++ TraceItem.WriteHome 1 b ∷ [])) }
    ensures flying { OnOk result (node.new.flying ≡ node.old.flying + 1) }
    ensures order { SentSoFar node.old.log node.old.items.items node.new.items.items }
    ensures stopped { IfErr result (StopsBehind 0 (D.state disk.old) (D.list disk.old) node.old (D.state disk.new) (D.list disk.new) node.new.items.items) }
    ensures later { (i : ℕ) → D.faults disk.old i ≤ D.faults disk.new i }
    ensures cause { IfErr result (HasCause (D.state disk.old).count (D.faults disk.old) (D.faults disk.new)) }
{
    match have_room(node, 1) {
        Ok(()) => {}
        Err(why) => return Err(why),
    }
    match next_home(node, lock) {
        None => unreachable!(),
        Some(step) => match step {
            LogStep::Write { block } => {
                put_write(disk, node, block, TraceItem::WriteHome { node: 1, block })
            }
            _ => unreachable!(),
        },
    }
}

// Sends one, and makes a barrier where no more may be in flight.
fn take_one<D: SharedDisk>(disk: &mut D, node: &mut Node, lock: LockName) -> Result<(), Stop>
    requires homing { IsHoming (D.state disk.old) node.old }
    requires few { node.old.flying < 512 }
    requires next { IsNextLock node.old.log lock }
    ensures taken { OnOk result (GoesHomeward (D.state disk.old) (D.list disk.old) node.old (D.state disk.new) (D.list disk.new) node.new) }
    ensures few { OnOk result (node.new.flying < 512) }
    ensures fewer { OnOk result (waiting node.new.log < waiting node.old.log) }
    ensures one { OnOk result (SendsOne node.old node.new) }
    ensures order { SentSoFar node.old.log node.old.items.items node.new.items.items }
    ensures stopped { IfErr result (StopsBehind 0 (D.state disk.old) (D.list disk.old) node.old (D.state disk.new) (D.list disk.new) node.new.items.items) }
    ensures later { (i : ℕ) → D.faults disk.old i ≤ D.faults disk.new i }
    ensures cause { IfErr result (HasCause (D.state disk.old).count (D.faults disk.old) (D.faults disk.new)) }
{
    match send(disk, node, lock) {
        Ok(()) => {}
        Err(why) => return Err(why),
    }
    if node.flying >= MOST_IN_FLIGHT {
        rest(disk, node)
    } else {
        Ok(())
    }
}

// Makes a barrier where anything is in flight.
fn rest_if_any<D: SharedDisk>(disk: &mut D, node: &mut Node) -> Result<(), Stop>
    requires homing { IsHoming (D.state disk.old) node.old }
    requires away { NoneIsAway node.old.log }
    ensures home { OnOk result (HasGoneHome (D.state disk.old) (D.list disk.old) node.old (D.state disk.new) (D.list disk.new) node.new) }
    ensures told { OnOk result (node.new.items.items ≡ node.old.items.items ++ last_rest node.old.flying) }
    ensures homes { homes_in node.new.items.items ≡ homes_in node.old.items.items }
    ensures stopped { IfErr result (StopsBehind 0 (D.state disk.old) (D.list disk.old) node.old (D.state disk.new) (D.list disk.new) node.new.items.items) }
    ensures later { (i : ℕ) → D.faults disk.old i ≤ D.faults disk.new i }
    ensures cause { IfErr result (HasCause (D.state disk.old).count (D.faults disk.old) (D.faults disk.new)) }
{
    if node.flying > 0 {
        rest(disk, node)
    } else {
        Ok(())
    }
}

/// Takes all live blocks of a node at rest home: lock by lock, by kind and then by number, and under each by rising number of the block. It makes a barrier
/// whenever 512 writes are in flight, and one at the end where any is. It keeps the locks. Costs a write for each block that isn't home, which each goes over the
/// live blocks twice, and a barrier for each 512; memory for the items.
pub fn go_home<D: SharedDisk>(disk: &mut D, node: &mut Node) -> Result<(), Stop>
    requires resting { IsResting (D.state disk.old) node.old }
    ensures home { OnOk result (HasGoneHome (D.state disk.old) (D.list disk.old) node.old (D.state disk.new) (D.list disk.new) node.new) }
    ensures rests { OnOk result (RestsAsDue node.old.items.items node.new.items.items) }
    ensures order { SentSoFar node.old.log node.old.items.items node.new.items.items }
    ensures stopped { IfErr result (StopsBehind 0 (D.state disk.old) (D.list disk.old) node.old (D.state disk.new) (D.list disk.new) node.new.items.items) }
    ensures later { (i : ℕ) → D.faults disk.old i ≤ D.faults disk.new i }
    ensures cause { IfErr result (HasCause (D.state disk.old).count (D.faults disk.old) (D.faults disk.new)) }
{
    while let Some(lock) = node.log.next_lock() {
        match take_one(disk, node, lock) {
            Ok(()) => {}
            Err(why) => return Err(why),
        }
    }
    rest_if_any(disk, node)
}
