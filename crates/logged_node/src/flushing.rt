// Flushes: all that is due, or a header alone, comes into the journal.
ghost use Rattle.std.specs.Prelude.{ℕ, ◌≡◌, ◌≢◌, ◌↔◌, Ok, IfOk, ◌+◌, ◌++◌, ◌<◌, ◌≤◌, ◌^◌, [], ◌∷◌, false, length, None, OnOk, IfErr};
ghost use Rattle.std.specs.Vec.{vec_capacity, vec_len};
ghost use Rattle.log_values.specs.Flushing.{FlushAnswer};
ghost use Rattle.logged_node.specs.Ends.{FailedAt, HasCause, IfCrashed, IfFailed, IfMade, IsOfDisk};
ghost use Rattle.logged_node.specs.Flushing.{CanFlush, FailsAt, GoesOn, HasBegun, HasCome, HasNoRoom, HasNothingToFlush, IsAsItWas, IsCarried, IsUnderWay, MayCarry, block_of, number_of};
ghost use Rattle.logged_node.specs.Homing.{homes_in};
ghost use Rattle.logged_node.specs.Nodes.{Awaits, IsAtCrash, IsResting, StopsBehind, crash_at, point_of};

use crate::deeds::{have_room, put_barrier, put_write};
use crate::ends::Stop;
use crate::node::Node;
use disk_items::put_in_room;
use log_values::LogStep;
use log_widths::widths_are_numbers;
use shared_disk::SharedDisk;
use trace_text::TraceItem;

/// What came of a flush.
#[derive(Clone, Copy, Debug, PartialEq, Eq)]
pub enum Flushed {
    /// One is in the journal.
    Done,
    /// There was nothing to be flushed.
    Nothing,
    /// The journal has no room until live blocks are home.
    NoRoom,
}

// The last barrier of a flush was made: what it logs is in the journal, and that is committed.
fn commit(node: &mut Node)
    requires room { vec_len node.old.items < vec_capacity node.old.items }
    ensures node { node.new ≡ record node.old { items = node.new.items; numbers = record node.old.numbers { low = node.old.numbers.begun } } }
    ensures items { node.new.items.items ≡ node.old.items.items ++ TraceItem.Commit 1 node.old.log.sequence node.old.numbers.begun ∷ [] }
{
    let upto = node.numbers.begun;
    node.numbers.low = upto;
    let sequence = node.log.sequence();
    put_in_room(
        &mut node.items,
        TraceItem::Commit {
            node: 1,
            sequence,
            upto,
        },
    );
}

// Makes a barrier of a flush. With the last one the flush is in the journal.
fn end_part<D: SharedDisk>(disk: &mut D, node: &mut Node) -> Result<(), Stop>
    requires open { (D.state disk.old).is_fenced 1 ≡ false }
    requires room { vec_len node.old.items + 2 ≤ vec_capacity node.old.items }
    ensures carried { OnOk result (IsCarried node.old.block.items (point_of (D.state disk.old) (D.list disk.old) node.old) (point_of (D.state disk.new) (D.list disk.new) node.new) LogStep.Barrier) }
    ensures node { OnOk result (node.new ≡ record node.old { items = node.new.items; flying = 0; numbers = record node.old.numbers { low = node.new.numbers.low } }) }
    ensures none { OnOk result ((D.state disk.new).in_flight 1 ≡ []) }
    ensures armed { OnOk result (crash_at node.new ≡ crash_at node.old) }
    ensures why { IfErr result IsOfDisk }
    ensures failed { IfErr result (λ why. (D.state disk.new ≡ D.state disk.old) × (D.list disk.new ≡ D.list disk.old) × (node.new ≡ node.old)) }
    ensures later { (i : ℕ) → D.faults disk.old i ≤ D.faults disk.new i }
    ensures at { IfErr result (λ why. FailedAt why None) }
    ensures cause { IfErr result (HasCause (D.state disk.old).count (D.faults disk.old) (D.faults disk.new)) }
{
    match put_barrier(disk, node) {
        Ok(()) => {}
        Err(why) => return Err(why),
    }
    if !node.log.is_flushing() {
        commit(node);
    }
    Ok(())
}

// Carries out a step of a flush on the disk that the log has made: its bytes are the node's block.
fn carry<D: SharedDisk>(disk: &mut D, node: &mut Node, step: LogStep) -> Result<(), Stop>
    requires may { MayCarry (D.state disk.old) step }
    requires size { length node.old.block.items ≡ (D.state disk.old).size }
    requires count { node.old.flying ≡ length ((D.state disk.old).in_flight 1) }
    requires open { (D.state disk.old).is_fenced 1 ≡ false }
    requires room { vec_len node.old.items + 2 ≤ vec_capacity node.old.items }
    requires awaits { Awaits node.old.armed }
    ensures carried { IfMade result (IsCarried node.old.block.items (point_of (D.state disk.old) (D.list disk.old) node.old) (point_of (D.state disk.new) (D.list disk.new) node.new) step) }
    ensures node { OnOk result (node.new ≡ record node.old { items = node.new.items; flying = node.new.flying; numbers = record node.old.numbers { low = node.new.numbers.low }; armed = node.new.armed }) }
    ensures flying { OnOk result (node.new.flying ≡ length ((D.state disk.new).in_flight 1)) }
    ensures armed { OnOk result (crash_at node.new ≡ crash_at node.old) }
    ensures awaits { OnOk result (Awaits node.new.armed) }
    ensures crashed { IfErr result (λ why. IfCrashed why (IsAtCrash (crash_at node.old) node.new.items.items)) }
    ensures failed { IfErr result (λ why. IfFailed why (FailsAt node.old.block.items (point_of (D.state disk.old) (D.list disk.old) node.old) (D.state disk.new) (D.list disk.new) step)) }
    ensures kept { IfErr result (λ why. IfFailed why (node.new.items.items ≡ node.old.items.items)) }
    ensures later { (i : ℕ) → D.faults disk.old i ≤ D.faults disk.new i }
    ensures at { IfErr result (λ why. FailedAt why (block_of step)) }
    ensures cause { IfErr result (HasCause (D.state disk.old).count (D.faults disk.old) (D.faults disk.new)) }
{
    match step {
        LogStep::Write { block } => {
            put_write(disk, node, block, TraceItem::WriteLog { node: 1, block })
        }
        LogStep::Head { block, sequence } => {
            let upto = node.numbers.begun;
            put_write(
                disk,
                node,
                block,
                TraceItem::WriteHead {
                    node: 1,
                    block,
                    sequence,
                    upto,
                },
            )
        }
        LogStep::Barrier => end_part(disk, node),
        LogStep::NoRoom => unreachable!(),
    }
}

// The next step of a flush, as the log makes it. The bytes of a write are then the node's block.
fn next_step(node: &mut Node) -> Option<LogStep>
    requires { length node.old.block.items ≡ node.old.log.journal.size }
    ensures node { node.new ≡ record node.old { log = node.new.log; block = node.new.block } }
    ensures long { length node.new.block.items ≡ length node.old.block.items }
    ensures answer { FlushAnswer node.old.log node.new.log node.new.block.items result }
{
    node.log.flush_step(&mut node.block)
}

// Makes the next step of a flush that is under way.
fn go_on<D: SharedDisk>(disk: &mut D, node: &mut Node) -> Result<(), Stop>
    requires flushing { IsUnderWay (D.state disk.old) node.old }
    requires sequence { node.old.log.sequence + 1 < 2 ^ 64 }
    ensures came { OnOk result (GoesOn (D.state disk.old) (D.list disk.old) node.old (D.state disk.new) (D.list disk.new) node.new) }
    ensures homes { homes_in node.new.items.items ≡ homes_in node.old.items.items }
    ensures stopped { IfErr result (StopsBehind 1 (D.state disk.old) (D.list disk.old) node.old (D.state disk.new) (D.list disk.new) node.new.items.items) }
    ensures later { (i : ℕ) → D.faults disk.old i ≤ D.faults disk.new i }
    ensures cause { IfErr result (HasCause (D.state disk.old).count (D.faults disk.old) (D.faults disk.new)) }
{
    widths_are_numbers();
    match have_room(node, 2) {
        Ok(()) => {}
        Err(why) => return Err(why),
    }
    match next_step(node) {
        Some(step) => carry(disk, node, step),
        None => unreachable!(),
    }
}

/// What came of asking for a flush.
#[derive(Clone, Copy, Debug, PartialEq, Eq)]
enum Began {
    Begun,
    Nothing,
    NoRoom,
}

// The number of the calls that a flush has whose first step this is: a header alone begins with its header.
fn number_with(node: &Node, step: LogStep) -> u64
    ensures { result ≡ number_of node.now.numbers step }
{
    match step {
        LogStep::Head { .. } => node.numbers.low,
        _ => node.numbers.answered,
    }
}

// Begins a flush of a node at rest, if one is due, and makes its first step.
fn begin<D: SharedDisk>(disk: &mut D, node: &mut Node) -> Result<Began, Stop>
    requires resting { IsResting (D.state disk.old) node.old }
    requires sequence { node.old.log.sequence + 1 < 2 ^ 64 }
    ensures begun { result ≡ Ok Began.Begun → HasBegun (D.state disk.old) (D.list disk.old) node.old (D.state disk.new) (D.list disk.new) node.new }
    ensures can { result ≡ Ok Began.Begun → CanFlush node.old.log }
    ensures not { IfOk result (λ b. b ≢ Began.Begun → IsAsItWas (D.state disk.old) (D.list disk.old) node.old (D.state disk.new) (D.list disk.new) node.new) }
    ensures nothing { result ≡ Ok Began.Nothing → HasNothingToFlush node.old.log }
    ensures no_room { result ≡ Ok Began.NoRoom → HasNoRoom node.old.log }
    ensures homes { homes_in node.new.items.items ≡ homes_in node.old.items.items }
    ensures stopped { IfErr result (StopsBehind 1 (D.state disk.old) (D.list disk.old) node.old (D.state disk.new) (D.list disk.new) node.new.items.items) }
    ensures later { (i : ℕ) → D.faults disk.old i ≤ D.faults disk.new i }
    ensures cause { IfErr result (HasCause (D.state disk.old).count (D.faults disk.old) (D.faults disk.new)) }
{
    widths_are_numbers();
    match have_room(node, 2) {
        Ok(()) => {}
        Err(why) => return Err(why),
    }
    match next_step(node) {
        None => Ok(Began::Nothing),
        Some(step) => match step {
            LogStep::NoRoom => Ok(Began::NoRoom),
            _ => {
                node.numbers.begun = number_with(node, step);
                match carry(disk, node, step) {
                    Ok(()) => Ok(Began::Begun),
                    Err(why) => Err(why),
                }
            }
        },
    }
}

/// Flushes the log of a node at rest: all that is due comes into the journal, and is committed; or, where nothing is due or there is no room for it, and all
/// live blocks are home, a header alone, behind which the journal is empty. Where it has no room until live blocks are home, nothing is done. Costs a write for
/// each block that is due, one for each descriptor and for the header, and two barriers; memory for the items.
pub fn flush<D: SharedDisk>(disk: &mut D, node: &mut Node) -> Result<Flushed, Stop>
    requires resting { IsResting (D.state disk.old) node.old }
    requires sequence { node.old.log.sequence + 1 < 2 ^ 64 }
    ensures done { result ≡ Ok Flushed.Done → HasCome (D.state disk.old) (D.list disk.old) node.old (D.state disk.new) (D.list disk.new) node.new }
    ensures not { IfOk result (λ b. b ≢ Flushed.Done → IsAsItWas (D.state disk.old) (D.list disk.old) node.old (D.state disk.new) (D.list disk.new) node.new) }
    ensures can { IfOk result (λ b. (b ≡ Flushed.Done) ↔ CanFlush node.old.log) }
    ensures nothing { IfOk result (λ b. (b ≡ Flushed.Nothing) ↔ HasNothingToFlush node.old.log) }
    ensures no_room { IfOk result (λ b. (b ≡ Flushed.NoRoom) ↔ HasNoRoom node.old.log) }
    ensures grows { OnOk result (node.new.log.sequence ≤ node.old.log.sequence + 1) }
    ensures homes { homes_in node.new.items.items ≡ homes_in node.old.items.items }
    ensures stopped { IfErr result (StopsBehind 1 (D.state disk.old) (D.list disk.old) node.old (D.state disk.new) (D.list disk.new) node.new.items.items) }
    ensures later { (i : ℕ) → D.faults disk.old i ≤ D.faults disk.new i }
    ensures cause { IfErr result (HasCause (D.state disk.old).count (D.faults disk.old) (D.faults disk.new)) }
{
    match begin(disk, node) {
        Ok(Began::Begun) => {}
        Ok(Began::Nothing) => return Ok(Flushed::Nothing),
        Ok(Began::NoRoom) => return Ok(Flushed::NoRoom),
        Err(why) => return Err(why),
    }
    while node.log.is_flushing() {
        match go_on(disk, node) {
            Ok(()) => {}
            Err(why) => return Err(why),
        }
    }
    Ok(Flushed::Done)
}
