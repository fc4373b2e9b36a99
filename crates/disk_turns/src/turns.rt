// Blocks put on a disk, turn by turn.
ghost use Rattle.std.specs.Prelude.{ℕ, List, [], ◌++◌, ◌≡◌, ◌≤◌, IfOk, OnOk, IfErr, Some, length};
ghost use Rattle.shared_disk.specs.Disk.{Gains, IsIdle, Operation};
ghost use Rattle.disk_turns.specs.Crashes.{Awaits, IsBefore, StopsByCrash, left_after as left_behind};
ghost use Rattle.disk_turns.specs.Faults.{HasCause, HasStoppedAs, HasStoppedInAs};
ghost use Rattle.disk_turns.specs.Turns.{AreBrought, IsTurn, moment, most_in_flight, turn_of, writes_of};
ghost use Rattle.disk_turns.specs.Writing.{AreInFlight, AreOfDisk, AreWritten, flights_of};

use crate::TurnFault;
use crate::crashes::{crashed, is_at_crash, left_after};
use drafts::Written;
use fault_counts::Rise;
use shared_disk::SharedDisk;

// How many writes of a node may be in flight at once.
const MOST_IN_FLIGHT: usize = 512;

// The fault of a disk that failed in a turn, where the node's count was so before.
fn failed<D: SharedDisk>(
    disk: &D,
    node: u8,
    block: Option<u64>,
    before: u64,
    in_flight: usize,
) -> TurnFault
    requires node { node ≤ 8 }
    ensures { result ≡ record { block = block; rise = Some (record { before = before; after = D.faults disk.now node }); on_disk = 0; in_flight = in_flight } }
{
    TurnFault {
        block,
        rise: Some(Rise {
            before,
            after: disk.faults(node),
        }),
        on_disk: 0,
        in_flight,
    }
}

// Puts writes of these blocks in flight, of a node that has none yet; it may be to crash behind one of them.
fn put_in_flight<D: SharedDisk>(
    disk: &mut D,
    node: u8,
    blocks: &[Written],
    armed: Option<u64>,
) -> Result<(), TurnFault>
    requires node { node ≤ 8 }
    requires idle { IsIdle (D.state disk.old) }
    requires few { length blocks.now ≤ most_in_flight }
    requires of_disk { AreOfDisk (D.state disk.old) blocks.now }
    requires awaits { Awaits armed }
    ensures flies { OnOk result (AreInFlight node (D.state disk.old) (D.state disk.new) (flights_of blocks.now)) }
    ensures gains { OnOk result (Gains (D.list disk.old) (D.list disk.new) (writes_of node blocks.now)) }
    ensures stopped { IfErr result (HasStoppedInAs node (moment (D.state disk.old) (D.list disk.old)) (moment (D.state disk.new) (D.list disk.new)) blocks.now) }
    ensures before { OnOk result (IsBefore (length blocks.now) armed) }
    ensures crash { IfErr result (StopsByCrash armed 0) }
    ensures later { (i : ℕ) → D.faults disk.old i ≤ D.faults disk.new i }
    ensures cause { IfErr result (HasCause node (D.state disk.old).count (D.faults disk.old) (D.faults disk.new)) }
{
    for (place, written) in blocks.iter().enumerate() {
        let before = disk.faults(node);
        match disk.write(node, written.block, written.bytes.bytes()) {
            Ok(()) => {}
            Err(_) => return Err(failed(disk, node, Some(written.block), before, place)),
        }
        if is_at_crash(armed, place + 1) {
            return Err(crashed(blocks, place + 1));
        }
    }
    Ok(())
}

// Puts a turn of blocks on the disk, and waits for them there.
fn write_turn<D: SharedDisk>(
    disk: &mut D,
    node: u8,
    blocks: &[Written],
    armed: Option<u64>,
) -> Result<(), TurnFault>
    requires node { node ≤ 8 }
    requires idle { IsIdle (D.state disk.old) }
    requires few { length blocks.now ≤ most_in_flight }
    requires of_disk { AreOfDisk (D.state disk.old) blocks.now }
    requires awaits { Awaits armed }
    ensures written { OnOk result (AreWritten (D.state disk.old) (D.state disk.new) blocks.now) }
    ensures gains { OnOk result (Gains (D.list disk.old) (D.list disk.new) (turn_of node blocks.now)) }
    ensures stopped { IfErr result (HasStoppedInAs node (moment (D.state disk.old) (D.list disk.old)) (moment (D.state disk.new) (D.list disk.new)) blocks.now) }
    ensures before { OnOk result (IsBefore (length blocks.now) armed) }
    ensures crash { IfErr result (StopsByCrash armed 0) }
    ensures later { (i : ℕ) → D.faults disk.old i ≤ D.faults disk.new i }
    ensures cause { IfErr result (HasCause node (D.state disk.old).count (D.faults disk.old) (D.faults disk.new)) }
{
    put_in_flight(disk, node, blocks, armed)?;
    let before = disk.faults(node);
    match disk.barrier(node) {
        Ok(()) => Ok(()),
        Err(_) => Err(failed(disk, node, None, before, blocks.len())),
    }
}

/// The first turn of blocks, of which there are some: as many as may be in flight at once, or all. The others come behind it.
pub fn first_turn(blocks: &[Written]) -> (&[Written], &[Written])
    requires { 1 ≤ length blocks.now }
    ensures parts { blocks.now ≡ result.0.now ++ result.1.now }
    ensures turn { IsTurn result.0.now result.1.now }
{
    blocks.split_at(blocks.len().min(MOST_IN_FLIGHT))
}

/// Puts whole blocks on a disk at rest, by rising number, as a node, and waits for them there: in turns of as many writes as may be in
/// flight at once, each with a barrier behind it; without a block nothing is done. Where the disk fails, the turns before are on it, and of the
/// next one the first writes are in flight. Where the node is to crash behind a write, of which so many are left with that one, it stops directly behind it, as
/// on a disk that fails next; else the answer is how many are left then. It costs a write for each block and a barrier for each turn, and takes no memory.
pub fn write_in_turns<D: SharedDisk>(
    disk: &mut D,
    node: u8,
    blocks: &[Written],
    armed: Option<u64>,
) -> Result<Option<u64>, TurnFault>
    requires node { node ≤ 8 }
    requires idle { IsIdle (D.state disk.old) }
    requires of_disk { AreOfDisk (D.state disk.old) blocks.now }
    requires awaits { Awaits armed }
    ensures written { OnOk result (AreWritten (D.state disk.old) (D.state disk.new) blocks.now) }
    ensures brought { OnOk result ((ops : List Operation) × AreBrought node blocks.now ops × Gains (D.list disk.old) (D.list disk.new) ops) }
    ensures none { blocks.now ≡ [] → OnOk result ((D.state disk.new ≡ D.state disk.old) × (D.list disk.new ≡ D.list disk.old)) }
    ensures stopped { IfErr result (HasStoppedAs node (moment (D.state disk.old) (D.list disk.old)) (moment (D.state disk.new) (D.list disk.new)) blocks.now) }
    ensures left { IfOk result (λ left. left ≡ left_behind (length blocks.now) armed) }
    ensures before { OnOk result (IsBefore (length blocks.now) armed) }
    ensures awaits { IfOk result Awaits }
    ensures crash { IfErr result (λ fault. StopsByCrash armed fault.on_disk fault) }
    ensures later { (i : ℕ) → D.faults disk.old i ≤ D.faults disk.new i }
    ensures cause { IfErr result (HasCause node (D.state disk.old).count (D.faults disk.old) (D.faults disk.new)) }
{
    let mut rest = blocks;
    while !rest.is_empty() {
        let (some, later) = first_turn(rest);
        let on_disk = blocks.len() - rest.len();
        match write_turn(disk, node, some, left_after(armed, on_disk)) {
            Ok(()) => {}
            Err(fault) => return Err(TurnFault { on_disk, ..fault }),
        }
        rest = later;
    }
    Ok(left_after(armed, blocks.len()))
}
