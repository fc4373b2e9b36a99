// The lines of a script, taken one by one.
ghost use Rattle.std.specs.Prelude.{ℕ, ◌≡◌, ◌<◌, ◌≤◌, ◌^◌, length, OnOk, IfErr};
ghost use Rattle.lone_scripts.specs.Scripts.{IsForOne};
ghost use Rattle.logged_calls.specs.Nodes.{point_of};
ghost use Rattle.logged_scripts.specs.Beginning.{HasBegun, IsUnderWay};
ghost use Rattle.logged_scripts.specs.Ends.{HasCause, IfEnded};
ghost use Rattle.logged_scripts.specs.Runs.{HasHalted};

use crate::halts::{Halt, halt_of_call, halt_of_stop};
use drafts::Stamp;
use logged_calls::{Node, take_call, unmount};
use script_lang::{Line, Script};
use shared_disk::SharedDisk;
use std::alloc::Global;

// Takes the lines, and answers their calls. A wait passes, since each call above it is answered. At a crash line the node stops where it is.
fn take_lines<D: SharedDisk>(
    alloc: Global,
    disk: &mut D,
    node: &mut Node,
    script: &Script,
    stamp: &Stamp,
) -> Result<(), Halt>
    requires form { IsForOne script.now }
    requires lines { length script.now.lines < 2 ^ 32 }
    requires begun { HasBegun script.now (D.state disk.old) node.old }
    requires sequence { node.old.log.sequence ≤ 2 ^ 63 }
    requires node { stamp.now.node ≡ 1 }
    ensures taken { OnOk result (IsUnderWay script.now stamp.now.time (point_of (D.state disk.old) (D.list disk.old) node.old) (length script.now.lines) (D.state disk.new) (D.list disk.new) node.new) }
    ensures halted { IfErr result (HasHalted script.now stamp.now.time (point_of (D.state disk.old) (D.list disk.old) node.old) (D.state disk.new) (D.list disk.new) node.new.items.items) }
    ensures later { (i : ℕ) → D.faults disk.old i ≤ D.faults disk.new i }
    ensures cause { IfErr result (λ halt. IfEnded halt (HasCause (D.state disk.old).count node.old.log.journal.places (D.faults disk.old) (D.faults disk.new))) }
{
    for (place, line) in script.lines.iter().enumerate() {
        match line {
            Line::Call { client, call } => {
                let name = &script.clients[*client as usize].name;
                match take_call(alloc, disk, node, name, call, stamp) {
                    Ok(()) => {}
                    Err(end) => return Err(halt_of_call(place, end)),
                }
            }
            Line::Wait => {}
            Line::Crash(_) => return Err(Halt::AtLine),
            Line::Join(_) => unreachable!(),
        }
    }
    Ok(())
}

/// Takes the lines of a script, and unmounts behind them.
pub(crate) fn run_lines<D: SharedDisk>(
    alloc: Global,
    disk: &mut D,
    node: &mut Node,
    script: &Script,
    stamp: &Stamp,
) -> Halt
    requires form { IsForOne script.now }
    requires lines { length script.now.lines < 2 ^ 32 }
    requires begun { HasBegun script.now (D.state disk.old) node.old }
    requires sequence { node.old.log.sequence ≤ 2 ^ 63 }
    requires node { stamp.now.node ≡ 1 }
    ensures halted { HasHalted script.now stamp.now.time (point_of (D.state disk.old) (D.list disk.old) node.old) (D.state disk.new) (D.list disk.new) node.new.items.items result }
    ensures later { (i : ℕ) → D.faults disk.old i ≤ D.faults disk.new i }
    ensures cause { IfEnded result (HasCause (D.state disk.old).count node.old.log.journal.places (D.faults disk.old) (D.faults disk.new)) }
{
    match take_lines(alloc, disk, node, script, stamp) {
        Ok(()) => {}
        Err(halt) => return halt,
    }
    match unmount(disk, node) {
        Ok(()) => Halt::Unmounted,
        Err(why) => halt_of_stop(why),
    }
}
