// A script is carried out.
ghost use Rattle.std.specs.Prelude.{ℕ, ◌≡◌, ◌<◌, ◌≤◌, ◌^◌, length, false, OnOk, IfErr};
ghost use Rattle.gfs2_layout.specs.Device.{IsBlockSize};
ghost use Rattle.lone_scripts.specs.Runs.{IsWholeLoneRun};
ghost use Rattle.lone_scripts.specs.Scripts.{IsForOne};
ghost use Rattle.logged_calls.specs.Nodes.{point_of};
ghost use Rattle.logged_scripts.specs.Beginning.{HasBegun};
ghost use Rattle.logged_scripts.specs.Ends.{HasCause};
ghost use Rattle.logged_scripts.specs.Runs.{HasRun};

use crate::crashes::settle_first;
use crate::ends::RunEnd;
use crate::fences::fence;
use crate::halts::Halt;
use crate::lines::run_lines;
use drafts::Stamp;
use logged_calls::Node;
use script_lang::Script;
use shared_disk::{Settle, SharedDisk};
use std::alloc::Global;

/// Carries out a script on node 1, alone on a disk, which has begun: it takes the lines in order, answers each call with the next number, and unmounts behind all of them. At a crash line, or behind the write of
/// the first crash that waits for one, it stops; then it is fenced, with what it had in flight as that crash says (at a line nothing is), and what it lost is told. `journal` has the blocks of its journal, and
/// `time` is that of each change, in seconds. The node's items tell all this. It costs what the calls and the unmount cost, and where it crashes what `fence_crashed` of `lone_fences` costs.
pub fn run_script<D: SharedDisk>(
    alloc: Global,
    disk: &mut D,
    node: &mut Node,
    script: &Script,
    journal: &[u64],
    time: u64,
) -> Result<(), RunEnd>
    requires form { IsForOne script.now }
    requires lines { length script.now.lines < 2 ^ 32 }
    requires begun { HasBegun script.now (D.state disk.old) node.old }
    requires sequence { node.old.log.sequence ≤ 2 ^ 63 }
    requires journal { journal.now ≡ node.old.log.journal.places }
    requires size { IsBlockSize (D.state disk.old).size }
    requires free { (D.state disk.old).is_fenced 0 ≡ false }
    ensures run { HasRun script.now time (point_of (D.state disk.old) (D.list disk.old) node.old) (D.state disk.new) (D.list disk.new) node.new.items.items result }
    ensures whole { OnOk result (IsWholeLoneRun script.now node.new.items.items) }
    ensures later { (i : ℕ) → D.faults disk.old i ≤ D.faults disk.new i }
    ensures cause { IfErr result (HasCause (D.state disk.old).count journal.now (D.faults disk.old) (D.faults disk.new)) }
{
    let stamp = Stamp { node: 1, time };
    let first = node.log.sequence();
    match run_lines(alloc, disk, node, script, &stamp) {
        Halt::Unmounted => Ok(()),
        Halt::AtLine => fence(alloc, disk, node, Settle::Old, journal, first),
        Halt::AtWrite => {
            let order = settle_first(&script.armed);
            fence(alloc, disk, node, order, journal, first)
        }
        Halt::Ended(end) => Err(end),
    }
}
