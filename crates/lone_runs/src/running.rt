// A run of one node.
ghost use Rattle.std.specs.Prelude.{ℕ, ◌≡◌, ◌≢◌, ◌<◌, ◌≤◌, ◌^◌, [], false, length, OnOk, IfErr};
ghost use Rattle.std.specs.List.{All, AllByRecursion};
ghost use Rattle.disk_turns.specs.Turns.{moment};
ghost use Rattle.gfs2_layout.specs.Device.{IsBlockSize};
ghost use Rattle.image_mount.specs.Mounted.{Journal as Map};
ghost use Rattle.image_recovery.specs.Recoveries.{AreHeadersRead};
ghost use Rattle.logged_scripts.specs.Nodes.{point_of};
ghost use Rattle.logged_scripts.specs.Beginning.{HasBegun};
ghost use Rattle.logged_scripts.specs.Ends.{HasCause as ScriptHasCause};
ghost use Rattle.logged_scripts.specs.Runs.{HasRun};
ghost use Rattle.lone_scripts.specs.Runs.{IsLoneRun, IsWholeLoneRun};
ghost use Rattle.lone_scripts.specs.Scripts.{IsForOne};
ghost use Rattle.peer_replay.specs.declared.planned.Plan.{Plan as PlanValue};
ghost use Rattle.profile_limits.specs.Limits.{most_frames};
ghost use Rattle.script_lang.specs.declared.script.Armed.{Armed};
ghost use Rattle.lone_runs.specs.Beginning.{IsGiven, IsOwn};
ghost use Rattle.lone_runs.specs.Ends.{HasCause};
ghost use Rattle.lone_runs.specs.Runs.{GoesSo, IsSameDisk};

use crate::ends::RunEnd;
use crate::starting::begin;
use image_mount::JournalMap;
use image_recovery::replay_journals;
use journal_replays::{Plan, ReplayFault};
use logged_scripts::{
    Node, RunEnd as ScriptEnd, end_of_fence, join, run_script, settle_first, writes_left,
};
use lone_fences::fence_crashed;
use lone_view::LoneView;
use script_lang::Script;
use shared_disk::SharedDisk;
use std::alloc::Global;
use std::mem;
use trace_text::TraceItem;

// The node, which has begun, carries out the script behind these items, and its own come behind them.
fn carry_out<D: SharedDisk>(
    alloc: Global,
    disk: &mut D,
    mut node: Node,
    script: &Script,
    own: &JournalMap,
    time: u64,
    items: &mut Vec<TraceItem>,
) -> Result<(), ScriptEnd>
    requires form { IsForOne script.now }
    requires lines { length script.now.lines < 2 ^ 32 }
    requires begun { HasBegun script.now (D.state disk.old) (record node { items = items.old }) }
    requires sequence { node.log.sequence ≤ 2 ^ 63 }
    requires journal { own.now.blocks ≡ node.log.journal.places }
    requires size { IsBlockSize (D.state disk.old).size }
    requires free { (D.state disk.old).is_fenced 0 ≡ false }
    ensures run { HasRun script.now time (point_of (D.state disk.old) (D.list disk.old) (record node { items = items.old })) (D.state disk.new) (D.list disk.new) items.new.items result }
    ensures whole { OnOk result (IsWholeLoneRun script.now items.new.items) }
    ensures later { (i : ℕ) → D.faults disk.old i ≤ D.faults disk.new i }
    ensures cause { IfErr result (ScriptHasCause (D.state disk.old).count own.now.blocks (D.faults disk.old) (D.faults disk.new)) }
{
    mem::swap(&mut node.items, items);
    let result = run_script(alloc, disk, &mut node, script, &own.blocks, time);
    mem::swap(&mut node.items, items);
    result
}

/// Runs a script that one node can run on an image that was mounted on an idle disk, with what the node sees of it, its journals, and the plans of their replays. Node 1, which has the first of the journals and a
/// log with so many frames, joins, replays all journals by rising slot, carries out the script, and unmounts; `time` is that of its headers and changes, in seconds. Where a crash waits for one of its writes it stops
/// directly behind that, in the replays too; there, and at a crash line, it is fenced, and what it lost is told. All that is told comes into `items`, which is empty. Where it ends before that, the items so far stay. It costs
/// what `replay_journals`, `begin_node` and `run_script` cost, and memory for two copies of the journal's places, one of which is sorted.
pub fn run_alone<D: SharedDisk>(
    alloc: Global,
    disk: &mut D,
    view: LoneView,
    journals: &[JournalMap],
    plans: &[Plan],
    script: &Script,
    time: u64,
    frames: u32,
    items: &mut Vec<TraceItem>,
) -> Result<(), RunEnd>
    requires given { IsGiven (D.state disk.old) view journals.now plans.now }
    requires some { 1 ≤ length journals.now }
    requires frames { (1 ≤ frames) × (frames ≤ most_frames) }
    requires form { IsForOne script.now }
    requires lines { length script.now.lines < 2 ^ 32 }
    requires armed { AllByRecursion (λ (a : Armed). 1 ≤ a.write) script.now.armed }
    requires none { items.old.items ≡ [] }
    ensures goes { (own : Map) (plan : PlanValue) → IsOwn journals.now plans.now own plan → GoesSo script.now time frames (moment (D.state disk.old) (D.list disk.old)) view journals.now plans.now own plan (moment (D.state disk.new) (D.list disk.new)) items.new.items result }
    ensures headers { items.new.items ≢ [] → AreHeadersRead (D.state disk.old).size 1 time journals.now plans.now }
    ensures disk { IsSameDisk (D.state disk.old) (D.state disk.new) }
    ensures lone { (count : ℕ) × IsLoneRun script.now count items.new.items }
    ensures whole { OnOk result (IsWholeLoneRun script.now items.new.items) }
    ensures later { (i : ℕ) → D.faults disk.old i ≤ D.faults disk.new i }
    ensures cause { (own : Map) (plan : PlanValue) → IsOwn journals.now plans.now own plan → IfErr result (HasCause (D.state disk.old).count own.blocks (D.faults disk.old) (D.faults disk.new)) }
{
    let own = &journals[0];
    let mut node = begin(alloc, disk, view, own, &plans[0], frames, time)?;
    join(items)?;
    let armed = writes_left(&script.armed, 0);
    match replay_journals(alloc, disk, 1, journals, plans, time, armed, items) {
        Ok(left) => {
            // What a node reads there are whole blocks.
            let _count = disk.blocks();
            node.armed = left;
            match carry_out(alloc, disk, node, script, own, time, items) {
                Ok(()) => Ok(()),
                Err(end) => Err(RunEnd::Script(end)),
            }
        }
        Err(ReplayFault::Crashed) => {
            let order = settle_first(&script.armed);
            match fence_crashed(alloc, disk, order, &own.blocks, own.head.sequence, items) {
                Ok(()) => Ok(()),
                Err(end) => Err(RunEnd::Script(end_of_fence(end))),
            }
        }
        Err(ReplayFault::DiskFailed { block, rise }) => Err(RunEnd::ReplayFailed { block, rise }),
        Err(ReplayFault::NoMemory) => Err(RunEnd::Script(ScriptEnd::NoMemory)),
    }
}
