// The change of a call comes into the log.
ghost use Rattle.std.specs.Prelude.{ℕ, ◌≡◌, ◌+◌, ◌<◌, ◌≤◌, ◌^◌, true, false, Ok, OnOk, IfErr};
ghost use Rattle.std.specs.List.{All};
ghost use Rattle.drafts.specs.declared.change.Written.{Written as WrittenBlock};
ghost use Rattle.log_values.specs.Changes.{CanBeAdded};
ghost use Rattle.log_values.specs.Flushing.{IsDue, NothingIsLive};
ghost use Rattle.log_widths.specs.Widths.{HasChangeWidths};
ghost use Rattle.logged_node.specs.Ends.{HasCause};
ghost use Rattle.logged_node.specs.Nodes.{StopsBehind};
ghost use Rattle.logged_calls.specs.Adding.{HasAdded, HasNoPlace};
ghost use Rattle.logged_calls.specs.Calls.{HasMoved, IsReady, most_headers};

use drafts::Change;
use logged_node::{Node, Stop, bring_in, make_room, take_change};
use shared_disk::SharedDisk;

/// Takes all home that is live, where nothing is due; behind that the journal is empty.
pub(crate) fn empty_journal<D: SharedDisk>(disk: &mut D, node: &mut Node) -> Result<(), Stop>
    requires ready { IsReady (D.state disk.old) node.old }
    requires none { IsDue node.old.log → ⊥ }
    requires sequence { node.old.log.sequence + 1 < 2 ^ 64 }
    ensures moved { OnOk result (HasMoved 1 (D.state disk.old) (D.list disk.old) node.old (D.state disk.new) (D.list disk.new) node.new) }
    ensures due { OnOk result (IsDue node.new.log → ⊥) }
    ensures empty { OnOk result (NothingIsLive node.new.log) }
    ensures stopped { IfErr result (StopsBehind 1 (D.state disk.old) (D.list disk.old) node.old (D.state disk.new) (D.list disk.new) node.new.items.items) }
    ensures later { (i : ℕ) → D.faults disk.old i ≤ D.faults disk.new i }
    ensures cause { IfErr result (HasCause (D.state disk.old).count (D.faults disk.old) (D.faults disk.new)) }
{
    if node.log.has_live() {
        make_room(disk, node)
    } else {
        Ok(())
    }
}

// Where nothing is due, the change comes into the log if there is room for it once the journal is empty.
fn add_behind<D: SharedDisk>(disk: &mut D, node: &mut Node, change: &Change) -> Result<bool, Stop>
    requires ready { IsReady (D.state disk.old) node.old }
    requires none { IsDue node.old.log → ⊥ }
    requires sequence { node.old.log.sequence + 1 < 2 ^ 64 }
    requires can { CanBeAdded node.old.log.journal.size change.now }
    requires widths { HasChangeWidths change.now }
    requires low { All (λ (w : WrittenBlock). w.block < (D.state disk.old).count) change.now.blocks.items }
    ensures added { result ≡ Ok true → HasAdded 1 change.now (D.state disk.old) (D.list disk.old) node.old (D.state disk.new) (D.list disk.new) node.new }
    ensures not { result ≡ Ok false → HasNoPlace 1 change.now (D.state disk.old) (D.list disk.old) node.old (D.state disk.new) (D.list disk.new) node.new }
    ensures stopped { IfErr result (StopsBehind 1 (D.state disk.old) (D.list disk.old) node.old (D.state disk.new) (D.list disk.new) node.new.items.items) }
    ensures later { (i : ℕ) → D.faults disk.old i ≤ D.faults disk.new i }
    ensures cause { IfErr result (HasCause (D.state disk.old).count (D.faults disk.old) (D.faults disk.new)) }
{
    match empty_journal(disk, node) {
        Ok(()) => Ok(take_change(node, change)),
        Err(why) => Err(why),
    }
}

/// Brings the change of a call into the log, and tells whether it did. Where there is no room for it, what is due is flushed; and where there is none still, all
/// goes home that is live.
pub(crate) fn add_change<D: SharedDisk>(
    disk: &mut D,
    node: &mut Node,
    change: &Change,
) -> Result<bool, Stop>
    requires ready { IsReady (D.state disk.old) node.old }
    requires sequence { node.old.log.sequence + most_headers < 2 ^ 64 }
    requires can { CanBeAdded node.old.log.journal.size change.now }
    requires widths { HasChangeWidths change.now }
    requires low { All (λ (w : WrittenBlock). w.block < (D.state disk.old).count) change.now.blocks.items }
    ensures added { result ≡ Ok true → HasAdded most_headers change.now (D.state disk.old) (D.list disk.old) node.old (D.state disk.new) (D.list disk.new) node.new }
    ensures not { result ≡ Ok false → HasNoPlace most_headers change.now (D.state disk.old) (D.list disk.old) node.old (D.state disk.new) (D.list disk.new) node.new }
    ensures stopped { IfErr result (StopsBehind most_headers (D.state disk.old) (D.list disk.old) node.old (D.state disk.new) (D.list disk.new) node.new.items.items) }
    ensures later { (i : ℕ) → D.faults disk.old i ≤ D.faults disk.new i }
    ensures cause { IfErr result (HasCause (D.state disk.old).count (D.faults disk.old) (D.faults disk.new)) }
{
    if take_change(node, change) {
        return Ok(true);
    }
    match bring_in(disk, node) {
        Ok(()) => {}
        Err(why) => return Err(why),
    }
    if take_change(node, change) {
        return Ok(true);
    }
    add_behind(disk, node, change)
}
