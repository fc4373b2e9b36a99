// Changes of calls come into the log.
ghost use Rattle.std.specs.Prelude.{◌≡◌, ◌<◌, ◌↔◌, true, false};
ghost use Rattle.std.specs.List.{All};
ghost use Rattle.drafts.specs.declared.change.Written.{Written as WrittenBlock};
ghost use Rattle.log_values.specs.Changes.{CanBeAdded, Suffices, with_change};
ghost use Rattle.log_widths.specs.Widths.{HasChangeWidths};
ghost use Rattle.shared_disk.specs.Disk.{DiskState};
ghost use Rattle.logged_node.specs.Nodes.{IsResting};

use crate::node::Node;
use drafts::Change;

/// Takes the change of a call into the node's log, where there is room for it; a node at rest rests then. Else it is false, and the node is as before. It takes no
/// memory.
pub fn take_change(node: &mut Node, change: &Change) -> bool
    requires can { CanBeAdded node.old.log.journal.size change.now }
    requires widths { HasChangeWidths change.now }
    ensures taken { result ≡ true → node.new ≡ record node.old { log = with_change node.old.log change.now } }
    ensures kept { result ≡ false → node.new ≡ node.old }
    ensures exactly { result ≡ true ↔ Suffices (with_change node.old.log change.now) }
    ensures resting { (d : DiskState) → IsResting d node.old → All (λ (w : WrittenBlock). w.block < d.count) change.now.blocks.items → IsResting d node.new }
{
    node.log.add(change)
}
