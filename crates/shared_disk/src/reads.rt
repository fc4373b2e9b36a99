ghost use Rattle.std.specs.Prelude.{◌≡◌, ◌<◌, ◌≤◌, length, IsTrue, false, OnOk, IfErr};
ghost use Rattle.shared_disk.specs.Disk.{read_gives, ReadsOnly};
ghost use Rattle.fault_counts.specs.Causes.{WentUp};

use crate::SharedDisk;
use fault_counts::Rise;

/// Reads a block under a node's number. At `Err` the disk failed, and its count for this node rose so.
pub fn read_block<D: SharedDisk>(
    disk: &mut D,
    node: u8,
    block: u64,
    into: &mut [u8],
) -> Result<(), Rise>
    requires node { node ≤ 8 }
    requires block { block < (D.state disk.old).count }
    requires size { length into.old ≡ (D.state disk.old).size }
    requires open { (D.state disk.old).is_fenced node ≡ false }
    ensures bytes { OnOk result (IsTrue (D.state disk.old).tells → into.new ≡ read_gives (D.state disk.old) node block) }
    ensures reads { ReadsOnly (D.state disk.old) (D.state disk.new) (D.list disk.old) (D.list disk.new) (D.faults disk.old) (D.faults disk.new) }
    ensures cause { IfErr result (λ r. WentUp (D.faults disk.old node) (D.faults disk.new node) r.before r.after) }
{
    let before = disk.faults(node);
    match disk.read(node, block, into) {
        Ok(()) => Ok(()),
        Err(_) => Err(Rise {
            before,
            after: disk.faults(node),
        }),
    }
}
