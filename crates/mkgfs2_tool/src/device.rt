ghost use Rattle.std.specs.Prelude.{◌≡◌, ◌≢◌, ◌⊎◌, ◌<◌, ◌≤◌, ℕ, [], ◌∷◌, None, false, length, IsTrue, OnOk, OnErr, IfErr};
ghost use Rattle.shared_disk.specs.Disk.{Write, Barrier, Gains, flight_to, after_write, after_barrier};
ghost use Rattle.mkgfs2_tool.specs.Making.{IsFaultOf};

use crate::options::MakeFault;
use shared_disk::SharedDisk;

/// A barrier of node 0.
pub(crate) fn settle<D: SharedDisk>(disk: &mut D) -> Result<(), MakeFault>
    ensures ok { OnOk result ((D.state disk.new ≡ after_barrier (D.state disk.old) 0)
        × Gains (D.list disk.old) (D.list disk.new) (Barrier 0 ∷ [])) }
    ensures err { OnErr result ((D.state disk.new ≡ D.state disk.old) × (D.list disk.new ≡ D.list disk.old)) }
    ensures cause { IfErr result (IsFaultOf (D.state disk.old).count (D.faults disk.old) (D.faults disk.new)) }
    ensures later { (j : ℕ) → D.faults disk.old j ≤ D.faults disk.new j }
{
    disk.blocks();
    let before = disk.faults(0);
    match disk.barrier(0) {
        Ok(()) => Ok(()),
        Err(_) => Err(MakeFault::DeviceFault {
            block: None,
            before,
            after: disk.faults(0),
        }),
    }
}

/// A write of node 0. At an error it is in flight or not.
pub(crate) fn put_in_flight<D: SharedDisk>(
    disk: &mut D,
    block: u64,
    bytes: &[u8],
) -> Result<(), MakeFault>
    requires block { block < (D.state disk.old).count }
    requires size { length bytes.now ≡ (D.state disk.old).size }
    requires free { flight_to ((D.state disk.old).in_flight 0) block ≡ None }
    requires room { length ((D.state disk.old).in_flight 0) < 512 }
    ensures ok { OnOk result ((D.state disk.new ≡ after_write (D.state disk.old) 0 block bytes.now)
        × Gains (D.list disk.old) (D.list disk.new) (Write 0 block bytes.now ∷ [])) }
    ensures err { OnErr result (((D.state disk.new ≡ D.state disk.old) × (D.list disk.new ≡ D.list disk.old))
        ⊎ ((D.state disk.new ≡ after_write (D.state disk.old) 0 block bytes.now)
        × Gains (D.list disk.old) (D.list disk.new) (Write 0 block bytes.now ∷ []))) }
    ensures cause { IfErr result (IsFaultOf (D.state disk.old).count (D.faults disk.old) (D.faults disk.new)) }
    ensures later { (j : ℕ) → D.faults disk.old j ≤ D.faults disk.new j }
{
    disk.blocks();
    let before = disk.faults(0);
    match disk.write(0, block, bytes) {
        Ok(()) => Ok(()),
        Err(_) => Err(MakeFault::DeviceFault {
            block: Some(block),
            before,
            after: disk.faults(0),
        }),
    }
}
