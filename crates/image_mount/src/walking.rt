ghost use Rattle.std.specs.Prelude.{ℕ, ◌≡◌, ◌≤◌, ◌^◌, [], true, map, vec_len, IsTrue, OnOk, IfOk, IfErr};
ghost use Rattle.gfs2_layout.specs.Inode.{is_hashed_in};
ghost use Rattle.image_model.specs.Claims.{every};
ghost use Rattle.image_model.specs.Image.{Image};
ghost use Rattle.image_mount.specs.Leaves.{AreLeavesRead, HasReadDirectory, IsSystemDirectory, IsTableOf, IsWalked, IsGoneOver, HasEnded, LooksFor};
ghost use Rattle.image_mount.specs.Listing.{said, AreAllRecords, AreCountedIn, AreRowsOf, IsDirectoryIn};
ghost use Rattle.image_mount.specs.Marked.{HasKeptContent, IsGrown};
ghost use Rattle.image_mount.specs.Refusals.{HasRisen, LiesWithin, RefusesRightly};
ghost use Rattle.image_mount.specs.Rings.{IsSearched};
ghost use Rattle.image_mount.specs.Searching.{IsSteady, IsWorking, ShowsSystem};
ghost use Rattle.profile_limits.specs.Limits.{most_blocks};
ghost use Rattle.shared_disk.specs.Disk.{ReadsOnly};

use crate::fault::MountFault;
use crate::fetching::{go_on, read_leaf};
use crate::inodes::Inode;
use crate::kept_blocks::KeptBlocks;
use crate::leaf::{LeafWalk, Names};
use crate::leaves::read_pointers;
use crate::listing::{Named, check_counts, check_dot};
use glock_names::View;
use image_reader::HashTable;
use shared_disk::SharedDisk;
use std::alloc::Global;

// The table of a directory of the system, which is a hashed one; its blocks are read, each as it is wanted.
fn search_pointers<D: SharedDisk>(
    alloc: Global,
    disk: &mut D,
    table: &mut KeptBlocks,
    inode: &Inode,
) -> Result<HashTable, MountFault>
    requires work { IsWorking (D.state disk.old) table.old }
    ensures work { OnOk result (IsWorking (D.state disk.new) table.new) }
    ensures grown { OnOk result (IsGrown table.old table.new) }
    ensures found { IfOk result (λ pointers. (im : Image) → ShowsSystem (D.state disk.old) im → IsSystemDirectory im inode.now → is_hashed_in (every im inode.now.block) ≡ true → IsSearched im [] 0 0 table.old → IsTableOf im inode.now pointers) }
    ensures kept { OnOk result ((im : Image) → ShowsSystem (D.state disk.old) im → IsSystemDirectory im inode.now → is_hashed_in (every im inode.now.block) ≡ true → IsSearched im [] 0 0 table.old → HasKeptContent table.new (every im inode.now.block)) }
    ensures searched { OnOk result ((im : Image) → ShowsSystem (D.state disk.old) im → IsSystemDirectory im inode.now → is_hashed_in (every im inode.now.block) ≡ true → IsSearched im [] 0 0 table.old
        → IsSearched im [] 0 0 table.new) }
    ensures refused { (im : Image) → ShowsSystem (D.state disk.old) im → IsSystemDirectory im inode.now → is_hashed_in (every im inode.now.block) ≡ true → IsSearched im [] 0 0 table.old
        → IfErr result (RefusesRightly im) }
    ensures risen { IfErr result (HasRisen (D.faults disk.old) (D.faults disk.new)) }
    ensures within { IfErr result (LiesWithin (D.state disk.old).count) }
    ensures reads { ReadsOnly (D.state disk.old) (D.state disk.new) (D.list disk.old) (D.list disk.new) (D.faults disk.old) (D.faults disk.new) }
{
    loop {
        match read_pointers(alloc, table, inode) {
            Ok(pointers) => return Ok(pointers),
            Err(stop) => go_on(alloc, disk, table, stop)?,
        }
    }
}

// Goes over the leaves to which this table leads. Each is read into one buffer, looked at and dropped.
fn walk_leaves<D: SharedDisk>(
    alloc: Global,
    disk: &mut D,
    table: &mut KeptBlocks,
    inode: &Inode,
    pointers: &HashTable,
    names: Names,
) -> Result<LeafWalk, MountFault>
    requires work { IsWorking (D.state disk.old) table.old }
    requires few { (D.state disk.old).count ≤ most_blocks }
    ensures work { OnOk result (IsWorking (D.state disk.new) table.new) }
    ensures grown { OnOk result (IsGrown table.old table.new) }
    ensures found { IfOk result (λ walk. (im : Image) → ShowsSystem (D.state disk.old) im → IsTableOf im inode.now pointers.now → LooksFor im inode.now.block names → IsSearched im [] 0 0 table.old → IsWalked im inode.now.block walk) }
    ensures read { IfOk result (λ walk. AreLeavesRead walk inode.now.block table.new) }
    ensures ended { IfOk result (λ walk. HasEnded walk (2 ^ pointers.now.depth)) }
    ensures names { IfOk result (λ walk. walk.names ≡ names) }
    ensures count { IfOk result (λ walk. vec_len walk.owners.entries ≡ (D.state disk.old).count) }
    ensures searched { OnOk result ((im : Image) → ShowsSystem (D.state disk.old) im → IsTableOf im inode.now pointers.now → LooksFor im inode.now.block names → IsSearched im [] 0 0 table.old → IsSearched im [] 0 0 table.new) }
    ensures refused { (im : Image) → ShowsSystem (D.state disk.old) im → IsTableOf im inode.now pointers.now → LooksFor im inode.now.block names → IsSearched im [] 0 0 table.old → IfErr result (RefusesRightly im) }
    ensures risen { IfErr result (HasRisen (D.faults disk.old) (D.faults disk.new)) }
    ensures within { IfErr result (LiesWithin (D.state disk.old).count) }
    ensures reads { ReadsOnly (D.state disk.old) (D.state disk.new) (D.list disk.old) (D.list disk.new) (D.faults disk.old) (D.faults disk.new) }
{
    let mut walk = LeafWalk::new(alloc, disk.blocks(), inode.block, names)?;
    let size = table.block_size() as usize;
    let mut bytes = vec![in alloc; 0u8; size]?;
    loop {
        match walk.link(table, inode, pointers) {
            Ok(Some(link)) => {
                read_leaf(disk, table, link.number, link.by, &mut bytes)?;
                let at = walk.leaf(pointers, &link, &bytes)?;
                walk.enter(alloc, &bytes, &at)?;
            }
            Ok(None) => return Ok(walk),
            Err(stop) => go_on(alloc, disk, table, stop)?,
        }
    }
}

/// Goes over the leaves of a directory of the system, which is a hashed one; each is read. It looks at each leaf's head, at what
/// its records fill, and at their hashes and names; in the master directory whether they are those of system files.
pub(crate) fn search_leaves<D: SharedDisk>(
    alloc: Global,
    disk: &mut D,
    table: &mut KeptBlocks,
    inode: &Inode,
    names: Names,
) -> Result<LeafWalk, MountFault>
    requires work { IsWorking (D.state disk.old) table.old }
    requires few { (D.state disk.old).count ≤ most_blocks }
    ensures work { OnOk result (IsWorking (D.state disk.new) table.new) }
    ensures grown { OnOk result (IsGrown table.old table.new) }
    ensures found { IfOk result (λ walk. (im : Image) → ShowsSystem (D.state disk.old) im → IsSystemDirectory im inode.now → is_hashed_in (every im inode.now.block) ≡ true → LooksFor im inode.now.block names
        → IsSearched im [] 0 0 table.old → IsGoneOver im inode.now.block walk) }
    ensures read { OnOk result ((im : Image) → ShowsSystem (D.state disk.old) im → IsSystemDirectory im inode.now → is_hashed_in (every im inode.now.block) ≡ true → LooksFor im inode.now.block names
        → IsSearched im [] 0 0 table.old → HasReadDirectory im table.new inode.now.block) }
    ensures names { IfOk result (λ walk. walk.names ≡ names) }
    ensures few { IfOk result (λ walk. walk.others ≤ 2 ^ 48) }
    ensures searched { OnOk result ((im : Image) → ShowsSystem (D.state disk.old) im → IsSystemDirectory im inode.now → is_hashed_in (every im inode.now.block) ≡ true → LooksFor im inode.now.block names
        → IsSearched im [] 0 0 table.old → IsSearched im [] 0 0 table.new) }
    ensures refused { (im : Image) → ShowsSystem (D.state disk.old) im → IsSystemDirectory im inode.now → is_hashed_in (every im inode.now.block) ≡ true → LooksFor im inode.now.block names
        → IsSearched im [] 0 0 table.old → IfErr result (RefusesRightly im) }
    ensures risen { IfErr result (HasRisen (D.faults disk.old) (D.faults disk.new)) }
    ensures within { IfErr result (LiesWithin (D.state disk.old).count) }
    ensures reads { ReadsOnly (D.state disk.old) (D.state disk.new) (D.list disk.old) (D.list disk.new) (D.faults disk.old) (D.faults disk.new) }
{
    let pointers = search_pointers(alloc, disk, table, inode)?;
    let walk = walk_leaves(alloc, disk, table, inode, &pointers, names)?;
    Ok(walk)
}

/// That the records that were found in all leaves are those of a directory below the one with its dinode in block `parent`.
pub(crate) fn check_hashed(
    inode: &Inode,
    parent: u64,
    records: &[Named<'_>],
) -> Result<(), MountFault>
    ensures rows { OnOk result (AreRowsOf inode.now parent records.now) }
    ensures refused { (im : Image) → IsDirectoryIn im inode.now parent → AreAllRecords im inode.now.block records.now → AreCountedIn im inode.now.block (map said records.now) → IfErr result (RefusesRightly im) }
    ensures steady { IfErr result IsSteady }
{
    check_dot(records, inode.block, b".", inode.block)?;
    check_dot(records, inode.block, b"..", parent)?;
    check_counts(inode, records)
}
