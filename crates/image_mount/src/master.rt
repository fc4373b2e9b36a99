ghost use Rattle.std.specs.Prelude.{ℕ, ◌≡◌, ◌≤◌, ◌^◌, [], true, map, vec_len, IsTrue, OnOk, IfOk, IfErr};
ghost use Rattle.gfs2_layout.specs.Device.{superblock_place};
ghost use Rattle.gfs2_layout.specs.Inode.{dinode_in, is_hashed_in};
ghost use Rattle.image_model.specs.Claims.{every};
ghost use Rattle.image_model.specs.Image.{Image};
ghost use Rattle.image_mount.specs.Found.{HasFormat};
ghost use Rattle.image_mount.specs.Leaves.{HasReadDirectory, IsMasterIn, IsTableOf, IsWalked, HasEnded};
ghost use Rattle.image_mount.specs.Listing.{said, AreAllRecords, AreCountedIn, AreRowsOf};
ghost use Rattle.image_mount.specs.Marked.{IsGrown, IsKept};
ghost use Rattle.image_mount.specs.Refusals.{HasRisen, LiesWithin, RefusesRightly};
ghost use Rattle.image_mount.specs.Rings.{IsSearched};
ghost use Rattle.image_mount.specs.Searching.{IsRead, IsSteady, IsWorking, LacksBlock, ShowsSystem, StopsRightly};
ghost use Rattle.image_mount.specs.System.{AreHashedNames, IsMasterOf};
ghost use Rattle.profile_limits.specs.Limits.{most_blocks};
ghost use Rattle.shared_disk.specs.Disk.{ReadsOnly};

use crate::fault::MountFault;
use crate::fetching::go_on;
use crate::formats::read_superblock;
use crate::inodes::Inode;
use crate::kept_blocks::KeptBlocks;
use crate::leaf::Names;
use crate::listing::Named;
use crate::stop::{Stop, damaged};
use crate::walking::{check_hashed, search_leaves};
use gfs2_layout::{SuperBlock, superblock_block};
use glock_names::View;
use shared_disk::SharedDisk;
use std::alloc::Global;

/// The superblock, and the inode of the master directory.
#[derive(Clone, Copy)]
pub(crate) struct Master {
    pub superblock: SuperBlock,
    pub inode: Inode,
}

fn find_master(table: &KeptBlocks) -> Result<Master, Stop>
    ensures found { (im : Image) → IsRead im table.now → im.count ≤ most_blocks → IfOk result (IsMasterOf im) }
    ensures there { IfOk result (λ master. IsKept table.now master.inode.block) }
    ensures superblock { OnOk result (IsKept table.now (superblock_place table.now.size)) }
    ensures stops { (im : Image) → IsRead im table.now → im.count ≤ most_blocks → IfErr result (StopsRightly im) }
    ensures lacks { IfErr result (LacksBlock table.now) }
{
    let superblock = read_superblock(table)?;
    let place = superblock_block(table.block_size());
    let inode = Inode::read(table, place, superblock.master.address)?;
    if !inode.dinode.is_directory() {
        return Err(Stop::Refused(damaged(inode.block, 18)));
    }
    Ok(Master { superblock, inode })
}

/// The superblock, and the inode of the master directory; their blocks are read.
pub(crate) fn search_master<D: SharedDisk>(
    alloc: Global,
    disk: &mut D,
    table: &mut KeptBlocks,
) -> Result<Master, MountFault>
    requires work { IsWorking (D.state disk.old) table.old }
    ensures there { IfOk result (λ master. IsKept table.new master.inode.block) }
    ensures superblock { OnOk result (IsKept table.new (superblock_place (D.state disk.old).size)) }
    ensures work { OnOk result (IsWorking (D.state disk.new) table.new) }
    ensures grown { OnOk result (IsGrown table.old table.new) }
    ensures found { IfOk result (λ master. (im : Image) → ShowsSystem (D.state disk.old) im → (D.state disk.old).count ≤ most_blocks → IsSearched im [] 0 0 table.old → IsMasterOf im master) }
    ensures searched { OnOk result ((im : Image) → ShowsSystem (D.state disk.old) im → (D.state disk.old).count ≤ most_blocks → IsSearched im [] 0 0 table.old → IsSearched im [] 0 0 table.new) }
    ensures refused { (im : Image) → ShowsSystem (D.state disk.old) im → (D.state disk.old).count ≤ most_blocks → IsSearched im [] 0 0 table.old → IfErr result (RefusesRightly im) }
    ensures risen { IfErr result (HasRisen (D.faults disk.old) (D.faults disk.new)) }
    ensures within { IfErr result (LiesWithin (D.state disk.old).count) }
    ensures reads { ReadsOnly (D.state disk.old) (D.state disk.new) (D.list disk.old) (D.list disk.new) (D.faults disk.old) (D.faults disk.new) }
{
    loop {
        match find_master(table) {
            Ok(master) => return Ok(master),
            Err(stop) => go_on(alloc, disk, table, stop)?,
        }
    }
}

/// The records of the master directory, where it is a hashed one; its leaves are read. It looks at each leaf's head, at
/// what its records fill, at their hashes and names, whether they are those of system files, at `.` and `..`, and at the
/// counts of links and entries.
pub(crate) fn search_names<D: SharedDisk>(
    alloc: Global,
    disk: &mut D,
    table: &mut KeptBlocks,
    inode: &Inode,
) -> Result<Vec<Named<'static>>, MountFault>
    requires work { IsWorking (D.state disk.old) table.old }
    requires few { (D.state disk.old).count ≤ most_blocks }
    ensures work { OnOk result (IsWorking (D.state disk.new) table.new) }
    ensures grown { OnOk result (IsGrown table.old table.new) }
    ensures found { IfOk result (λ names. (im : Image) → ShowsSystem (D.state disk.old) im → IsMasterIn im inode.now → IsSearched im [] 0 0 table.old → is_hashed_in (every im inode.now.block) ≡ true → AreHashedNames im inode.now.block names.items) }
    ensures read { OnOk result ((im : Image) → ShowsSystem (D.state disk.old) im → IsMasterIn im inode.now → IsSearched im [] 0 0 table.old → is_hashed_in (every im inode.now.block) ≡ true → HasReadDirectory im table.new inode.now.block) }
    ensures searched { OnOk result ((im : Image) → ShowsSystem (D.state disk.old) im → IsMasterIn im inode.now → IsSearched im [] 0 0 table.old → IsSearched im [] 0 0 table.new) }
    ensures refused { (im : Image) → ShowsSystem (D.state disk.old) im → IsMasterIn im inode.now → IsSearched im [] 0 0 table.old → IfErr result (RefusesRightly im) }
    ensures risen { IfErr result (HasRisen (D.faults disk.old) (D.faults disk.new)) }
    ensures within { IfErr result (LiesWithin (D.state disk.old).count) }
    ensures reads { ReadsOnly (D.state disk.old) (D.state disk.new) (D.list disk.old) (D.list disk.new) (D.faults disk.old) (D.faults disk.new) }
{
    if !inode.is_hashed() {
        return Ok(Vec::new(alloc));
    }
    let walk = search_leaves(alloc, disk, table, inode, Names::Files)?;
    check_hashed(inode, inode.block, &walk.records)?;
    Ok(walk.records)
}
