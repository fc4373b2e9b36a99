ghost use Rattle.std.specs.Prelude.{ℕ, ◌≡◌, ◌<◌, ◌≤◌, true, false, codes, IfOk, OnOk, IfErr};
ghost use Rattle.gfs2_layout.specs.Inode.{is_hashed_in};
ghost use Rattle.image_model.specs.Claims.{every, master_of};
ghost use Rattle.image_model.specs.Image.{Image};
ghost use Rattle.image_mount.specs.Found.{HasFormat, HasGroups, IsReached};
ghost use Rattle.image_mount.specs.Leaves.{IsMasterIn};
ghost use Rattle.image_mount.specs.Listing.{AreAllRecords};
ghost use Rattle.image_mount.specs.Looks.{IsSized, IsSoundDirectory, IsTrueEntry};
ghost use Rattle.image_mount.specs.Marked.{HasKeptContent, IsKept};
ghost use Rattle.image_mount.specs.Refusals.{RefusesRightly};
ghost use Rattle.image_mount.specs.Searching.{IsRead, IsSteady, StopsRightly, LacksBlock};
ghost use Rattle.image_mount.specs.System.{IsLinkOf, IsMasterOf, IsNamedBy, ArePlainRecords, AreFilesOf, IsGroundOf, IsJindexOf};

use crate::fault::MountFault;
use crate::field::Field;
use crate::groups::list_groups;
use crate::inodes::Inode;
use crate::kept_blocks::KeptBlocks;
use crate::listing::{Link, Named, find, first_other, list_records};
use crate::master::Master;
use crate::stop::{Stop, damaged, outside};
use gfs2_layout::{Rindex, SuperBlock};
use std::alloc::Global;

/// What the system files say: the superblock, the list of groups and the block of its dinode, and the journals by their
/// records in the directory `jindex`, whose dinode is in this block.
#[derive(Drop)]
pub(crate) struct System {
    pub superblock: SuperBlock,
    pub rindex: u64,
    pub groups: Vec<Rindex>,
    pub jindex: u64,
    pub journals: Vec<Link>,
}

/// What the system files say before the journals are looked for: the superblock, the list of groups and the block of its
/// dinode, and the inode of the directory `jindex`.
#[derive(Drop)]
pub(crate) struct Groundwork {
    pub superblock: SuperBlock,
    pub rindex: u64,
    pub groups: Vec<Rindex>,
    pub jindex: Inode,
}

// The records of the two files that the master directory names.
#[derive(Clone, Copy)]
struct SystemFiles {
    rindex: Link,
    jindex: Link,
}

// The files that these records of the master directory name.
fn files_among(records: &[Named<'_>], master: u64) -> Result<SystemFiles, MountFault>
    ensures found { (im : Image) → ArePlainRecords im master records.now → master ≡ master_of im → IfOk result (AreFilesOf im) }
    ensures refused { (im : Image) → HasFormat im → IsReached im master → AreAllRecords im master records.now → master ≡ master_of im → IfErr result (RefusesRightly im) }
    ensures steady { IfErr result IsSteady }
{
    let Some(rindex) = find(records, b"rindex") else {
        return Err(damaged(master, 18));
    };
    let Some(jindex) = find(records, b"jindex") else {
        return Err(damaged(master, 16));
    };
    Ok(SystemFiles {
        rindex: rindex.link(),
        jindex: jindex.link(),
    })
}

// The master directory, which names `rindex` and `jindex` and no other file. Where it is a hashed one, these records were
// found in its leaves.
fn system_files(
    alloc: Global,
    table: &KeptBlocks,
    inode: &Inode,
    names: &[Named<'_>],
) -> Result<SystemFiles, Stop>
    ensures found { (im : Image) → IsRead im table.now → IsMasterIn im inode.now → (is_hashed_in (every im inode.now.block) ≡ true → ArePlainRecords im inode.now.block names.now) → IfOk result (AreFilesOf im) }
    ensures sized { (im : Image) → IsRead im table.now → IsMasterIn im inode.now → is_hashed_in (every im inode.now.block) ≡ false → OnOk result (IsSized im inode.now.block) }
    ensures sound { (im : Image) → IsRead im table.now → IsMasterIn im inode.now → is_hashed_in (every im inode.now.block) ≡ false → OnOk result (IsSoundDirectory im inode.now.block inode.now.block) }
    ensures stops { (im : Image) → IsRead im table.now → IsMasterIn im inode.now → (is_hashed_in (every im inode.now.block) ≡ true → ArePlainRecords im inode.now.block names.now) → IfErr result (StopsRightly im) }
    ensures lacks { IfErr result (LacksBlock table.now) }
{
    if inode.is_hashed() {
        let files = files_among(names, inode.block)?;
        return Ok(files);
    }
    let records = list_records(alloc, table, inode, inode.block)?;
    if let Some(other) = first_other(&records) {
        return Err(Stop::Refused(outside(Field::Master, other)));
    }
    let files = files_among(&records, inode.block)?;
    Ok(files)
}

// The inode of the directory of journals. A file has no names.
fn find_jindex(table: &KeptBlocks, master: u64, jindex: &Link) -> Result<Inode, Stop>
    ensures found { (im : Image) → IsRead im table.now → HasFormat im → master ≡ master_of im → IsLinkOf im (codes "jindex") jindex.now → IfOk result (IsJindexOf im master) }
    ensures block { IfOk result (λ inode. inode.block ≡ jindex.now.entry.addr) }
    ensures repeats { (im : Image) → IsRead im table.now → OnOk result (IsTrueEntry im jindex.now.entry) }
    ensures there { IfOk result (λ inode. IsKept table.now inode.block) }
    ensures stops { (im : Image) → IsRead im table.now → HasFormat im → master ≡ master_of im → IsReached im master → IsLinkOf im (codes "jindex") jindex.now → IfErr result (StopsRightly im) }
    ensures lacks { IfErr result (LacksBlock table.now) }
{
    let inode = Inode::read(table, jindex.from, jindex.entry.addr)?;
    inode.check_record(&jindex.entry)?;
    if !inode.dinode.is_directory() {
        return Err(Stop::Refused(damaged(master, 16)));
    }
    Ok(inode)
}

/// Looks at the system files as far as the directory of journals, on a device of so many blocks. Where the master directory
/// is a hashed one, these records were found in its leaves.
pub(crate) fn find_groundwork(
    alloc: Global,
    table: &KeptBlocks,
    count: u64,
    master: &Master,
    names: &[Named<'_>],
) -> Result<Groundwork, Stop>
    ensures found { (im : Image) → IsRead im table.now → count ≡ im.count → IsMasterOf im master.now → IsNamedBy im master.now names.now → IfOk result (IsGroundOf im) }
    ensures rindex { IfOk result (λ g. IsKept table.now g.rindex) }
    ensures jindex { IfOk result (λ g. IsKept table.now g.jindex.block) }
    ensures content { (im : Image) → IsRead im table.now → IfOk result (λ g. HasKeptContent table.now (every im g.rindex)) }
    ensures stops { (im : Image) → IsRead im table.now → count ≡ im.count → IsMasterOf im master.now → IsNamedBy im master.now names.now → IfErr result (StopsRightly im) }
    ensures lacks { IfErr result (LacksBlock table.now) }
{
    let files = system_files(alloc, table, &master.inode, names)?;
    let groups = list_groups(alloc, table, count, &files.rindex)?;
    let jindex = find_jindex(table, master.inode.block, &files.jindex)?;
    Ok(Groundwork {
        superblock: master.superblock,
        rindex: files.rindex.entry.addr,
        groups,
        jindex,
    })
}
