ghost use Rattle.std.specs.Prelude.{◌≡◌, ◌≤◌, ℕ, [], map, IsTrue, OnOk, IfOk, IfErr};
ghost use Rattle.std.specs.List.Sorted.{IsStrictlyIncreasing};
ghost use Rattle.shared_disk.specs.Disk.{IsIdle};
ghost use Rattle.shared_disk.specs.Disk.{ReadsOnly};
ghost use Rattle.glock_names.specs.Views.{group_of_entry};
ghost use Rattle.gfs2_layout.specs.Device.{IsBlockSize};
ghost use Rattle.image_model.specs.Claims.{every};
ghost use Rattle.image_model.specs.Image.{Image, image_of};
ghost use Rattle.image_model.specs.Owners.{Owners};
ghost use Rattle.image_model.specs.Stands.{IsLaid, Layout};
ghost use Rattle.image_model.specs.SystemFiles.{HasSameSystem};
ghost use Rattle.image_mount.specs.Mounted.{HasSameBlocks, IsMounted, IsOfProfile};
ghost use Rattle.image_mount.specs.Marked.{HasKeptContent, IsGrown, IsKept};
ghost use Rattle.image_mount.specs.Refusals.{HasRisen, IsExcused, LiesWithin, RefusesRightly};
ghost use Rattle.image_mount.specs.Rings.{IsSearched};
ghost use Rattle.image_mount.specs.Searching.{IsSteady, IsWorking, ShowsSystem};
ghost use Rattle.image_mount.specs.System.{HasDinodes, HasReadSystem, IsGroundOf, IsMasterOf, IsNamedBy, IsSystemOf};
ghost use Rattle.profile_limits.specs.Limits.{most_blocks};

use crate::fault::MountFault;
use crate::fetching::go_on;
use crate::field::Field;
use crate::jindex::search_journals;
use crate::journals::{find_journals, find_rings};
use crate::kept_blocks::KeptBlocks;
use crate::listing::Named;
use crate::master::{Master, search_master, search_names};
use crate::mounted::Mounted;
use crate::stop::outside;
use crate::system::{Groundwork, System, find_groundwork};
use gfs2_layout::Rindex;
use glock_names::Group;
use no_memory::NoMemory;
use profile_limits::MOST_BLOCKS;
use shared_disk::SharedDisk;
use std::alloc::Global;

// That the device has no more blocks than are mounted.
fn check_device(count: u64) -> Result<(), MountFault>
    ensures few { OnOk result (count ≤ most_blocks) }
    ensures refused { (im : Image) → count ≡ im.count → IfErr result (RefusesRightly im) }
    ensures steady { IfErr result IsSteady }
{
    if count > MOST_BLOCKS {
        return Err(outside(Field::Device, count));
    }
    Ok(())
}

// What the system files say as far as the directory of journals, once the master directory is known; their blocks are read, each as
// it is wanted.
fn search_groundwork<D: SharedDisk>(
    alloc: Global,
    disk: &mut D,
    table: &mut KeptBlocks,
    master: &Master,
    names: &[Named<'_>],
) -> Result<Groundwork, MountFault>
    requires work { IsWorking (D.state disk.old) table.old }
    ensures rindex { IfOk result (λ g. IsKept table.new g.rindex) }
    ensures jindex { IfOk result (λ g. IsKept table.new g.jindex.block) }
    ensures work { OnOk result (IsWorking (D.state disk.new) table.new) }
    ensures grown { OnOk result (IsGrown table.old table.new) }
    ensures found { IfOk result (λ g. (im : Image) → ShowsSystem (D.state disk.old) im → IsMasterOf im master.now → IsNamedBy im master.now names.now → IsSearched im [] 0 0 table.old → IsGroundOf im g) }
    ensures content { IfOk result (λ g. (im : Image) → ShowsSystem (D.state disk.old) im → IsMasterOf im master.now → IsNamedBy im master.now names.now → IsSearched im [] 0 0 table.old → HasKeptContent table.new (every im g.rindex)) }
    ensures searched { OnOk result ((im : Image) → ShowsSystem (D.state disk.old) im → IsMasterOf im master.now → IsNamedBy im master.now names.now → IsSearched im [] 0 0 table.old → IsSearched im [] 0 0 table.new) }
    ensures refused { (im : Image) → ShowsSystem (D.state disk.old) im → IsMasterOf im master.now → IsNamedBy im master.now names.now → IsSearched im [] 0 0 table.old → IfErr result (RefusesRightly im) }
    ensures risen { IfErr result (HasRisen (D.faults disk.old) (D.faults disk.new)) }
    ensures within { IfErr result (LiesWithin (D.state disk.old).count) }
    ensures reads { ReadsOnly (D.state disk.old) (D.state disk.new) (D.list disk.old) (D.list disk.new) (D.faults disk.old) (D.faults disk.new) }
{
    let count = disk.blocks();
    loop {
        match find_groundwork(alloc, table, count, master, names) {
            Ok(ground) => return Ok(ground),
            Err(stop) => go_on(alloc, disk, table, stop)?,
        }
    }
}

// What the system files say; their blocks are read.
fn search_system<D: SharedDisk>(
    alloc: Global,
    disk: &mut D,
    table: &mut KeptBlocks,
) -> Result<System, MountFault>
    requires work { IsWorking (D.state disk.old) table.old }
    requires few { (D.state disk.old).count ≤ most_blocks }
    ensures dinodes { IfOk result (λ system. (im : Image) → ShowsSystem (D.state disk.old) im → IsSearched im [] 0 0 table.old → HasDinodes im table.new system) }
    ensures read { IfOk result (λ system. (im : Image) → ShowsSystem (D.state disk.old) im → IsSearched im [] 0 0 table.old → HasReadSystem im table.new system) }
    ensures work { OnOk result (IsWorking (D.state disk.new) table.new) }
    ensures grown { OnOk result (IsGrown table.old table.new) }
    ensures found { IfOk result (λ system. (im : Image) → ShowsSystem (D.state disk.old) im → IsSearched im [] 0 0 table.old → IsSystemOf im system) }
    ensures searched { OnOk result ((im : Image) → ShowsSystem (D.state disk.old) im → IsSearched im [] 0 0 table.old → IsSearched im [] 0 0 table.new) }
    ensures refused { (im : Image) → ShowsSystem (D.state disk.old) im → IsSearched im [] 0 0 table.old → IfErr result (RefusesRightly im) }
    ensures risen { IfErr result (HasRisen (D.faults disk.old) (D.faults disk.new)) }
    ensures within { IfErr result (LiesWithin (D.state disk.old).count) }
    ensures reads { ReadsOnly (D.state disk.old) (D.state disk.new) (D.list disk.old) (D.list disk.new) (D.faults disk.old) (D.faults disk.new) }
{
    let master = search_master(alloc, disk, table)?;
    let names = search_names(alloc, disk, table, &master.inode)?;
    let ground = search_groundwork(alloc, disk, table, &master, &names)?;
    let address = ground.superblock.master.address;
    let journals = search_journals(alloc, disk, table, &ground.jindex, address)?;
    Ok(System {
        superblock: ground.superblock,
        rindex: ground.rindex,
        groups: ground.groups,
        jindex: ground.jindex.block,
        journals,
    })
}

// The groups, as the file calls see them.
fn map_groups(alloc: Global, entries: &[Rindex]) -> Result<Vec<Group>, NoMemory>
    ensures { IfOk result (λ groups. groups.items ≡ map group_of_entry entries.now) }
{
    let mut groups = Vec::with_capacity(alloc, entries.len())?;
    for entry in entries {
        groups.push(Group {
            addr: entry.address,
            length: entry.length,
            first: entry.data0,
            count: entry.data_blocks,
        })?;
    }
    Ok(groups)
}

/// Mounts the image on an idle disk: reads, as the run itself, the superblock, the master directory, the list of groups,
/// the directory of journals and each journal, and looks at every field of the profile. Nothing is written, and, as rows
/// show, no block is read twice, but a leaf to which something else leads. It costs a read for each block that the system
/// files have, memory for those of them that lead on, but for leaves, and for an entry a block of the device, or two where
/// the master directory or that of journals is a hashed one. A look at each of its pointers and leaves comes on top then. The blocks
/// of the system files are told by a pass over these entries at the end.
pub fn mount_image<D: SharedDisk>(alloc: Global, disk: &mut D) -> Result<Mounted, MountFault>
    requires idle { IsIdle (D.state disk.old) }
    requires size { IsBlockSize (D.state disk.old).size }
    ensures mounted { IfOk result (λ m. IsTrue (D.state disk.old).tells → IsMounted (image_of (D.state disk.old)) m) }
    ensures shown { IfOk result (λ m. (im : Image) → ShowsSystem (D.state disk.old) im → IsMounted im m) }
    ensures alike { IfOk result (λ m. (im : Image) → HasSameBlocks (D.state disk.old) m.system im → IsMounted im m) }
    ensures rise { IfOk result (λ m. IsStrictlyIncreasing m.system) }
    ensures refused { IfErr result (λ fault. IsTrue (D.state disk.old).tells → RefusesRightly (image_of (D.state disk.old)) fault) }
    ensures told { IfErr result (λ fault. (im : Image) → ShowsSystem (D.state disk.old) im → RefusesRightly im fault) }
    ensures standing { IfErr result (λ fault. IsTrue (D.state disk.old).tells → (im : Image) (o : Owners) (l : Layout) → HasSameSystem (image_of (D.state disk.old)) im → IsLaid im o l → RefusesRightly im fault) }
    ensures accepts { IfErr result (λ fault. IsTrue (D.state disk.old).tells → (im : Image) → HasSameSystem (image_of (D.state disk.old)) im → IsOfProfile im → IsExcused fault) }
    ensures risen { IfErr result (HasRisen (D.faults disk.old) (D.faults disk.new)) }
    ensures within { IfErr result (LiesWithin (D.state disk.old).count) }
    ensures reads { ReadsOnly (D.state disk.old) (D.state disk.new) (D.list disk.old) (D.list disk.new) (D.faults disk.old) (D.faults disk.new) }
{
    check_device(disk.blocks())?;
    let mut table = KeptBlocks::new(alloc, disk.block_size(), disk.blocks())?;
    let system = search_system(alloc, disk, &mut table)?;
    let rings = find_rings(alloc, disk, &mut table, &system)?;
    let journals = find_journals(alloc, disk, rings)?;
    Ok(Mounted {
        sb: system.superblock,
        groups: map_groups(alloc, &system.groups)?,
        journals,
        system: table.taken(alloc)?,
    })
}
