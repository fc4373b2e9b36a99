ghost use Rattle.std.specs.Prelude.{◌≡◌, ℕ, IfOk, IfErr};
ghost use Rattle.gfs2_layout.specs.Device.{IsBlockSize};
ghost use Rattle.image_model.specs.Image.{IsImage, image_of};
ghost use Rattle.lone_view.specs.Groups.{AreGroupsOn};
ghost use Rattle.mounted_views.specs.Views.{view_of};
ghost use Rattle.shared_disk.specs.Disk.{IsIdle};
ghost use Rattle.shared_disk.specs.Disk.{ReadsOnly};
ghost use Rattle.damage_laws.specs.Telling.{HasRootInside};
ghost use Rattle.lone_view.specs.Seeing.{seen_alone};
ghost use Rattle.cluster_program.specs.Mounting.{MountEnds, OfImage, IsMountedAlike, IsMountedOn, IsMountedReplayed};

use crate::end_status::not_mounted;
use damage_laws::views_may_be_read_from_mounted_images;
use gfs2_layout::superblock_block;
use image_model::{replays_keep_system_files, what_stands_breaks_nothing};
use image_mount::{JournalMap, Mounted, mount_image, mounted_groups_are_as_seen};
use image_replays::replayed_images_have_the_same_system;
use lone_view::{LoneView, are_groups};
use resource_groups::group_of;
use run_reports::Status;
use shared_disk::SharedDisk;
use std::alloc::Global;

/// Mounts the image of an idle disk. It costs what mounting costs.
pub(crate) fn mount<D: SharedDisk>(alloc: Global, disk: &mut D) -> Result<Mounted, Status>
    requires idle { IsIdle (D.state disk.old) }
    requires size { IsBlockSize (D.state disk.old).size }
    ensures mounted { IfOk result (IsMountedOn (D.state disk.old)) }
    ensures replayed { IfOk result (IsMountedReplayed (D.state disk.old)) }
    ensures alike { IfOk result (IsMountedAlike (D.state disk.old)) }
    ensures ends { IfErr result (MountEnds (D.state disk.old) (D.faults disk.old) (D.faults disk.new)) }
    ensures reads { ReadsOnly (D.state disk.old) (D.state disk.new) (D.list disk.old) (D.list disk.new) (D.faults disk.old) (D.faults disk.new) }
{
    replays_keep_system_files();
    replayed_images_have_the_same_system();
    what_stands_breaks_nothing();
    match mount_image(alloc, disk) {
        Ok(mounted) => Ok(mounted),
        Err(fault) => Err(not_mounted(fault)),
    }
}

/// What a run begins with: what node 1 sees of a mounted image, and the journals that it replays first.
#[derive(Drop)]
pub(crate) struct Ready {
    pub view: LoneView,
    pub journals: Vec<JournalMap>,
}

/// What a run of a mounted image begins with: of no block yet anything is seen. The image's groups lie on the disk, as far as that tells its blocks, and
/// its root is to be a data block of one of them.
pub(crate) fn ready_of<D: SharedDisk>(
    alloc: Global,
    disk: &D,
    mounted: Mounted,
) -> Result<Ready, Status>
    requires size { IsBlockSize (D.state disk.now).size }
    requires mounted { IsMountedOn (D.state disk.now) mounted }
    requires replayed { IsMountedReplayed (D.state disk.now) mounted }
    requires alike { IsMountedAlike (D.state disk.now) mounted }
    ensures view { IfOk result (λ ready. ready.view ≡ view_of (D.state disk.now).size mounted) }
    ensures journals { IfOk result (λ ready. ready.journals.items ≡ mounted.journals) }
    ensures on { IfOk result (λ _. AreGroupsOn (D.state disk.now).size (D.state disk.now).count mounted.groups) }
    ensures root { IfOk result (λ ready. HasRootInside (seen_alone ready.view)) }
    ensures image { OfImage (D.state disk.now) IsImage }
    ensures ends { IfErr result (λ own. (first now : ℕ → ℕ) → MountEnds (D.state disk.now) first now own) }
{
    mounted_groups_are_as_seen();
    views_may_be_read_from_mounted_images();
    what_stands_breaks_nothing();
    replays_keep_system_files();
    let size = disk.block_size();
    let superblock = superblock_block(size);
    if !are_groups(&mounted.groups, size, disk.blocks()) {
        return Err(Status::Damaged {
            block: superblock,
            rule: 18,
        });
    }
    let root = mounted.sb.root.address;
    let Mounted {
        groups,
        journals,
        ..
    } = mounted;
    let view = LoneView::new(alloc, groups, root, size);
    match group_of(&view, root) {
        Some(_) => Ok(Ready { view, journals }),
        None => Err(Status::Damaged {
            block: superblock,
            rule: 2,
        }),
    }
}
