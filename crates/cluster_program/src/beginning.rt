ghost use Rattle.std.specs.Prelude.{◌≡◌, ◌↔◌, None, IfOk, IfErr, IsTrue};
ghost use Rattle.gfs2_layout.specs.Device.{IsBlockSize};
ghost use Rattle.shared_disk.specs.Disk.{IsIdle, ReadsOnly};
ghost use Rattle.cluster_program.specs.Beginning.{IsPrepared};
ghost use Rattle.cluster_program.specs.Mounting.{ArePlaced, BeginEnds, IsPlaced};

use crate::end_status::{misplaced, not_planned};
use crate::mounting::{Ready, mount, ready_of};
use image_mount::{Field, JournalMap};
use image_recovery::planned_replays_can_be_made;
use image_replays::{plan_replay, stopped_images_have_no_replay};
use lone_view::LoneView;
use peer_replay::Plan;
use run_reports::Status;
use shared_disk::SharedDisk;
use std::alloc::Global;

/// What a run of a mounted image is made of: what node 1 sees of it, its journals, and the plans of their replays.
#[derive(Drop)]
pub(crate) struct Prepared {
    pub view: LoneView,
    pub journals: Vec<JournalMap>,
    pub plans: Vec<Plan>,
}

// Whether a journal has so many places as can be numbered, each in a block of a disk of so many.
fn is_placed(journal: &JournalMap, count: u64) -> bool
    ensures { IsTrue result ↔ IsPlaced count journal.now }
{
    journal.blocks.len() < 1 << 32 && journal.blocks.iter().all(|block| *block < count)
}

// The dinode of the first of these journals that isn't so.
fn first_misplaced(journals: &[JournalMap], count: u64) -> Option<u64>
    ensures { result ≡ None ↔ ArePlaced count journals.now }
{
    for journal in journals {
        if !is_placed(journal, count) {
            return Some(journal.dinode);
        }
    }
    None
}

/// Mounts the image of an idle disk, and plans the replays of its journals; nothing is written. It costs what mounting and `plan_replay` cost.
pub(crate) fn prepare<D: SharedDisk>(alloc: Global, disk: &mut D) -> Result<Prepared, Status>
    requires idle { IsIdle (D.state disk.old) }
    requires size { IsBlockSize (D.state disk.old).size }
    ensures prepared { IfOk result (λ it. IsPrepared (D.state disk.old) it.view it.journals.items it.plans.items) }
    ensures ends { IfErr result (BeginEnds (D.state disk.old) (D.faults disk.old) (D.faults disk.new)) }
    ensures reads { ReadsOnly (D.state disk.old) (D.state disk.new) (D.list disk.old) (D.list disk.new) (D.faults disk.old) (D.faults disk.new) }
{
    planned_replays_can_be_made();
    stopped_images_have_no_replay();
    let mounted = match mount(alloc, disk) {
        Ok(mounted) => mounted,
        Err(own) => return Err(own),
    };
    let plans = match plan_replay(alloc, disk, 0, &mounted) {
        Ok(plans) => plans,
        Err(fault) => return Err(not_planned(fault)),
    };
    let Ready { view, journals } = match ready_of(alloc, disk, mounted) {
        Ok(ready) => ready,
        Err(own) => return Err(own),
    };
    if journals.is_empty() {
        return Err(Status::NotProfile {
            field: Field::Journals,
            value: 0,
        });
    }
    match first_misplaced(&journals, disk.blocks()) {
        Some(dinode) => Err(misplaced(dinode)),
        None => Ok(Prepared {
            view,
            journals,
            plans,
        }),
    }
}
