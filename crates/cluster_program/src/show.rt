ghost use Rattle.std.specs.Prelude.{◌≡◌, ◌≤◌, ◌+◌, ◌++◌, ℕ, List, Bool, [], map, drop, IfOk, IfErr, MatchResult};
ghost use Rattle.gfs2_layout.specs.Device.{IsBlockSize};
ghost use Rattle.image_mount.specs.Mounted.{Journal};
ghost use Rattle.shared_disk.specs.Disk.{IsIdle};
ghost use Rattle.shared_disk.specs.Disk.{ReadsOnly};
ghost use Rattle.show_text.specs.Show.{journal_lines};
ghost use Rattle.cluster_program.specs.Course.{Shows};

use crate::end_status::not_read;
use crate::mounting::mount;
use disk_trees::read_mounted_tree;
use image_mount::JournalMap;
use no_memory::NoMemory;
use run_reports::Status;
use shared_disk::SharedDisk;
use show_text::append_journal;
use std::alloc::Global;
use std::mem::ManuallyDrop;
use tree_lines::append_tree;

// Puts the lines of the journals at the end.
fn append_journals(text: &mut Vec<u8>, journals: &[JournalMap]) -> Result<(), NoMemory>
    ensures { IfOk result (λ _. text.new.items ≡ text.old.items ++ journal_lines 0 (map (λ (j : Journal). j.head.clean) journals.now)) }
{
    let mut number = 0;
    for journal in journals {
        append_journal(text, number, journal.head.clean)?;
        number += 1;
    }
    Ok(())
}

/// The lines of what is on the image, journals and tree, or how the command ends without them. It mounts the image, reads each journal that isn't clean, and then each block of
/// the device once; nothing is written.
pub(crate) fn show_image<D: SharedDisk>(alloc: Global, disk: &mut D) -> Result<Vec<u8>, Status>
    requires idle { IsIdle (D.state disk.old) }
    requires size { IsBlockSize (D.state disk.old).size }
    ensures shows { MatchResult result (λ lines. Shows (D.state disk.old) (D.faults disk.old) (D.faults disk.new) lines.items Status.Done)
        (λ own. Shows (D.state disk.old) (D.faults disk.old) (D.faults disk.new) [] own) }
    ensures reads { ReadsOnly (D.state disk.old) (D.state disk.new) (D.list disk.old) (D.list disk.new) (D.faults disk.old) (D.faults disk.new) }
{
    let mounted = match mount(alloc, disk) {
        Ok(mounted) => mounted,
        Err(own) => return Err(own),
    };
    let tree = match read_mounted_tree(alloc, disk, &mounted) {
        Ok(tree) => tree,
        Err(fault) => return Err(not_read(fault)),
    };
    // To drop a tree takes a call for each directory on the way down, and the stack may not have room for as many as an image has.
    let tree = ManuallyDrop::new(tree);
    let mut lines = Vec::new(alloc);
    match append_journals(&mut lines, &mounted.journals) {
        Ok(()) => {}
        Err(_) => return Err(Status::NoMemory),
    }
    match append_tree(alloc, &mut lines, &tree) {
        Ok(()) => Ok(lines),
        Err(_) => Err(Status::NoMemory),
    }
}
