// Whether a linear directory's dinode counts the records that stand behind it.
ghost use Rattle.std.specs.Prelude.{◌≡◌, OnOk};
ghost use Rattle.gfs2_layout.specs.Holding.{Holding};
ghost use Rattle.gfs2_layout.specs.Inode.{dinode_in};
ghost use Rattle.glock_names.specs.Steps.{IfDamaged};
ghost use Rattle.glock_names.specs.Views.{HasBlock, IsOfView};
ghost use Rattle.dinode_tree.specs.Shown.{IsShown};
ghost use Rattle.directories.specs.Shown.{IsLinearDirectory};
ghost use Rattle.removing_calls.specs.Removing.{BreaksAsLinear, CountsItsRecords};

use gfs2_layout::{DINODE_LENGTH, is_area};
use glock_names::{CallFault, View, block_of};
use hash_dirs::count_records;

/// Holds the count in a linear directory's dinode, which the view has, against the records behind it: where these are none, or others than it
/// counts, the directory is damaged. It goes over the records twice.
pub(crate) fn check_count<V: View>(view: &V, dir: u64, entries: u32) -> Result<(), CallFault>
    requires there { HasBlock (V.seen view.now) dir }
    requires linear { (h : Holding) → IsShown (V.seen view.now) dir h → IsLinearDirectory h }
    requires entries { (h : Holding) → IsShown (V.seen view.now) dir h → entries ≡ (dinode_in h).entries }
    ensures counted { (h : Holding) → IsShown (V.seen view.now) dir h → OnOk result (CountsItsRecords h) }
    ensures damaged { (h : Holding) → IsShown (V.seen view.now) dir h → IfDamaged result (BreaksAsLinear h) }
    ensures kept { IfDamaged result (IsOfView (V.seen view.now)) }
{
    let Some(bytes) = block_of(view, dir) else {
        unreachable!()
    };
    let area = &bytes[DINODE_LENGTH..];
    if !is_area(area) {
        return Err(CallFault::Damaged {
            block: dir,
            rule: 9,
        });
    }
    if count_records(area) != entries as usize {
        return Err(CallFault::Damaged {
            block: dir,
            rule: 12,
        });
    }
    Ok(())
}
