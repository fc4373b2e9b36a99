// Where a name of a hashed directory leads.
ghost use Rattle.std.specs.Prelude.{◌≡◌, None, false, true, IfSome};
ghost use Rattle.std.specs.Option.{option_map};
ghost use Rattle.gfs2_layout.specs.Holding.{Holding};
ghost use Rattle.gfs2_layout.specs.Inode.{records_of};
ghost use Rattle.gfs2_layout.specs.Records.{is_dots as has_dots, record_named};
ghost use Rattle.glock_names.specs.Steps.{IfIs, IfNeedBlock, OnlyDamaged};
ghost use Rattle.glock_names.specs.Views.{IsOfView};
ghost use Rattle.linear_dirs.specs.Shown.{entry_of};
ghost use Rattle.hash_dirs.specs.Shown.{IsNeededFor, IsShown, IsSound, index_for};
ghost use Rattle.hash_dirs.specs.Finding.{IsFoundBy};
ghost use Rattle.hash_dirs.specs.Broken.{IsWrongIn};
ghost use Rattle.resource_groups.specs.Putting.{HasDataBlock};

use crate::chains::damaged;
use crate::finding::{find_along, index_of};
use crate::laws::chains_tell_names;
use crc_words::crc32;
use file_tree::is_dots;
use gfs2_layout::records_are_found_by_name;
use glock_names::{CallFault, Entry, Step, View};
use pointer_tables::PointerTable;
use resource_groups::group_of;

// Whether a name leads to no data block of a group; `.` and `..` aren't looked at.
fn is_stray<V: View>(view: &V, name: &[u8], entry: &Entry) -> bool
    ensures stray { result ≡ true → (has_dots name.now ≡ false) × (¬ (HasDataBlock (V.seen view.now) entry.now.addr)) }
    ensures inside { result ≡ false → has_dots name.now ≡ false → HasDataBlock (V.seen view.now) entry.now.addr }
{
    if is_dots(name) {
        return false;
    }
    group_of(view, entry.addr).is_none()
}

/// Where a name of the hashed directory with its dinode in this block leads, by its table; None where it has no such name. `.` and
/// `..` are names here. It looks at the pointer for the name's hash, and along the leaves of that chain up to the first that has the
/// name: that there is one and that it is a data block of a group, at its header, the format of its records and its depth, and that its records
/// fill it, in this order; that the chain doesn't return to itself; and that the name, but `.` and `..`, leads to a data block of a group. It costs what the table takes for a pointer, and a step for each
/// record up to the one that it finds. No memory.
pub fn look<V: View, T: PointerTable>(
    view: &V,
    dir: u64,
    name: &[u8],
    table: &T,
) -> Result<Step<Option<Entry>>, CallFault>
    ensures found { (h : Holding) → IsShown (V.seen view.now) dir h → T.shows table.now (V.seen view.now) h → IsSound h
        → IfIs result (λ found. found ≡ option_map entry_of (record_named (records_of h) name.now)) }
    ensures inside { has_dots name.now ≡ false → IfIs result (λ found. IfSome found (λ entry. HasDataBlock (V.seen view.now) entry.addr)) }
    ensures chain { (h : Holding) → IsShown (V.seen view.now) dir h → T.shows table.now (V.seen view.now) h → IfIs result (IsFoundBy h name.now) }
    ensures needed { (h : Holding) → IsShown (V.seen view.now) dir h → T.shows table.now (V.seen view.now) h → IfNeedBlock result (IsNeededFor (V.seen view.now) h (λ i. i ≡ index_for h name.now)) }
    ensures absent { IfNeedBlock result (λ missing. (V.seen view.now).block_at missing.block ≡ None) }
    ensures damaged { (h : Holding) → IsShown (V.seen view.now) dir h → T.shows table.now (V.seen view.now) h → OnlyDamaged result (IsWrongIn (V.seen view.now) h) }
    ensures kept { OnlyDamaged result (IsOfView (V.seen view.now)) }
{
    chains_tell_names();
    records_are_found_by_name();
    let depth = table.depth();
    let head = match table.get(view, index_of(crc32(name), depth))? {
        Step::Is(head) => head,
        Step::NeedBlock(missing) => return Ok(Step::NeedBlock(missing)),
    };
    match find_along(view, dir, depth, &head, name)? {
        Step::Is(Some(found)) => {
            let entry = found.spot.entry;
            if is_stray(view, name, &entry) {
                return Err(damaged(found.block, 2));
            }
            Ok(Step::Is(Some(entry)))
        }
        Step::Is(None) => Ok(Step::Is(None)),
        Step::NeedBlock(missing) => Ok(Step::NeedBlock(missing)),
    }
}
