// Along a chain to its last leaf.
ghost use Rattle.std.specs.Prelude.{ℕ, ◌≡◌, ◌^◌, ◌≤◌, None};
ghost use Rattle.gfs2_layout.specs.Area.{IsArea, Slot, slots_of};
ghost use Rattle.gfs2_layout.specs.Inode.{depth_in};
ghost use Rattle.gfs2_layout.specs.Putting.{has_room as has_room_of};
ghost use Rattle.glock_names.specs.Steps.{IfIs, IfNeedBlock, OnlyDamaged};
ghost use Rattle.glock_names.specs.Views.{HasBlock, IsOfView};
ghost use Rattle.hash_steps.specs.Broken.{IsWrongIn};
ghost use Rattle.hash_steps.specs.Shown.{IsNeededFor};
ghost use Rattle.hash_steps.specs.Walking.{OfEach};
ghost use Rattle.hash_steps.specs.Leaves.{has_room_for};
ghost use Rattle.hash_inserts.specs.Walking.{IsWalked, first_with};

use gfs2_layout::{Dirent, least_length, next_record};
use glock_names::{CallFault, Step, View};
use hash_steps::{damaged, leaf_at};
use pointer_tables::Pointer;
use profile_limits::MOST_BLOCKS;

/// A chain: its last leaf, whether that is its only one, and its first leaf with room.
#[derive(Clone, Copy)]
pub(crate) struct Walked {
    pub last: u64,
    pub single: bool,
    pub with_room: Option<u64>,
}

// Whether a record has room for so many bytes behind what is taken of it.
fn has_room(head: &Dirent, needed: u32) -> bool
    requires { needed ≤ 2 ^ 17 }
    ensures { (s : Slot) → head.now ≡ s.head → result ≡ has_room_of needed s }
{
    let taken = if head.is_in_use() {
        least_length(head.name_len)
    } else {
        0
    };
    taken + needed <= u32::from(head.rec_len)
}

/// Whether some record of an area has room for a name of so many bytes. It goes over them up to that one.
pub fn area_has_room(area: &[u8], len: u16) -> bool
    requires { IsArea area.now }
    ensures { result ≡ has_room_for len (slots_of area.now) }
{
    let needed = least_length(len);
    let mut rest = area;
    while let Some((record, behind)) = next_record(rest) {
        if has_room(&record.head, needed) {
            return true;
        }
        rest = behind;
    }
    false
}

/// The first leaf with room so far, once one more was looked at.
pub(crate) fn first_of(found: Option<u64>, room: bool, leaf: u64) -> Option<u64>
    ensures { result ≡ first_with found room leaf }
{
    match found {
        Some(found) => Some(found),
        None if room => Some(leaf),
        None => None,
    }
}

/// Goes along a chain, which begins where a pointer leads, to its last leaf, and looks for the first leaf of it with room for a name of so
/// many bytes. It looks at each leaf as a look-up of a name does, and costs a step for each record of each.
pub(crate) fn walk<V: View>(
    view: &V,
    dir: u64,
    depth: u16,
    head: &Pointer,
    len: u16,
) -> Result<Step<Walked>, CallFault>
    requires from { HasBlock (V.seen view.now) head.now.from }
    ensures walked { OfEach (V.seen view.now) dir head.now (λ h i. IfIs result (IsWalked (V.seen view.now) h i len)) }
    ensures needed { OfEach (V.seen view.now) dir head.now (λ h i. IfNeedBlock result (IsNeededFor (V.seen view.now) h (λ k. k ≡ i))) }
    ensures absent { IfNeedBlock result (λ missing. (V.seen view.now).block_at missing.block ≡ None) }
    ensures damaged { OfEach (V.seen view.now) dir head.now (λ h i. depth ≡ depth_in h → OnlyDamaged result (IsWrongIn (V.seen view.now) h)) }
    ensures kept { OnlyDamaged result (IsOfView (V.seen view.now)) }
{
    let mut link = *head;
    let mut with_room = None;
    for place in 0..MOST_BLOCKS {
        let leaf = match leaf_at(view, dir, depth, &link)? {
            Step::Is(leaf) => leaf,
            Step::NeedBlock(missing) => return Ok(Step::NeedBlock(missing)),
        };
        with_room = first_of(with_room, area_has_room(leaf.area, len), link.leaf);
        if leaf.head.next == 0 {
            return Ok(Step::Is(Walked {
                last: link.leaf,
                single: place == 0,
                with_room,
            }));
        }
        link = Pointer {
            leaf: leaf.head.next,
            from: link.leaf,
        };
    }
    // a chain with more leaves than a device has blocks comes to one of them again
    Err(damaged(link.from, 15))
}
