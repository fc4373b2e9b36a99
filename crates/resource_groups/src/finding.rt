// The least free block of a group above another.
ghost use Rattle.std.specs.Prelude.{ℕ, List, ◌≡◌, ◌+◌, ◌-◌, ◌<◌, ◌≤◌, min, IfSome, MatchOption};
ghost use Rattle.profile_limits.specs.Limits.{most_blocks};
ghost use Rattle.gfs2_layout.specs.Groups.{bitmap_of};
ghost use Rattle.glock_names.specs.Steps.{IfIs, IfNeedBlock, OnlyDamaged};
ghost use Rattle.glock_names.specs.Views.{HasGroup, IsOfView, end_of};
ghost use Rattle.resource_groups.specs.Finding.{NoneIsFree, IsLeastFree, IsNeeded, NoneFrom, IsFirstFree};
ghost use Rattle.resource_groups.specs.Shown.{IsShown, IsBroken, IsMissing, HasBitsIn, blocks_of, first_place as first_in};

use crate::bits::find_in;
use crate::blocks::bits_of;
use crate::places::{first_place, part_of};
use glock_names::{CallFault, Group, Step, View};

// The place, among a group's data blocks, of the first that stands above a block; at most their number.
fn place_above(group: &Group, after: u64) -> u32
    requires { end_of group.now ≤ most_blocks }
    ensures { result ≡ min (after + 1 - group.now.first) group.now.count }
{
    let above = after.saturating_add(1).saturating_sub(group.first);
    above.min(u64::from(group.count)) as u32
}

// The first free place, from a place on, of those whose bits stand in block `part` of a group.
fn find_in_part<V: View>(
    view: &V,
    group: &Group,
    part: u32,
    from: u64,
) -> Result<Step<Option<u64>>, CallFault>
    requires group { HasGroup (V.seen view.now) group.now }
    requires within { part < group.now.length }
    requires stands { HasBitsIn (V.seen view.now).size from part }
    ensures found { (at : ℕ → List ℕ) → IsShown (V.seen view.now) group.now at → IfIs result (λ found. MatchOption found
        (NoneFrom (bitmap_of (blocks_of at group.now)) from (min (first_in (V.seen view.now).size (part + 1)) group.now.count))
        (IsFirstFree (bitmap_of (blocks_of at group.now)) from group.now.count)) }
    ensures inside { IfIs result (λ found. IfSome found (λ place. place < group.now.count)) }
    ensures needed { IfNeedBlock result (IsMissing (V.seen view.now) group.now) }
    ensures which { IfNeedBlock result (λ missing. missing.block ≡ group.now.addr + part) }
    ensures damaged { (at : ℕ → List ℕ) → IsShown (V.seen view.now) group.now at → OnlyDamaged result (IsBroken at group.now) }
    ensures kept { OnlyDamaged result (IsOfView (V.seen view.now)) }
{
    let bits = match bits_of(view, group, part)? {
        Step::Is(bits) => bits,
        Step::NeedBlock(missing) => return Ok(Step::NeedBlock(missing)),
    };
    let base = first_place(view.block_size(), part);
    let places = u64::from(group.count).saturating_sub(base);
    let end = places.min(4 * bits.len() as u64) as u32;
    match find_in(bits, (from - base) as u32, end) {
        Some(place) => Ok(Step::Is(Some(base + u64::from(place)))),
        None => Ok(Step::Is(None)),
    }
}

/// The least free data block of the group that stands above a block. It looks at no bits but those of data blocks above that
/// one and up to the one that it finds, and at the headers of the blocks in which they stand. It costs a look into the view
/// for each of these blocks, and a step for each byte of full blocks.
pub fn find_free<V: View>(
    view: &V,
    group: &Group,
    after: u64,
) -> Result<Step<Option<u64>>, CallFault>
    requires { HasGroup (V.seen view.now) group.now }
    ensures found { (at : ℕ → List ℕ) → IsShown (V.seen view.now) group.now at → IfIs result (λ found. MatchOption found
        (NoneIsFree at group.now after (end_of group.now)) (IsLeastFree at group.now after)) }
    ensures needed { (at : ℕ → List ℕ) → IsShown (V.seen view.now) group.now at → IfNeedBlock result (IsNeeded (V.seen view.now) at group.now after) }
    ensures damaged { (at : ℕ → List ℕ) → IsShown (V.seen view.now) group.now at → OnlyDamaged result (IsBroken at group.now) }
    ensures kept { OnlyDamaged result (IsOfView (V.seen view.now)) }
{
    let size = view.block_size();
    let first = place_above(group, after);
    let mut part = part_of(size, first);
    let mut place = u64::from(first);
    while place < u64::from(group.count) {
        match find_in_part(view, group, part, place)? {
            Step::Is(Some(found)) => {
                return Ok(Step::Is(Some(group.first + found)));
            }
            Step::Is(None) => {
                part += 1;
                place = first_place(size, part);
            }
            Step::NeedBlock(missing) => return Ok(Step::NeedBlock(missing)),
        }
    }
    Ok(Step::Is(None))
}
