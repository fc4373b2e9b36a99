// How many blocks of a group are free.
ghost use Rattle.std.specs.Prelude.{ℕ, List, ◌≡◌, ◌+◌, ◌<◌, ◌≤◌, min};
ghost use Rattle.gfs2_layout.specs.Groups.{bitmap_of, group_header, states_in, count_of};
ghost use Rattle.glock_names.specs.Steps.{IfIs, IfNeedBlock, OnlyDamaged};
ghost use Rattle.glock_names.specs.Views.{HasGroup, IsOfView};
ghost use Rattle.resource_groups.specs.Counting.{states_upto};
ghost use Rattle.resource_groups.specs.Shown.{IsShown, IsBroken, IsMissing, blocks_of, first_place as first_in};

use crate::bits::count_in;
use crate::blocks::{bits_of, header_of};
use crate::places::first_place;
use glock_names::{CallFault, Group, Step, View};

// How many blocks are free of those whose bits stand in block `part` of a group.
fn count_in_part<V: View>(view: &V, group: &Group, part: u32) -> Result<Step<u32>, CallFault>
    requires group { HasGroup (V.seen view.now) group.now }
    requires within { part < group.now.length }
    ensures found { (at : ℕ → List ℕ) → IsShown (V.seen view.now) group.now at → IfIs result (λ free.
        count_of 0 (states_upto (bitmap_of (blocks_of at group.now)) (min (first_in (V.seen view.now).size part) group.now.count)) + free
        ≡ count_of 0 (states_upto (bitmap_of (blocks_of at group.now)) (min (first_in (V.seen view.now).size (part + 1)) group.now.count))) }
    ensures most { IfIs result (λ free. free ≤ 16384) }
    ensures needed { IfNeedBlock result (IsMissing (V.seen view.now) group.now) }
    ensures damaged { (at : ℕ → List ℕ) → IsShown (V.seen view.now) group.now at → OnlyDamaged result (IsBroken at group.now) }
    ensures kept { OnlyDamaged result (IsOfView (V.seen view.now)) }
{
    let bits = match bits_of(view, group, part)? {
        Step::Is(bits) => bits,
        Step::NeedBlock(missing) => return Ok(Step::NeedBlock(missing)),
    };
    let base = first_place(view.block_size(), part);
    let places = u64::from(group.count).saturating_sub(base);
    let whole = bits.len().min((places / 4) as usize);
    Ok(Step::Is(count_in(&bits[..whole])))
}

/// How many of the group's data blocks are free, by their bits, which the group's header repeats. It goes over the group's
/// blocks once.
pub fn count_free<V: View>(view: &V, group: &Group) -> Result<Step<u32>, CallFault>
    requires { HasGroup (V.seen view.now) group.now }
    ensures bits { (at : ℕ → List ℕ) → IsShown (V.seen view.now) group.now at → IfIs result (λ free. free ≡ count_of 0 (states_in (blocks_of at group.now) group.now.count)) }
    ensures header { (at : ℕ → List ℕ) → IsShown (V.seen view.now) group.now at → IfIs result (λ free. free ≡ (group_header (blocks_of at group.now)).free) }
    ensures needed { IfNeedBlock result (IsMissing (V.seen view.now) group.now) }
    ensures damaged { (at : ℕ → List ℕ) → IsShown (V.seen view.now) group.now at → OnlyDamaged result (IsBroken at group.now) }
    ensures kept { OnlyDamaged result (IsOfView (V.seen view.now)) }
{
    let header = match header_of(view, group)? {
        Step::Is(header) => header,
        Step::NeedBlock(missing) => return Ok(Step::NeedBlock(missing)),
    };
    let mut free = 0u64;
    for part in 0..group.length {
        match count_in_part(view, group, part)? {
            Step::Is(more) => free += u64::from(more),
            Step::NeedBlock(missing) => return Ok(Step::NeedBlock(missing)),
        }
    }
    if free != u64::from(header.free) {
        return Err(CallFault::Damaged {
            block: group.addr,
            rule: 6,
        });
    }
    Ok(Step::Is(header.free))
}
