// A group's blocks in a view.
ghost use Rattle.std.specs.Prelude.{ℕ, List, Some, ◌≡◌, ◌+◌, ◌*◌, ◌<◌, ◌≤◌, length};
ghost use Rattle.gfs2_layout.specs.Groups.{group_header};
ghost use Rattle.gfs2_layout.specs.Headers.{HasHeader};
ghost use Rattle.glock_names.specs.Steps.{IfIs, IfNeedBlock, OnlyDamaged};
ghost use Rattle.glock_names.specs.Views.{HasBlock, HasGroup, IsOfView, IsView};
ghost use Rattle.resource_groups.specs.Shown.{IsShown, IsMissing, IsBroken, blocks_of, kind_of, format_of, bits_at, first_place, group_lock};

use crate::places::{IN_BITMAP, IN_HEADER};
use gfs2_layout::{GroupHeader, has_header};
use glock_names::{CallFault, Group, LockName, Missing, Step, View, block_of};

/// The lock that covers a group's own blocks and its free ones.
pub(crate) fn lock_of(group: &Group) -> LockName
    ensures { result ≡ group_lock group.now }
{
    LockName {
        kind: 3,
        number: group.addr,
    }
}

// The kind and the format of the header that block `part` of a group needs.
fn header_for(part: u32) -> (u32, u32)
    ensures kind { result.0 ≡ kind_of part }
    ensures format { result.1 ≡ format_of part }
{
    if part == 0 { (2, 200) } else { (3, 300) }
}

/// A group's block `part`, from 0, with its header: that of the group, or of a further block of bits.
pub(crate) fn headed_block<'a, V: View>(
    view: &'a V,
    group: &Group,
    part: u32,
) -> Result<Step<&'a [u8]>, CallFault>
    requires group { HasGroup (V.seen view.now) group.now }
    requires within { part < group.now.length }
    ensures seen { IfIs result (λ bytes. (V.seen view.now).block_at (group.now.addr + part) ≡ Some bytes.now) }
    ensures header { IfIs result (λ bytes. HasHeader (kind_of part) (format_of part) bytes.now) }
    ensures size { IfIs result (λ bytes. (V.seen view.now).size ≡ length bytes.now) }
    ensures least { IfIs result (λ bytes. 512 ≤ length bytes.now) }
    ensures most { IfIs result (λ bytes. length bytes.now ≤ 4096) }
    ensures needed { IfNeedBlock result (IsMissing (V.seen view.now) group.now) }
    ensures which { IfNeedBlock result (λ missing. missing.block ≡ group.now.addr + part) }
    ensures damaged { (at : ℕ → List ℕ) → IsShown (V.seen view.now) group.now at → OnlyDamaged result (IsBroken at group.now) }
    ensures kept { OnlyDamaged result (IsOfView (V.seen view.now)) }
{
    let block = group.addr.saturating_add(u64::from(part));
    let Some(bytes) = block_of(view, block) else {
        return Ok(Step::NeedBlock(Missing {
            lock: lock_of(group),
            block,
            plain: false,
            from: block,
        }));
    };
    let header = header_for(part);
    if !has_header(bytes, header.0, header.1) {
        return Err(CallFault::Damaged { block, rule: 1 });
    }
    Ok(Step::Is(bytes))
}

/// The bits in block `part` of a group, from 0. The block has its header.
pub(crate) fn bits_of<'a, V: View>(
    view: &'a V,
    group: &Group,
    part: u32,
) -> Result<Step<&'a [u8]>, CallFault>
    requires group { HasGroup (V.seen view.now) group.now }
    requires within { part < group.now.length }
    ensures bits { (at : ℕ → List ℕ) → IsShown (V.seen view.now) group.now at → IfIs result (λ bits. bits.now ≡ bits_at at group.now part) }
    ensures length { IfIs result (λ bits. first_place (V.seen view.now).size part + 4 * length bits.now ≡ first_place (V.seen view.now).size (part + 1)) }
    ensures most { IfIs result (λ bits. length bits.now ≤ 4096) }
    ensures there { IfIs result (λ bits. HasBlock (V.seen view.now) (group.now.addr + part)) }
    ensures needed { IfNeedBlock result (IsMissing (V.seen view.now) group.now) }
    ensures which { IfNeedBlock result (λ missing. missing.block ≡ group.now.addr + part) }
    ensures damaged { (at : ℕ → List ℕ) → IsShown (V.seen view.now) group.now at → OnlyDamaged result (IsBroken at group.now) }
    ensures kept { OnlyDamaged result (IsOfView (V.seen view.now)) }
{
    match headed_block(view, group, part)? {
        Step::Is(bytes) if part == 0 => Ok(Step::Is(&bytes[IN_HEADER..])),
        Step::Is(bytes) => Ok(Step::Is(&bytes[IN_BITMAP..])),
        Step::NeedBlock(missing) => Ok(Step::NeedBlock(missing)),
    }
}

/// What the group's header says.
pub(crate) fn header_of<V: View>(view: &V, group: &Group) -> Result<Step<GroupHeader>, CallFault>
    requires { HasGroup (V.seen view.now) group.now }
    ensures header { (at : ℕ → List ℕ) → IsShown (V.seen view.now) group.now at → IfIs result (λ header. header ≡ group_header (blocks_of at group.now)) }
    ensures needed { IfNeedBlock result (IsMissing (V.seen view.now) group.now) }
    ensures there { IfIs result (λ header. HasBlock (V.seen view.now) group.now.addr) }
    ensures view { IsView (V.seen view.now) }
    ensures which { IfNeedBlock result (λ missing. missing.block ≡ group.now.addr) }
    ensures damaged { (at : ℕ → List ℕ) → IsShown (V.seen view.now) group.now at → OnlyDamaged result (IsBroken at group.now) }
    ensures kept { OnlyDamaged result (IsOfView (V.seen view.now)) }
{
    let _size = view.block_size();
    let bytes = match headed_block(view, group, 0)? {
        Step::Is(bytes) => bytes,
        Step::NeedBlock(missing) => return Ok(Step::NeedBlock(missing)),
    };
    let Ok(header) = GroupHeader::read(bytes) else {
        unreachable!()
    };
    Ok(Step::Is(header))
}
