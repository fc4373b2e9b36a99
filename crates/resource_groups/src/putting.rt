// The state of a data block put in a draft.
ghost use Rattle.std.specs.Prelude.{ℕ, List, Some, false, ◌≡◌, ◌⊎◌, ◌+◌, ◌/◌, ◌^◌, ◌<◌, ◌≤◌, ◌↔◌, ◌==◌, IsTrue, drop, Ok, OnOk, OnErr, IfSome, IfNone};
ghost use Rattle.std.specs.FinMap.{insert};
ghost use Rattle.drafts.specs.declared.fate.Fate.TheVariants.{Put};
ghost use Rattle.gfs2_layout.specs.Groups.{one_if};
ghost use Rattle.gfs2_layout.specs.Structures.{group_read};
ghost use Rattle.gfs2_layout.specs.Writing.{group_put};
ghost use Rattle.glock_names.specs.Steps.{IfIs, IfNeedBlock, IfDamaged};
ghost use Rattle.glock_names.specs.Views.{HasBlock, HasGroup, IsOfView, IsView};
ghost use Rattle.glock_names.specs.declared.views.Group.{Group};
ghost use Rattle.resource_groups.specs.Shown.{IsShown, IsDataOf, IsBroken, group_lock};
ghost use Rattle.drafts.specs.Fates.{seen_in};
ghost use Rattle.resource_groups.specs.Putting.{IsPutIn, PutsTwo, KeepsOthers, IsOneOfTwo, HasDataBlock, IsRecounted, IsMiscounted, overlaid, head_length, bit_put};

use crate::blocks::{bits_of, header_of, lock_of};
use crate::places::{IN_BITMAP, IN_HEADER, first_place, part_of};
use drafts::Draft;
use gfs2_layout::{GroupHeader, put_state, state_at};
use glock_names::{CallFault, Group, Step, View};
use no_memory::NoMemory;

// Whether the block is one of the group's data blocks.
fn has_data(group: &Group, block: u64) -> bool
    ensures { IsTrue result ↔ IsDataOf group.now block }
{
    group.first <= block && block - group.first < u64::from(group.count)
}

/// The view's group of which the block is a data block. It goes over the groups, of which there are at most 64.
pub fn group_of<V: View>(view: &V, block: u64) -> Option<Group>
    ensures group { IfSome result (HasGroup (V.seen view.now)) }
    ensures own { IfSome result (λ g. IsDataOf g block) }
    ensures none { IfNone result (¬ (HasDataBlock (V.seen view.now) block)) }
{
    for group in view.groups() {
        if has_data(group, block) {
            return Some(*group);
        }
    }
    None
}

// A count of the blocks in a state, where one block was in it or not, and is or isn't from now on; None where no count of
// them was so.
fn recounted(count: u32, was: bool, is: bool) -> Option<u32>
    ensures some { IfSome result (λ n. n + one_if was ≡ count + one_if is) }
    ensures none { IfNone result (IsMiscounted count was) }
{
    let others = count.checked_sub(u32::from(was))?;
    others.checked_add(u32::from(is))
}

// The header with the counts that it has where a block in the one state goes to the other; None where it didn't count the
// bits.
fn counted(header: &GroupHeader, old: u8, new: u8) -> Option<GroupHeader>
    ensures some { IfSome result (λ h. IsRecounted header.now h old new) }
    ensures none { IfNone result (IsMiscounted header.now.free (old == 0) ⊎ IsMiscounted header.now.dinodes (old == 3)) }
{
    let free = recounted(header.free, old == 0, new == 0)?;
    let dinodes = recounted(header.dinodes, old == 3, new == 3)?;
    Some(GroupHeader {
        free,
        dinodes,
        ..*header
    })
}

// How many bytes stand before the bits in the group's block `part`.
fn head_of(part: u32) -> usize
    ensures { result ≡ head_length part }
{
    if part == 0 { IN_HEADER } else { IN_BITMAP }
}

// Puts a state into the bits of the group's block `part`, which the draft sees.
fn put_bits<V: View>(
    draft: &mut Draft<'_, V>,
    group: &Group,
    part: u32,
    place: u32,
    state: u8,
) -> Result<(), NoMemory>
    requires seen { HasBlock (seen_in V.seen draft.old) (group.now.addr + part) }
    requires within { head_length part + place / 4 < (V.seen draft.old.view).size }
    requires state { state < 4 }
    requires number { group.now.addr + part < 2 ^ 64 }
    ensures put { (bytes : List ℕ) → (seen_in V.seen draft.old).block_at (group.now.addr + part) ≡ Some bytes
        → OnOk result (draft.new ≡ record draft.old { fates = insert draft.old.fates (group.now.addr + part) (Put (group_lock group.now) false (bit_put part place state bytes)) }) }
    ensures err { OnErr result (draft.new ≡ draft.old) }
{
    let block = group.addr + u64::from(part);
    let Some(mut bytes) = draft.copy(block)? else {
        unreachable!()
    };
    put_state(&mut bytes[head_of(part)..], place, state);
    draft.put(lock_of(group), block, false, &bytes)
}

/// Puts a header into the group's first block, which the draft sees.
pub(crate) fn put_header<V: View>(
    draft: &mut Draft<'_, V>,
    group: &Group,
    header: &GroupHeader,
) -> Result<(), NoMemory>
    requires seen { HasBlock (seen_in V.seen draft.old) group.now.addr }
    requires room { 128 ≤ (V.seen draft.old.view).size }
    ensures put { (bytes : List ℕ) → (seen_in V.seen draft.old).block_at group.now.addr ≡ Some bytes
        → OnOk result (draft.new ≡ record draft.old { fates = insert draft.old.fates group.now.addr (Put (group_lock group.now) false (group_put header.now bytes)) }) }
    ensures read { (bytes : List ℕ) → (seen_in V.seen draft.old).block_at group.now.addr ≡ Some bytes → OnOk result (group_read (group_put header.now bytes) ≡ Ok header.now) }
    ensures behind { (bytes : List ℕ) → (seen_in V.seen draft.old).block_at group.now.addr ≡ Some bytes → OnOk result (drop 128 (group_put header.now bytes) ≡ drop 128 bytes) }
    ensures err { OnErr result (draft.new ≡ draft.old) }
{
    let Some(mut bytes) = draft.copy(group.addr)? else {
        unreachable!()
    };
    header.write(&mut bytes);
    draft.put(lock_of(group), group.addr, false, &bytes)
}

// Puts the state of a data block of this group.
fn set_in_group<V: View>(
    draft: &mut Draft<'_, V>,
    group: &Group,
    block: u64,
    state: u8,
) -> Result<Step<()>, CallFault>
    requires group { HasGroup (seen_in V.seen draft.old) group.now }
    requires own { IsDataOf group.now block }
    requires state { state < 4 }
    ensures put { (at : ℕ → List ℕ) → IsShown (seen_in V.seen draft.old) group.now at → IfIs result (λ done. IsPutIn at (overlaid (seen_in V.seen draft.new) at) group.now block state) }
    ensures two { (at : ℕ → List ℕ) → IsShown (seen_in V.seen draft.old) group.now at
        → IfIs result (λ done. PutsTwo (V.seen draft.old.view).size draft.old draft.new (overlaid (seen_in V.seen draft.new) at) group.now block) }
    ensures needed { IfNeedBlock result (IsOneOfTwo (seen_in V.seen draft.old) group.now block) }
    ensures waits { IfNeedBlock result (λ missing. draft.new ≡ draft.old) }
    ensures damaged { (at : ℕ → List ℕ) → IsShown (seen_in V.seen draft.old) group.now at → IfDamaged result (IsBroken at group.now) }
    ensures kept { IfDamaged result (IsOfView (seen_in V.seen draft.old)) }
    ensures stays { IfDamaged result (λ rule broken. draft.new ≡ draft.old) }
    ensures others { KeepsOthers draft.old draft.new group.now }
    ensures sees { IfIs result (λ done. (c : ℕ) → HasBlock (seen_in V.seen draft.new) c → HasBlock (seen_in V.seen draft.old) c) }
    ensures view { IsView (seen_in V.seen draft.old) }
{
    let size = draft.block_size();
    let place = (block - group.first) as u32;
    let part = part_of(size, place);
    let place = (u64::from(place) - first_place(size, part)) as u32;
    let header = match header_of(&*draft, group)? {
        Step::Is(header) => header,
        Step::NeedBlock(missing) => return Ok(Step::NeedBlock(missing)),
    };
    let old = match bits_of(&*draft, group, part)? {
        Step::Is(bits) => state_at(bits, place),
        Step::NeedBlock(missing) => return Ok(Step::NeedBlock(missing)),
    };
    let Some(header) = counted(&header, old, state) else {
        return Err(CallFault::Damaged {
            block: group.addr,
            rule: 6,
        });
    };
    put_bits(draft, group, part, place, state)?;
    put_header(draft, group, &header)?;
    Ok(Step::Is(()))
}

/// Puts the state of a data block of one of the view's groups, 0 free, 1 used, 2 an unlinked dinode, 3 a dinode: its bits, and
/// the counts in the group's header. It costs two copies of each of these two blocks. Where memory ends, the bits may have been
/// put without the counts.
pub fn set_state<V: View>(
    draft: &mut Draft<'_, V>,
    block: u64,
    state: u8,
) -> Result<Step<()>, CallFault>
    requires block { HasDataBlock (seen_in V.seen draft.old) block }
    requires state { state < 4 }
    ensures put { (g : Group) (at : ℕ → List ℕ) → HasGroup (seen_in V.seen draft.old) g → IsDataOf g block → IsShown (seen_in V.seen draft.old) g at
        → IfIs result (λ done. IsPutIn at (overlaid (seen_in V.seen draft.new) at) g block state) }
    ensures two { (g : Group) (at : ℕ → List ℕ) → HasGroup (seen_in V.seen draft.old) g → IsDataOf g block → IsShown (seen_in V.seen draft.old) g at
        → IfIs result (λ done. PutsTwo (V.seen draft.old.view).size draft.old draft.new (overlaid (seen_in V.seen draft.new) at) g block) }
    ensures needed { (g : Group) → HasGroup (seen_in V.seen draft.old) g → IsDataOf g block → IfNeedBlock result (IsOneOfTwo (seen_in V.seen draft.old) g block) }
    ensures waits { IfNeedBlock result (λ missing. draft.new ≡ draft.old) }
    ensures damaged { (g : Group) (at : ℕ → List ℕ) → HasGroup (seen_in V.seen draft.old) g → IsDataOf g block → IsShown (seen_in V.seen draft.old) g at → IfDamaged result (IsBroken at g) }
    ensures kept { IfDamaged result (IsOfView (seen_in V.seen draft.old)) }
    ensures stays { IfDamaged result (λ rule broken. draft.new ≡ draft.old) }
    ensures others { (g : Group) → HasGroup (seen_in V.seen draft.old) g → IsDataOf g block → KeepsOthers draft.old draft.new g }
    ensures sees { IfIs result (λ done. (c : ℕ) → HasBlock (seen_in V.seen draft.new) c → HasBlock (seen_in V.seen draft.old) c) }
    ensures view { IsView (seen_in V.seen draft.old) }
{
    let Some(group) = group_of(&*draft, block) else {
        unreachable!()
    };
    set_in_group(draft, &group, block, state)
}
