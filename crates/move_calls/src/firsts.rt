// The groups that come first as a name moves.
ghost use Rattle.std.specs.Prelude.{◌≡◌, ◌≤◌, ◌↔◌, if◌then◌else◌, [], ◌∷◌, ◌++◌, length, Contains, IsTrue, IfOk, false, true};
ghost use Rattle.glock_names.specs.Steps.{IfDamaged};
ghost use Rattle.glock_names.specs.Views.{HasGroup, Rise};
ghost use Rattle.glock_names.specs.declared.views.Group.{Group as GroupValue};
ghost use Rattle.resource_groups.specs.Freeing.{HasSome};
ghost use Rattle.name_moves.specs.Groups.{IsOneOrHas};
ghost use Rattle.move_calls.specs.Firsts.{is_one_or_has, those_of};

use glock_names::{CallFault, Group, View};
use std::alloc::Global;

// Whether some of the blocks are data blocks of the group.
fn has_some(group: &Group, blocks: &[u64]) -> bool
    ensures { IsTrue result ↔ HasSome group.now blocks.now }
{
    for block in blocks {
        if group.first <= *block && *block - group.first < u64::from(group.count) {
            return true;
        }
    }
    false
}

// Whether the group has this number, or has some of the blocks as data blocks.
fn is_one_or_has(group: &Group, number: Option<u64>, blocks: &[u64]) -> bool
    ensures one { result ≡ true → IsOneOrHas number blocks.now group.now }
    ensures other { result ≡ false → IsOneOrHas number blocks.now group.now → ⊥ }
{
    number == Some(group.addr) || has_some(group, blocks)
}

// Puts the group behind others, where it has this number, or has some of the blocks as data blocks.
fn add_if_one(
    groups: &mut Vec<Group>,
    group: &Group,
    number: Option<u64>,
    blocks: &[u64],
) -> Result<(), CallFault>
    ensures added { IfOk result (λ done. groups.new.items ≡ groups.old.items ++ (if is_one_or_has number blocks.now group.now then group.now ∷ [] else [])) }
    ensures kept { IfDamaged result (λ rule block. ⊥) }
{
    if !is_one_or_has(group, number, blocks) {
        return Ok(());
    }
    groups.push(*group)?;
    Ok(())
}

/// Of the view's groups those that have some of these blocks, with the one of this number, by rising number. It goes over the blocks for each group, and takes memory
/// for these groups.
pub fn groups_of<V: View>(
    alloc: Global,
    view: &V,
    number: Option<u64>,
    blocks: &[u64],
) -> Result<Vec<Group>, CallFault>
    ensures are { IfOk result (λ groups. groups.items ≡ those_of number blocks.now (V.seen view.now).groups) }
    ensures of_view { IfOk result (λ groups. (g : GroupValue) → Contains groups.items g → HasGroup (V.seen view.now) g) }
    ensures few { IfOk result (λ groups. length groups.items ≤ length (V.seen view.now).groups) }
    ensures rise { IfOk result (λ groups. Rise (V.seen view.now).size 0 groups.items) }
    ensures kept { IfDamaged result (λ rule block. ⊥) }
{
    let _size = view.block_size();
    let mut these = Vec::new(alloc);
    for group in view.groups() {
        add_if_one(&mut these, group, number, blocks)?;
    }
    Ok(these)
}
