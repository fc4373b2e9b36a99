// The locks of the groups that have given blocks.
ghost use Rattle.std.specs.Prelude.{◌≡◌, ◌↔◌, IsTrue, IfSome, IfNone, false, true};
ghost use Rattle.resource_groups.specs.Freeing.{HasSome};
ghost use Rattle.group_locks.specs.Groups.{AreHeldOf, GroupsAreHeld, IsFirstGroupLack, IsFirstLackOf, IsOneOrHas};

use glock_names::{Group, LockName, State, View, is_at_most};

// Whether some of the blocks are data blocks of the group.
fn has_some(group: &Group, blocks: &[u64]) -> bool
    ensures { IsTrue result ↔ HasSome group.now blocks.now }
{
    for block in blocks {
        if group.first <= *block && *block - group.first < u64::from(group.count) {
            return true;
        }
    }
    false
}

// Whether the group has this number, or has some of the blocks as data blocks.
fn is_one_or_has(group: &Group, number: Option<u64>, blocks: &[u64]) -> bool
    ensures one { result ≡ true → IsOneOrHas number blocks.now group.now }
    ensures other { result ≡ false → IsOneOrHas number blocks.now group.now → ⊥ }
{
    number == Some(group.addr) || has_some(group, blocks)
}

/// Of the groups that have some of these blocks, with the one of this number, by rising number, the lock of the first that isn't held exclusive; None where all
/// are. It goes over the blocks for each group whose lock isn't held.
pub fn lacked_of<V: View>(view: &V, number: Option<u64>, blocks: &[u64]) -> Option<LockName>
    ensures some { IfSome result (IsFirstLackOf (V.seen view.now) (IsOneOrHas number blocks.now)) }
    ensures none { IfNone result (AreHeldOf (V.seen view.now) (IsOneOrHas number blocks.now)) }
{
    for group in view.groups() {
        let lock = LockName {
            kind: 3,
            number: group.addr,
        };
        if !is_at_most(State::Ex, view.state(lock)) && is_one_or_has(group, number, blocks) {
            return Some(lock);
        }
    }
    None
}

/// Of the groups that have some of these blocks, by rising number, the lock of the first that isn't held exclusive; None where all
/// are. It goes over the blocks for each group whose lock isn't held.
pub fn lacked_group<V: View>(view: &V, blocks: &[u64]) -> Option<LockName>
    ensures some { IfSome result (IsFirstGroupLack (V.seen view.now) blocks.now) }
    ensures none { IfNone result (GroupsAreHeld (V.seen view.now) blocks.now) }
{
    lacked_of(view, None, blocks)
}
