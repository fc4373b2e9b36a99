// Locks in the order of their kinds and numbers.
ghost use Rattle.std.specs.Prelude.{◌≡◌, None, if◌then◌else◌};
ghost use Rattle.std.specs.Ordering.{is_lt};
ghost use Rattle.glock_machine.specs.Keys.{key_of, key_cmp};
ghost use Rattle.glock_machine.specs.Table.{down_of};

use crate::glock::{Glock, down_of};
use glock_names::{LockName, State};

// The state to which the lock of this key goes down, where it stands behind the other.
pub fn down_behind(
    after: LockName,
    unmounting: bool,
    key: &(u8, u64),
    glock: &Glock,
) -> Option<State>
    ensures { result ≡ (if is_lt (key_cmp (key_of after) key.now) then down_of unmounting glock.now else None) }
{
    if (after.kind, after.number).cmp(key).is_lt() {
        down_of(unmounting, glock)
    } else {
        None
    }
}
