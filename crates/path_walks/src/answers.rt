// What a call is answered that changes nothing.
ghost use Rattle.std.specs.Prelude.{◌≡◌, []};

use drafts::Change;
use std::alloc::Global;

/// A change of nothing.
pub fn nothing(alloc: Global) -> Change
    ensures blocks { result.blocks.items ≡ [] }
    ensures locks { result.locks.items ≡ [] }
    ensures freed { result.freed.items ≡ [] }
{
    Change {
        blocks: Vec::new(alloc),
        locks: Vec::new(alloc),
        freed: Vec::new(alloc),
    }
}
