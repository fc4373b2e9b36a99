// Items that are put where there is room.
ghost use Rattle.std.specs.Prelude.{[], ◌≡◌, ◌<◌, ◌≤◌, ◌+◌, ◌∷◌, ◌++◌};
ghost use Rattle.std.specs.Vec.{vec_capacity, vec_len};

use trace_text::TraceItem;

/// Puts an item at the end where there is room for it. It takes no memory.
pub fn put_in_room(items: &mut Vec<TraceItem>, item: TraceItem)
    requires room { vec_len items.old < vec_capacity items.old }
    ensures put { items.new.items ≡ items.old.items ++ item ∷ [] }
    ensures len { vec_len items.new ≡ vec_len items.old + 1 }
    ensures capacity { vec_capacity items.old ≤ vec_capacity items.new }
{
    let _ = items.push(item);
}
