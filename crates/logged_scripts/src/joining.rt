// A node joins.
ghost use Rattle.std.specs.Prelude.{◌≡◌, ◌∷◌, [], OnOk, OnErr};

use disk_items::put_in_room;
use no_memory::NoMemory;
use trace_text::TraceItem;

/// Node 1 joins: the item of that comes into `items`, which is empty.
pub fn join(items: &mut Vec<TraceItem>) -> Result<(), NoMemory>
    requires { items.old.items ≡ [] }
    ensures joined { OnOk result (items.new.items ≡ TraceItem.Join 1 ∷ []) }
    ensures none { OnErr result (items.new.items ≡ []) }
{
    items.reserve(1)?;
    put_in_room(items, TraceItem::Join { node: 1 });
    Ok(())
}
