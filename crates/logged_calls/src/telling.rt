// The items of an answered call.
ghost use Rattle.std.specs.Prelude.{◌≡◌, ◌+◌, ◌++◌, ◌<◌, ◌≤◌, ◌^◌, ◌∷◌, [], IfOk, OnOk};
ghost use Rattle.std.specs.Vec.{vec_capacity, vec_len};
ghost use Rattle.logged_calls.specs.Telling.{with_call};

use disk_items::put_in_room;
use file_tree::{Call, Name, Reply};
use logged_node::Node;
use no_memory::NoMemory;
use trace_text::TraceItem;

/// The item of the node's next call, and room for two items. It changes nothing else. It costs a copy of the call and of its reply.
pub(crate) fn make_item(
    node: &mut Node,
    client: &Name,
    call: &Call,
    reply: &Reply,
) -> Result<TraceItem, NoMemory>
    requires number { node.old.numbers.answered + 1 < 2 ^ 64 }
    ensures node { node.new ≡ record node.old { items = node.new.items } }
    ensures items { node.new.items.items ≡ node.old.items.items }
    ensures room { OnOk result (vec_len node.new.items + 2 ≤ vec_capacity node.new.items) }
    ensures item { IfOk result (λ item. item ≡ TraceItem.Call 1 client.now (node.old.numbers.answered + 1) call.now reply.now) }
{
    node.items.reserve(2)?;
    let number = node.numbers.answered + 1;
    let reply = reply.copy()?;
    let client = client.copy()?;
    let call = call.copy()?;
    Ok(TraceItem::Call {
        node: 1,
        client,
        number,
        call,
        reply,
    })
}

/// Tells how many blocks are free, where too few are.
pub(crate) fn put_full(node: &mut Node, need: u64, free: u64)
    requires room { vec_len node.old.items + 2 ≤ vec_capacity node.old.items }
    ensures node { node.new ≡ record node.old { items = node.new.items } }
    ensures items { node.new.items.items ≡ node.old.items.items ++ TraceItem.Full 1 need free ∷ [] }
    ensures left { vec_len node.new.items < vec_capacity node.new.items }
{
    put_in_room(
        &mut node.items,
        TraceItem::Full {
            node: 1,
            need,
            free,
        },
    );
}

/// Counts an answered call, which changed something or not, and puts its item, where there is room for it.
pub(crate) fn put_call(node: &mut Node, item: TraceItem, changes: bool)
    requires room { vec_len node.old.items < vec_capacity node.old.items }
    requires number { node.old.numbers.answered + 1 < 2 ^ 64 }
    ensures node { node.new ≡ record node.old { items = node.new.items; numbers = with_call node.old.numbers changes } }
    ensures items { node.new.items.items ≡ node.old.items.items ++ item ∷ [] }
{
    let number = node.numbers.answered + 1;
    node.numbers.answered = number;
    if changes {
        node.numbers.changed = number;
    }
    put_in_room(&mut node.items, item);
}
