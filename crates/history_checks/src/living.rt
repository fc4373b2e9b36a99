// Which calls of a history are alive.
ghost use Rattle.std.specs.Prelude.{◌≡◌, IfOk};
ghost use Rattle.cluster_history.specs.History.{any_drops, drops as drops_it};
ghost use Rattle.cluster_history.specs.Losses.{living};
ghost use Rattle.history_checks.specs.Checks.{lives as lives_in};

use cluster_history::Item;
use file_tree::NoMemory;
use std::alloc::Global;

// An equal item.
fn copy_item(item: &Item) -> Result<Item, NoMemory>
    ensures { IfOk result (λ copy. copy ≡ item.now) }
{
    match item {
        Item::Call {
            node,
            client,
            number,
            call,
            reply,
        } => Ok(Item::Call {
            node: *node,
            client: *client,
            number: *number,
            call: call.copy()?,
            reply: reply.copy()?,
        }),
        Item::Lost { node, kept } => Ok(Item::Lost {
            node: *node,
            kept: *kept,
        }),
    }
}

// Whether this item takes out the node's call with this number.
fn drops(node: u8, number: u64, item: &Item) -> bool
    ensures { result ≡ drops_it node number item.now }
{
    match item {
        Item::Call { .. } => false,
        Item::Lost { node: lost, kept } => *lost == node && *kept < number,
    }
}

// Whether one of these items does.
fn is_dropped(node: u8, number: u64, later: &[Item]) -> bool
    ensures { result ≡ any_drops node number later.now }
{
    for item in later {
        if drops(node, number, item) {
            return true;
        }
    }
    false
}

// Whether the item is a call that none of the later ones takes out.
fn lives(item: &Item, later: &[Item]) -> bool
    ensures { result ≡ lives_in item.now later.now }
{
    match item {
        Item::Call { node, number, .. } => !is_dropped(*node, *number, later),
        Item::Lost { .. } => false,
    }
}

/// The calls of a history that no later loss of their node takes out, in order. It looks at all later items of each call, and
/// copies those that are alive.
pub fn alive(alloc: Global, items: &[Item]) -> Result<Vec<Item>, NoMemory>
    ensures { IfOk result (λ calls. calls.items ≡ living items.now) }
{
    let mut calls = Vec::new(alloc);
    for i in 0..items.len() {
        if lives(&items[i], &items[i + 1..]) {
            calls.push(copy_item(&items[i])?)?;
        }
    }
    Ok(calls)
}
