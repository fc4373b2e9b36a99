// The number of the last call that a loss keeps.
ghost use Rattle.std.specs.Prelude.{◌≡◌, ◌+◌, ◌<◌, IfSome, List, ◌∷◌, if◌then◌else◌};
ghost use Rattle.cluster_history.specs.Changes.{Changes};
ghost use Rattle.cluster_history.specs.History.{calls_of};
ghost use Rattle.file_tree.specs.Names.{is_same_path as is_same_path_of, leads_to};
ghost use Rattle.right_losses.specs.Kept.{kept_by, next_change};
ghost use Rattle.run_rules.specs.Follows.{history_of};
ghost use Rattle.script_lang.specs.declared.script.Client.{Client};
ghost use Rattle.trace_text.specs.declared.item.TraceItem.{TraceItem as Item};
ghost use Rattle.lost_calls.specs.Items.{found_before};

use file_tree::{Call, Name, Path, Reply};
use trace_text::TraceItem;

// Whether the second path is the first, or goes on from it.
fn goes_on(first: &[Name], second: &[Name]) -> bool
    ensures { result ≡ leads_to first.now second.now }
{
    for (depth, name) in first.iter().enumerate() {
        let Some(other) = second.get(depth) else {
            return false;
        };
        if name.bytes() != other.bytes() {
            return false;
        }
    }
    true
}

fn is_same_path(one: &Path, two: &Path) -> bool
    ensures { result ≡ is_same_path_of one.now two.now }
{
    goes_on(one.names(), two.names()) && goes_on(two.names(), one.names())
}

// Whether a call that was answered so changed the tree.
fn changes(call: &Call, reply: &Reply) -> bool
    ensures { result ≡ Changes (record { call = call.now; reply = reply.now }) }
{
    if !matches!(reply, Reply::Ok) {
        return false;
    }
    match call {
        Call::Create(_) | Call::Mkdir(_) | Call::Unlink(_) | Call::Rmdir(_) => true,
        Call::Write(..) | Call::Truncate(..) => true,
        Call::Rename(from, to) => !is_same_path(from, to),
        Call::Read(..) | Call::Dread(..) | Call::Stat(_) | Call::List(_) | Call::Sync => false,
    }
}

// The number of an item that is a call of node 1 above `upto` and changed the tree.
fn change_above(item: &TraceItem, upto: u64) -> Option<u64>
    ensures is { (clients : List Client) (is : List Item) → next_change 1 upto (history_of clients (item.now ∷ is)) ≡ found_before result (next_change 1 upto (history_of clients is)) }
    ensures above { IfSome result (λ number. upto < number) }
{
    match item {
        TraceItem::Call {
            node,
            number,
            call,
            reply,
            ..
        } if *node == 1 && *number > upto && changes(call, reply) => Some(*number),
        _ => None,
    }
}

// That of the first.
fn next_change_above(items: &[TraceItem], upto: u64) -> Option<u64>
    ensures is { (clients : List Client) → result ≡ next_change 1 upto (history_of clients items.now) }
    ensures above { IfSome result (λ number. upto < number) }
{
    for item in items {
        if let Some(number) = change_above(item, upto) {
            return Some(number);
        }
    }
    None
}

// Whether an item is a call of node 1.
fn is_call(item: &TraceItem) -> bool
    ensures { (clients : List Client) (is : List Item) → calls_of 1 (history_of clients (item.now ∷ is)) ≡ (if result then 1 else 0) + calls_of 1 (history_of clients is) }
{
    match item {
        TraceItem::Call { node, .. } => *node == 1,
        _ => false,
    }
}

// How many calls of node 1 there are.
fn count_calls(items: &[TraceItem]) -> u64
    ensures { (clients : List Client) → result ≡ calls_of 1 (history_of clients items.now) }
{
    let mut count = 0;
    for item in items {
        if is_call(item) {
            count += 1;
        }
    }
    count
}

/// Up to which number a loss keeps the calls of node 1, whose journal has those up to `upto`: to one less than the first above that which changed the tree, or all. It goes over the items at
/// most twice, and takes no memory.
pub fn kept_number(items: &[TraceItem], upto: u64) -> u64
    ensures { (clients : List Client) → result ≡ kept_by 1 upto (history_of clients items.now) }
{
    match next_change_above(items, upto) {
        Some(number) => number - 1,
        None => count_calls(items),
    }
}
