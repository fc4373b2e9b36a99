// Where a node crashes at a write, and how its writes in flight are settled then.
ghost use Rattle.std.specs.Prelude.{◌≡◌, ◌<◌, List, Some};
ghost use Rattle.std.specs.List.{AllByRecursion};
ghost use Rattle.script_lang.specs.declared.script.Armed.{Armed as Waiting};
ghost use Rattle.trace_text.specs.declared.item.TraceItem.{TraceItem as Item};
ghost use Rattle.logged_calls.specs.Nodes.{Awaits, crash_of, writes_in};
ghost use Rattle.logged_scripts.specs.Crashes.{fate_at, fate_of, first_crash, left_until, settle_of, sooner};

use script_lang::{Armed, Fate};
use shared_disk::Settle;

// The lesser of a write that may be there and another.
fn earlier(first: Option<u64>, write: u64) -> u64
    ensures { Some result ≡ sooner first (Some write) }
{
    match first {
        Some(other) => other.min(write),
        None => write,
    }
}

// The write of the first crash of these.
fn first_write(armed: &[Armed]) -> Option<u64>
    ensures { result ≡ first_crash armed.now }
{
    let mut first = None;
    for crash in armed {
        first = Some(earlier(first, crash.write));
    }
    first
}

/// How many writes a node has left until the first of these crashes, that one among them, where it has made so many and has come to none of them; none is to come where this is none. It is what `begin_node`
/// of `logged_node` asks for.
pub fn writes_left(armed: &[Armed], made: u64) -> Option<u64>
    requires before { AllByRecursion (λ (a : Waiting). made < a.write) armed.now }
    ensures left { result ≡ left_until (first_crash armed.now) made }
    ensures awaits { Awaits result }
    ensures crash { (items : List Item) → writes_in items ≡ made → crash_of result items ≡ first_crash armed.now }
{
    match first_write(armed) {
        Some(write) => Some(write - made),
        None => None,
    }
}

// How a fence settles what is in flight, by the fate of a write.
fn settle_as(fate: Fate) -> Settle
    ensures { result ≡ settle_of fate }
{
    match fate {
        Fate::Old => Settle::Old,
        Fate::New => Settle::New,
        Fate::Torn(bytes) => Settle::Torn(bytes),
    }
}

// By the first crash that is to come at this write.
fn settle_at(armed: &[Armed], write: u64) -> Settle
    ensures { result ≡ fate_at armed.now write }
{
    for crash in armed {
        if crash.write == write {
            return settle_as(crash.fate);
        }
    }
    Settle::Old
}

/// How a fence settles what is in flight of a node behind the first of these crashes; as it was before, where none is to come. Costs two passes over them.
pub fn settle_first(armed: &[Armed]) -> Settle
    ensures { result ≡ fate_of armed.now (first_crash armed.now) }
{
    match first_write(armed) {
        Some(write) => settle_at(armed, write),
        None => Settle::Old,
    }
}
