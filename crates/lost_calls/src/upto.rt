// The number of the last call that a journal has.
ghost use Rattle.std.specs.Prelude.{◌≡◌, ◌≤◌, false, List, ◌∷◌, take, length};
ghost use Rattle.run_rules.specs.Lives.{DiskHeads, items_of, last_number as last_number_in, named as named_in, to_its_end, unnamed as unnamed_in, upto_of as upto_in};
ghost use Rattle.trace_text.specs.declared.item.TraceItem.{TraceItem as Item};
ghost use Rattle.lost_calls.specs.Heads.{IsLeftBy, accepted, first_life};
ghost use Rattle.lost_calls.specs.Items.{found_before, ends_life, tally_in};

use crate::heads::LeftHead;
use trace_text::TraceItem;

// Whether node 1 stops here.
fn is_stop(item: &TraceItem) -> bool
    ensures { result ≡ ends_life item.now }
{
    match item {
        TraceItem::Crash { node } => *node == 1,
        TraceItem::Withdraw { node, .. } => *node == 1,
        _ => false,
    }
}

// How many items stand before node 1 stops.
fn life_length(items: &[TraceItem]) -> usize
    ensures life { take result items.now ≡ to_its_end 1 items.now }
    ensures within { result ≤ length items.now }
{
    let mut place = 0;
    for item in items {
        if is_stop(item) {
            return place;
        }
        place += 1;
    }
    place
}

// The number that an item tells of a head, if it is the head's.
fn number_of_head(item: &TraceItem, head: &LeftHead) -> Option<u64>
    ensures { (is : List Item) → named_in 1 (accepted head.now) (item.now ∷ is) ≡ found_before result (named_in 1 (accepted head.now) is) }
{
    match item {
        TraceItem::WriteHead {
            node,
            block,
            sequence,
            upto,
        } if *node == 1 && *block == head.block && *sequence == head.sequence => Some(*upto),
        TraceItem::WriteClean {
            node,
            block,
            sequence,
            upto,
        } if *node == 1 && *block == head.block && *sequence == head.sequence => Some(*upto),
        _ => None,
    }
}

// The number that the items tell of a head, if one tells of it.
fn named(items: &[TraceItem], head: &LeftHead) -> Option<u64>
    ensures { result ≡ named_in 1 (accepted head.now) items.now }
{
    for item in items {
        if let Some(upto) = number_of_head(item, head) {
            return Some(upto);
        }
    }
    None
}

// The number of node 1's last call, with this item.
fn number_with(now: u64, item: &TraceItem) -> u64
    ensures { (is : List Item) → last_number_in 1 result is ≡ last_number_in 1 now (item.now ∷ is) }
{
    match item {
        TraceItem::Call { node, number, .. } if *node == 1 => *number,
        _ => now,
    }
}

// That in these items; 0 where there is none.
fn last_number(items: &[TraceItem]) -> u64
    ensures { result ≡ last_number_in 1 0 items.now }
{
    let mut now = 0;
    for item in items {
        now = number_with(now, item);
    }
    now
}

// What is known of a head without an item: the number that it has, whether a block of its flush is written, and the number of the last call.
#[derive(Clone, Copy)]
struct Tally {
    upto: u64,
    is_logged: bool,
    last: u64,
}

// With one more item.
fn tally_with(now: Tally, item: &TraceItem) -> Tally
    ensures { (is : List Item) → unnamed_in 1 (tally_in result) is ≡ unnamed_in 1 (tally_in now) (item.now ∷ is) }
{
    match item {
        TraceItem::Call { node, number, .. } if *node == 1 => Tally {
            last: *number,
            ..now
        },
        TraceItem::WriteHead { node, upto, .. } if *node == 1 => Tally {
            upto: *upto,
            is_logged: false,
            ..now
        },
        TraceItem::WriteLog { node, .. } if *node == 1 && !now.is_logged => Tally {
            upto: now.last,
            is_logged: true,
            ..now
        },
        _ => now,
    }
}

// The number of a head without an item, which isn't clean.
fn unnamed(items: &[TraceItem]) -> u64
    ensures { result ≡ unnamed_in 1 (record { upto = 0; is_logged = false; last = 0 }) items.now }
{
    let mut now = Tally {
        upto: 0,
        is_logged: false,
        last: 0,
    };
    for item in items {
        now = tally_with(now, item);
    }
    now.upto
}

/// The number of the last call that the journal of node 1 has, whose one life begins with the first item: the journal's accepted head is this, and it had a head with the sequence `first`
/// where the life's own headers begin. It goes over the items three times, and takes no memory.
pub fn upto_of(items: &[TraceItem], head: &LeftHead, first: u64) -> u64
    requires { 1 ≤ length items.now }
    ensures { (disks : DiskHeads) → IsLeftBy disks items.now head.now first → result ≡ upto_in disks first_life items.now }
{
    let later = &items[1..];
    let life = &later[..life_length(later)];
    if let Some(upto) = named(life, head) {
        return upto;
    }
    if head.sequence <= first {
        return 0;
    }
    if head.is_clean {
        return last_number(items);
    }
    unnamed(life)
}
