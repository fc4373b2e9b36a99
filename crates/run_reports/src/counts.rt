ghost use Rattle.std.specs.Prelude.{◌≡◌, ◌+◌, ◌<◌, ◌^◌, ◌++◌, ◌∷◌, List, IfOk, count_by, if◌then◌else◌, false};
ghost use Rattle.cluster_history.specs.History.{lost_count};
ghost use Rattle.run_rules.specs.Follows.{history_of};
ghost use Rattle.trace_text.specs.declared.item.TraceItem.{TraceItem as Item};
ghost use Rattle.script_lang.specs.declared.script.Client.{Client};
ghost use Rattle.run_reports.specs.Dirty.{dirty_by as left_by, dirty_told, is_left_dirty};
ghost use Rattle.run_reports.specs.Losses.{HasLeast};
ghost use Rattle.run_reports.specs.Out.{is_call as counts_as_call, is_commit as counts_as_commit, is_stop as counts_as_stop, counts_text, counts_line};

use crate::status::Status;
use crate::status_text::append_one;
use no_memory::NoMemory;
use script_lang::Script;
use text_words::append;
use trace_text::TraceItem;

/// What the items of a run come to.
#[derive(Clone, Copy, Debug)]
struct Tally {
    calls: u64,
    lost: u64,
    commits: u64,
    crashes: u64,
    dirty: u64,
}

fn append_tally(text: &mut Vec<u8>, tally: Tally) -> Result<(), NoMemory>
    ensures { IfOk result (λ _. text.new.items ≡ text.old.items ++ counts_text tally.calls tally.lost tally.commits tally.crashes tally.dirty) }
{
    append_one(text, b"calls", tally.calls)?;
    append_one(text, b" lost", tally.lost)?;
    append_one(text, b" commits", tally.commits)?;
    append_one(text, b" crashes", tally.crashes)?;
    append_one(text, b" dirty", tally.dirty)
}

fn is_call(item: &TraceItem) -> bool
    ensures { result ≡ counts_as_call item.now }
{
    matches!(item, TraceItem::Call { .. })
}

fn is_commit(item: &TraceItem) -> bool
    ensures { result ≡ counts_as_commit item.now }
{
    matches!(item, TraceItem::Commit { .. })
}

fn is_stop(item: &TraceItem) -> bool
    ensures { result ≡ counts_as_stop item.now }
{
    matches!(item, TraceItem::Crash { .. } | TraceItem::Withdraw { .. })
}

// How many calls, commits and stops of nodes there are among the items.
fn counts_of(items: &[TraceItem]) -> (u64, u64, u64)
    ensures calls { result.0 ≡ count_by counts_as_call items.now }
    ensures commits { result.1 ≡ count_by counts_as_commit items.now }
    ensures stops { result.2 ≡ count_by counts_as_stop items.now }
{
    let mut calls = 0u64;
    let mut commits = 0u64;
    let mut stops = 0u64;
    for item in items {
        calls += u64::from(is_call(item));
        commits += u64::from(is_commit(item));
        stops += u64::from(is_stop(item));
    }
    (calls, commits, stops)
}

// How many numbers there are for nodes.
const NODES: usize = 256;

// Whether the item is a call that a loss behind it takes out. The table has what such losses keep.
fn is_lost(table: &[u64; NODES], item: &TraceItem) -> bool
    ensures { (clients : List Client) (rest : List Item) → HasLeast table.now rest
        → lost_count (history_of clients (item.now ∷ rest)) ≡ (if result then 1 else 0) + lost_count (history_of clients rest) }
{
    match item {
        TraceItem::Call { node, number, .. } => table[*node as usize] < *number,
        _ => false,
    }
}

// Puts what the item keeps, if it is a loss, into the table.
fn note_loss(table: &mut [u64; NODES], item: &TraceItem)
    ensures { (rest : List Item) → HasLeast table.old rest → HasLeast table.new (item.now ∷ rest) }
{
    if let TraceItem::Lost { node, kept } = item {
        if *kept < table[*node as usize] {
            table[*node as usize] = *kept;
        }
    }
}

// How many calls losses take out: one pass from the end, with the least number that is kept so far of each node.
fn count_lost(items: &[TraceItem]) -> u64
    ensures { (clients : List Client) → result ≡ lost_count (history_of clients items.now) }
{
    let mut table = [u64::MAX; NODES];
    let mut lost = 0;
    let mut place = items.len();
    while place > 0 {
        place -= 1;
        let item = &items[place];
        lost += u64::from(is_lost(&table, item));
        note_loss(&mut table, item);
    }
    lost
}

// Whether the node's journal is left dirty behind this item.
fn is_dirty_behind(node: u8, dirty: bool, item: &TraceItem) -> bool
    ensures { (rest : List Item) → is_left_dirty node dirty (item.now ∷ rest) ≡ is_left_dirty node result rest }
{
    match item {
        TraceItem::Commit { node: of, .. } => dirty || *of == node,
        TraceItem::WriteClean { node: of, .. } => dirty && *of != node,
        TraceItem::Recovered { node: of, .. } => dirty && *of != node,
        _ => dirty,
    }
}

// Whether the items leave the node's journal dirty.
fn is_dirty(node: u8, items: &[TraceItem]) -> bool
    ensures { result ≡ is_left_dirty node false items.now }
{
    let mut dirty = false;
    for item in items {
        dirty = is_dirty_behind(node, dirty, item);
    }
    dirty
}

// How many nodes of the script have a journal that the items leave dirty: a pass over the items for each node.
fn dirty_by(script: &Script, items: &[TraceItem]) -> u64
    ensures { result ≡ left_by script.now items.now }
{
    let mut count = 0;
    for before in 0..script.nodes {
        count += u64::from(is_dirty(before + 1, items));
    }
    count
}

/// How many journals are told as not clean, where the image has so many.
pub(crate) fn dirty_to_tell(script: &Script, items: &[TraceItem], told: &Status, dirty: u64) -> u64
    ensures { result ≡ dirty_told script.now items.now told.now dirty }
{
    match told {
        Status::Done => dirty,
        _ => dirty_by(script, items),
    }
}

/// Puts the line of the counts at the end of a text.
pub(crate) fn append_counts(
    text: &mut Vec<u8>,
    script: &Script,
    items: &[TraceItem],
    dirty: u64,
) -> Result<(), NoMemory>
    ensures { IfOk result (λ _. text.new.items ≡ text.old.items ++ counts_line script.now items.now dirty) }
{
    let (calls, commits, crashes) = counts_of(items);
    let tally = Tally {
        calls,
        lost: count_lost(items),
        commits,
        crashes,
        dirty,
    };
    append_tally(text, tally)?;
    append(text, b"\n")
}
