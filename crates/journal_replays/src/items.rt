// The items of a replay, put where there is room for them.
ghost use Rattle.std.specs.Prelude.{List, ◌≡◌, ◌*◌, ◌+◌, ◌≤◌, ◌++◌, OnOk, drop, length, take};
ghost use Rattle.std.specs.Vec.{vec_capacity, vec_len};
ghost use Rattle.shared_disk.specs.Disk.{Operation};
ghost use Rattle.disk_turns.specs.Turns.{AreBrought, writes_of};
ghost use Rattle.journal_replays.specs.Items.{items_of};

use disk_items::put_in_room;
use disk_turns::first_turn;
use drafts::Written;
use no_memory::NoMemory;
use trace_text::TraceItem;

/// Room for the items of a replay that puts so many blocks home: at most two for each of these and for the header, and one more.
pub(crate) fn make_room(items: &mut Vec<TraceItem>, home: usize) -> Result<(), NoMemory>
    ensures items { items.new.items ≡ items.old.items }
    ensures room { OnOk result (vec_len items.new + (2 * home + 3) ≤ vec_capacity items.new) }
{
    if home >= 1usize << 62 {
        return Err(NoMemory);
    }
    items.reserve(2 * home + 3)?;
    Ok(())
}

// Puts the items of these writes.
fn put_writes(items: &mut Vec<TraceItem>, node: u8, blocks: &[Written])
    requires room { vec_len items.old + length blocks.now ≤ vec_capacity items.old }
    ensures put { items.new.items ≡ items.old.items ++ items_of (writes_of node blocks.now) }
    ensures len { vec_len items.new ≡ vec_len items.old + length blocks.now }
    ensures capacity { vec_capacity items.old ≤ vec_capacity items.new }
{
    for written in blocks {
        put_in_room(
            items,
            TraceItem::WriteReplay {
                node,
                block: written.block,
            },
        );
    }
}

/// Puts the items of the turns in which these blocks were brought to the disk.
pub(crate) fn put_turns(items: &mut Vec<TraceItem>, node: u8, blocks: &[Written])
    requires room { vec_len items.old + 2 * length blocks.now ≤ vec_capacity items.old }
    ensures put { (operations : List Operation) → AreBrought node blocks.now operations → items.new.items ≡ items.old.items ++ items_of operations }
    ensures len { vec_len items.new ≤ vec_len items.old + 2 * length blocks.now }
    ensures capacity { vec_capacity items.old ≤ vec_capacity items.new }
{
    let mut rest = blocks;
    while !rest.is_empty() {
        let (some, later) = first_turn(rest);
        put_writes(items, node, some);
        put_in_room(items, TraceItem::Barrier { node });
        rest = later;
    }
}

/// Puts the items of the turns in which the first of these blocks were brought to the disk, and of as many writes behind them.
pub(crate) fn put_stopped(
    items: &mut Vec<TraceItem>,
    node: u8,
    blocks: &[Written],
    on_disk: usize,
    in_flight: usize,
)
    requires within { on_disk + in_flight ≤ length blocks.now }
    requires room { vec_len items.old + 2 * length blocks.now ≤ vec_capacity items.old }
    ensures put { (operations : List Operation) → AreBrought node (take on_disk blocks.now) operations
        → items.new.items ≡ items.old.items ++ (items_of operations ++ items_of (writes_of node (take in_flight (drop on_disk blocks.now)))) }
{
    let (done, behind) = blocks.split_at(on_disk);
    let (wrote, _) = behind.split_at(in_flight);
    put_turns(items, node, done);
    put_writes(items, node, wrote);
}
