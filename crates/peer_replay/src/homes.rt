ghost use Rattle.std.specs.Prelude.{◌≡◌, ◌==◌, ℕ, [], List, if◌then◌else◌, map, OnOk, IfOk, Some};
ghost use Rattle.std.specs.List.Sorted.{IsStrictlyIncreasing};
ghost use Rattle.std.specs.List.{last_or};
ghost use Rattle.drafts.specs.declared.change.Written.{Written as WrittenValue};
ghost use Rattle.log_layout.specs.Live.{is_cancelled, live_entry};
ghost use Rattle.journal_scan.specs.Said.{says_at};
ghost use Rattle.revoke_table.specs.Revokes.{all_revoked, is_cancelled as is_cancelled_by};
ghost use Rattle.peer_replay.specs.Plans.{AreByBlock, counted, entry_at, put_home, revokes_onto};
ghost use Rattle.journal_scan.specs.Said.{logged};

use drafts::{Transaction, Written};
use journal_scan::Sequenced;
use no_memory::NoMemory;
use revoke_table::{Revokes, later_revokes_cancel};
use std::alloc::Global;
use std::collections::{BTreeMap, VecDeque};
// Adds the revokes of one transaction.
fn add_revokes(table: &mut Revokes, sequence: u64, blocks: &[u64]) -> Result<(), NoMemory>
    ensures { OnOk result ((rs : List (ℕ × ℕ)) → table.old ≡ all_revoked rs → table.new ≡ all_revoked (revokes_onto sequence blocks.now rs)) }
{
    for block in blocks {
        table.add(*block, sequence)?;
    }
    Ok(())
}

// Which entries of these transactions are cancelled.
fn gather_revokes(alloc: Global, transactions: &[Sequenced]) -> Result<Revokes, NoMemory>
    ensures { IfOk result (λ table. (b s : ℕ) → is_cancelled_by table b s ≡ is_cancelled (map says_at transactions.now) b s) }
{
    later_revokes_cancel();
    let mut table = Revokes::new(alloc);
    for t in transactions {
        add_revokes(&mut table, t.sequence, &t.transaction.revokes)?;
    }
    Ok(table)
}

// Puts an entry over what is there of its block.
fn put_entry(home: &mut BTreeMap<u64, Written>, written: Written) -> Result<(), NoMemory>
    requires by_block { AreByBlock home.old }
    ensures by_block { OnOk result (AreByBlock home.new) }
    ensures over { OnOk result ((b : ℕ) → entry_at home.new b ≡ (if written.block == b then Some (logged written) else entry_at home.old b)) }
{
    let block = written.block;
    home.insert(block, written)?;
    Ok(())
}

// Puts the entries of one transaction that count over those that are there.
fn put_live(
    home: &mut BTreeMap<u64, Written>,
    revokes: &Revokes,
    sequence: u64,
    blocks: Vec<Written>,
) -> Result<(), NoMemory>
    requires by_block { AreByBlock home.old }
    ensures by_block { OnOk result (AreByBlock home.new) }
    ensures over { OnOk result ((b : ℕ) → entry_at home.new b ≡ last_or (entry_at home.old b) (counted revokes.now sequence b blocks.items)) }
{
    let mut left = VecDeque::from_vec(blocks);
    while let Some(written) = left.pop_front() {
        if !revokes.cancels(written.block, sequence) {
            put_entry(home, written)?;
        }
    }
    Ok(())
}

/// The live entries of these transactions, by rising block. It looks at each entry once, and at its block in a table and a
/// tree.
pub(crate) fn gather_home(
    alloc: Global,
    transactions: Vec<Sequenced>,
) -> Result<Vec<Written>, NoMemory>
    ensures rising { IfOk result (λ home. IsStrictlyIncreasing (map (λ (w : WrittenValue). w.block) home.items)) }
    ensures live { IfOk result (λ home. (b : ℕ) → put_home home.items b ≡ live_entry (map says_at transactions.items) b) }
{
    let revokes = gather_revokes(alloc, &transactions)?;
    let mut home = BTreeMap::new(alloc);
    let mut left = VecDeque::from_vec(transactions);
    while let Some(t) = left.pop_front() {
        let Sequenced {
            sequence,
            transaction,
        } = t;
        let Transaction { blocks, revokes: _ } = transaction;
        put_live(&mut home, &revokes, sequence, blocks)?;
    }
    into_blocks(alloc, home)
}

// The entries, by rising block.
fn into_blocks(alloc: Global, home: BTreeMap<u64, Written>) -> Result<Vec<Written>, NoMemory>
    requires by_block { AreByBlock home }
    ensures rising { IfOk result (λ blocks. IsStrictlyIncreasing (map (λ (w : WrittenValue). w.block) blocks.items)) }
    ensures same { IfOk result (λ blocks. (b : ℕ) → put_home blocks.items b ≡ entry_at home b) }
{
    let mut left = home;
    let mut blocks = Vec::with_capacity(alloc, left.len())?;
    while let Some((_, written)) = left.pop_first() {
        blocks.push(written)?;
    }
    Ok(blocks)
}
