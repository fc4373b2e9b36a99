ghost use Rattle.std.specs.Prelude.{◌≡◌, ◌↔◌, ◌⊎◌, ◌+◌, ◌*◌, ◌/◌, ◌%◌, ◌==◌, ◌<◌, ◌≤◌, ℕ, [], ◌∷◌, Some, None, IfOk, OnOk, OnErr, IsErrOf, IsTrue, true, false, length, drop, map, nat_lt, unwrap_or, if◌then◌else◌};
ghost use Rattle.std.specs.List.{list_any};
ghost use Rattle.fault_counts.specs.Causes.{raised_once};
ghost use Rattle.shared_disk.specs.Disk.{Write, Barrier, Fence, IsIdle, with_flight, written, IsOutcome, Gains, read_gives, flight_to, after_write, after_barrier, after_fence, after_admit};
ghost use Rattle.shared_disk.specs.Causes.{MayFail};
ghost use Rattle.shared_disk.specs.Blocks.{block_in};
ghost use Rattle.shared_disk.specs.Nodes.{AreNodes, disk_of, faults_of, flights_of, fresh, with_flights, with_fence};
ghost use Rattle.shared_disk.specs.Operations.{IsKept, SameRoom, list_told, with_operation};
ghost use Rattle.shared_disk.specs.Outcomes.{became, AreOfSize};
ghost use Rattle.shared_disk.specs.Memory.{memory_state, fence_makes, answer, counted, CountsCall, TellsTheSame};

use crate::nodes::Nodes;
use crate::operations::{Operations, no_operations, note_barrier, note_fence, note_write};
use crate::outcomes::{Outcome, put_blocks, settle_blocks};
use crate::{DiskError, Settle, SharedDisk};
use fault_counts::raised;
use no_memory::NoMemory;
use std::marker::Model;

/// A disk in memory, which tells its state. Its listed calls fail, counted from 1 over all nodes.
/// All memory is taken when it is made. A read costs a binary search and one copy, a write that and
/// a move of the places past its own, a barrier or a fence one copy per write in flight, and two
/// where the list of operations is told; the search for a call among those that fail comes to each.
#[derive(Drop)]
pub struct MemDisk {
    nodes: Nodes,
    bytes: Vec<u8>,
    calls: u64,
    fails: Vec<u64>,
    outcomes: Vec<Outcome>,
    settled: usize,
    operations: Operations,
}

impl Model for MemDisk {
    ghost use Rattle.std.specs.Prelude.{◌≡◌, ◌*◌, ◌≤◌, ◌/◌, length, drop};
    ghost use Rattle.shared_disk.specs.Memory.{MemoryDisk};
    ghost use Rattle.shared_disk.specs.Operations.{IsKept, list_told};
    ghost use Rattle.shared_disk.specs.Outcomes.{AreOfSize};
    ghost use Rattle.shared_disk.specs.Nodes.{AreNodes};

    ghost Value = { MemoryDisk };

    ghost view = { λ d. record {
      nodes = d.nodes;
      bytes = d.bytes.items;
      calls = d.calls;
      fails = d.fails.items;
      outcomes = drop d.settled d.outcomes.items;
      recorded = d.operations.limit;
      list = list_told d.operations;
    } };

    ghost invariant = { λ d. (d.nodes.count ≡ length d.bytes.items / d.nodes.size)
        × (d.nodes.count * d.nodes.size ≡ length d.bytes.items)
        × (d.settled ≤ length d.outcomes.items)
        × AreOfSize d.nodes.size (drop d.settled d.outcomes.items)
        × IsKept d.operations
        × (d.operations.size ≡ d.nodes.size) };
}

// Counts a call, and answers whether it fails.
fn next_call(calls: &mut u64, fails: &[u64]) -> bool
    ensures value { result ≡ list_any (λ call. call == raised_once calls.old) fails.now }
    ensures calls { calls.new ≡ raised_once calls.old }
{
    *calls = raised(*calls);
    let call = *calls;
    fails.iter().any(|n| *n == call)
}

// Copies a block of the row.
fn copy_block(row: &[u8], block: u64, into: &mut [u8])
    requires { block < length row.now / length into.old }
    ensures { into.new ≡ block_in (length into.old) row.now block }
{
    let from = block as usize * into.len();
    into.copy_from_slice(&row[from..from + into.len()]);
}

// Copies what the node has in flight to the block, else the block of the row.
fn copy_newest(nodes: &Nodes, row: &[u8], node: u8, block: u64, into: &mut [u8])
    requires node { node ≤ 8 }
    requires size { length into.old ≡ nodes.now.size }
    requires within { block < length row.now / length into.old }
    ensures { into.new ≡ unwrap_or (flight_to (flights_of nodes.now.flights node) block) (block_in nodes.now.size row.now block) }
{
    if !nodes.copy(node, block, into) {
        copy_block(row, block, into);
    }
}

// Settles the node's writes in flight in the row, adds the fence to the list of operations, and
// answers how many writes there were.
fn settle_row(
    nodes: &Nodes,
    node: u8,
    row: &mut [u8],
    operations: &mut Operations,
    outcomes: &[Outcome],
    order: Settle,
) -> usize
    requires node { node ≤ 8 }
    requires row { nodes.now.count ≡ length row.old / nodes.now.size }
    requires kept { IsKept operations.old }
    requires size { operations.old.size ≡ nodes.now.size }
    requires outcomes { AreOfSize nodes.now.size outcomes.now }
    ensures count { result ≡ length (flights_of nodes.now.flights node) }
    ensures few { result ≤ 512 }
    ensures blocks { (k : ℕ) → block_in nodes.now.size row.new k ≡ written (block_in nodes.now.size row.old) (became order outcomes.now (block_in nodes.now.size row.old) (flights_of nodes.now.flights node)) k }
    ensures told { list_told operations.new ≡ with_operation operations.old.limit (list_told operations.old) (Fence node (became order outcomes.now (block_in nodes.now.size row.old) (flights_of nodes.now.flights node))) }
    ensures room { SameRoom operations.old operations.new }
    ensures kept { IsKept operations.new }
    ensures outcome { IsOutcome (disk_of true (block_in nodes.now.size row.old) nodes.now) node (became order outcomes.now (block_in nodes.now.size row.old) (flights_of nodes.now.flights node)) }
{
    let size = nodes.block_size() as usize;
    let (places, bytes) = nodes.in_flight(node);
    settle_blocks(row, size, places, bytes, outcomes, order);
    note_fence(operations, node, row, size, places);
    places.len()
}

impl MemDisk {
    /// A disk of these bytes, block by block, with nothing in flight and nobody fenced. The writes in
    /// flight at each fence, by rising block, take the next outcomes. The list of operations is told
    /// while it has fewer than `recorded` entries, where a fence is one and one more for each write
    /// that it settles.
    pub fn new(
        block_size: u32,
        bytes: Vec<u8>,
        fails: Vec<u64>,
        outcomes: Vec<Outcome>,
        recorded: u32,
    ) -> Result<MemDisk, NoMemory>
        requires size { 1 ≤ block_size }
        requires whole { length bytes.items % block_size ≡ 0 }
        requires outcomes { AreOfSize block_size outcomes.items }
        ensures value { IfOk result (λ d. d ≡ record {
          nodes = fresh (length bytes.items / block_size) block_size;
          bytes = bytes.items;
          calls = 0;
          fails = fails.items;
          outcomes = outcomes.items;
          recorded = recorded;
          list = (if nat_lt 0 recorded then Some [] else None);
        }) }
        ensures idle { IfOk result (λ d. IsIdle (memory_state d)) }
    {
        let alloc = *bytes.allocator();
        let count = (bytes.len() / block_size as usize) as u64;
        Ok(MemDisk {
            nodes: Nodes::new(alloc, count, block_size)?,
            bytes,
            calls: 0,
            fails,
            outcomes,
            settled: 0,
            operations: no_operations(alloc, recorded, block_size)?,
        })
    }

    // Counts a call for a node, and answers whether it is fenced or the call fails.
    fn begin(&mut self, node: u8) -> Result<(), DiskError>
        requires { node ≤ 8 }
        ensures ok { OnOk result (self.new ≡ counted self.old) }
        ensures err { OnErr result (TellsTheSame self.old self.new) }
        ensures fenced { IsErrOf result DiskError.Fenced ↔ IsTrue ((memory_state self.old).is_fenced node) }
        ensures cause { MayFail node (faults_of self.old.nodes) (faults_of self.new.nodes) result }
        ensures answer { result ≡ answer self.old node }
        ensures call { CountsCall self.old self.new }
        ensures sound { AreNodes self.old.nodes }
    {
        let fails = next_call(&mut self.calls, &self.fails);
        if self.nodes.is_fenced(node) {
            return Err(DiskError::Fenced);
        }
        if fails {
            return Err(self.nodes.fail(node));
        }
        Ok(())
    }

    // Puts a write in flight.
    fn put_write(&mut self, node: u8, block: u64, bytes: &[u8])
        requires node { node ≤ 8 }
        requires block { block < self.old.nodes.count }
        requires size { length bytes.now ≡ self.old.nodes.size }
        requires free { flight_to (flights_of self.old.nodes.flights node) block ≡ None }
        requires room { length (flights_of self.old.nodes.flights node) < 512 }
        ensures { self.new ≡ record self.old {
          nodes = with_flights self.old.nodes node (with_flight (flights_of self.old.nodes.flights node) (record { block = block; bytes = bytes.now }));
          list = with_operation self.old.recorded self.old.list (Write node block bytes.now);
        } }
    {
        self.nodes.put(node, block, bytes);
        note_write(&mut self.operations, node, block, bytes);
    }

    // Puts the node's writes in flight to their places.
    fn flush(&mut self, node: u8)
        requires { node ≤ 8 }
        ensures blocks { (k : ℕ) → block_in self.old.nodes.size self.new.bytes k ≡ written (block_in self.old.nodes.size self.old.bytes) (flights_of self.old.nodes.flights node) k }
        ensures value { self.new ≡ record self.old {
          nodes = with_flights self.old.nodes node [];
          bytes = self.new.bytes;
          list = with_operation self.old.recorded self.old.list (Barrier node);
        } }
    {
        let size = self.nodes.block_size() as usize;
        let (places, bytes) = self.nodes.in_flight(node);
        put_blocks(&mut self.bytes, size, places, bytes);
        note_barrier(&mut self.operations, node);
        self.nodes.clear(node);
    }

    // Settles the node's writes in flight, and fences it.
    fn settle(&mut self, node: u8, order: Settle)
        requires node { node ≤ 8 }
        requires not_zero { 1 ≤ node }
        ensures outcome { IsOutcome (memory_state self.old) node (fence_makes self.old node order) }
        ensures blocks { (k : ℕ) → block_in self.old.nodes.size self.new.bytes k ≡ written (block_in self.old.nodes.size self.old.bytes) (fence_makes self.old node order) k }
        ensures value { self.new ≡ record self.old {
          nodes = with_fence (with_flights self.old.nodes node []) node true;
          bytes = self.new.bytes;
          outcomes = drop (length (flights_of self.old.nodes.flights node)) self.old.outcomes;
          list = with_operation self.old.recorded self.old.list (Fence node (fence_makes self.old node order));
        } }
    {
        let left = &self.outcomes[self.settled..];
        let count = settle_row(
            &self.nodes,
            node,
            &mut self.bytes,
            &mut self.operations,
            left,
            order,
        );
        self.settled = (self.settled + count).min(self.outcomes.len());
        self.nodes.clear(node);
        self.nodes.set_fenced(node, true);
    }

    // Ends the node's fence.
    fn open_again(&mut self, node: u8)
        requires node { node ≤ 8 }
        requires not_zero { 1 ≤ node }
        ensures { self.new ≡ record self.old { nodes = with_fence self.old.nodes node false } }
    {
        self.nodes.set_fenced(node, false);
    }

    /// The blocks on the disk one after another, without the writes in flight. No copy is made.
    pub fn into_bytes(self) -> Vec<u8>
        ensures blocks { (k : ℕ) → block_in self.nodes.size result.items k ≡ (memory_state self).block_at k }
        ensures len { length result.items ≡ self.nodes.count * self.nodes.size }
    {
        self.bytes
    }
}

impl SharedDisk for MemDisk {
    ghost state = { memory_state };

    ghost list = { λ d. d.list };

    ghost faults = { λ d node. faults_of d.nodes node };

    fn blocks(&self) -> u64 {
        self.nodes.blocks()
    }

    fn block_size(&self) -> u32 {
        self.nodes.block_size()
    }

    fn read(&mut self, node: u8, block: u64, into: &mut [u8]) -> Result<(), DiskError>
        requires node { node ≤ 8 }
        requires block { block < (memory_state self.old).count }
        requires size { length into.old ≡ (memory_state self.old).size }
        ensures bytes { OnOk result (IsTrue (memory_state self.old).tells → into.new ≡ read_gives (memory_state self.old) node block) }
        ensures same { memory_state self.new ≡ memory_state self.old }
        ensures list { self.new.list ≡ self.old.list }
        ensures fenced { IsErrOf result DiskError.Fenced ↔ IsTrue ((memory_state self.old).is_fenced node) }
        ensures cause { MayFail node (faults_of self.old.nodes) (faults_of self.new.nodes) result }
        ensures answer { result ≡ answer self.old node }
        ensures call { CountsCall self.old self.new }
        ensures outcomes { self.new.outcomes ≡ self.old.outcomes }
    {
        self.begin(node)?;
        copy_newest(&self.nodes, &self.bytes, node, block, into);
        Ok(())
    }

    fn write(&mut self, node: u8, block: u64, bytes: &[u8]) -> Result<(), DiskError>
        requires node { node ≤ 8 }
        requires block { block < (memory_state self.old).count }
        requires size { length bytes.now ≡ (memory_state self.old).size }
        requires free { flight_to ((memory_state self.old).in_flight node) block ≡ None }
        requires room { length ((memory_state self.old).in_flight node) < 512 }
        ensures ok { OnOk result ((memory_state self.new ≡ after_write (memory_state self.old) node block bytes.now)
            × Gains self.old.list self.new.list (Write node block bytes.now ∷ [])) }
        ensures err { OnErr result (((memory_state self.new ≡ memory_state self.old) × (self.new.list ≡ self.old.list))
            ⊎ ((memory_state self.new ≡ after_write (memory_state self.old) node block bytes.now)
            × Gains self.old.list self.new.list (Write node block bytes.now ∷ []))) }
        ensures fenced { IsErrOf result DiskError.Fenced ↔ IsTrue ((memory_state self.old).is_fenced node) }
        ensures unchanged { IsErrOf result DiskError.Fenced → (memory_state self.new ≡ memory_state self.old) × (self.new.list ≡ self.old.list) }
        ensures cause { MayFail node (faults_of self.old.nodes) (faults_of self.new.nodes) result }
        ensures answer { result ≡ answer self.old node }
        ensures call { CountsCall self.old self.new }
        ensures outcomes { self.new.outcomes ≡ self.old.outcomes }
        ensures list { OnOk result (self.new.list ≡ with_operation self.old.recorded self.old.list (Write node block bytes.now)) }
        ensures same { OnErr result ((memory_state self.new ≡ memory_state self.old) × (self.new.list ≡ self.old.list)) }
    {
        self.begin(node)?;
        self.put_write(node, block, bytes);
        Ok(())
    }

    fn barrier(&mut self, node: u8) -> Result<(), DiskError>
        requires node { node ≤ 8 }
        ensures ok { OnOk result ((memory_state self.new ≡ after_barrier (memory_state self.old) node)
            × Gains self.old.list self.new.list (Barrier node ∷ [])) }
        ensures err { OnErr result ((memory_state self.new ≡ memory_state self.old) × (self.new.list ≡ self.old.list)) }
        ensures fenced { IsErrOf result DiskError.Fenced ↔ IsTrue ((memory_state self.old).is_fenced node) }
        ensures cause { MayFail node (faults_of self.old.nodes) (faults_of self.new.nodes) result }
        ensures answer { result ≡ answer self.old node }
        ensures call { CountsCall self.old self.new }
        ensures outcomes { self.new.outcomes ≡ self.old.outcomes }
        ensures list { OnOk result (self.new.list ≡ with_operation self.old.recorded self.old.list (Barrier node)) }
    {
        self.begin(node)?;
        self.flush(node);
        Ok(())
    }

    fn fence(&mut self, node: u8, order: Settle) -> Result<(), DiskError>
        requires node { node ≤ 8 }
        requires not_zero { 1 ≤ node }
        ensures ok { OnOk result ((became : _) × IsOutcome (memory_state self.old) node became
            × (memory_state self.new ≡ after_fence (memory_state self.old) node became)
            × Gains self.old.list self.new.list (Fence node became ∷ [])) }
        ensures err { OnErr result ((memory_state self.new ≡ memory_state self.old) × (self.new.list ≡ self.old.list)) }
        ensures never { IsErrOf result DiskError.Fenced → ⊥ }
        ensures cause { MayFail 0 (faults_of self.old.nodes) (faults_of self.new.nodes) result }
        ensures answer { result ≡ answer self.old 0 }
        ensures call { CountsCall self.old self.new }
        ensures outcomes { OnOk result (self.new.outcomes ≡ drop (length (flights_of self.old.nodes.flights node)) self.old.outcomes) }
        ensures same_outcomes { OnErr result (self.new.outcomes ≡ self.old.outcomes) }
        ensures settled { OnOk result (memory_state self.new ≡ after_fence (memory_state self.old) node (fence_makes self.old node order)) }
        ensures list { OnOk result (self.new.list ≡ with_operation self.old.recorded self.old.list (Fence node (fence_makes self.old node order))) }
    {
        self.begin(0)?;
        self.settle(node, order);
        Ok(())
    }

    fn admit(&mut self, node: u8) -> Result<(), DiskError>
        requires node { node ≤ 8 }
        requires not_zero { 1 ≤ node }
        ensures ok { OnOk result (memory_state self.new ≡ after_admit (memory_state self.old) node) }
        ensures err { OnErr result (memory_state self.new ≡ memory_state self.old) }
        ensures list { self.new.list ≡ self.old.list }
        ensures never { IsErrOf result DiskError.Fenced → ⊥ }
        ensures cause { MayFail 0 (faults_of self.old.nodes) (faults_of self.new.nodes) result }
        ensures answer { result ≡ answer self.old 0 }
        ensures call { CountsCall self.old self.new }
        ensures outcomes { self.new.outcomes ≡ self.old.outcomes }
    {
        self.begin(0)?;
        self.open_again(node);
        Ok(())
    }

    fn faults(&self, node: u8) -> u64 {
        self.nodes.faults(node)
    }
}
