ghost use Rattle.std.specs.Prelude.{◌≡◌, ◌<◌, ◌≤◌, [], false, length, slice_index_or, IfOk, None, is_some, unwrap_or};
ghost use Rattle.std.specs.List.{AllByRecursion};
ghost use Rattle.shared_disk.specs.Disk.{flight_to, with_flight};
ghost use Rattle.shared_disk.specs.Places.{flights_at, AreThere};
ghost use Rattle.shared_disk.specs.Nodes.{NodeStates, AreNodes, IsQueue, queued, flights_of, faults_of, fresh, with_flights, with_fence, with_fault};

use crate::DiskError;
use crate::places::{Place, copy_flight, put_flight};
use fault_counts::raised;
use std::alloc::{AllocError, Global};
use std::marker::Model;

/// The writes in flight of one node by rising block, and their bytes one after another as they came. Room for 512 is
/// reserved when it is made, and nobody touches it before the first write.
#[derive(Drop)]
pub struct Queue {
    pub places: Vec<Place>,
    pub bytes: Vec<u8>,
}

fn make_queue(alloc: Global, size: u32) -> Result<Queue, AllocError>
    ensures { IfOk result (λ q. IsQueue size q × (queued size q ≡ [])) }
{
    Ok(Queue {
        places: Vec::with_capacity(alloc, 512)?,
        bytes: Vec::with_capacity(alloc, 512 * size as usize)?,
    })
}

fn make_queues(alloc: Global, size: u32) -> Result<Vec<Queue>, AllocError>
    ensures count { IfOk result (λ v. length v.items ≡ 9) }
    ensures queues { IfOk result (λ v. AllByRecursion (λ q. IsQueue size q × (queued size q ≡ [])) v.items) }
{
    let mut queues = Vec::with_capacity(alloc, 9)?;
    for _ in 0..9usize {
        queues.push(make_queue(alloc, size)?)?;
    }
    Ok(queues)
}

/// What a disk keeps for the nodes 0 to 8. All memory is taken when it is made.
#[derive(Drop)]
pub struct Nodes {
    count: u64,
    size: u32,
    queues: Vec<Queue>,
    fenced: [bool; 9],
    faults: [u64; 9],
}

impl Model for Nodes {
    ghost use Rattle.std.specs.Prelude.{map, ◌≡◌, length};
    ghost use Rattle.std.specs.List.{AllByRecursion};
    ghost use Rattle.shared_disk.specs.Nodes.{NodeStates, AreNodes, IsQueue, queued};

    ghost Value = { NodeStates };

    ghost view = { λ n. record {
      count = n.count;
      size = n.size;
      flights = map (queued n.size) n.queues.items;
      fenced = n.fenced;
      faults = n.faults;
    } };

    ghost invariant = { λ n. AllByRecursion (IsQueue n.size) n.queues.items
        × AreNodes (record { count = n.count; size = n.size; flights = map (queued n.size) n.queues.items; fenced = n.fenced; faults = n.faults }) };
}

impl Nodes {
    pub fn new(alloc: Global, count: u64, size: u32) -> Result<Nodes, AllocError>
        ensures { IfOk result (λ n. n ≡ fresh count size) }
    {
        Ok(Nodes {
            count,
            size,
            queues: make_queues(alloc, size)?,
            fenced: [false; 9],
            faults: [0; 9],
        })
    }

    pub fn blocks(&self) -> u64
        ensures value { result ≡ self.now.count }
        ensures sound { AreNodes self.now }
    {
        self.count
    }

    pub fn block_size(&self) -> u32
        ensures { result ≡ self.now.size }
    {
        self.size
    }

    pub fn faults(&self, node: u8) -> u64
        requires { node ≤ 8 }
        ensures { result ≡ faults_of self.now node }
    {
        self.faults[node as usize]
    }

    pub fn is_fenced(&self, node: u8) -> bool
        requires { node ≤ 8 }
        ensures value { result ≡ slice_index_or self.now.fenced node false }
        ensures sound { AreNodes self.now }
    {
        self.fenced[node as usize]
    }

    /// Copies what the node has in flight to the block, and answers whether it has anything: a binary
    /// search and at most one copy.
    pub fn copy(&self, node: u8, block: u64, into: &mut [u8]) -> bool
        requires node { node ≤ 8 }
        requires size { length into.old ≡ self.now.size }
        ensures found { result ≡ is_some (flight_to (flights_of self.now.flights node) block) }
        ensures bytes { into.new ≡ unwrap_or (flight_to (flights_of self.now.flights node) block) into.old }
    {
        let queue = &self.queues[node as usize];
        copy_flight(&queue.places, &queue.bytes, block, into)
    }

    /// Puts a write in flight: a binary search, a copy, and a move of the places past its own.
    pub fn put(&mut self, node: u8, block: u64, bytes: &[u8])
        requires node { node ≤ 8 }
        requires block { block < self.old.count }
        requires size { length bytes.now ≡ self.old.size }
        requires free { flight_to (flights_of self.old.flights node) block ≡ None }
        requires room { length (flights_of self.old.flights node) < 512 }
        ensures { self.new ≡ with_flights self.old node (with_flight (flights_of self.old.flights node) (record { block = block; bytes = bytes.now })) }
    {
        let queue = &mut self.queues[node as usize];
        put_flight(&mut queue.places, &mut queue.bytes, block, bytes);
    }

    /// The node's writes in flight, by rising block, and the bytes among which theirs stand.
    pub fn in_flight(&self, node: u8) -> (&[Place], &[u8])
        requires { node ≤ 8 }
        ensures flights { flights_at self.now.size result.1.now result.0.now ≡ flights_of self.now.flights node }
        ensures there { AreThere self.now.size result.1.now result.0.now }
        ensures few { length result.0.now ≤ 512 }
        ensures sound { AreNodes self.now }
    {
        let queue = &self.queues[node as usize];
        (queue.places.as_slice(), queue.bytes.as_slice())
    }

    /// Lets go the node's writes in flight.
    pub fn clear(&mut self, node: u8)
        requires { node ≤ 8 }
        ensures { self.new ≡ with_flights self.old node [] }
    {
        let queue = &mut self.queues[node as usize];
        queue.places.clear();
        queue.bytes.clear();
    }

    /// Fences the node, or ends its fence.
    pub fn set_fenced(&mut self, node: u8, fenced: bool)
        requires node { node ≤ 8 }
        requires not_zero { 1 ≤ node }
        ensures { self.new ≡ with_fence self.old node fenced }
    {
        self.fenced[node as usize] = fenced;
    }

    /// Counts a failed call of the node.
    pub fn fail(&mut self, node: u8) -> DiskError
        requires { node ≤ 8 }
        ensures result { result ≡ DiskError.Failed }
        ensures sound { AreNodes self.old }
        ensures later { faults_of self.old node ≤ faults_of self.new node }
        ensures value { self.new ≡ with_fault self.old node }
    {
        self.faults[node as usize] = raised(self.faults[node as usize]);
        DiskError::Failed
    }
}
