ghost use Rattle.std.specs.Prelude.{◌≡◌, ◌+◌, ◌<◌, ◌≤◌, ◌∷◌, [], ℕ, List, length, map, None, Some, Ok, IfOk, IfErr, OnOk};
ghost use Rattle.std.specs.List.{All};
ghost use Rattle.log_layout.specs.Chunks.{nothing};
ghost use Rattle.log_layout.specs.Journal.{Placed, blocks_from, head_in, refuses_tail as refuses_tail_of};
ghost use Rattle.log_layout.specs.Transactions.{may_follow as may_follow_of, reading, transactions_of};
ghost use Rattle.journal_scan.specs.Course.{IsFit, Takes, makes};
ghost use Rattle.journal_scan.specs.Images.{IsImage, ring_of};
ghost use Rattle.journal_scan.specs.Said.{IsFaultOf, says_at};
ghost use Rattle.std.specs.Prelude.{◌++◌};
ghost use Rattle.journal_scan.specs.Said.{says};

use crate::chunks::begin_chunk;
use crate::fault::ScanFault;
use crate::image::JournalImage;
use crate::parts::add_part;
use drafts::Transaction;
use log_layout::{Due, LogHeader, accepted, heads_are_accepted, next_place, places_between};
use no_memory::NoMemory;
use std::alloc::Global;
use std::collections::VecDeque;
use std::mem;

/// A transaction of a journal, and the sequence of the header that ends it.
#[derive(Drop)]
pub struct Sequenced {
    pub sequence: u64,
    pub transaction: Transaction,
}

// What was read so far, block by block from the tail on.
#[derive(Drop)]
pub(crate) struct Scan {
    // What the next blocks have to be; where nothing is due, a descriptor or a header.
    due: VecDeque<Due>,
    // The sequence of the last header, if there was one.
    last: Option<u64>,
    // What the transaction has so far that no header ended yet.
    begun: Transaction,
    done: Vec<Sequenced>,
}

fn no_part(alloc: Global) -> Transaction
    ensures { says result ≡ nothing }
{
    Transaction {
        blocks: Vec::new(alloc),
        revokes: Vec::new(alloc),
    }
}

// Whether a header of this sequence may come behind the one before it.
fn may_follow(last: Option<u64>, sequence: u64) -> bool
    ensures { result ≡ may_follow_of last sequence }
{
    match last {
        Some(last) => sequence == last.wrapping_add(1),
        None => true,
    }
}

impl Scan {
    fn new(alloc: Global) -> Scan
        ensures start { (size : ℕ) (blocks : List Placed) → makes size result blocks ≡ reading size [] None nothing blocks }
        ensures fit { (size : ℕ) → All (IsFit size) result.due.items }
    {
        Scan {
            due: VecDeque::new(alloc),
            last: None,
            begun: no_part(alloc),
            done: Vec::new(alloc),
        }
    }

    // A header ends the open transaction.
    fn end(&mut self, alloc: Global, sequence: u64) -> Result<(), NoMemory>
        requires none { self.old.due.items ≡ [] }
        ensures ended { OnOk result ((map says_at self.new.done.items ≡ map says_at self.old.done.items ++ record { sequence = sequence; transaction = says self.old.begun } ∷ [])
            × (says self.new.begun ≡ nothing) × (self.new.last ≡ Some sequence) × (self.new.due.items ≡ [])) }
    {
        let transaction = mem::replace(&mut self.begun, no_part(alloc));
        self.last = Some(sequence);
        self.done.push(Sequenced {
            sequence,
            transaction,
        })?;
        Ok(())
    }

    // A block where nothing is due.
    fn take_free(
        &mut self,
        alloc: Global,
        place: u32,
        left: u32,
        block: &[u8],
    ) -> Result<(), ScanFault>
        requires low { 72 ≤ length block.now }
        requires high { length block.now ≤ 4096 }
        requires none { self.old.due.items ≡ [] }
        ensures takes { OnOk result (Takes (length block.now) self.old self.new left place block.now) }
        ensures fit { OnOk result (All (IsFit (length block.now)) self.new.due.items) }
        ensures bad { IfErr result (λ f. (bs : List Placed) → length bs ≡ left → IsFaultOf f (makes (length block.now) self.old (record { place = place; bytes = block.now } ∷ bs))) }
    {
        match accepted(place, block) {
            Some(header) => {
                if !may_follow(self.last, header.sequence) {
                    return Err(ScanFault::BadChunk(place));
                }
                self.end(alloc, header.sequence)?;
            }
            None => {
                if !begin_chunk(&mut self.due, &mut self.begun, block, left)? {
                    return Err(ScanFault::BadChunk(place));
                }
            }
        }
        Ok(())
    }

    // The next block, where so many are left behind it, of which the last is the head.
    fn take(&mut self, alloc: Global, place: u32, left: u32, block: &[u8]) -> Result<(), ScanFault>
        requires low { 72 ≤ length block.now }
        requires high { length block.now ≤ 4096 }
        requires fit { All (IsFit (length block.now)) self.old.due.items }
        ensures takes { OnOk result (Takes (length block.now) self.old self.new left place block.now) }
        ensures fit { OnOk result (All (IsFit (length block.now)) self.new.due.items) }
        ensures bad { IfErr result (λ f. (bs : List Placed) → length bs ≡ left → IsFaultOf f (makes (length block.now) self.old (record { place = place; bytes = block.now } ∷ bs))) }
    {
        let Some(due) = self.due.pop_front() else {
            return self.take_free(alloc, place, left, block);
        };
        if !add_part(alloc, &mut self.begun, due, block)? {
            return Err(ScanFault::BadChunk(place));
        }
        Ok(())
    }

    fn into_done(self) -> Vec<Sequenced>
        ensures { result ≡ self.done }
    {
        self.done
    }
}

// Whether a head that isn't clean tells a tail that can't be one.
fn refuses_tail(places: u32, head: &LogHeader) -> bool
    requires { head.now.blkno < places }
    ensures { result ≡ refuses_tail_of places head.now }
{
    head.tail >= places || head.tail == next_place(places, head.blkno)
}

// The transactions that so many blocks and one more have, from a place on.
fn scan_from(
    alloc: Global,
    j: &JournalImage,
    tail: u32,
    count: u32,
) -> Result<Vec<Sequenced>, ScanFault>
    requires image { IsImage j.now }
    requires inside { tail < j.now.length }
    requires few { count < j.now.length }
    ensures read { IfOk result (λ ts. reading j.now.block_size [] None nothing (blocks_from (ring_of j.now) tail (count + 1)) ≡ Ok (map says_at ts.items)) }
    ensures bad { IfErr result (λ f. IsFaultOf f (reading j.now.block_size [] None nothing (blocks_from (ring_of j.now) tail (count + 1)))) }
{
    let places = j.length;
    let mut scan = Scan::new(alloc);
    let mut place = tail;
    for taken in 0..count + 1 {
        let block = j.block(place);
        scan.take(alloc, place, count - taken, block)?;
        place = next_place(places, place);
    }
    Ok(scan.into_done())
}

/// The transactions of a journal from its tail to its head, or the first place from the tail on at which stands what may not
/// stand there. A clean head has none. It looks at each of these places once, and takes memory for what they hold.
pub fn transactions(
    alloc: Global,
    j: &JournalImage,
    head: &LogHeader,
) -> Result<Vec<Sequenced>, ScanFault>
    requires image { IsImage j.now }
    requires headed { head_in (ring_of j.now) ≡ Some head.now }
    ensures read { IfOk result (λ ts. transactions_of (ring_of j.now) head.now ≡ Ok (map says_at ts.items)) }
    ensures bad { IfErr result (λ f. IsFaultOf f (transactions_of (ring_of j.now) head.now)) }
{
    heads_are_accepted();
    if head.clean {
        return Ok(Vec::new(alloc));
    }
    if refuses_tail(j.length, head) {
        return Err(ScanFault::BadChunk(head.blkno));
    }
    let count = places_between(j.length, head.tail, head.blkno);
    scan_from(alloc, j, head.tail, count)
}
