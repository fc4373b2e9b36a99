ghost use Rattle.std.specs.Prelude.{ℕ, Contains, ◌≡◌, ◌≢◌, ◌+◌, ◌<◌, ◌≤◌, [], ◌∷◌, ⊤, true, false, length, count_by, is_none, slice_set, slice_get, Some, None, IsTrue, IsFalse, ◌↔◌, IfOk, OnOk, IfErr, IfSome, IfNone, MatchOption};
ghost use Rattle.std.specs.List.{All};
ghost use Rattle.std.specs.List.Sorted.{IsStrictlyIncreasing};
ghost use Rattle.gfs2_layout.specs.Device.{IsBlockSize};

use crate::fault::MountFault;
use crate::stop::Stop;
use file_tree::Content;
use glock_names::{Group, LockName, State, View};
use no_memory::NoMemory;
use std::alloc::Global;
use std::marker::Model;

/// The blocks of a device that were read and are kept, by their numbers. A leaf is looked at once, and isn't kept: there may be
/// as many as the device has blocks.
#[derive(Drop)]
pub(crate) struct KeptBlocks {
    size: u32,
    entries: Vec<Option<Content>>,
    // Which blocks are places of journals.
    places: Vec<bool>,
    // Which blocks were read as leaves, of which nothing is kept.
    leaves: Vec<bool>,
    // How many blocks are not kept.
    left: usize,
}

impl Model for KeptBlocks {
    ghost use Rattle.std.specs.Prelude.{ℕ, Contains, ◌≡◌, count_by, is_none, length};
    ghost use Rattle.glock_names.specs.Views.{IsView};
    ghost use Rattle.image_mount.specs.Kept.{Kept, seen_of};

    ghost Value = { Kept };

    ghost view = { λ t. record { size = t.size; entries = t.entries.items; places = t.places.items; leaves = t.leaves.items; left = t.left } };

    ghost invariant = { λ t. IsView (seen_of (record { size = t.size; entries = t.entries.items; places = t.places.items; leaves = t.leaves.items; left = t.left })) × (t.left ≡ count_by is_none t.entries.items) × (length t.places.items ≡ length t.entries.items) × (length t.leaves.items ≡ length t.entries.items) };
}

impl KeptBlocks {
    ghost use Rattle.image_mount.specs.Kept.{seen_of};
    ghost use Rattle.image_mount.specs.Marked.{AreMarked, IsGrown, IsTaken, marks_of};
    ghost use Rattle.image_mount.specs.Searching.{IsSteady, LacksBlock};
    ghost use Rattle.image_mount.specs.declared.fault.MountFault.TheVariants as fault_of;

    /// Nothing is kept of so many blocks.
    pub fn new(alloc: Global, size: u32, count: u64) -> Result<KeptBlocks, MountFault>
        requires { IsBlockSize size }
        ensures empty { IfOk result (λ table. All (λ kept. kept ≡ None) table.entries) }
        ensures count { IfOk result (λ table. length table.entries ≡ count) }
        ensures size { IfOk result (λ table. table.size ≡ size) }
        ensures places { IfOk result (λ table. All (λ place. place ≡ false) table.places) }
        ensures leaves { IfOk result (λ table. All (λ leaf. leaf ≡ false) table.leaves) }
        ensures memory { IfErr result (λ fault. fault ≡ fault_of.NoMemory) }
        ensures steady { IfErr result IsSteady }
    {
        let mut entries = Vec::with_capacity(alloc, count as usize)?;
        let mut places = Vec::with_capacity(alloc, count as usize)?;
        let mut leaves = Vec::with_capacity(alloc, count as usize)?;
        for _block in 0..count {
            entries.push(None)?;
            places.push(false)?;
            leaves.push(false)?;
        }
        Ok(KeptBlocks {
            size,
            entries,
            places,
            leaves,
            left: count as usize,
        })
    }

    /// Keeps a block that is not kept yet.
    pub fn keep(&mut self, block: u64, bytes: Vec<u8>)
        requires new { slice_get self.old.entries block ≡ Some None }
        requires whole { length bytes.items ≡ self.old.size }
        ensures kept { self.new.entries ≡ slice_set self.old.entries block (Some bytes.items) }
        ensures size { self.new.size ≡ self.old.size }
        ensures places { self.new.places ≡ self.old.places }
        ensures leaves { self.new.leaves ≡ self.old.leaves }
        ensures falls { self.new.left + 1 ≡ self.old.left }
    {
        self.entries[block as usize] = Some(Content::new(bytes));
        self.left -= 1;
    }

    /// The bytes of a block, whose number stands in block `from`; a search for it stops where it isn't kept.
    pub fn get(&self, block: u64, from: u64) -> Result<&[u8], Stop>
        ensures bytes { IfOk result (λ bytes. (seen_of self.now).block_at block ≡ Some bytes.now) }
        ensures whole { IfOk result (λ bytes. length bytes.now ≡ self.now.size) }
        ensures least { IfOk result (λ bytes. 512 ≤ length bytes.now) }
        ensures stops { IfErr result (λ stop. stop ≡ Stop.Reads block from) }
        ensures lacks { IfErr result (LacksBlock self.now) }
    {
        let _size = self.block_size();
        match self.block(block) {
            Some(bytes) => Ok(bytes),
            None => Err(Stop::Reads { block, from }),
        }
    }

    /// How many blocks the device has.
    pub fn count(&self) -> u64
        ensures value { result ≡ length self.now.entries }
        ensures inside { (b : ℕ) → IsTaken self.now b → b < result }
    {
        self.entries.len() as u64
    }

    /// Whether the block is a place of a journal.
    pub fn is_place(&self, block: u64) -> bool
        ensures { IsTrue result ↔ slice_get self.now.places block ≡ Some true }
    {
        self.places.get(block as usize) == Some(&true)
    }

    /// The block is a place of a journal.
    pub fn mark(&mut self, block: u64)
        requires { block < length self.old.entries }
        ensures places { self.new.places ≡ slice_set self.old.places block true }
        ensures marked { marks_of self.old block ≡ 0 → AreMarked self.old self.new (block ∷ []) }
        ensures grown { ¬ (IsTaken self.old block) → IsGrown self.old self.new }
        ensures entries { self.new.entries ≡ self.old.entries }
        ensures leaves { self.new.leaves ≡ self.old.leaves }
        ensures size { self.new.size ≡ self.old.size }
        ensures left { self.new.left ≡ self.old.left }
    {
        self.places[block as usize] = true;
    }

    // Whether the block was read as a leaf.
    fn is_leaf(&self, block: u64) -> bool
        ensures { IsTrue result ↔ slice_get self.now.leaves block ≡ Some true }
    {
        self.leaves.get(block as usize) == Some(&true)
    }

    /// Whether the block was read, whether it is kept or not, or is a place of a journal.
    pub fn is_taken(&self, block: u64) -> bool
        ensures taken { IsTrue result → IsTaken self.now block }
        ensures untaken { IsFalse result → ¬ (IsTaken self.now block) }
        ensures unmarked { IsFalse result → marks_of self.now block ≡ 0 }
    {
        if self.is_place(block) || self.is_leaf(block) {
            return true;
        }
        self.block(block).is_some()
    }

    /// The block was read as a leaf.
    pub fn mark_leaf(&mut self, block: u64)
        requires { block < length self.old.entries }
        ensures read { IsTaken self.new block }
        ensures leaves { self.new.leaves ≡ slice_set self.old.leaves block true }
        ensures entries { self.new.entries ≡ self.old.entries }
        ensures places { self.new.places ≡ self.old.places }
        ensures size { self.new.size ≡ self.old.size }
        ensures left { self.new.left ≡ self.old.left }
    {
        self.leaves[block as usize] = true;
    }

    /// The blocks that were read, whether they are kept or not, and the places of journals, in rising order.
    pub fn taken(&self, alloc: Global) -> Result<Vec<u64>, NoMemory>
        ensures taken { IfOk result (λ blocks. (b : ℕ) → Contains blocks.items b ↔ IsTaken self.now b) }
        ensures rise { IfOk result (λ blocks. IsStrictlyIncreasing blocks.items) }
        ensures inside { OnOk result ((b : ℕ) → IsTaken self.now b → b < length self.now.entries) }
    {
        let mut blocks = Vec::new(alloc);
        for block in 0..self.count() {
            if self.is_taken(block) {
                blocks.push(block)?;
            }
        }
        Ok(blocks)
    }
}

impl View for KeptBlocks {
    ghost use Rattle.image_mount.specs.Kept.{seen_of};

    ghost seen = { seen_of };

    fn state(&self, _lock: LockName) -> State {
        State::Un
    }

    fn block(&self, block: u64) -> Option<&[u8]> {
        match self.entries.get(block as usize) {
            Some(Some(content)) => Some(content.bytes()),
            Some(None) | None => None,
        }
    }

    fn groups(&self) -> &[Group] {
        &[]
    }

    fn root(&self) -> u64 {
        0
    }

    fn block_size(&self) -> u32 {
        self.size
    }
}
