// Which blocks are under which lock, the content of files apart from all else.
ghost use Rattle.std.specs.Prelude.{◌≡◌, ℕ, false, true, ◌==◌, [], ◌++◌, length, IsNone, if◌then◌else◌, OnOk, OnErr};
ghost use Rattle.std.specs.Option.{option_to_list};
ghost use Rattle.block_cache.specs.Shelving.{has};

use glock_names::LockName;
use indexmap::{IndexMap, IndexSet};
use no_memory::NoMemory;
use std::alloc::Global;
use std::marker::Model;

/// Blocks, each once.
#[derive(Drop)]
pub struct Shelf {
    blocks: IndexSet<u64>,
}

impl Model for Shelf {
    ghost use Rattle.std.specs.Prelude.{ℕ, List};

    ghost Value = { List ℕ };

    ghost view = { λ s. s.blocks.keys };
}

impl Shelf {
    pub fn new(alloc: Global) -> Self
        ensures { result ≡ [] }
    {
        Shelf {
            blocks: IndexSet::new(alloc),
        }
    }

    pub fn add(&mut self, block: u64) -> Result<(), NoMemory>
        ensures ok { OnOk result ((b : ℕ) → has self.new b ≡ (if block == b then true else has self.old b)) }
        ensures err { OnErr result (self.new ≡ self.old) }
    {
        self.blocks.insert(block)?;
        Ok(())
    }

    pub fn remove(&mut self, block: u64)
        ensures { (b : ℕ) → has self.new b ≡ (if block == b then false else has self.old b) }
    {
        self.blocks.swap_remove(&block);
    }

    pub fn pop(&mut self) -> Option<u64>
        ensures blocks { self.old ≡ self.new ++ option_to_list result }
        ensures end { IsNone result → length self.old ≡ 0 }
    {
        self.blocks.pop()
    }
}

/// A lock, and whether these are its blocks of content.
#[derive(Clone, Copy, Debug, PartialEq, Eq, Hash)]
pub struct ShelfName {
    pub lock: LockName,
    pub plain: bool,
}

/// The shelves, by name. A shelf that became empty stays until its lock's blocks go.
#[derive(Drop)]
pub struct Shelves {
    shelves: IndexMap<ShelfName, Shelf>,
    alloc: Global,
}

impl Model for Shelves {
    ghost use Rattle.std.specs.Prelude.{ℕ, List};
    ghost use Rattle.block_cache.specs.declared.shelves.ShelfName.{ShelfName};

    ghost Value = { List (ShelfName × List ℕ) };

    ghost view = { λ s. s.shelves.entries };
}

impl Shelves {
    ghost use Rattle.std.specs.Prelude.{unwrap_or};
    ghost use Rattle.block_cache.specs.declared.shelves.ShelfName.{ShelfName};
    ghost use Rattle.block_cache.specs.Shelving.{on_shelf, same_shelf, Adds, Removes, Keeps};

    pub fn new(alloc: Global) -> Self
        ensures { result ≡ [] }
    {
        Shelves {
            shelves: IndexMap::new(alloc),
            alloc,
        }
    }

    /// The block is on that shelf too.
    pub fn add(&mut self, name: ShelfName, block: u64) -> Result<(), NoMemory>
        ensures ok { OnOk result (Adds self.old self.new name block) }
        ensures err { OnErr result (Keeps self.old self.new) }
    {
        match self.shelves.get_mut(&name) {
            Some(shelf) => shelf.add(block),
            None => {
                let mut shelf = Shelf::new(self.alloc);
                shelf.add(block)?;
                self.shelves.insert(name, shelf)?;
                Ok(())
            }
        }
    }

    /// The block is on that shelf no more. Takes no memory.
    pub fn remove(&mut self, name: ShelfName, block: u64)
        ensures { Removes self.old self.new name block }
    {
        let Some(shelf) = self.shelves.get_mut(&name) else {
            return;
        };
        shelf.remove(block);
    }

    /// The shelf with what is on it, where there is one; it is among these no more. Takes no memory.
    pub fn take(&mut self, name: ShelfName) -> Option<Shelf>
        ensures taken { (b : ℕ) → has (unwrap_or result []) b ≡ on_shelf self.old name b }
        ensures gone { (s : ShelfName) (b : ℕ) → on_shelf self.new s b ≡ (if same_shelf name s then false else on_shelf self.old s b) }
    {
        self.shelves.swap_remove(&name)
    }
}
