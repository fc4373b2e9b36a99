// The table of the blocks, and beside it which of them are under which lock.
ghost use Rattle.std.specs.Prelude.{◌≡◌, ℕ, None, [], ◌==◌, ◌&&◌, false, unwrap_or, if◌then◌else◌};
ghost use Rattle.std.specs.FinMap as map;
ghost use Rattle.block_cache.specs.Shelving.{has, same_shelf, on_shelf};
ghost use Rattle.block_cache.specs.declared.shelves.ShelfName.{ShelfName};
ghost use Rattle.block_cache.specs.Tie.{shelf_of, leaves, cell_at};

use crate::bytes::Bytes;
use crate::shelves::{Shelf, ShelfName, Shelves};
use glock_names::LockName;
use indexmap::IndexMap;
use no_memory::NoMemory;
use std::alloc::Global;
use std::marker::Model;

/// A block in the cache: the lock that covers it, whether it is content of a regular file, and its bytes.
#[derive(Drop)]
pub struct Cell {
    pub lock: LockName,
    pub plain: bool,
    pub bytes: Bytes,
}

fn shelf_of(cell: &Cell) -> ShelfName
    ensures { result ≡ shelf_of cell.now }
{
    ShelfName {
        lock: cell.lock,
        plain: cell.plain,
    }
}

fn same_shelf(a: ShelfName, b: ShelfName) -> bool
    ensures { result ≡ same_shelf a b }
{
    a == b
}

// The block isn't on the shelf of the cell that it had, where it has a new one on another.
fn leave(shelves: &mut Shelves, before: Option<Cell>, name: ShelfName, block: u64)
    ensures { (s : ShelfName) (b : ℕ) → on_shelf shelves.new s b ≡ (if leaves before name s && (block == b) then false else on_shelf shelves.old s b) }
{
    let Some(cell) = before else {
        return;
    };
    let old = shelf_of(&cell);
    if same_shelf(name, old) {
        return;
    }
    shelves.remove(old, block);
}

// The cells of the blocks that were on the shelf are gone.
fn remove_all(cells: &mut IndexMap<u64, Cell>, shelf: Option<Shelf>)
    ensures { (b : ℕ) → cell_at cells.new.entries b ≡ (if has (unwrap_or shelf []) b then None else cell_at cells.old.entries b) }
{
    let Some(mut shelf) = shelf else {
        return;
    };
    while let Some(block) = shelf.pop() {
        cells.swap_remove(&block);
    }
}

/// Blocks by their numbers, each on the shelf of its lock too.
#[derive(Drop)]
pub struct Cache {
    cells: IndexMap<u64, Cell>,
    shelves: Shelves,
    alloc: Global,
}

impl Model for Cache {
    ghost use Rattle.block_cache.specs.Cells.{Cells, cells_code};

    ghost Value = { Cells };

    ghost coded = { cells_code };

    ghost use Rattle.std.specs.FinMap as map;

    ghost view = { λ c. map.from_entries c.cells.entries };

    ghost use Rattle.block_cache.specs.IsTied.{IsTied};

    ghost invariant = { IsTied };
}

impl Cache {
    ghost use Rattle.std.specs.Prelude.{◌≡◌, ℕ, not, OnOk, OnErr, option_map};
    ghost use Rattle.std.specs.Option.{option_copied};
    ghost use Rattle.std.specs.FinMap as map;
    ghost use Rattle.block_cache.specs.Cells.{DropsLock, kept_if};

    /// No block is in it. Takes no memory.
    pub fn new(alloc: Global) -> Self
        ensures { result ≡ map.empty }
    {
        Cache {
            cells: IndexMap::new(alloc),
            shelves: Shelves::new(alloc),
            alloc,
        }
    }

    /// The block has these bytes from now on, under this lock; `plain` where it is content of a regular file.
    pub fn put(
        &mut self,
        lock: LockName,
        block: u64,
        plain: bool,
        bytes: &[u8],
    ) -> Result<(), NoMemory>
        ensures ok { OnOk result (self.new ≡ map.insert self.old block (record { lock = lock; plain = plain; bytes = bytes.now })) }
        ensures err { OnErr result (self.new ≡ self.old) }
    {
        let bytes = Bytes::copy_of(self.alloc, bytes)?;
        let name = ShelfName { lock, plain };
        self.cells.reserve(1)?;
        self.shelves.add(name, block)?;
        let Ok(before) = self.cells.insert(block, Cell { lock, plain, bytes }) else {
            return Err(NoMemory);
        };
        leave(&mut self.shelves, before, name, block);
        Ok(())
    }

    /// The block's bytes, where it is in the cache.
    pub fn get(&self, block: u64) -> Option<&[u8]>
        ensures { option_copied result ≡ option_map (λ c. c.bytes) (map.get self.now block) }
    {
        match self.cells.get(&block) {
            Some(cell) => Some(cell.bytes.as_slice()),
            None => None,
        }
    }

    /// The lock's blocks go; where `keep_meta` is true, its plain ones alone, as on the way to deferred. Takes no
    /// memory, and looks at those blocks alone.
    pub fn drop_lock(&mut self, lock: LockName, keep_meta: bool)
        ensures { DropsLock self.old self.new lock keep_meta }
    {
        self.drop_shelf(ShelfName { lock, plain: true });
        if keep_meta {
            return;
        }
        self.drop_shelf(ShelfName { lock, plain: false });
    }

    fn drop_shelf(&mut self, name: ShelfName)
        ensures { (b : ℕ) → map.get self.new b ≡ kept_if (λ c. not (same_shelf name (shelf_of c))) (map.get self.old b) }
    {
        let shelf = self.shelves.take(name);
        remove_all(&mut self.cells, shelf);
    }

    /// The block goes: it is freed, or is not what the disk has any more.
    pub fn drop_block(&mut self, block: u64)
        ensures { self.new ≡ map.remove self.old block }
    {
        let Some(cell) = self.cells.swap_remove(&block) else {
            return;
        };
        self.shelves.remove(shelf_of(&cell), block);
    }
}
