// A view with a change on top.
ghost use Rattle.std.specs.Prelude.{◌≡◌, ◌++◌, ◌∷◌, [], ℕ, List, Option, Some, OnOk, IfSome, IfNone};
ghost use Rattle.std.specs.Option.{option_copied};
ghost use Rattle.drafts.specs.Fates.{block_with, blocks_in, locks_in, freed_in};

use crate::{Change, Fate, Written};
use file_tree::Content;
use glock_names::{Group, LockName, State, View, block_of};
use no_memory::NoMemory;
use std::alloc::Global;
use std::collections::BTreeMap;
use std::marker::Model;

/// A view with a change on top: itself a view.
#[derive(Drop)]
pub struct Draft<'a, V: View> {
    view: &'a V,
    fates: BTreeMap<u64, Fate>,
    alloc: Global,
}

impl<'a, V: View> Model for Draft<'a, V> {
    ghost use Rattle.drafts.specs.Fates.{Drafted, drafted_code};

    ghost Value = { Drafted V };

    ghost coded = { drafted_code V.code };

    ghost use Rattle.std.specs.FinMap as map;
    ghost use Rattle.std.specs.Ordering.{nat_cmp};
    ghost use Rattle.std.specs.List.Sorted.{IsStrictlySortedBy};
    ghost use Rattle.std.specs.Map.{keys_of};
    ghost use Rattle.drafts.specs.Fates.{AreWhole};

    ghost view = { λ d. record { view = d.view.now; fates = map.from_entries d.fates.entries } };

    ghost invariant = { λ d. AreWhole (V.seen d.view.now).size (map.from_entries d.fates.entries) × IsStrictlySortedBy nat_cmp (keys_of d.fates.entries) };
}

impl<'a, V: View> Draft<'a, V> {
    ghost use Rattle.std.specs.Prelude.{◌≡◌, length, option_map, OnOk, OnErr, IfOk, IfSome};
    ghost use Rattle.std.specs.FinMap as map;
    ghost use Rattle.drafts.specs.declared.fate.Fate.TheVariants.{Put, Freed};
    ghost use Rattle.drafts.specs.Fates.{blocks_in, locks_in, freed_in, seen_with};

    /// Nothing is written or freed yet. Takes no memory.
    pub fn new(alloc: Global, view: &'a V) -> Self
        ensures { result ≡ record { view = view.now; fates = map.empty } }
    {
        Draft {
            view,
            fates: BTreeMap::new(alloc),
            alloc,
        }
    }

    /// The block has these bytes from now on, a whole block, and this lock covers it; `plain` where it is content of a regular
    /// file. It isn't freed. Costs a copy of the bytes and a look-up in a tree.
    pub fn put(
        &mut self,
        lock: LockName,
        block: u64,
        plain: bool,
        bytes: &[u8],
    ) -> Result<(), NoMemory>
        requires { length bytes.now ≡ (V.seen self.old.view).size }
        ensures ok { OnOk result (self.new ≡ record self.old { fates = map.insert self.old.fates block (Put lock plain bytes.now) }) }
        ensures err { OnErr result (self.new ≡ self.old) }
    {
        let bytes = Content::new(Vec::from_slice(self.alloc, bytes)?);
        self.fates.insert(block, Fate::Put { lock, plain, bytes })?;
        Ok(())
    }

    /// The block is free from now on, and isn't written. Costs a look-up in a tree.
    pub fn free(&mut self, block: u64) -> Result<(), NoMemory>
        ensures ok { OnOk result (self.new ≡ record self.old { fates = map.insert self.old.fates block Freed }) }
        ensures err { OnErr result (self.new ≡ self.old) }
    {
        self.fates.insert(block, Fate::Freed)?;
        Ok(())
    }

    /// A copy of a block as the draft sees it, to be changed and put; None where it isn't seen. Costs the copy and a look-up in
    /// a tree.
    pub fn copy(&self, block: u64) -> Result<Option<Vec<u8>>, NoMemory>
        ensures bytes { IfOk result (λ copied. option_map (λ copy. copy.items) copied ≡ (seen_with (V.seen self.now.view) self.now.fates).block_at block) }
        ensures size { IfOk result (λ copied. IfSome copied (λ copy. length copy.items ≡ (V.seen self.now.view).size)) }
    {
        match block_of(self, block) {
            Some(bytes) => Ok(Some(Vec::from_slice(self.alloc, bytes)?)),
            None => Ok(None),
        }
    }

    /// What was written and what was freed, by rising block.
    pub fn finish(self) -> Result<Change, NoMemory>
        ensures blocks { IfOk result (λ change. change.blocks.items ≡ blocks_in (map.entries self.entry.fates)) }
        ensures locks { IfOk result (λ change. change.locks.items ≡ locks_in (map.entries self.entry.fates)) }
        ensures freed { IfOk result (λ change. change.freed.items ≡ freed_in (map.entries self.entry.fates)) }
    {
        let mut change = Change {
            blocks: Vec::new(self.alloc),
            locks: Vec::new(self.alloc),
            freed: Vec::new(self.alloc),
        };
        for (block, fate) in self.fates {
            add(&mut change, block, fate)?;
        }
        Ok(change)
    }
}

// The change with one block more.
fn add(change: &mut Change, block: u64, fate: Fate) -> Result<(), NoMemory>
    ensures blocks { OnOk result (change.new.blocks.items ≡ change.old.blocks.items ++ blocks_in ((block, fate) ∷ [])) }
    ensures locks { OnOk result (change.new.locks.items ≡ change.old.locks.items ++ locks_in ((block, fate) ∷ [])) }
    ensures freed { OnOk result (change.new.freed.items ≡ change.old.freed.items ++ freed_in ((block, fate) ∷ [])) }
{
    match fate {
        Fate::Put { lock, plain, bytes } => {
            change.blocks.push(Written {
                block,
                plain,
                bytes,
            })?;
            change.locks.push(lock)?;
        }
        Fate::Freed => change.freed.push(block)?,
    }
    Ok(())
}

// The bytes with which a block is written, where it is.
fn written(fate: Option<&Fate>) -> Option<&[u8]>
    ensures some { IfSome result (λ bytes. (below : Option (List ℕ)) → block_with (option_copied fate.entry) below ≡ Some bytes.now) }
    ensures none { IfNone result ((below : Option (List ℕ)) → block_with (option_copied fate.entry) below ≡ below) }
{
    match fate {
        Some(Fate::Put { bytes, .. }) => Some(bytes.bytes()),
        Some(Fate::Freed) | None => None,
    }
}

impl<'a, V: View> View for Draft<'a, V> {
    ghost use Rattle.drafts.specs.Fates.{seen_with};

    ghost seen = { λ d. seen_with (V.seen d.view) d.fates };

    fn state(&self, lock: LockName) -> State {
        self.view.state(lock)
    }

    fn block(&self, block: u64) -> Option<&[u8]> {
        match written(self.fates.get(&block)) {
            Some(bytes) => Some(bytes),
            None => self.view.block(block),
        }
    }

    fn groups(&self) -> &[Group] {
        self.view.groups()
    }

    fn root(&self) -> u64 {
        self.view.root()
    }

    fn block_size(&self) -> u32 {
        self.view.block_size()
    }
}
