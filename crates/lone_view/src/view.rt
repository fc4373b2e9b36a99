// The view of one node alone.
use file_tree::Content;
use glock_names::{Group, LockName, State, View};
use no_memory::NoMemory;
use std::alloc::Global;
use std::collections::BTreeMap;
use std::marker::Model;

/// The blocks that a node has which holds every lock exclusive, and what mounting told of the file system: itself a view.
#[derive(Drop)]
pub struct LoneView {
    blocks: BTreeMap<u64, Content>,
    groups: Vec<Group>,
    root: u64,
    size: u32,
}

impl Model for LoneView {
    ghost use Rattle.lone_view.specs.Seeing.{Lone, lone_code};

    ghost Value = { Lone };

    ghost coded = { lone_code };

    ghost use Rattle.std.specs.FinMap as map;
    ghost use Rattle.std.specs.Ordering.{nat_cmp};
    ghost use Rattle.std.specs.List.Sorted.{IsStrictlySortedBy};
    ghost use Rattle.std.specs.Map.{keys_of};
    ghost use Rattle.glock_names.specs.Views.{IsView};
    ghost use Rattle.lone_view.specs.Seeing.{seen_alone};

    ghost view = { λ n. record { blocks = map.from_entries n.blocks.entries; groups = n.groups.items; root = n.root; size = n.size } };

    ghost invariant = { λ n. IsView (seen_alone (record { blocks = map.from_entries n.blocks.entries; groups = n.groups.items; root = n.root; size = n.size })) × IsStrictlySortedBy nat_cmp (keys_of n.blocks.entries) };
}

impl LoneView {
    ghost use Rattle.std.specs.Prelude.{◌≡◌, length, OnOk, OnErr};
    ghost use Rattle.std.specs.FinMap as map;
    ghost use Rattle.gfs2_layout.specs.Device.{IsBlockSize};
    ghost use Rattle.glock_names.specs.Views.{AreGroups};

    /// No block is there yet. The block size is in bytes, the root is the block of its dinode. Takes no memory.
    pub fn new(alloc: Global, groups: Vec<Group>, root: u64, size: u32) -> Self
        requires size { IsBlockSize size }
        requires groups { AreGroups size groups.items }
        ensures { result ≡ record { blocks = map.empty; groups = groups.items; root = root; size = size } }
    {
        LoneView {
            blocks: BTreeMap::new(alloc),
            groups,
            root,
            size,
        }
    }

    /// The block is there from now on, whole, with these bytes. Costs a look-up in a tree.
    pub fn keep(&mut self, block: u64, bytes: Content) -> Result<(), NoMemory>
        requires { length bytes ≡ self.old.size }
        ensures ok { OnOk result (self.new ≡ record self.old { blocks = map.insert self.old.blocks block bytes }) }
        ensures err { OnErr result (self.new ≡ self.old) }
    {
        self.blocks.insert(block, bytes)?;
        Ok(())
    }

    /// The block isn't there any more. Costs a look-up in a tree, and takes no memory.
    pub fn forget(&mut self, block: u64)
        ensures { self.new ≡ record self.old { blocks = map.remove self.old.blocks block } }
    {
        let _ = self.blocks.remove(&block);
    }
}

impl View for LoneView {
    ghost use Rattle.lone_view.specs.Seeing.{seen_alone};

    ghost seen = { seen_alone };

    fn state(&self, _lock: LockName) -> State {
        State::Ex
    }

    fn block(&self, block: u64) -> Option<&[u8]> {
        match self.blocks.get(&block) {
            Some(bytes) => Some(bytes.bytes()),
            None => None,
        }
    }

    fn groups(&self) -> &[Group] {
        &self.groups
    }

    fn root(&self) -> u64 {
        self.root
    }

    fn block_size(&self) -> u32 {
        self.size
    }
}
