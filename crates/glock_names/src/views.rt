ghost use Rattle.std.specs.Prelude.{◌≡◌, ◌≤◌, Some, None, IfSome, IfNone, length};
ghost use Rattle.glock_names.specs.Views.{Seen, IsView};

use crate::{LockName, State};

/// A resource group: the block of its header, how many blocks its header and its bitmap take, its first data block, and
/// how many data blocks it has.
#[derive(Clone, Copy, Debug, PartialEq, Eq)]
pub struct Group {
    pub addr: u64,
    pub length: u32,
    pub first: u64,
    pub count: u32,
}

/// What a node has of the file system: the states of its glocks, and the blocks that it has read. Every call of the file
/// system is a function of one.
pub trait View {
    /// The view as one value.
    ghost seen: { Self → Seen };

    /// The state in which the node holds a lock.
    fn state(&self, lock: LockName) -> State
        ensures { result ≡ (seen self.now).state_of lock };

    /// The bytes of a block, a whole block, if the view has it.
    fn block(&self, block: u64) -> Option<&[u8]>
        ensures some { IfSome result (λ bytes. (seen self.now).block_at block ≡ Some bytes.now) }
        ensures none { IfNone result ((seen self.now).block_at block ≡ None) };

    /// The resource groups, such as mounting accepts: at most 64, one behind another above the superblock, each with bits for
    /// its data blocks, and the last of them ends within the blocks that a device has at most.
    fn groups(&self) -> &[Group]
        ensures { result.now ≡ (seen self.now).groups };

    /// The block of the root's dinode.
    fn root(&self) -> u64
        ensures { result ≡ (seen self.now).root };

    /// How many bytes a block has: 512, 1,024, 2,048 or 4,096.
    fn block_size(&self) -> u32
        ensures value { result ≡ (seen self.now).size }
        ensures view { IsView (seen self.now) };
}

/// The bytes of a block, if the view has it: from 512 to 4,096.
pub fn block_of<V: View>(view: &V, block: u64) -> Option<&[u8]>
    ensures some { IfSome result (λ bytes. (V.seen view.now).block_at block ≡ Some bytes.now) }
    ensures none { IfNone result ((V.seen view.now).block_at block ≡ None) }
    ensures size { IfSome result (λ bytes. (V.seen view.now).size ≡ length bytes.now) }
    ensures least { IfSome result (λ bytes. 512 ≤ length bytes.now) }
    ensures most { IfSome result (λ bytes. length bytes.now ≤ 4096) }
    ensures view { IsView (V.seen view.now) }
{
    let _size = view.block_size();
    view.block(block)
}
