ghost use Rattle.std.specs.Prelude.{◌≡◌};
ghost use Rattle.dinode_tree.specs.Reading.{inode_lock};

use glock_names::{CallFault, LockName};

/// The fault of a block that breaks a rule.
pub(crate) fn damaged(block: u64, rule: u16) -> CallFault
    ensures { result ≡ CallFault.Damaged block rule }
{
    CallFault::Damaged { block, rule }
}

/// The lock that covers the blocks of the inode with its dinode in this block.
pub(crate) fn lock_of(dinode: u64) -> LockName
    ensures { result ≡ inode_lock dinode }
{
    LockName {
        kind: 2,
        number: dinode,
    }
}
