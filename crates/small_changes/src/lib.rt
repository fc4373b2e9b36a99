//! The calls write few blocks. The functions do nothing: their contracts are the laws.
#![tactic(auto)]

ghost use Rattle.small_changes.specs.Counting.{CutsAreSmall, NamesTakeFew, RemovalsAreSmall, WritesAreSmall};

use glock_names::View;
use growth_laws::files_are_inodes;

/// A law: a call that removes a name writes few blocks.
pub fn removals_write_few_blocks<V: View>()
    ensures { RemovalsAreSmall V.seen }
{}

/// A law: bytes that are written into a file with blocks that are taken for it write few blocks.
pub fn writes_write_few_blocks()
    ensures { WritesAreSmall }
{
    files_are_inodes();
}

/// A law: a file that is cut writes few blocks.
pub fn cuts_write_few_blocks()
    ensures { CutsAreSmall }
{
    files_are_inodes();
}

/// A law: a name that comes into a directory takes few blocks.
pub fn names_take_few_blocks()
    ensures { NamesTakeFew }
{}
