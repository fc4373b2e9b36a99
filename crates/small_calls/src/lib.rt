//! Whatever a call is, it writes few blocks. The function does nothing: its contract is the law.
#![tactic(auto)]

ghost use Rattle.small_calls.specs.Sizes.{CallsAreSmall};

use glock_names::View;
use growth_laws::files_are_inodes;

/// A law: each call writes at most 375 blocks.
pub fn calls_write_few_blocks<V: View>()
    ensures { CallsAreSmall V.seen }
{
    files_are_inodes();
}
