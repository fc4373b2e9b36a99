// Numbers of eight bytes in a block.
ghost use Rattle.std.specs.Prelude.{◌≡◌, ◌+◌, ◌*◌, ◌≤◌, length, IfOk, MatchResult};
ghost use Rattle.node_journal.specs.Encoding.{with_numbers, zeros};

use log_layout::put_u64;
use no_memory::NoMemory;
use std::alloc::Global;

/// A block of zeros.
pub(crate) fn empty_block(alloc: Global, size: usize) -> Result<Vec<u8>, NoMemory>
    ensures { IfOk result (λ block. block.items ≡ zeros size) }
{
    Ok(vec![in alloc; 0; size]?)
}

/// Puts numbers one behind the other over those of a block, from a place on.
#[tactic(auto, using(crate::proofs::NumbersPut::with_none_left, crate::proofs::NumbersPut::with_next))]
pub(crate) fn put_numbers(block: &mut [u8], at: usize, numbers: &[u64])
    requires { at + 8 * length numbers.now ≤ length block.old }
    ensures numbers { block.new ≡ with_numbers at numbers.now block.old }
    ensures size { length block.new ≡ length block.old }
{
    for (i, number) in numbers.iter().enumerate() {
        put_u64(block, at + 8 * i, *number);
    }
}
