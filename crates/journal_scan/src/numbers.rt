ghost use Rattle.std.specs.Prelude.{◌≡◌, ◌+◌, ◌*◌, ◌<◌, ◌≤◌, ◌↔◌, ◌^◌, ◌++◌, length, IsTrue, OnOk, OnErr};
ghost use Rattle.std.specs.List.{list_all};
ghost use Rattle.log_layout.specs.Chunks.{numbers_at};

use log_layout::u64_at;
use no_memory::NoMemory;

/// Adds so many numbers of eight bytes, which stand one behind the other from a place of the block on.
pub(crate) fn push_numbers(
    into: &mut Vec<u64>,
    block: &[u8],
    at: usize,
    count: usize,
) -> Result<(), NoMemory>
    requires { at + 8 * count ≤ length block.now }
    ensures { OnOk result (into.new.items ≡ into.old.items ++ numbers_at at 8 count block.now) }
{
    for i in 0..count {
        into.push(u64_at(block, at + 8 * i))?;
    }
    Ok(())
}
