// Numbers in bytes.
ghost use Rattle.std.specs.Prelude.{◌≡◌, ◌+◌, ◌*◌, ◌^◌, ◌<◌, ◌≤◌, length};
ghost use Rattle.std.specs.Int.{w64};
ghost use Rattle.gfs2_layout.specs.Bytes.{with_number};
ghost use Rattle.table_changes.specs.Setting.{HasNumbersSet};

// A number over the eight bytes at a place.
#[tactic(auto, unfolding(gfs2_layout::specs::Bytes::with_number))]
fn put_number(bytes: &mut [u8], at: usize, number: u64)
    requires { at + 8 ≤ length bytes.old }
    ensures bytes { bytes.new ≡ with_number w64 at number bytes.old }
    ensures width { number < 2 ^ 64 }
{
    bytes[at..at + 8].copy_from_slice(&number.to_be_bytes());
}

/// A number over so many neighbouring ones of eight bytes from a place on.
pub(crate) fn set_numbers(bytes: &mut [u8], start: usize, count: usize, number: u64)
    requires { start + 8 * count ≤ length bytes.old }
    ensures { HasNumbersSet bytes.old bytes.new start count number }
{
    for k in 0..count {
        put_number(bytes, start + 8 * k, number);
    }
}
