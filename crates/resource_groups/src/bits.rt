// The bits in one block of a group: two for each data block, four blocks to a byte.
ghost use Rattle.std.specs.Prelude.{◌≡◌, ◌*◌, ◌≤◌, ◌∷◌, [], length, MatchOption};
ghost use Rattle.gfs2_layout.specs.Groups.{count_of};
ghost use Rattle.resource_groups.specs.Finding.{NoneFrom, IsFirstFree};
ghost use Rattle.resource_groups.specs.Counting.{states_upto};

use gfs2_layout::state_at;

// How many of the four blocks of a byte are free.
fn free_in_byte(byte: u8) -> u32
    ensures value { result ≡ count_of 0 (states_upto (byte ∷ []) 4) }
    ensures most { result ≤ 4 }
{
    u32::from(byte % 4 == 0)
        + u32::from(byte / 4 % 4 == 0)
        + u32::from(byte / 16 % 4 == 0)
        + u32::from(byte / 64 == 0)
}

/// The first place of a free block, from one place up to another. It takes one step over four blocks that are taken.
pub(crate) fn find_in(bits: &[u8], from: u32, end: u32) -> Option<u32>
    requires inside { end ≤ 4 * length bits.now }
    requires few { length bits.now ≤ 4096 }
    ensures { MatchOption result (NoneFrom bits.now from end) (λ i. IsFirstFree bits.now from end i) }
{
    let mut place = from;
    while place < end {
        if free_in_byte(bits[(place / 4) as usize]) == 0 {
            place = (place / 4 + 1) * 4;
        } else if state_at(bits, place) == 0 {
            return Some(place);
        } else {
            place += 1;
        }
    }
    None
}

/// How many blocks are free of those that whole bytes tell of.
pub(crate) fn count_in(bits: &[u8]) -> u32
    requires { length bits.now ≤ 4096 }
    ensures value { result ≡ count_of 0 (states_upto bits.now (4 * length bits.now)) }
    ensures most { result ≤ 4 * length bits.now }
{
    let mut free = 0;
    for byte in bits {
        free += free_in_byte(*byte);
    }
    free
}
