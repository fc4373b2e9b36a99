//! The bitmap of a resource group, behind the header of the group's first block and of each further one: two
//! bits for each data block, as Linux's gfs2_ondisk.h has them (`GFS2_BLKST_FREE` and the like).
ghost use Rattle.std.specs.Prelude.{◌≡◌, ◌≢◌, ℕ, ◌+◌, ◌*◌, ◌/◌, ◌%◌, ◌^◌, ◌<◌, ◌∷◌, [], length};
ghost use Rattle.std.specs.List.{All};
ghost use Rattle.gfs2_layout.specs.Bitmap.{state_at as state_in, with_state, byte_with, packed};

// The state at one of the four places of a byte.
fn state_of(byte: u8, place: u32) -> u8
    requires { place < 4 }
    ensures value { result ≡ (byte / 4 ^ place) % 4 }
    ensures state { result < 4 }
{
    (byte >> (2 * place)) & 3
}

// A byte with another state at one of its four places: the old one is taken out, and the new one put in.
fn byte_with_state(byte: u8, place: u32, state: u8) -> u8
    requires place { place < 4 }
    requires state { state < 4 }
    ensures { result ≡ byte_with byte place state }
{
    let shift = 2 * place;
    let old = state_of(byte, place);
    byte - (old << shift) + (state << shift)
}

/// The state of the block at a place, counted from the first of those that the bitmap tells of: 0 free, 1
/// used, 2 an unlinked dinode, 3 a dinode.
pub fn state_at(bitmap: &[u8], place: u32) -> u8
    requires { place < 4 * length bitmap.now }
    ensures value { result ≡ state_in bitmap.now place }
    ensures state { result < 4 }
{
    state_of(bitmap[(place / 4) as usize], place % 4)
}

/// Puts the state of the block at a place. All other states stay.
pub fn put_state(bitmap: &mut [u8], place: u32, state: u8)
    requires inside { place < 4 * length bitmap.old }
    requires state { state < 4 }
    ensures bytes { bitmap.new ≡ with_state bitmap.old place state }
    ensures put { state_in bitmap.new place ≡ state }
    ensures others { (i : ℕ) → i ≢ place → state_in bitmap.new i ≡ state_in bitmap.old i }
{
    let at = (place / 4) as usize;
    bitmap[at] = byte_with_state(bitmap[at], place % 4, state);
}

/// The byte of four states, the first in its lowest bits.
pub fn pack(states: [u8; 4]) -> u8
    requires { All (λ s. s < 4) states }
    ensures { packed states ≡ result ∷ [] }
{
    let [first, second, third, fourth] = states;
    first + 4 * second + 16 * third + 64 * fourth
}
