//! The division as it is defined, one bit at a time.
ghost use Rattle.std.specs.Prelude.{◌≡◌};
ghost use Rattle.crc_words.specs.Remainder.{after_bit, after_bits, remainder};

#[tactic(auto, unfolding(crate::specs::Remainder::after_bit))]
fn after_bit(polynomial: u32, state: u32) -> u32
    ensures { result ≡ after_bit polynomial state }
{
    if state % 2 == 1 {
        state / 2 ^ polynomial
    } else {
        state / 2
    }
}

fn after_eight_bits(polynomial: u32, mut state: u32) -> u32
    ensures { result ≡ after_bits polynomial 8 state }
{
    for _ in 0..8u8 {
        state = after_bit(polynomial, state);
    }
    state
}

/// The remainder after the bytes, from a state and by a polynomial in reflected form (the coefficient of the highest
/// power in the lowest bit). It takes eight steps a byte and is there for comparison with the fast bodies.
pub fn remainder_bit_by_bit(polynomial: u32, mut state: u32, bytes: &[u8]) -> u32
    ensures { result ≡ remainder polynomial state bytes.now }
{
    for byte in bytes {
        state = after_eight_bits(polynomial, state ^ u32::from(*byte));
    }
    state
}
