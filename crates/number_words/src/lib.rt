//! The number that a word writes.
#![tactic(auto)]

ghost use Rattle.std.specs.Prelude.{◌≡◌, ◌+◌, ◌*◌, ◌^◌, ◌<◌, ◌≤◌, ◌↔◌, IsTrue, IfSome, IfNone, length, slice_index};
ghost use Rattle.std.specs.Char.{digit_value};
ghost use Rattle.std.specs.Option.{SomeIff};
ghost use Rattle.number_words.specs.Numbers.{IsNumber, number_in};

// The value of a decimal digit.
fn digit_of(byte: u8) -> Option<u8>
    ensures digit { IfSome result (λ digit. (48 ≤ byte) × (byte ≤ 57) × (digit ≡ digit_value byte)) }
    ensures other { IfNone result ((48 ≤ byte) × (byte ≤ 57) → ⊥) }
{
    match byte {
        b'0'..=b'9' => Some(byte - b'0'),
        _ => None,
    }
}

// The number with one more digit at its end, if it is below 2^64.
fn with_digit(value: u64, digit: u8) -> Option<u64>
    ensures { SomeIff result (value * 10 + digit < 2 ^ 64) (value * 10 + digit) }
{
    value.checked_mul(10)?.checked_add(u64::from(digit))
}

// Whether a zero stands before further bytes.
fn has_leading_zero(word: &[u8]) -> bool
    ensures { IsTrue result ↔ ((1 < length word.now) × (slice_index word.now 0 ≡ 48)) }
{
    word.len() > 1 && word[0] == b'0'
}

// The number that a word writes in decimal, without a leading zero, if it is below 2^64.
fn decimal_value(word: &[u8]) -> Option<u64>
    ensures { IsNumber word.now result }
{
    if word.is_empty() {
        return None;
    }
    if has_leading_zero(word) {
        return None;
    }
    let mut value = 0u64;
    for byte in word {
        let Some(digit) = digit_of(*byte) else {
            return None;
        };
        let Some(next) = with_digit(value, digit) else {
            return None;
        };
        value = next;
    }
    Some(value)
}

/// The number that a word writes in decimal, without a sign or a leading zero, if it is at least `low` and at most
/// `high`. It goes over the word once.
pub fn number_word(word: &[u8], low: u64, high: u64) -> Option<u64>
    ensures { result ≡ number_in low high word.now }
{
    let value = decimal_value(word)?;
    if low <= value && value <= high {
        Some(value)
    } else {
        None
    }
}
