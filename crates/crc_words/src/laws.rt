//! What the definitions of the checksums mean, as laws of every text. The functions do nothing: their contracts are the
//! laws.
ghost use Rattle.std.specs.Prelude.{◌≡◌, ◌≢◌, ◌↔◌, ℕ, ◌^◌, ◌<◌, ◌≤◌, ◌++◌, List, length, bit_xor, codes};
ghost use Rattle.std.specs.List.{All};
ghost use Rattle.crc_words.specs.Burst.{DifferInBurst};
ghost use Rattle.crc_words.specs.Division.{LeavesRest};
ghost use Rattle.crc_words.specs.Remainder.{remainder, crc32_of, crc32c_raw_of, crc32_polynomial, crc32c_polynomial, all_ones};

/// A checksum can be taken over pieces: that of a whole text follows from that of its first part and from the rest.
pub fn checksums_go_on_over_pieces()
    ensures remainder { (polynomial state : ℕ) (first second : List ℕ)
        → remainder polynomial state (first ++ second)
        ≡ remainder polynomial (remainder polynomial state first) second }
    ensures crc32 { (first second : List ℕ) → crc32_of (first ++ second)
        ≡ bit_xor (remainder crc32_polynomial (bit_xor (crc32_of first) all_ones) second) all_ones }
    ensures crc32c_raw { (first second : List ℕ) → crc32c_raw_of (first ++ second)
        ≡ remainder crc32c_polynomial (crc32c_raw_of first) second }
{}

/// A burst of at most 32 wrong bits is always found: the checksums differ. So it is with every polynomial of 32 bits
/// whose lowest power has the coefficient 1.
pub fn bursts_change_checksums()
    ensures remainder { (polynomial state : ℕ) (sent received : List ℕ)
        → 2 ^ 31 ≤ polynomial → polynomial < 2 ^ 32 → DifferInBurst sent received
        → remainder polynomial state sent ≢ remainder polynomial state received }
    ensures crc32 { (sent received : List ℕ) → DifferInBurst sent received
        → crc32_of sent ≢ crc32_of received }
    ensures crc32c_raw { (sent received : List ℕ) → DifferInBurst sent received
        → crc32c_raw_of sent ≢ crc32c_raw_of received }
{}

/// Up to four bytes in a row that were changed are such a burst.
pub fn changed_bytes_are_a_burst()
    ensures { (before old new after : List ℕ) → length old ≡ length new → length old ≤ 4
        → All (λ byte. byte < 256) old → All (λ byte. byte < 256) new → old ≢ new
        → DifferInBurst (before ++ (old ++ after)) (before ++ (new ++ after)) }
{}

/// The remainder is the rest of a division of polynomials, and no other number is.
pub fn remainders_are_rests_of_division()
    ensures { (polynomial state rest : ℕ) (bytes : List ℕ)
        → LeavesRest polynomial state bytes rest ↔ (rest ≡ remainder polynomial state bytes) }
{}

/// The definitions have the check values that are published of these codes (of CRC-32C with the inversion undone).
pub fn checksums_have_known_values()
    ensures crc32 { crc32_of (codes "123456789") ≡ 0xCBF4_3926 }
    ensures crc32c_raw { bit_xor (crc32c_raw_of (codes "123456789")) all_ones ≡ 0xE306_9283 }
{}

/// A CRC-32 of bytes has 32 bits.
pub fn checksums_have_32_bits()
    ensures { (bytes : List ℕ) → All (λ byte. byte < 256) bytes → crc32_of bytes < 2 ^ 32 }
{}
