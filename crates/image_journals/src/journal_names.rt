// The names of journals.
ghost use Rattle.std.specs.Prelude.{ℕ, ◌≡◌, ◌<◌, ◌↔◌, ◌&&◌, IsTrue, length, nat_le, slice_index};
ghost use Rattle.std.specs.List.{list_all};
ghost use Rattle.std.specs.Fmt.{decimal};
ghost use Rattle.image_model.specs.Journals.{journal_name};

// Whether these bytes begin with a zero, and are more than that one and fewer than are printed.
fn is_padded(bytes: &[u8]) -> bool
    ensures { IsTrue result ↔ ((1 < length bytes.now) × (length bytes.now < 64) × (slice_index bytes.now 0 ≡ 48)) }
{
    bytes.len() > 1 && bytes.len() < 64 && bytes[0] == b'0'
}

// Whether these are decimal digits.
fn are_digits(bytes: &[u8]) -> bool
    ensures { result ≡ list_all (λ b. nat_le 48 b && nat_le b 57) bytes.now }
{
    bytes.iter().all(|byte| b'0' <= *byte && *byte <= b'9')
}

// Whether these bytes are what is printed of some number: decimal digits, without a zero before others. No more than 64 are printed: of a number that has more the last 64, whatever they begin
// with.
fn is_decimal(bytes: &[u8]) -> bool
    ensures { IsTrue result ↔ ((n : ℕ) × (bytes.now ≡ decimal n)) }
{
    if bytes.is_empty() {
        return false;
    }
    if bytes.len() > 64 {
        return false;
    }
    if is_padded(bytes) {
        return false;
    }
    are_digits(bytes)
}

/// Whether a name is that of some journal.
pub(crate) fn is_journal_name(name: &[u8]) -> bool
    ensures { IsTrue result ↔ ((j : ℕ) × (name.now ≡ journal_name j)) }
{
    match name.strip_prefix(b"journal".as_slice()) {
        Some(number) => is_decimal(number),
        None => false,
    }
}
