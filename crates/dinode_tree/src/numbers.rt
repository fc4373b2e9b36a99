ghost use Rattle.std.specs.Prelude.{◌≡◌, ◌+◌, ◌*◌, ◌-◌, ◌/◌, ◌%◌, ◌^◌, ◌≤◌, IfSome, IfNone, length};
ghost use Rattle.gfs2_layout.specs.Bytes.{u64_at};
ghost use Rattle.gfs2_layout.specs.Inode.{fan as fan_of, span as span_of};

/// The number in the eight bytes at a place.
#[tactic(auto, unfolding(gfs2_layout::specs::Bytes::number_at))]
pub(crate) fn number_at(bytes: &[u8], at: usize) -> u64
    requires { at + 8 ≤ length bytes.now }
    ensures { result ≡ u64_at at bytes.now }
{
    let mut part = [0u8; 8];
    part.copy_from_slice(&bytes[at..at + 8]);
    u64::from_be_bytes(part)
}

/// How many pointers a block of so many bytes has from byte `start` on.
pub(crate) fn fan(size: usize, start: usize) -> u64
    requires { start ≤ size }
    ensures { result ≡ fan_of size start }
{
    ((size - start) / 8) as u64
}

// How many blocks of content a block leads to that stands so many levels above content; None from 2^64 on.
fn span(size: usize, level: u16) -> Option<u64>
    requires { 512 ≤ size }
    ensures some { IfSome result (λ s. s ≡ span_of size level) }
    ensures none { IfNone result (2 ^ 64 ≤ span_of size level) }
{
    let fan = fan(size, 24);
    let mut span: u64 = 1;
    for _above in 0..level {
        match span.checked_mul(fan) {
            Some(more) => span = more,
            None => return None,
        }
    }
    Some(span)
}

/// Which of the pointers to blocks so many levels above content leads to the block of content with this index, and which
/// index it has among those below that one.
pub(crate) fn split(size: usize, level: u16, index: u64) -> (u64, u64)
    requires { 512 ≤ size }
    ensures pointer { result.0 ≡ index / span_of size level }
    ensures left { result.1 ≡ index % span_of size level }
{
    match span(size, level) {
        Some(span) => (index / span, index % span),
        None => (0, index),
    }
}

/// The index of the first block of content below pointer k of a block, whose first pointer leads to blocks so many levels
/// above content and to the block of content with index `first`; None from 2^64 on.
pub(crate) fn index_of(size: usize, level: u16, first: u64, k: u64) -> Option<u64>
    requires { 512 ≤ size }
    ensures some { IfSome result (λ i. i ≡ first + k * span_of size level) }
    ensures none { IfNone result (2 ^ 64 ≤ first + k * span_of size level) }
{
    if k == 0 {
        return Some(first);
    }
    let span = span(size, level)?;
    let above = k.checked_mul(span)?;
    first.checked_add(above)
}
