// Numbers of a tree's places.
ghost use Rattle.std.specs.Prelude.{ℕ, ◌≡◌, ◌↔◌, ◌+◌, ◌*◌, ◌-◌, ◌/◌, ◌^◌, ◌<◌, ◌≤◌, IfSome, IfNone, IsTrue, length};
ghost use Rattle.gfs2_layout.specs.Bytes.{u64_at};
ghost use Rattle.gfs2_layout.specs.Inode.{fan as fan_of, span as span_of};

/// Where the pointers of an indirect block begin.
pub(crate) const IN_BLOCK: usize = 24;

/// The number in the eight bytes at a place, the highest byte first, as pointers stand in blocks.
#[tactic(auto, unfolding(gfs2_layout::specs::Bytes::number_at))]
pub fn number_at(bytes: &[u8], at: usize) -> u64
    requires { at + 8 ≤ length bytes.now }
    ensures { result ≡ u64_at at bytes.now }
{
    let mut part = [0u8; 8];
    part.copy_from_slice(&bytes[at..at + 8]);
    u64::from_be_bytes(part)
}

/// How many pointers a block of so many bytes has from byte `start` on.
pub(crate) fn fan(size: usize, start: usize) -> u64
    requires { start ≤ size }
    ensures { result ≡ fan_of size start }
{
    ((size - start) / 8) as u64
}

/// How many blocks of content stand below a block, so many levels above content, in a tree of blocks of so many bytes; None from 2^64 on.
pub fn span(size: usize, level: u16) -> Option<u64>
    requires { 512 ≤ size }
    ensures some { IfSome result (λ s. s ≡ span_of size level) }
    ensures none { IfNone result (2 ^ 64 ≤ span_of size level) }
{
    let fan = fan(size, IN_BLOCK);
    let mut span: u64 = 1;
    for _above in 0..level {
        match span.checked_mul(fan) {
            Some(more) => span = more,
            None => return None,
        }
    }
    Some(span)
}

/// The place so many levels above place `index` of a level, in a tree of blocks of so many bytes.
pub fn place_over(size: usize, up: u16, index: u64) -> u64
    requires { 512 ≤ size }
    ensures { result ≡ index / span_of size up }
{
    match span(size, up) {
        Some(span) => index / span,
        None => 0,
    }
}

/// Whether the content below a place of a level begins before block `count` of the content, in a tree of blocks of so many bytes.
pub fn begins_before(size: usize, level: u16, place: u64, count: u64) -> bool
    requires { 512 ≤ size }
    ensures { IsTrue result ↔ (place * span_of size level < count) }
{
    if place == 0 {
        return 0 < count;
    }
    let Some(span) = span(size, level) else {
        return false;
    };
    match place.checked_mul(span) {
        Some(first) => first < count,
        None => false,
    }
}
