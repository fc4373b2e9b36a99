// Which places of a file's tree stand over bytes of its content.
ghost use Rattle.std.specs.Prelude.{ℕ, ◌≡◌, ◌↔◌, ◌+◌, ◌-◌, ◌*◌, ◌^◌, ◌<◌, ◌≤◌, true, IfSome, IfNone, IsTrue, length, count_by, not};
ghost use Rattle.std.specs.List.{range_with_len};
ghost use Rattle.gfs2_layout.specs.Bytes.{u64_at};
ghost use Rattle.gfs2_layout.specs.Inode.{fan as fan_of, span as span_of};
ghost use Rattle.gfs2_layout.specs.Structures.{dinode_length};
ghost use Rattle.growth_laws.specs.Need.{capacity, is_over, raised_to};

use file_walks::{number_at, span};
use gfs2_layout::DINODE_LENGTH;

/// How many bytes of content stand below a place of a level; None from 2^64 on.
pub(crate) fn reach(size: usize, level: u16) -> Option<u64>
    requires large { 512 ≤ size }
    requires small { size ≤ 4096 }
    ensures some { IfSome result (λ r. r ≡ span_of size level * size) }
    ensures none { IfNone result (2 ^ 64 ≤ span_of size level * size) }
{
    span(size, level)?.checked_mul(size as u64)
}

// How many bytes of content a file of this height may have; None from 2^64 on.
fn capacity_of(size: usize, height: u16) -> Option<u64>
    requires large { 512 ≤ size }
    requires small { size ≤ 4096 }
    ensures some { IfSome result (λ c. c ≡ capacity size height) }
    ensures none { IfNone result (2 ^ 64 ≤ capacity size height) }
{
    if height == 0 {
        return Some((size - DINODE_LENGTH) as u64);
    }
    let fan = ((size - DINODE_LENGTH) / 8) as u64;
    let reach = reach(size, height - 1)?;
    match reach.checked_mul(fan) {
        Some(capacity) => Some(capacity),
        None => None,
    }
}

/// Whether a file of this height may have so many bytes of content, in blocks of `size` bytes.
pub fn has_room(size: usize, height: u16, bytes: u64) -> bool
    requires large { 512 ≤ size }
    requires small { size ≤ 4096 }
    ensures { IsTrue result ↔ (bytes ≤ capacity size height) }
{
    match capacity_of(size, height) {
        Some(capacity) => bytes <= capacity,
        None => true,
    }
}

/// The height of a file of this height, in blocks of `size` bytes, that gets so many bytes of content: 10 at most, unless it is higher.
pub fn height_for(size: usize, height: u16, bytes: u64) -> u16
    requires large { 512 ≤ size }
    requires small { size ≤ 4096 }
    ensures value { result ≡ raised_to size height bytes (10 - height) }
    ensures least { height ≤ result }
    ensures most { height ≤ 10 → result ≤ 10 }
{
    let mut high = height;
    while high < 10 && !has_room(size, high, bytes) {
        high += 1;
    }
    high
}

/// The places of a level over the bytes of content from `at` up to `end`: the first, and the one behind the last.
pub(crate) fn places_over(size: usize, level: u16, at: u64, end: u64) -> (u64, u64)
    requires large { 512 ≤ size }
    requires small { size ≤ 4096 }
    ensures over { (j : ℕ) → (is_over size at end level j ≡ true) ↔ ((result.0 ≤ j) × (j < result.1)) }
    ensures order { result.0 ≤ result.1 }
    ensures few { result.1 ≤ end }
{
    if at >= end {
        return (0, 0);
    }
    match reach(size, level) {
        Some(reach) => (at / reach, end.div_ceil(reach)),
        None => (0, 1),
    }
}

/// Whether a dinode has a pointer that leads somewhere.
pub(crate) fn has_pointer(bytes: &[u8]) -> bool
    requires large { 512 ≤ length bytes.now }
    requires small { length bytes.now ≤ 4096 }
    ensures { IsTrue result ↔ ((k : ℕ) × (k < fan_of (length bytes.now) dinode_length) × (¬ (u64_at (dinode_length + 8 * k) bytes.now ≡ 0))) }
{
    for k in 0..(bytes.len() - DINODE_LENGTH) / 8 {
        if number_at(bytes, DINODE_LENGTH + 8 * k) != 0 {
            return true;
        }
    }
    false
}
