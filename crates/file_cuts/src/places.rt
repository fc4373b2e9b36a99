// Places of a level behind a hole.
ghost use Rattle.std.specs.Prelude.{ℕ, ◌≡◌, ◌-◌, ◌/◌, ◌^◌, ◌<◌, ◌≤◌};
ghost use Rattle.gfs2_layout.specs.Inode.{span as span_of};

use file_walks::span;

/// The first place of a level that doesn't stand below the same hole as this one: the hole is a pointer so many levels up. 2^64 - 1 where
/// there is none.
pub(crate) fn behind_hole(size: usize, up: u16, place: u64) -> u64
    requires large { 512 ≤ size }
    requires low { place < 2 ^ 64 - 1 }
    ensures later { place < result }
    ensures under { (j : ℕ) → place ≤ j → j < result → j / span_of size up ≡ place / span_of size up }
{
    let Some(span) = span(size, up) else {
        return u64::MAX;
    };
    match (place / span + 1).checked_mul(span) {
        Some(next) => next,
        None => u64::MAX,
    }
}
