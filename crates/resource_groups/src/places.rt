// Where the bits of a group's data blocks stand.
ghost use Rattle.std.specs.Prelude.{◌≡◌, ◌+◌, ◌^◌, ◌<◌, ◌≤◌};
ghost use Rattle.resource_groups.specs.Shown.{first_place as first_in, HasBitsIn};

/// How many bytes stand before the bits in a group's first block and in each further one.
pub(crate) const IN_HEADER: usize = 128;

pub(crate) const IN_BITMAP: usize = 24;

/// The first place whose bits stand in block `part` of a group, from 0.
pub(crate) fn first_place(size: u32, part: u32) -> u64
    requires least { 512 ≤ size }
    requires most { size ≤ 4096 }
    ensures { result ≡ first_in size part }
{
    if part == 0 {
        return 0;
    }
    4 * (u64::from(size - 128) + u64::from(part - 1) * u64::from(size - 24))
}

/// The block of a group, from 0, in which the bits of a place stand.
pub(crate) fn part_of(size: u32, place: u32) -> u32
    requires least { 512 ≤ size }
    requires most { size ≤ 4096 }
    ensures { HasBitsIn size place result }
{
    let first = 4 * (size - 128);
    if place < first {
        return 0;
    }
    1 + (place - first) / (4 * (size - 24))
}
