ghost use Rattle.std.specs.Prelude.{◌≡◌, ◌+◌, ◌^◌, ◌<◌, ◌≤◌, length};
ghost use Rattle.gfs2_layout.specs.Bytes.{u32_at as number_32, u64_at as number_64, with_number};
ghost use Rattle.std.specs.Int.{w32, w64};

/// The number in the four bytes from a place on.
#[tactic(auto, unfolding(gfs2_layout::specs::Bytes::number_at))]
pub fn u32_at(bytes: &[u8], at: usize) -> u32
    requires { at + 4 ≤ length bytes.now }
    ensures { result ≡ number_32 at bytes.now }
{
    let part = &bytes[at..at + 4];
    u32::from_be_bytes([part[0], part[1], part[2], part[3]])
}

/// The number in the eight bytes from a place on.
#[tactic(auto, unfolding(gfs2_layout::specs::Bytes::number_at))]
pub fn u64_at(bytes: &[u8], at: usize) -> u64
    requires { at + 8 ≤ length bytes.now }
    ensures { result ≡ number_64 at bytes.now }
{
    let mut part = [0u8; 8];
    part.copy_from_slice(&bytes[at..at + 8]);
    u64::from_be_bytes(part)
}

/// Puts a number over the four bytes from a place on.
#[tactic(auto, unfolding(gfs2_layout::specs::Bytes::with_number))]
pub fn put_u32(bytes: &mut [u8], at: usize, number: u32)
    requires { at + 4 ≤ length bytes.old }
    ensures bytes { bytes.new ≡ with_number w32 at number bytes.old }
    ensures width { number < 2 ^ 32 }
{
    bytes[at..at + 4].copy_from_slice(&number.to_be_bytes());
}

/// Puts a number over the eight bytes from a place on.
#[tactic(auto, unfolding(gfs2_layout::specs::Bytes::with_number))]
pub fn put_u64(bytes: &mut [u8], at: usize, number: u64)
    requires { at + 8 ≤ length bytes.old }
    ensures bytes { bytes.new ≡ with_number w64 at number bytes.old }
    ensures width { number < 2 ^ 64 }
{
    bytes[at..at + 8].copy_from_slice(&number.to_be_bytes());
}
