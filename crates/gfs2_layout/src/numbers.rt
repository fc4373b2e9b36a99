ghost use Rattle.std.specs.Prelude.{◌≡◌, ◌+◌, ◌^◌, ◌<◌, ◌≤◌, length};
ghost use Rattle.gfs2_layout.specs.Bytes.{u16_at as number_16, u32_at as number_32, u64_at as number_64, put_at, slice, with_number};
ghost use Rattle.gfs2_layout.specs.Writing.{zeros_from};
ghost use Rattle.std.specs.Int.{w16, w32, w64};

#[tactic(auto, unfolding(crate::specs::Bytes::number_at))]
pub(crate) fn u16_at(bytes: &[u8], at: usize) -> u16
    requires { at + 2 ≤ length bytes.now }
    ensures { result ≡ number_16 at bytes.now }
{
    let part = &bytes[at..at + 2];
    u16::from_be_bytes([part[0], part[1]])
}

#[tactic(auto, unfolding(crate::specs::Bytes::number_at))]
pub(crate) fn u32_at(bytes: &[u8], at: usize) -> u32
    requires { at + 4 ≤ length bytes.now }
    ensures { result ≡ number_32 at bytes.now }
{
    let part = &bytes[at..at + 4];
    u32::from_be_bytes([part[0], part[1], part[2], part[3]])
}

#[tactic(auto, unfolding(crate::specs::Bytes::number_at))]
pub(crate) fn u64_at(bytes: &[u8], at: usize) -> u64
    requires { at + 8 ≤ length bytes.now }
    ensures { result ≡ number_64 at bytes.now }
{
    let mut part = [0u8; 8];
    part.copy_from_slice(&bytes[at..at + 8]);
    u64::from_be_bytes(part)
}

/// The bytes from a place on.
pub(crate) fn bytes_at<const N: usize>(bytes: &[u8], at: usize) -> [u8; N]
    requires { at + N ≤ length bytes.now }
    ensures { result ≡ slice at N bytes.now }
{
    let mut part = [0u8; N];
    part.copy_from_slice(&bytes[at..at + N]);
    part
}

#[tactic(auto, unfolding(crate::specs::Bytes::with_number))]
pub(crate) fn put_u16(bytes: &mut [u8], at: usize, number: u16)
    requires { at + 2 ≤ length bytes.old }
    ensures bytes { bytes.new ≡ with_number w16 at number bytes.old }
    ensures width { number < 2 ^ 16 }
{
    bytes[at..at + 2].copy_from_slice(&number.to_be_bytes());
}

#[tactic(auto, unfolding(crate::specs::Bytes::with_number))]
pub(crate) fn put_u32(bytes: &mut [u8], at: usize, number: u32)
    requires { at + 4 ≤ length bytes.old }
    ensures bytes { bytes.new ≡ with_number w32 at number bytes.old }
    ensures width { number < 2 ^ 32 }
{
    bytes[at..at + 4].copy_from_slice(&number.to_be_bytes());
}

#[tactic(auto, unfolding(crate::specs::Bytes::with_number))]
pub(crate) fn put_u64(bytes: &mut [u8], at: usize, number: u64)
    requires { at + 8 ≤ length bytes.old }
    ensures bytes { bytes.new ≡ with_number w64 at number bytes.old }
    ensures width { number < 2 ^ 64 }
{
    bytes[at..at + 8].copy_from_slice(&number.to_be_bytes());
}

/// Bytes over those from a place on.
pub(crate) fn put_bytes(bytes: &mut [u8], at: usize, part: &[u8])
    requires { at + length part.now ≤ length bytes.old }
    ensures { bytes.new ≡ put_at at part.now bytes.old }
{
    bytes[at..at + part.len()].copy_from_slice(part);
}

/// Zeros from a place on.
pub(crate) fn put_zeros(bytes: &mut [u8], at: usize)
    requires { at ≤ length bytes.old }
    ensures { bytes.new ≡ zeros_from at bytes.old }
{
    bytes[at..].fill(0);
}
